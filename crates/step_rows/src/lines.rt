// Step lines as rows.
ghost use Rattle.std.specs.Prelude.{◌≡◌, ◌<◌};
ghost use Rattle.step_rows.specs.StepRows.{max_steps, share as share_of, step_row_at, put_step_row};

use crate::{STEP_WIDTH, StepRow, StepRows};

// A set of labels is kept as two numbers, high and low, each below this.
pub const HALF: u64 = 4_294_967_296;

// The set of labels of a row.
pub fn share(r: StepRow) -> u64
    ensures { result ≡ share_of r }
{
    (r.high as u64) * HALF + r.low as u64
}

// The row of step k, from 0.
#[tactic(auto, unfolding(crate::specs::StepRows::step_row_at))]
pub fn step_at(steps: &StepRows, k: u32) -> StepRow
    requires { k < max_steps }
    ensures { result ≡ step_row_at steps.now k }
{
    let at = (k as usize) * STEP_WIDTH;
    StepRow {
        op: steps[at],
        label: steps[at + 1],
        high: steps[at + 2],
        low: steps[at + 3],
        interval: intervals::read(steps, at + 4),
    }
}

#[tactic(auto, unfolding(crate::specs::StepRows::put_step_row))]
pub fn put_step(steps: &mut StepRows, k: u32, r: StepRow)
    requires { k < max_steps }
    ensures { steps.new ≡ put_step_row steps.old k r }
{
    let at = (k as usize) * STEP_WIDTH;
    steps[at] = r.op;
    steps[at + 1] = r.label;
    steps[at + 2] = r.high;
    steps[at + 3] = r.low;
    intervals::put(steps, at + 4, r.interval);
}
