// The step checker: the premise checker calls the step checker, which calls it for each premise; the step lines left
// fall.
#![tactic(auto)]

ghost use Rattle.std.specs.Prelude.{◌≤◌};
ghost use Rattle.steps.specs.Instance.{instance_row};
ghost use Rattle.steps.specs.Check.{check_of};
ghost use Rattle.store_cells.specs.Layout.{row_at};
ghost use Rattle.step_rows.specs.LabelRows.{label_at, put_label};
ghost use Rattle.step_rows.specs.StepRows.{max_steps, steps_from};
ghost use Rattle.step_checker.specs.Cycle.{Fits, PremiseChecked, StepChecked, Answers};

use ledger::Refusal;
use step_rows::{LabelRows, StepRows};
use steps::{Plan, Sequent};
use store::Store;

// A sequent that closes: the step lines left, the next label.
#[derive(Clone, Copy)]
struct Closed {
    left: u32,
    next: u32,
}

// Where the steps of a booking are stopped: the refusal's number, and the step that it names.
#[derive(Clone, Copy)]
pub struct Stop {
    pub refusal: u32,
    pub step: u32,
}

// Judges a sequent by the first of the `left` step lines that are not read yet, of `total`.
#[cycle(check_premise_check_step)]
fn check_premise(
    store: &Store,
    steps: &StepRows,
    table: &mut LabelRows,
    total: u32,
    left: u32,
    next: u32,
    q: Sequent,
) -> Result<Closed, Stop>
    requires { Fits total left }
    ensures { PremiseChecked (record { store = store.entry.now; steps = steps.now; total = total })
        left next table.old q result table.new }
{
    if left == 0 {
        return Err(Stop {
            refusal: Refusal::StepsEndApart as u32,
            step: total + 1,
        });
    }
    let plan = step_dispatch::rule(store, steps, table, total - left, q);
    check_step(
        store,
        steps,
        table,
        total,
        left - 1,
        next,
        q.unrestricted,
        plan,
    )
}

// Follows the plan of a step with `left` lines after it, at a sequent with the unrestricted labels r.
#[cycle(check_premise_check_step)]
fn check_step(
    store: &Store,
    steps: &StepRows,
    table: &mut LabelRows,
    total: u32,
    left: u32,
    next: u32,
    r: u64,
    plan: Plan,
) -> Result<Closed, Stop>
    requires { Fits total left }
    ensures { StepChecked (record { store = store.entry.now; steps = steps.now; total = total })
        left next table.old r plan result table.new }
{
    let n = total - left;
    let no_label = Stop {
        refusal: Refusal::NoLabelLeft as u32,
        step: n,
    };
    match plan {
        Plan::Refused => Err(Stop {
            refusal: Refusal::StepBreaksRule as u32,
            step: n,
        }),
        Plan::Closed => Ok(Closed { left, next }),
        Plan::One(p) => {
            let Some((q, free)) = step_premises::begin(table, next, r, p) else {
                return Err(no_label);
            };
            check_premise(store, steps, table, total, left, free, q)
        }
        Plan::Two(p, p2) => {
            // one variable for both premises: a step's frame has one place for it
            let mut begun = step_premises::begin(table, next, r, p);
            let Some((q, free)) = begun else {
                return Err(no_label);
            };
            let first = check_premise(store, steps, table, total, left, free, q)?;
            begun = step_premises::begin(table, first.next, r, p2);
            let Some((q2, free2)) = begun else {
                return Err(no_label);
            };
            check_premise(store, steps, table, total, first.left, free2, q2)
        }
    }
}

// All step lines of a booking, from the sequent q and the next label: no line may follow the close.
pub fn check(
    store: &Store,
    steps: &StepRows,
    table: &mut LabelRows,
    total: u32,
    q: Sequent,
    next: u32,
) -> Result<(), Stop>
    requires { total ≤ max_steps }
    ensures { Answers (check_of (instance_row (row_at store.now)) label_at put_label total
        (steps_from steps.now 0 total) table.old next q) result table.new }
{
    let closed = check_premise(store, steps, table, total, total, next, q)?;
    if closed.left == 0 {
        return Ok(());
    }
    Err(Stop {
        refusal: Refusal::StepsEndApart as u32,
        step: total - closed.left + 1,
    })
}
