// What a premise takes as it begins: its new labels.
#![tactic(auto)]

ghost use Rattle.std.specs.Prelude.{◌≡◌, ◌+◌, ◌≤◌, ◌<◌, MatchOption};
ghost use Rattle.request.specs.Range.{label_count};
ghost use Rattle.steps.specs.Check.{begin as begin_of};
ghost use Rattle.step_rows.specs.LabelRows.{put_label};
ghost use Rattle.step_premises.specs.Begin.{told_begun, sequent as sequent_of};

use request::ranges;
use step_rows::LabelRows;
use steps::{Fresh, Goal, Premise, Sequent};

// The goal is made anew, case by case: copied whole, its bytes would be read back in other parts than they were
// written.
fn sequent(r: u64, d: u64, g: Goal) -> Sequent
    ensures { result ≡ sequent_of r d g }
{
    match g {
        Goal::Holds(n, i) => Sequent {
            unrestricted: r,
            linear: d,
            goal: Goal::Holds(n, i),
        },
        Goal::Affirms(n, i, k) => Sequent {
            unrestricted: r,
            linear: d,
            goal: Goal::Affirms(n, i, k),
        },
    }
}

// The label after `count` more from `next` on, if there is room for them.
fn room(next: u32, count: u32) -> Option<u32>
    requires { count ≤ 2 }
    ensures { MatchOption result (label_count < next + count)
        (λ after. (after ≡ next + count) × (after ≤ label_count)) }
{
    if next <= ranges::LABELS - count {
        Some(next + count)
    } else {
        None
    }
}

// The premise's sequent and the next label, if there is room for the premise's labels. They go from `next` on; r are
// the unrestricted labels of the step's sequent. It is compiled apart, so that a step's frame stays small.
#[inline(never)]
pub fn begin(table: &mut LabelRows, next: u32, r: u64, p: Premise) -> Option<(Sequent, u32)>
    ensures { told_begun result table.new ≡ begin_of put_label table.old next r p }
{
    let d = p.linear;
    let g = p.goal;
    match p.fresh {
        Fresh::Nothing => {
            let after = room(next, 0)?;
            Some((sequent(r, d, g), after))
        }
        Fresh::Linear(h) => {
            let after = room(next, 1)?;
            table[next as usize] = h;
            Some((sequent(r, labels::insert(d, next), g), after))
        }
        Fresh::Both(h, k) => {
            let after = room(next, 2)?;
            table[next as usize] = h;
            table[next as usize + 1] = k;
            let both = labels::insert(labels::insert(d, next), next + 1);
            Some((sequent(r, both, g), after))
        }
        Fresh::Unrestricted(h) => {
            let after = room(next, 1)?;
            table[next as usize] = h;
            Some((sequent(labels::insert(r, next), d, g), after))
        }
    }
}
