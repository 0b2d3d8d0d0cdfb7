// One match over the step's number: what a step does at a sequent, as a plan. Nothing here calls itself. Each arm reads
// the rows of its own: read before the match, numbers that few steps ask for would be fetched at every step.
#![tactic(auto)]

ghost use Rattle.std.specs.Prelude.{◌≡◌, ◌≤◌, ◌<◌};
ghost use Rattle.steps.specs.Instance.{instance_row};
ghost use Rattle.steps.specs.Plans.{plan_of};
ghost use Rattle.store_cells.specs.Layout.{row_at};
ghost use Rattle.step_rows.specs.LabelRows.{label_at};
ghost use Rattle.step_rows.specs.StepRows.{max_steps, step_row_at, step_at, ax_number, ol_number};

use logic::Window;
use request::ranges;
use step_rows::{LabelRows, StepRows, lines, ops};
use step_rules::instance;
use step_rules::left::{self, Left};
use step_rules::right::Right;
use steps::{Goal, Hypothesis, Plan, Sequent};
use store::Store;

// The right steps and `ax`, at the goal of formula n at i.
fn at_right(
    store: &Store,
    steps: &StepRows,
    table: &LabelRows,
    at: u32,
    q: Sequent,
    n: u32,
    i: Window,
) -> Plan
    requires { (at < max_steps) × ((1 ≤ (step_row_at steps.now at).op) × ((step_row_at steps.now at).op ≤ ax_number)) }
    ensures { result ≡ plan_of (instance_row (row_at store.now)) (label_at table.now)
        q.unrestricted q.linear (Goal.Holds n i) (step_at steps.now at) }
{
    let k = instance::formula_of(n);
    let s = lines::step_at(steps, at);
    let right = Right {
        linear: q.linear,
        principal: Hypothesis {
            formula: n,
            interval: i,
        },
    };
    let op = s.op;
    match op {
        ops::OR => right.or(store::row_at(store, k)),
        ops::GR => right.gr(store::row_at(store, k)),
        ops::P1 => {
            let x = store::row_at(store, k);
            right.arm(x, x.a)
        }
        ops::P2 => {
            let x = store::row_at(store, k);
            right.arm(x, x.b)
        }
        ops::BR => right.br(store::row_at(store, k)),
        ops::HR => right.hr(store::row_at(store, k)),
        ops::SR => right.sr(store::row_at(store, k)),
        ops::WR => right.wr(store::row_at(store, k)),
        ops::TR => {
            let t = lines::step_at(steps, at);
            right.tr(store::row_at(store, k), lines::share(t))
        }
        // `ax`, the last of them
        _ => {
            if ranges::LABELS <= s.label {
                return Plan::Refused;
            }
            let h = table[s.label as usize];
            let y = store::row_at(store, instance::formula_of(h.formula));
            right.ax(store::row_at(store, k), s.label, h, y)
        }
    }
}

// The left steps: the label is in D.
fn at_left(store: &Store, steps: &StepRows, table: &LabelRows, at: u32, q: Sequent) -> Plan
    requires { (at < max_steps) × (ol_number ≤ (step_row_at steps.now at).op) }
    ensures { result ≡ plan_of (instance_row (row_at store.now)) (label_at table.now)
        q.unrestricted q.linear q.goal (step_at steps.now at) }
{
    let s = lines::step_at(steps, at);
    if !step_plans::has(q.linear, s.label) {
        return Plan::Refused;
    }
    let held = table[s.label as usize];
    let k = instance::formula_of(held.formula);
    let left = Left {
        linear: labels::remove(q.linear, s.label),
        goal: q.goal,
        principal: held,
    };
    let op = s.op;
    match op {
        ops::OL => left.ol(store::row_at(store, k)),
        ops::W1 => {
            let x = store::row_at(store, k);
            left.arm(x, x.a)
        }
        ops::W2 => {
            let x = store::row_at(store, k);
            left.arm(x, x.b)
        }
        ops::BL => left.bl(store::row_at(store, k)),
        ops::HL => left.hl(store::row_at(store, k)),
        ops::SL => match q.goal {
            Goal::Holds(_, _) => Plan::Refused,
            Goal::Affirms(_, j, p) => left.sl(store::row_at(store, k), p, j),
        },
        ops::TL => left.tl(store::row_at(store, k)),
        ops::PL => left.pl(store::row_at(store, k)),
        ops::AL => {
            let t = lines::step_at(steps, at);
            left.al(store::row_at(store, k), t.low)
        }
        ops::LL => {
            let t = lines::step_at(steps, at);
            left.ll(store::row_at(store, k), lines::share(t), t.interval)
        }
        // `ul`; a row with a number past it reads as `ul` too
        _ => {
            let t = lines::step_at(steps, at);
            left.ul(store::row_at(store, k), t.interval)
        }
    }
}

// What the step in row `at` does at a sequent (document 01: the table of steps). It is compiled apart,
// so that a step's frame stays small.
#[inline(never)]
pub fn rule(store: &Store, steps: &StepRows, table: &LabelRows, at: u32, q: Sequent) -> Plan
    requires { at < max_steps }
    ensures { result ≡ plan_of (instance_row (row_at store.now)) (label_at table.now)
        q.unrestricted q.linear q.goal (step_at steps.now at) }
{
    let s = lines::step_at(steps, at);
    let g = q.goal;
    let op = s.op;
    match op {
        ops::AF => match g {
            Goal::Holds(_, _) => Plan::Refused,
            Goal::Affirms(formula, interval, _) => {
                step_plans::goal(true, q.linear, Hypothesis { formula, interval })
            }
        },
        ops::OR..=ops::AX => match g {
            Goal::Holds(n, i) => at_right(store, steps, table, at, q, n, i),
            Goal::Affirms(_, _, _) => Plan::Refused,
        },
        ops::CP => left::cp(table, q, s.label),
        ops::OL.. => at_left(store, steps, table, at, q),
    }
}
