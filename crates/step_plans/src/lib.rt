// Plans under a test, by what they are made of, and the test for a label. Steps make their plans of these, so that none
// builds a nested value itself. D and the goal stand side by side here alone: these functions put them into a
// `Premise`.
#![tactic(auto)]

ghost use Rattle.std.specs.Prelude.{◌≡◌};
ghost use Rattle.labels.specs.Labels.{member};
ghost use Rattle.steps.specs.Plans.{when as when_of, premise as premise_of};
ghost use Rattle.step_plans.specs.Goals.{proves};

use request::ranges;
use steps::{Fresh, Goal, Hypothesis, Plan, Premise};

// The plan where the test holds.
#[tactic(auto, unfolding(steps::specs::Plans::when))]
pub fn when(b: bool, p: Plan) -> Plan
    ensures { result ≡ when_of b p }
{
    if b { p } else { Plan::Refused }
}

// Label k is in d; no number past the last label is.
#[tactic(auto, using(crate::proofs::PlanTests::no_member))]
pub fn has(d: u64, k: u32) -> bool
    ensures { result ≡ member d k }
{
    k < ranges::LABELS && labels::member(d, k)
}

fn premise(linear: u64, goal: Goal, fresh: Fresh) -> Premise
    ensures { result ≡ premise_of linear goal fresh }
{
    Premise {
        linear,
        goal,
        fresh,
    }
}

// A premise with the goal of the formula at the interval that h has, which takes no label.
fn proving(d: u64, h: Hypothesis) -> Premise
    ensures { result ≡ premise_of d (proves h) Fresh.Nothing }
{
    premise(d, Goal::Holds(h.formula, h.interval), Fresh::Nothing)
}

// A premise with a new linear label, for h.
fn assuming(d: u64, g: Goal, h: Hypothesis) -> Premise
    ensures { result ≡ premise_of d g (Fresh.Linear h) }
{
    premise(d, g, Fresh::Linear(h))
}

// A premise, and what takes new labels in it.
pub fn one(b: bool, d: u64, g: Goal, fresh: Fresh) -> Plan
    ensures { result ≡ when_of b (Plan.One (premise_of d g fresh)) }
{
    when(b, Plan::One(premise(d, g, fresh)))
}

// The goal of the formula at the interval that h has.
pub fn goal(b: bool, d: u64, h: Hypothesis) -> Plan
    ensures { result ≡ when_of b (Plan.One (premise_of d (proves h) Fresh.Nothing)) }
{
    when(b, Plan::One(proving(d, h)))
}

// Such goals of h and of k, from d and from e.
pub fn goals(b: bool, d: u64, h: Hypothesis, e: u64, k: Hypothesis) -> Plan
    ensures { result ≡ when_of b (Plan.Two (premise_of d (proves h) Fresh.Nothing)
        (premise_of e (proves k) Fresh.Nothing)) }
{
    when(b, Plan::Two(proving(d, h), proving(e, k)))
}

// A new linear label, for h.
pub fn linear(b: bool, d: u64, g: Goal, h: Hypothesis) -> Plan
    ensures { result ≡ when_of b (Plan.One (premise_of d g (Fresh.Linear h))) }
{
    when(b, Plan::One(assuming(d, g, h)))
}

// Two new linear labels in one premise, for h and for k.
pub fn both(b: bool, d: u64, g: Goal, h: Hypothesis, k: Hypothesis) -> Plan
    ensures { result ≡ when_of b (Plan.One (premise_of d g (Fresh.Both h k))) }
{
    when(b, Plan::One(premise(d, g, Fresh::Both(h, k))))
}

// A new unrestricted label, for h.
pub fn unrestricted(b: bool, d: u64, g: Goal, h: Hypothesis) -> Plan
    ensures { result ≡ when_of b (Plan.One (premise_of d g (Fresh.Unrestricted h))) }
{
    when(b, Plan::One(premise(d, g, Fresh::Unrestricted(h))))
}

// Two premises, each with a new linear label: for h, for k.
pub fn arms(b: bool, d: u64, g: Goal, h: Hypothesis, k: Hypothesis) -> Plan
    ensures { result ≡ when_of b (Plan.Two (premise_of d g (Fresh.Linear h))
        (premise_of d g (Fresh.Linear k))) }
{
    when(b, Plan::Two(assuming(d, g, h), assuming(d, g, k)))
}

// The goal of h, from s; then the goal g from d, with a new linear label for k.
pub fn applied(b: bool, s: u64, h: Hypothesis, d: u64, g: Goal, k: Hypothesis) -> Plan
    ensures { result ≡ when_of b (Plan.Two (premise_of s (proves h) Fresh.Nothing)
        (premise_of d g (Fresh.Linear k))) }
{
    when(b, Plan::Two(proving(s, h), assuming(d, g, k)))
}
