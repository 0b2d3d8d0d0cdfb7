// `cp`, and the left steps.
#![tactic(auto, unfolding(steps::specs::Plans::when))]

ghost use Rattle.std.specs.Prelude.{◌≡◌, ◌&&◌, eqb, leb};
ghost use Rattle.logic.specs.Interval.{contains};
ghost use Rattle.logic.specs.Formula.{last_holder};
ghost use Rattle.labels.specs.Labels.{member, subset, without};
ghost use Rattle.steps.specs.Instance.{◌for◌};
ghost use Rattle.steps.specs.Plans.{when, is, premise, ◌over◌};
ghost use Rattle.step_plans.specs.Goals.{proves};
ghost use Rattle.step_rules.specs.Parts.{part, part_at};
ghost use Rattle.step_rows.specs.LabelRows.{label_at};

use crate::instance;
use logic::Window;
use request::ranges;
use step_rows::LabelRows;
use steps::{Fresh, Goal, Hypothesis, Plan, Row, Sequent, letters};

// "L in R; a new single label of the same wording and window."
pub fn cp(table: &LabelRows, q: Sequent, k: u32) -> Plan
    ensures { result ≡ when (member q.unrestricted k)
        (Plan.One (premise q.linear q.goal (Fresh.Linear (label_at table.now k)))) }
{
    if !step_plans::has(q.unrestricted, k) {
        return Plan::Refused;
    }
    let g = q.goal;
    step_plans::one(true, q.linear, g, Fresh::Linear(table[k as usize]))
}

// What a left step works on: D without the step's label L, the goal, and what L stands for. The row x of its formula,
// before a holder is put in, is no part of it: each step reads of its row what it asks for, and rows that are read
// before the match over the step's number made a booking of 256 steps take 9 in a hundred instructions more.
#[derive(Clone, Copy)]
pub struct Left {
    pub linear: u64,
    pub goal: Goal,
    pub principal: Hypothesis,
}

impl Left {
    // "drops L, a 1."
    pub fn ol(self, x: Row) -> Plan
        ensures { result ≡ when (is x "o") (Plan.One (premise self.linear self.goal Fresh.Nothing)) }
    {
        if x.letter != letters::ONE {
            return Plan::Refused;
        }
        step_plans::one(true, self.linear, self.goal, Fresh::Nothing)
    }

    // "that arm": n is x.a for `w1`, x.b for `w2`.
    pub fn arm(self, x: Row, n: u32) -> Plan
        ensures { result ≡ when (is x "w") (Plan.One (premise self.linear self.goal
            (Fresh.Linear (part n self.principal)))) }
    {
        if x.letter != letters::WITH {
            return Plan::Refused;
        }
        let arm = instance::part(n, self.principal);
        step_plans::linear(true, self.linear, self.goal, arm)
    }

    // "the part joins R"
    pub fn bl(self, x: Row) -> Plan
        ensures { result ≡ when (is x "b")
            (Plan.One (premise self.linear self.goal (Fresh.Unrestricted (part x.a self.principal)))) }
    {
        if x.letter != letters::BANG {
            return Plan::Refused;
        }
        let part = instance::part(x.a, self.principal);
        step_plans::unrestricted(true, self.linear, self.goal, part)
    }

    // "A@J becomes A at J": likewise for L
    pub fn hl(self, x: Row) -> Plan
        ensures { result ≡ when (is x "h") (Plan.One (premise self.linear self.goal
            (Fresh.Linear (part_at x.a self.principal x.first)))) }
    {
        if x.letter != letters::AT {
            return Plan::Refused;
        }
        let a = instance::part_at(x.a, self.principal, x.first);
        step_plans::linear(true, self.linear, self.goal, a)
    }

    // "L is ⟨K⟩A and the goal K affirms B, same K; L's window ⊇ goal's." The goal is affirmed by k, at j.
    pub fn sl(self, x: Row, k: u32, j: Window) -> Plan
        ensures { result ≡ when (is x "s")
            (when (eqb x.a k && contains self.principal.interval j)
            (Plan.One (premise self.linear self.goal (Fresh.Linear (part x.b self.principal))))) }
    {
        if x.letter != letters::SAYS {
            return Plan::Refused;
        }
        let i = self.principal.interval;
        let b = instance::part(x.b, self.principal);
        let same = x.a == k;
        step_plans::linear(same & intervals::contains(i, j), self.linear, self.goal, b)
    }

    // "both parts"
    pub fn tl(self, x: Row) -> Plan
        ensures { result ≡ when (is x "t") (Plan.One (premise self.linear self.goal
            (Fresh.Both (part x.a self.principal) (part x.b self.principal)))) }
    {
        if x.letter != letters::TENSOR {
            return Plan::Refused;
        }
        let a = instance::part(x.a, self.principal);
        let b = instance::part(x.b, self.principal);
        step_plans::both(true, self.linear, self.goal, a, b)
    }

    // "a premise for each arm"
    pub fn pl(self, x: Row) -> Plan
        ensures { result ≡ when (is x "p")
            (Plan.Two (premise self.linear self.goal (Fresh.Linear (part x.a self.principal)))
            (premise self.linear self.goal (Fresh.Linear (part x.b self.principal)))) }
    {
        if x.letter != letters::PLUS {
            return Plan::Refused;
        }
        let a = instance::part(x.a, self.principal);
        let b = instance::part(x.b, self.principal);
        step_plans::arms(true, self.linear, self.goal, a, b)
    }

    // document 02, ask 7: "uses `q` at one named holder, 1 to 65,535": its part, after that is put in, for L
    pub fn al(self, x: Row, holder: u32) -> Plan
        ensures { result ≡ when (is x "q") (when (leb 1 holder && leb holder last_holder)
            (Plan.One (premise self.linear self.goal
            (Fresh.Linear ((x.a for holder) over self.principal.interval))))) }
    {
        if x.letter != letters::FOR_EVERY {
            return Plan::Refused;
        }
        if holder < ranges::NAMED_HOLDER_FIRST {
            return Plan::Refused;
        }
        if ranges::HOLDER_LAST < holder {
            return Plan::Refused;
        }
        let part = Hypothesis {
            formula: instance::for_holder(x.a, holder),
            interval: self.principal.interval,
        };
        step_plans::linear(true, self.linear, self.goal, part)
    }

    // "A ⊸ B; L's window ⊇ J = from..to; A at J from the share, which must not have L; then the goal from the rest with
    // B at J for L."
    pub fn ll(self, x: Row, share: u64, j: Window) -> Plan
        ensures { result ≡ when (is x "l")
            (when (contains self.principal.interval j && subset share self.linear)
            (Plan.Two (premise share (proves (part_at x.a self.principal j)) Fresh.Nothing)
            (premise (without self.linear share) self.goal
            (Fresh.Linear (part_at x.b self.principal j))))) }
    {
        if x.letter != letters::LOLLI {
            return Plan::Refused;
        }
        let i = self.principal.interval;
        let a = instance::part_at(x.a, self.principal, j);
        let b = instance::part_at(x.b, self.principal, j);
        let rest = labels::without(self.linear, share);
        let fits = intervals::contains(i, j) & labels::subset(share, self.linear);
        step_plans::applied(fits, share, a, rest, self.goal, b)
    }

    // "A ⊃ B; the same, but A from an empty D."
    pub fn ul(self, x: Row, j: Window) -> Plan
        ensures { result ≡ when (is x "u") (when (contains self.principal.interval j)
            (Plan.Two (premise 0 (proves (part_at x.a self.principal j)) Fresh.Nothing)
            (premise self.linear self.goal (Fresh.Linear (part_at x.b self.principal j))))) }
    {
        if x.letter != letters::IMPLIES {
            return Plan::Refused;
        }
        let i = self.principal.interval;
        let a = instance::part_at(x.a, self.principal, j);
        let b = instance::part_at(x.b, self.principal, j);
        step_plans::applied(intervals::contains(i, j), 0, a, self.linear, self.goal, b)
    }
}
