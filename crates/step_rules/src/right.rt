// The right steps and `ax`.
#![tactic(auto, unfolding(steps::specs::Plans::when))]

ghost use Rattle.std.specs.Prelude.{◌≡◌, ◌&&◌, ◌||◌, ◌<◌, eqb};
ghost use Rattle.logic.specs.Interval.{contains};
ghost use Rattle.request.specs.Range.{label_count};
ghost use Rattle.labels.specs.Labels.{is_empty, is_just, subset, without};
ghost use Rattle.steps.specs.Instance.{◌after◌};
ghost use Rattle.steps.specs.Plans.{when, is, premise};
ghost use Rattle.step_plans.specs.Goals.{proves};
ghost use Rattle.step_rules.specs.Parts.{part, part_at};

use crate::instance;
use steps::{Fresh, Goal, Hypothesis, Plan, Row, letters};

// What a right step and `ax` work on: the linear labels D, and the goal's formula at its interval; x is its row, before
// a holder is put in.
#[derive(Clone, Copy)]
pub struct Right {
    pub linear: u64,
    pub principal: Hypothesis,
}

impl Right {
    // "1, D empty; closes."
    pub fn or(self, x: Row) -> Plan
        ensures { result ≡ when (is x "o") (when (is_empty self.linear) Plan.Closed) }
    {
        if x.letter != letters::ONE {
            return Plan::Refused;
        }
        step_plans::when(labels::is_empty(self.linear), Plan::Closed)
    }

    // "⊇ that holds, D empty; closes."
    pub fn gr(self, x: Row) -> Plan
        ensures { result ≡ when (is x "g")
            (when (is_empty self.linear && contains x.first x.second) Plan.Closed) }
    {
        if x.letter != letters::SUPERSET {
            return Plan::Refused;
        }
        let i = x.first;
        let j = x.second;
        step_plans::when(
            labels::is_empty(self.linear) & intervals::contains(i, j),
            Plan::Closed,
        )
    }

    // "⊕, that arm.": n is x.a for `p1`, x.b for `p2`.
    pub fn arm(self, x: Row, n: u32) -> Plan
        ensures { result ≡ when (is x "p")
            (Plan.One (premise self.linear (proves (part n self.principal)) Fresh.Nothing)) }
    {
        if x.letter != letters::PLUS {
            return Plan::Refused;
        }
        let arm = instance::part(n, self.principal);
        step_plans::goal(true, self.linear, arm)
    }

    // "!, D empty, then the part."
    pub fn br(self, x: Row) -> Plan
        ensures { result ≡ when (is x "b") (when (is_empty self.linear)
            (Plan.One (premise self.linear (proves (part x.a self.principal)) Fresh.Nothing))) }
    {
        if x.letter != letters::BANG {
            return Plan::Refused;
        }
        let a = instance::part(x.a, self.principal);
        step_plans::goal(labels::is_empty(self.linear), self.linear, a)
    }

    // "A@J becomes A at J."
    pub fn hr(self, x: Row) -> Plan
        ensures { result ≡ when (is x "h") (Plan.One (premise self.linear
            (proves (part_at x.a self.principal x.first)) Fresh.Nothing)) }
    {
        if x.letter != letters::AT {
            return Plan::Refused;
        }
        let a = instance::part_at(x.a, self.principal, x.first);
        step_plans::goal(true, self.linear, a)
    }

    // "⟨K⟩A becomes K affirms A."
    pub fn sr(self, x: Row) -> Plan
        ensures { result ≡ when (is x "s") (Plan.One (premise self.linear
            (Goal.Affirms (part x.b self.principal).formula self.principal.interval x.a) Fresh.Nothing)) }
    {
        if x.letter != letters::SAYS {
            return Plan::Refused;
        }
        let b = instance::part(x.b, self.principal);
        let affirmed = Goal::Affirms(b.formula, b.interval, x.a);
        step_plans::one(true, self.linear, affirmed, Fresh::Nothing)
    }

    // "&, both arms, each from all of D."
    pub fn wr(self, x: Row) -> Plan
        ensures { result ≡ when (is x "w")
            (Plan.Two (premise self.linear (proves (part x.a self.principal)) Fresh.Nothing)
            (premise self.linear (proves (part x.b self.principal)) Fresh.Nothing)) }
    {
        if x.letter != letters::WITH {
            return Plan::Refused;
        }
        let a = instance::part(x.a, self.principal);
        let b = instance::part(x.b, self.principal);
        step_plans::goals(true, self.linear, a, self.linear, b)
    }

    // "⊗; left from the share, right from the rest of D."
    pub fn tr(self, x: Row, share: u64) -> Plan
        ensures { result ≡ when (is x "t") (when (subset share self.linear)
            (Plan.Two (premise share (proves (part x.a self.principal)) Fresh.Nothing)
            (premise (without self.linear share) (proves (part x.b self.principal)) Fresh.Nothing))) }
    {
        if x.letter != letters::TENSOR {
            return Plan::Refused;
        }
        let a = instance::part(x.a, self.principal);
        let b = instance::part(x.b, self.principal);
        let rest = labels::without(self.linear, share);
        step_plans::goals(labels::subset(share, self.linear), share, a, rest, b)
    }

    // "D holds just L, an atom equal to the goal; L's window ⊇ goal's. Closes." Label k stands for h, whose row is y.
    // Document 02: "Equality at `ax` is that of the formula after the holder is put in."
    pub fn ax(self, x: Row, k: u32, h: Hypothesis, y: Row) -> Plan
        requires { k < label_count }
        ensures { result ≡ when (is x "a" || is x "n") (when (is_just self.linear k
            && ((eqb y.letter x.letter && (eqb y.a x.a
            && (eqb y.b x.b && (is x "a"
            || eqb (y after h.formula).holder (x after self.principal.formula).holder))))
            && contains h.interval self.principal.interval)) Plan.Closed) }
    {
        let i = self.principal.interval;
        let j = h.interval;
        let same = (y.letter == x.letter) & ((y.a == x.a) & (y.b == x.b));
        let fits = labels::is_just(self.linear, k) & (same & intervals::contains(j, i));
        if x.letter == letters::ATOM {
            return step_plans::when(fits, Plan::Closed);
        }
        let theirs = instance::holder_of(y.letter, y.holder, h.formula);
        let ours = instance::holder_of(x.letter, x.holder, self.principal.formula);
        step_plans::when(
            (x.letter == letters::NAMED) & (fits & (theirs == ours)),
            Plan::Closed,
        )
    }
}
