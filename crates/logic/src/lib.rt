// The logic: the ground part of η-logic that document 01 names. This file has the type that definitions and code share;
// specs/ has the definitions and what is proved of them, proofs/ the proofs.
#![tactic(auto)]

// The minutes from `from` to `to`, both included (document 01: a window), without those from `first` to `last`
// (document 02, ask 2: the break); 0, 0 is no break.
#[derive(Clone, Copy, PartialEq, Eq)]
pub struct Interval {
    pub from: u32,
    pub to: u32,
    pub first: u32,
    pub last: u32,
}

// When a label's formula or a goal holds, and what `ll` and `ul` choose; other intervals are those that lines write.
pub type Window = Interval;

// What is proved of the logic. Each function does nothing: its `ensures` is the statement, of specs/Statements.antt and
// specs/Examples.antt.

ghost use Rattle.logic.specs.Statements.{Conservation, Subsumption, PlainWeighed, BalancedTest, WeightParts};
ghost use Rattle.logic.specs.Statements.{HouseSeats, ContainsTest, FormedTest, SameTest, SameSet, AsBefore};
ghost use Rattle.logic.specs.Statements.{Holders};
ghost use Rattle.logic.specs.Examples.{Examples};

// A derivation keeps the weight of its linear hypotheses, for every session.
pub fn derivations_conserve_weight()
    ensures { Conservation }
{}

// What is derived at an interval is derived by the same rules at every interval within it.
pub fn derivations_narrow()
    ensures { Subsumption }
{}

// Plain formulas are well weighed.
pub fn plain_is_well_weighed()
    ensures { PlainWeighed }
{}

// The test for balanced decides it for every session.
pub fn balance_is_decided()
    ensures { BalancedTest }
{}

// A weight is what is added less what is taken away.
pub fn weight_in_parts()
    ensures { WeightParts }
{}

// House seats are among the seats.
pub fn house_seats_are_seats()
    ensures { HouseSeats }
{}

// The test for ⊇ decides it, those of 3 and 43 whether an interval is one, and that for the same numbers equality.
pub fn intervals_are_decided()
    ensures contained { ContainsTest }
    ensures formed { FormedTest }
    ensures same { SameTest }
{}

// Each set of minutes has one spelling.
pub fn sets_have_one_spelling()
    ensures { SameSet }
{}

// Without breaks, ⊇ and "has the minute" mean what they meant.
pub fn without_breaks_as_before()
    ensures { AsBefore }
{}

// A holder that is put in goes where holder 0 stands outside `q`, and moves no weight.
pub fn holders_are_put_in()
    ensures { Holders }
{}

// What document 01's sessions say of formulas and intervals, and document 02 of breaks and holders.
pub fn examples_compute()
    ensures { Examples }
{}
