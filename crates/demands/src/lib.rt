// What the floor staff asked for: the three demands, and what document 02 asks to be shown. Each function here does
// nothing: its `ensures` is the statement, and that it is proved is the point. The statements are in
// specs/Demands.antt, specs/Effects.antt and specs/Later.antt, the proofs in proofs/.
#![tactic(auto)]

ghost use Rattle.std.specs.Prelude.{ℕ, List};
ghost use Rattle.ledger.specs.Ledger.{Ledger};
ghost use Rattle.demands.specs.Demands.{Demand1, Soundness, StepsComplete, Completeness};
ghost use Rattle.demands.specs.Demands.{Exactness, Accepts, Demand3};
ghost use Rattle.demands.specs.Effects.{Effects, SerialsOnce};
ghost use Rattle.demands.specs.Later.{LaterArrival};

// Demand 1: any bytes of any length get the first check that fails, and a refusal leaves the ledger as it was.
pub fn demand_1_first_check_answers()
    ensures { (t : Ledger) (bytes : List ℕ) → Demand1 t bytes }
{}

// Demand 2: an accepted booking's steps are a derivation of its goal from the credentials that it names.
pub fn demand_2_soundness()
    ensures { Soundness }
{}

// Demand 2: every derivation within the limits has step lines that pass; and so do the bytes of a booking with them.
pub fn demand_2_completeness()
    ensures steps { StepsComplete }
    ensures bytes { Completeness }
{}

// Demand 2: a booking is accepted exactly when the other checks pass and its steps are a derivation.
pub fn demand_2_exactness()
    ensures { Exactness }
{}

// Demand 2: an accepted call does what the paper says, to the ledger and to every serial; serials are given once.
pub fn demand_2_accepted_calls()
    ensures accepts { Accepts }
    ensures effects { Effects }
    ensures serials { SerialsOnce }
{}

// Demand 3: for every list of calls, for every session and minute, open + shut + placed + withdrawn = issued.
pub fn demand_3_sums()
    ensures { Demand3 }
{}

// Document 02, ask 4: an accepted booking's sheet, at any interval within its own, is accepted by the same ledger and
// consumes the same credentials; its hold and step lines are the same bytes.
pub fn ask_4_later_arrival()
    ensures { LaterArrival }
{}
