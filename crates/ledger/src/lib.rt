// The ledger (document 01: the till): formulas and live credentials, and the answer to each request. This file has the
// types that definitions and code share; specs/ has the definitions and what is proved of them, proofs/ the proofs. The
// functions here do nothing: each ensures a statement of specs/, and that it is proved is the point.
#![tactic(auto)]

ghost use Rattle.ledger.specs.Bounds.{AlwaysBounded};
ghost use Rattle.ledger.specs.Statements.{Refusals, SameLine};
ghost use Rattle.ledger.specs.Sessions.{SessionsPlay, LaterPlay};
ghost use Rattle.ledger.specs.Cases.{CasesPlay};
ghost use Rattle.ledger.specs.FormulaCases.{FormulaCasesPlay};
ghost use Rattle.ledger.specs.StepCases.{StepCasesPlay};
ghost use Rattle.ledger.specs.PauseCases.{PauseCasesPlay};
ghost use Rattle.ledger.specs.ConnectiveCases.{ConnectiveCasesPlay};
ghost use Rattle.ledger.specs.HolderCases.{HolderCasesPlay};
ghost use Rattle.ledger.specs.LastSerials.{IdleGiven, CrowdGiven, LastSerialsPlay};

// "Size: .. at most 64"; "holds at most 200"; "Up to 2,048 live coupons": as specs/Checks.antt has them.
pub const MAX_SIZE: u32 = 64;

pub const MAX_FORMULAS: u32 = 200;

pub const MAX_LIVE: u32 = 2048;

// A credential (document 01: a coupon): its serial, its kind, its formula's number (wording) and its interval (window).
#[derive(Clone, Copy)]
pub struct Credential {
    pub serial: u32,
    pub kind: request::Kind,
    pub formula: u32,
    pub interval: logic::Interval,
}

// Why a request or a text is refused, by document 01's numbers: those of specs/Checks.antt, and of 50 to 52
// snapshot/specs/Reopen.antt. An answer has the number itself, as the definition of a call makes it (`decide`, in
// specs/Calls.antt); the names are those of the header for C.
#[derive(Clone, Copy, PartialEq, Eq)]
pub enum Refusal {
    TooLong = 1,
    BadForm = 2,
    IntervalReversed = 3,
    NoSuchFormula = 10,
    FormulaTooLarge = 12,
    FormulaThere = 13,
    FormulasFull = 14,
    NotPlain = 20,
    NotBalanced = 21,
    CredentialsFull = 22,
    SerialsUsedUp = 23,
    NotLive = 24,
    NowOutside = 30,
    HeldTwice = 31,
    StepBreaksRule = 40,
    NoLabelLeft = 41,
    StepsEndApart = 42,
    BreakNotInside = 43,
    BadText = 50,
    TextBreaksRule = 51,
    BufferTooShort = 52,
    HolderMisplaced = 53,
}

// The answer to a request; `told` in specs/Calls.antt gives document 01's values for each case.
#[derive(Clone, Copy)]
pub enum Answer {
    // word: the formula's number; issue, withdraw, book: the serial
    Accepted(u32),
    // tally: open, shut, placed
    Counted(u32, u32, u32),
    // the refusal's number and its step
    Refused(u32, u32),
}

// What holds of every ledger that calls gave.
pub fn always_bounded()
    ensures { AlwaysBounded }
{}

// A refusal leaves the ledger as it was, and has a step exactly for 40 to 42.
pub fn refusals()
    ensures { Refusals }
{}

// Refusal 13 is of equal lines: its test is equality.
pub fn lines_are_compared()
    ensures { SameLine }
{}

// Document 01's sessions M1 to M9; M1 for guests who are late.
pub fn sessions_play()
    ensures to_m9 { SessionsPlay }
    ensures later { LaterPlay }
{}

// Further sessions: form, order, holds and tallies; formulas; the last serials, and that calls lead there.
pub fn cases_play()
    ensures cases { CasesPlay }
    ensures formulas { FormulaCasesPlay }
    ensures given { IdleGiven }
    ensures crowd { CrowdGiven }
    ensures serials { LastSerialsPlay }
{}

// Sessions for the steps: every step word; windows with a break in every step; what a step asks of its formula and of
// the goal; places in a holder's name.
pub fn step_cases_play()
    ensures steps { StepCasesPlay }
    ensures pauses { PauseCasesPlay }
    ensures connectives { ConnectiveCasesPlay }
    ensures holders { HolderCasesPlay }
{}
