// Steps: what a step line asks of a sequent and what it leaves. This file has the types that definitions and code
// share, src/letters.rt the letters of formula lines; specs/ has the definitions.
#![tactic(auto)]

pub mod letters;

// A formula's line as a row: the letter's byte and its fields, two numbers, the holder of an atom that carries one
// (document 02, ask 7) and intervals; 0, and 0 to 0, where it has none.
#[derive(Clone, Copy, PartialEq, Eq)]
pub struct Row {
    pub letter: u32,
    pub a: u32,
    pub b: u32,
    pub holder: u32,
    pub first: logic::Interval,
    pub second: logic::Interval,
}

// A formula, by its number, at an interval: what a label stands for. A holder that was put in stands in the number
// (specs/Instance.antt); so it does in a goal's.
#[derive(Clone, Copy)]
pub struct Hypothesis {
    pub formula: u32,
    pub interval: logic::Window,
}

// "A at I", or "K affirms A at I"; K comes last, so that A and I stand in one place.
#[derive(Clone, Copy)]
pub enum Goal {
    Holds(u32, logic::Window),
    Affirms(u32, logic::Window, u32),
}

// A sequent (document 01: a judged line): the unrestricted labels (standing, R), the linear ones (single-use, D) and
// the goal. Bit k of a set stands for label k.
#[derive(Clone, Copy)]
pub struct Sequent {
    pub unrestricted: u64,
    pub linear: u64,
    pub goal: Goal,
}

// What takes new labels as a premise begins, and on which side.
#[derive(Clone, Copy)]
pub enum Fresh {
    Nothing,
    Linear(Hypothesis),
    Both(Hypothesis, Hypothesis),
    Unrestricted(Hypothesis),
}

// A premise before it takes its labels; the unrestricted labels of the step's sequent pass to it.
#[derive(Clone, Copy)]
pub struct Premise {
    pub linear: u64,
    pub goal: Goal,
    pub fresh: Fresh,
}

// What a step does: it breaks its rule, closes the sequent, or leaves one premise or two.
#[derive(Clone, Copy)]
pub enum Plan {
    Refused,
    Closed,
    One(Premise),
    Two(Premise, Premise),
}

// What is proved of the step checker and of the lines that it reads, with the table of labels as a function. Each
// function does nothing: its `ensures` is the statement, of specs/Statements.antt.

ghost use Rattle.steps.specs.Labelling.{AnyTable, read_label, write_label};
ghost use Rattle.steps.specs.Statements.{Spelt, Complete, Narrowing, Exactly, Sound, Passing, Instances};

// Lines that spell a derivation give one by their rules, and every derivation within the limits has such lines.
pub fn lines_are_derivations()
    ensures sound { Spelt }
    ensures complete { Complete }
{}

// The lines of a derivation are those of one with the same goal at any interval within its own.
pub fn lines_narrow()
    ensures { Narrowing }
{}

// The checker passes lines exactly if they spell a derivation, and refuses them exactly where they are stopped.
pub fn checker_is_exact()
    ensures { Exactly AnyTable read_label write_label }
{}

// From the hypotheses that a booking holds: what passes is a derivation by the rules of its lines, and every derivation
// within the limits has lines that pass.
pub fn passing_is_deriving()
    ensures sound { Sound AnyTable read_label write_label }
    ensures complete { Passing AnyTable read_label write_label }
{}

// Rows with a holder put in are those of the formulas with it put in.
pub fn holders_go_along()
    ensures { Instances }
{}
