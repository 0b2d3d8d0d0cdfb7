// What a row tells of its formula line: the numbers that it names, whether an interval is reversed or broken, whether
// its letter is that of a plain formula.
#![tactic(auto)]

ghost use Rattle.std.specs.Prelude.{◌≡◌};
ghost use Rattle.logic.specs.Interval.{reversed, broken};
ghost use Rattle.request.specs.Request.{Line, line_intervals};
ghost use Rattle.ledger.specs.Table.{row_of};
ghost use Rattle.ledger.specs.Checks.{any_of};
ghost use Rattle.formula_parts.specs.Parts.{among, plains, parts_of, numbers};

use steps::{Row, letters};

// "Predicate 1 is seat, 2 place"
pub const SEAT: u32 = 1;

pub const PLACE: u32 = 2;

// Principal 1 (document 02, ask 3): the house.
pub const HOUSE: u32 = 1;

// What a formula has of a session is kept and worked out in one number: four counts, a byte each, for no formula has
// more than 64 of anything. What counts as one of the second, the third and the fourth.
pub const BYTE: u32 = 256;

pub const PLACE_UNIT: u32 = BYTE;

pub const HOUSE_UNIT: u32 = BYTE * PLACE_UNIT;

pub const UNDER_UNIT: u32 = BYTE * HOUSE_UNIT;

// The formulas that a row names: the parts of its own.
#[derive(Clone, Copy)]
pub enum Parts {
    Nothing,
    One(u32),
    Two(u32, u32),
}

pub fn parts_of(row: Row) -> Parts
    ensures { numbers result ≡ parts_of row }
{
    let letter = row.letter;
    match letter {
        letters::TENSOR => Parts::Two(row.a, row.b),
        letters::WITH => Parts::Two(row.a, row.b),
        letters::PLUS => Parts::Two(row.a, row.b),
        letters::LOLLI => Parts::Two(row.a, row.b),
        letters::IMPLIES => Parts::Two(row.a, row.b),
        letters::BANG => Parts::One(row.a),
        letters::AT => Parts::One(row.a),
        letters::SAYS => Parts::One(row.b),
        letters::FOR_EVERY => Parts::One(row.a),
        _ => Parts::Nothing,
    }
}

// "Plain: only `a`, `t`, `s`", and `n` (document 02, ask 7).
pub fn plain_letter(letter: u32) -> bool
    ensures { result ≡ among letter plains }
{
    match letter {
        letters::ATOM => true,
        letters::TENSOR => true,
        letters::SAYS => true,
        letters::NAMED => true,
        _ => false,
    }
}

// Whether an interval of a formula line is reversed (refusal 3), from its row: one that a line has not is none.
pub fn reversed_row(x: Row) -> bool
    ensures { (l : Line) → row_of l ≡ x → result ≡ any_of reversed (line_intervals l) }
{
    intervals::reversed(x.first) | intervals::reversed(x.second)
}

// The same of a break that is neither 0,0 nor strictly inside (refusal 43).
pub fn broken_row(x: Row) -> bool
    ensures { (l : Line) → row_of l ≡ x → result ≡ any_of broken (line_intervals l) }
{
    intervals::broken(x.first) | intervals::broken(x.second)
}
