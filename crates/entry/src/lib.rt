// The calls that C makes (include/oysterbrim.h): the till is a block of 45,677 numbers that the caller keeps, a sheet
// is bytes with a length, and the caller lends 2,048 numbers to work on and four for the answer. Closing and opening
// are in crate entry_text. Crate entry_c has the exports, which call these functions.
#![tactic(auto)]

ghost use Rattle.std.specs.Prelude.{◌≡◌};
ghost use Rattle.request.specs.Range.{max_bytes};
ghost use Rattle.ledger.specs.Ledger.{empty};
ghost use Rattle.ledger.specs.Calls.{told};
ghost use Rattle.store_cells.specs.Layout.{cells};
ghost use Rattle.store.specs.Store.{Good, StandsFor};
ghost use Rattle.step_rows.specs.StepRows.{step_cells};
ghost use Rattle.entry.specs.Examples.{NumbersExamples};
ghost use Rattle.entry.specs.Edition.{edition};
ghost use Rattle.entry.specs.Entered.{numbers, Entered};
ghost use Rattle.entry.specs.Played.{StartMade, CallsMeet, PlayedIs, CallsAnswered, BookingsExact};
ghost use Rattle.entry.specs.Played.{CallsAddUp, CallsArrive};

use ledger::Answer;
use request::ranges;
use step_rows::StepRows;
use store::Store;

const EDITION: u32 = 2;

// The edition, under a name that only a library of this edition has: the header's till_start and till_open refer to it.
pub fn till_edition_2() -> u32
    ensures { result ≡ edition }
{
    EDITION
}

// The edition; how many numbers a till has, and how many are lent to work on; the most bytes of a sheet.
pub fn till_edition() -> u32
    ensures { result ≡ edition }
{
    till_edition_2()
}

pub fn till_numbers() -> usize
    ensures { result ≡ cells }
{
    store_cells::CELLS
}

pub fn till_scratch() -> usize
    ensures { result ≡ step_cells }
{
    step_rows::STEP_CELLS
}

pub fn till_sheet_bytes() -> usize
    ensures { result ≡ max_bytes }
{
    ranges::MAX_BYTES
}

// Makes the block an empty till.
pub fn till_start(till: &mut Store)
    ensures { StandsFor till.new empty }
{
    store::start(till);
}

// An answer in four numbers. (No `From`: it would stand in crate ledger, and `numbers` is a definition of this crate,
// which an edit of its own, numbers_step_first, turns.)
pub fn tell(a: Answer, answer: &mut [u32; 4])
    ensures { answer.new ≡ numbers (told a) }
{
    *answer = match a {
        Answer::Accepted(n) => [1, n, 0, 0],
        Answer::Counted(open, shut, placed) => [3, open, shut, placed],
        Answer::Refused(n, k) => [0, n, k, 0],
    };
}

// Answers in numbers, computed. The function does nothing: its `ensures` is what is proved.
pub fn numbers_compute()
    ensures { NumbersExamples }
{}

// Answers a sheet: {1, n, 0, 0} accepted with a value, {3, open, shut, placed} a tally, {0, refusal, step, 0} refused.
pub fn till_call(till: &mut Store, sheet: &[u8], scratch: &mut StepRows, answer: &mut [u32; 4])
    requires { Good till.old }
    ensures entered { Entered till.old sheet.now answer.new
        till.new }
    ensures lent { sheet.exit.now ≡ sheet.entry.now }
{
    let a = call::call(till, sheet, scratch);
    tell(a, answer);
}

// Calls in a row, on a block that was made: started, or opened. The function does nothing: its `ensures` is what is
// proved of them, the demands and document 02's ask 4 of the running code.
pub fn calls_in_a_row()
    ensures started { StartMade }
    ensures met { CallsMeet }
    ensures played { PlayedIs }
    ensures answered { CallsAnswered }
    ensures bookings { BookingsExact }
    ensures sums { CallsAddUp }
    ensures later { CallsArrive }
{}
