// The entry for C (include/oysterbrim.h): each export calls the function of its name in crate entry, under the same
// clauses. Those of closing and opening are in crate entry_text_c.
#![tactic(auto)]

ghost use Rattle.std.specs.Prelude.{◌≡◌};
ghost use Rattle.request.specs.Range.{max_bytes};
ghost use Rattle.ledger.specs.Ledger.{empty};
ghost use Rattle.store_cells.specs.Layout.{cells};
ghost use Rattle.store.specs.Store.{Good, StandsFor};
ghost use Rattle.step_rows.specs.StepRows.{step_cells};
ghost use Rattle.entry.specs.Edition.{edition};
ghost use Rattle.entry.specs.Entered.{Entered};

use step_rows::StepRows;
use store::Store;

// The edition, under a name that only a library of this edition has: the header's till_start and till_open refer to it.
#[unsafe(no_mangle)]
pub extern "C" fn till_edition_2() -> u32
    ensures { result ≡ edition }
{
    entry::till_edition_2()
}

// The edition; how many numbers a till has, and how many are lent to work on; the most bytes of a sheet.
#[unsafe(no_mangle)]
pub extern "C" fn till_edition() -> u32
    ensures { result ≡ edition }
{
    entry::till_edition()
}

#[unsafe(no_mangle)]
pub extern "C" fn till_numbers() -> usize
    ensures { result ≡ cells }
{
    entry::till_numbers()
}

#[unsafe(no_mangle)]
pub extern "C" fn till_scratch() -> usize
    ensures { result ≡ step_cells }
{
    entry::till_scratch()
}

#[unsafe(no_mangle)]
pub extern "C" fn till_sheet_bytes() -> usize
    ensures { result ≡ max_bytes }
{
    entry::till_sheet_bytes()
}

// Makes the block an empty till.
#[unsafe(no_mangle)]
pub extern "C" fn till_start(till: &mut Store)
    ensures { StandsFor till.new empty }
{
    entry::till_start(till);
}

// Answers a sheet: {1, n, 0, 0} accepted with a value, {3, open, shut, placed} a tally, {0, refusal, step, 0} refused.
#[unsafe(no_mangle)]
pub extern "C" fn till_call(
    till: &mut Store,
    sheet: &[u8],
    scratch: &mut StepRows,
    answer: &mut [u32; 4],
)
    requires { Good till.old }
    ensures entered { Entered till.old sheet.now answer.new
        till.new }
    ensures lent { sheet.exit.now ≡ sheet.entry.now }
{
    entry::till_call(till, sheet, scratch, answer);
}
