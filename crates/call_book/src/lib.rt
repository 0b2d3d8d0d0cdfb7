// Booking (document 01: book): its checks in the paper's order, up to 31, from where crate `call_book_steps` goes on.
#![tactic(auto)]

ghost use Rattle.call_contracts.specs.Called.{Handled};
ghost use Rattle.call_book_laws.specs.BookingFound.{booking_at, ReadLines, Bookable, Opened, BookCalled};

use call_checks::Verdict;
use ledger::{Answer, Refusal};
use read_fields::Reader;
use read_heads::Head;
use read_rest::{read_holds, read_steps};
use step_rows::StepRows;
use store::Store;

// 24 for all holds, then 31.
fn book_holds(store: &mut Store, head: Head, serials: &[u32], rows: &StepRows) -> Answer
    requires { Bookable store.old head serials.now rows.now }
    ensures { Handled store.old (booking_at head serials.now rows.now) result
        store.new }
{
    let mut table = [step_rows::NO_HYPOTHESIS; step_rows::LABELS];
    let held = call_holds::hold_all(store, serials, &mut table);
    let Some(sides) = held else {
        return Answer::Refused(Refusal::NotLive as u32, 0);
    };
    let once = call_checks::tested(call_holds::twice(serials));
    let Verdict::Passed = once else {
        return Answer::Refused(Refusal::HeldTwice as u32, 0);
    };
    call_book_steps::book_steps(store, head, serials, rows, &mut table, sides)
}

// 10, 20, 30.
fn book_read(store: &mut Store, head: Head, serials: &[u32], rows: &StepRows) -> Answer
    requires { ReadLines store.old head serials.now rows.now }
    ensures { Handled store.old (booking_at head serials.now rows.now) result
        store.new }
{
    let present = call_checks::check_present(store, head.formula);
    let Verdict::Passed = present else {
        return Answer::Refused(Refusal::NoSuchFormula as u32, 0);
    };
    let bound = call_checks::check_bound(store, head.formula);
    let Verdict::Passed = bound else {
        return Answer::Refused(Refusal::HolderMisplaced as u32, 0);
    };
    let plain = call_checks::check_plain(store, head.formula);
    let Verdict::Passed = plain else {
        return Answer::Refused(Refusal::NotPlain as u32, 0);
    };
    let in_time = call_checks::check_in_time(head.interval, head.now);
    let Verdict::Passed = in_time else {
        return Answer::Refused(Refusal::NowOutside as u32, 0);
    };
    book_holds(store, head, serials, rows)
}

// A booking whose head has been read, and whose lines the reader has: the rest of 2, 3, 43, then as above. The rows are
// lent for its step lines.
pub fn book(store: &mut Store, r: &mut Reader<'_>, rows: &mut StepRows, head: Head) -> Answer
    requires { Opened store.old head }
    ensures { BookCalled store.old head r.old.rest.now result store.new }
{
    let mut serials = [0u32; step_rows::SERIALS];
    let held = read_holds(r, head.holds, &mut serials);
    let Some(()) = held else {
        return Answer::Refused(Refusal::BadForm as u32, 0);
    };
    let read = read_steps(r, head.steps, rows);
    let Some(faults) = read else {
        return Answer::Refused(Refusal::BadForm as u32, 0);
    };
    let ordered = call_checks::check_lines_ordered(head.interval, faults.reversed);
    let Verdict::Passed = ordered else {
        return Answer::Refused(Refusal::IntervalReversed as u32, 0);
    };
    let unbroken = call_checks::check_lines_unbroken(head.interval, faults.broken);
    let Verdict::Passed = unbroken else {
        return Answer::Refused(Refusal::BreakNotInside as u32, 0);
    };
    book_read(store, head, &serials[..head.holds as usize], rows)
}
