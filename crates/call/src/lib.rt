// The one call: any bytes, of any length. The first line is read, and the request that it begins goes to its call.
#![tactic(auto)]

ghost use Rattle.store.specs.Store.{Good};
ghost use Rattle.call_contracts.specs.Called.{Called};

use call_checks::Verdict;
use ledger::{Answer, Refusal};
use read_fields::Reader;
use read_heads::First;
use request::ranges;
use step_rows::StepRows;
use store::Store;

// 1, 2, then each request by its call. The rows are lent for a booking's step lines; what they hold says nothing.
pub fn call(store: &mut Store, sheet: &[u8], rows: &mut StepRows) -> Answer
    requires { Good store.old }
    ensures { Called store.old sheet.now result store.new }
{
    let short = call_checks::tested(ranges::MAX_BYTES < sheet.len());
    let Verdict::Passed = short else {
        return Answer::Refused(Refusal::TooLong as u32, 0);
    };
    let mut r = Reader { rest: sheet };
    let read = read_heads::requests::read_first(&mut r);
    let Some(first) = read else {
        return Answer::Refused(Refusal::BadForm as u32, 0);
    };
    match first {
        First::Word(row) => call_word::word(store, row),
        First::Issue(kind, formula, interval) => call_credentials::issue(
            store, kind, formula, interval,
        ),
        First::Withdraw(serial) => call_credentials::withdraw(store, serial),
        First::Tally(session, minute) => call_credentials::tally(store, session, minute),
        First::Book(head) => call_book::book(store, &mut r, rows, head),
    }
}
