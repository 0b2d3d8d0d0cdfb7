// Word (document 01: a wording comes): its checks in the paper's order; then the line is added, with what is known of
// its formula.
#![tactic(auto)]

ghost use Rattle.request.specs.Request.{word as word_request};
ghost use Rattle.store.specs.Store.{line_of, Canonical, Good};
ghost use Rattle.call_contracts.specs.Called.{Handled};
ghost use Rattle.call_word.specs.Wording.{Named, Fitting};

use call_checks::Verdict;
use ledger::{Answer, Refusal};
use steps::Row;
use store::{Facts, Store};

// A line that has passed all checks is added, with what is known of its formula.
#[tactic(auto, using(crate::proofs::WordOutcomes::named_formable))]
fn add(store: &mut Store, row: Row, size: u32) -> Answer
    requires { Fitting store.old row size }
    ensures { Handled store.old (word_request (line_of row)) result store.new }
{
    let plain = formula_facts::row_plain(store, row);
    let balanced = formula_weights::row_balanced(store, row);
    let holders = formula_facts::row_holders(store, row);
    let span = formula_facts::row_span(store, row);
    let facts = Facts {
        size,
        plain,
        balanced,
        unbound: holders.unbound,
        quantified: holders.quantified,
        low: span.low,
        high: span.high,
        gives: span.gives,
    };
    let number = store::formula_count(store);
    store_formulas::add_row(store, row, facts);
    Answer::Accepted(number)
}

// 53, 12, 13, 14 of a line that names what is there.
fn word_named(store: &mut Store, row: Row) -> Answer
    requires { Named store.old row }
    ensures { Handled store.old (word_request (line_of row)) result store.new }
{
    let apart = call_checks::tested(formula_facts::row_nested(store, row));
    let Verdict::Passed = apart else {
        return Answer::Refused(Refusal::HolderMisplaced as u32, 0);
    };
    let size = formula_facts::row_size(store, row);
    let small = call_checks::tested(ledger::MAX_SIZE < size);
    let Verdict::Passed = small else {
        return Answer::Refused(Refusal::FormulaTooLarge as u32, 0);
    };
    let new = call_checks::tested(store_formulas::has_row(store, row));
    let Verdict::Passed = new else {
        return Answer::Refused(Refusal::FormulaThere as u32, 0);
    };
    let number = store::formula_count(store);
    let free = call_checks::tested(ledger::MAX_FORMULAS <= number);
    let Verdict::Passed = free else {
        return Answer::Refused(Refusal::FormulasFull as u32, 0);
    };
    add(store, row, size)
}

// Word: 3, 43, 10, then as above.
pub fn word(store: &mut Store, row: Row) -> Answer
    requires { Good store.old × Canonical row }
    ensures { Handled store.old (word_request (line_of row)) result store.new }
{
    let ordered = call_checks::check_line_ordered(row);
    let Verdict::Passed = ordered else {
        return Answer::Refused(Refusal::IntervalReversed as u32, 0);
    };
    let unbroken = call_checks::check_line_unbroken(row);
    let Verdict::Passed = unbroken else {
        return Answer::Refused(Refusal::BreakNotInside as u32, 0);
    };
    let present = call_checks::check_names_present(store, row);
    let Verdict::Passed = present else {
        return Answer::Refused(Refusal::NoSuchFormula as u32, 0);
    };
    word_named(store, row)
}
