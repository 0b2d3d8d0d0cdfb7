// Issue, withdraw and tally, of requests that have been read: each tries its checks in the paper's order and does what
// the request says.
#![tactic(auto)]

ghost use Rattle.request.specs.Request.{issue as issue_request, withdraw as withdraw_request, tally as tally_request};
ghost use Rattle.store.specs.Store.{Good};
ghost use Rattle.call_contracts.specs.Called.{Handled};

use call_checks::Verdict;
use ledger::{Answer, Refusal};
use logic::Interval;
use request::Kind;
use store::Store;

// Issue: 3, 43, 10, 53, 20 or 21 by the kind, 22, 23.
pub fn issue(store: &mut Store, kind: Kind, formula: u32, interval: Interval) -> Answer
    requires { Good store.old }
    ensures { Handled store.old (issue_request kind formula interval) result store.new }
{
    let ordered = call_checks::check_ordered(interval);
    let Verdict::Passed = ordered else {
        return Answer::Refused(Refusal::IntervalReversed as u32, 0);
    };
    let unbroken = call_checks::check_unbroken(interval);
    let Verdict::Passed = unbroken else {
        return Answer::Refused(Refusal::BreakNotInside as u32, 0);
    };
    let present = call_checks::check_present(store, formula);
    let Verdict::Passed = present else {
        return Answer::Refused(Refusal::NoSuchFormula as u32, 0);
    };
    let bound = call_checks::check_bound(store, formula);
    let Verdict::Passed = bound else {
        return Answer::Refused(Refusal::HolderMisplaced as u32, 0);
    };
    let issuable = call_checks::check_issuable(store, kind, formula);
    let Verdict::Passed = issuable else {
        return Answer::Refused(call_checks::unissuable_number(kind), 0);
    };
    let room = call_checks::check_room(store, 0);
    let Verdict::Passed = room else {
        return Answer::Refused(Refusal::CredentialsFull as u32, 0);
    };
    let unused = call_checks::check_unused(store);
    let Verdict::Passed = unused else {
        return Answer::Refused(Refusal::SerialsUsedUp as u32, 0);
    };
    let serial = store::next_serial(store);
    store_credentials::give(store, kind, formula, interval);
    Answer::Accepted(serial)
}

// Withdraw: 24. What leaves is not read.
pub fn withdraw(store: &mut Store, serial: u32) -> Answer
    requires { Good store.old }
    ensures { Handled store.old (withdraw_request serial) result store.new }
{
    let found = store_lookup::locate(store, serial);
    let Some(at) = found else {
        return Answer::Refused(Refusal::NotLive as u32, 0);
    };
    store_credentials::withdraw(store, at);
    Answer::Accepted(serial)
}

// Tally: no check after 43 fails, and a tally has no interval.
pub fn tally(store: &Store, session: u32, minute: u32) -> Answer
    requires { Good store.now }
    ensures { Handled store.now (tally_request session minute) result store.now }
{
    let f = formula_tally::tally(store, session, minute);
    Answer::Counted(f.open, f.shut, f.placed)
}
