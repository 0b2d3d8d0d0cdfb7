// The tests of the checks, each answered by an enum.
#![tactic(auto)]

ghost use Rattle.std.specs.Prelude.{◌≡◌, not, ◌||◌, ℕ, ◌<◌, length};
ghost use Rattle.logic.specs.Interval.{has, reversed, broken};
ghost use Rattle.logic.specs.Formula.{plain, unbound};
ghost use Rattle.logic.specs.Counts.{balanced};
ghost use Rattle.ledger.specs.Table.{names};
ghost use Rattle.ledger.specs.Ledger.{formula};
ghost use Rattle.request.specs.Request.{line_intervals};
ghost use Rattle.ledger.specs.Checks.{any_of, missing, unissuable, unissuable_number, no_room, used_up};
ghost use Rattle.store.specs.Store.{line_of, ledger_of, Canonical, Good};
ghost use Rattle.call_checks.specs.Verdicts.{Tells};

use logic::Interval;
use request::{Kind, ranges};
use steps::Row;
use store::Store;

// An enum of its own, and no `bool` or Result: each call takes the verdict apart by `let .. else`, returning its
// refusal (a rule of the project).
#[derive(Clone, Copy)]
pub enum Verdict {
    Passed,
    Failed,
}

// The verdict of a test, whatever its number: it fails where `bad`.
pub fn tested(bad: bool) -> Verdict
    ensures { (n : ℕ) → Tells n result bad }
{
    if bad {
        return Verdict::Failed;
    }
    Verdict::Passed
}

// Checks 3 and 43 are alike but for their test and number. Each stays a line of its own: one function of both would
// take the test as an argument, and be no plainer than the line.

// 3: an interval is reversed.
pub fn check_ordered(i: Interval) -> Verdict
    ensures { Tells 3 result (reversed i) }
{
    tested(intervals::reversed(i))
}

// 3: an interval of a formula line is reversed.
pub fn check_line_ordered(row: Row) -> Verdict
    requires { Canonical row }
    ensures { Tells 3 result (any_of reversed (line_intervals (line_of row))) }
{
    tested(formula_parts::reversed_row(row))
}

// 3: the goal's interval is reversed, or a step's is.
pub fn check_lines_ordered(interval: Interval, backward: bool) -> Verdict
    ensures { Tells 3 result (reversed interval || backward) }
{
    tested(intervals::reversed(interval) | backward)
}

// 43: a break is neither 0,0 nor strictly inside.
pub fn check_unbroken(i: Interval) -> Verdict
    ensures { Tells 43 result (broken i) }
{
    tested(intervals::broken(i))
}

// 43: one of a formula line is not.
pub fn check_line_unbroken(row: Row) -> Verdict
    requires { Canonical row }
    ensures { Tells 43 result (any_of broken (line_intervals (line_of row))) }
{
    tested(formula_parts::broken_row(row))
}

// 43: the goal's is not, or a step's.
pub fn check_lines_unbroken(interval: Interval, astray: bool) -> Verdict
    ensures { Tells 43 result (broken interval || astray) }
{
    tested(intervals::broken(interval) | astray)
}

// 10: a named formula is not there.
pub fn check_present(store: &Store, n: u32) -> Verdict
    requires { Good store.now }
    ensures { Tells 10 result (missing (ledger_of store.now) n) }
{
    tested(store::formula_count(store) <= n)
}

// 10: a formula that a line names is not there.
pub fn check_names_present(store: &Store, row: Row) -> Verdict
    requires { Canonical row }
    ensures { Tells 10 result (any_of (missing (ledger_of store.now)) (names (line_of row))) }
{
    tested(!formula_facts::names_there(store, row))
}

// 53: the formula has holder 0 outside `q`.
pub fn check_bound(store: &Store, n: u32) -> Verdict
    requires { Good store.now × (n < length (ledger_of store.now).lines) }
    ensures { Tells 53 result (unbound (formula (ledger_of store.now) n)) }
{
    tested(store::facts_at(store, n).unbound)
}

// 20: the formula is not plain.
pub fn check_plain(store: &Store, n: u32) -> Verdict
    requires { Good store.now × (n < length (ledger_of store.now).lines) }
    ensures { Tells 20 result (not (plain (formula (ledger_of store.now) n))) }
{
    tested(!store::facts_at(store, n).plain)
}

// 21: the formula is not balanced.
fn check_balanced(store: &Store, n: u32) -> Verdict
    requires { Good store.now × (n < length (ledger_of store.now).lines) }
    ensures { Tells 21 result (not (balanced (formula (ledger_of store.now) n))) }
{
    tested(!store::facts_at(store, n).balanced)
}

// 20 or 21: the formula is not what an issue of this kind asks.
pub fn check_issuable(store: &Store, kind: Kind, n: u32) -> Verdict
    requires { Good store.now × (n < length (ledger_of store.now).lines) }
    ensures { Tells (unissuable_number kind) result (unissuable kind (formula (ledger_of store.now) n)) }
{
    match kind {
        Kind::Linear => check_plain(store, n),
        Kind::Unrestricted => check_balanced(store, n),
    }
}

// The number of that check.
pub fn unissuable_number(kind: Kind) -> u32
    ensures { result ≡ unissuable_number kind }
{
    match kind {
        Kind::Linear => 20,
        Kind::Unrestricted => 21,
    }
}

// 22: live credentials, less the linear ones held, are 2,048 or more.
pub fn check_room(store: &Store, held: u32) -> Verdict
    requires { Good store.now }
    ensures { Tells 22 result (no_room (ledger_of store.now) held) }
{
    let live = store::live_count(store).saturating_sub(held);
    tested(ledger::MAX_LIVE <= live)
}

// 23: serial 999,999 was given.
pub fn check_unused(store: &Store) -> Verdict
    requires { Good store.now }
    ensures { Tells 23 result (used_up (ledger_of store.now)) }
{
    tested(ranges::SERIAL_LAST < store::next_serial(store))
}

// 30: `now` is not in the goal's interval.
pub fn check_in_time(interval: Interval, now: u32) -> Verdict
    ensures { Tells 30 result (not (has interval now)) }
{
    tested(!intervals::has(interval, now))
}
