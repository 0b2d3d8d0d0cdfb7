// What is known of a formula from its row and the store: whether its parts are there, size, plain, holders, sessions
// and what it has of the lowest of them (gives.rt).
#![tactic(auto)]

pub mod gives;

ghost use Rattle.std.specs.Prelude.{◌≡◌, not, ◌≤◌, ◌<◌, length};
ghost use Rattle.logic.specs.Formula.{size, plain};
ghost use Rattle.ledger.specs.Table.{form, names};
ghost use Rattle.ledger.specs.Ledger.{formula};
ghost use Rattle.ledger.specs.Checks.{any_of, missing, nests};
ghost use Rattle.store.specs.Store.{line_of, ledger_of, Canonical, Good};
ghost use Rattle.formula_facts.specs.Facts.{Formable, PartsHoldersOf, HoldersOf};
ghost use Rattle.formula_facts.specs.Gives.{most_gives, given_of, SpanOf, BothOf, PartsSpanOf};

use formula_parts::Parts;
use steps::{Row, letters};
use store::Store;

// Whether the ledger has every formula that the row names.
pub fn names_there(store: &Store, row: Row) -> bool
    requires { Canonical row }
    ensures { result ≡ not (any_of (missing (ledger_of store.now)) (names (line_of row))) }
{
    let n = store::formula_count(store);
    match formula_parts::parts_of(row) {
        Parts::Nothing => true,
        Parts::One(i) => i < n,
        Parts::Two(i, j) => i < n && j < n,
    }
}

// The size of the row's formula.
pub fn row_size(store: &Store, row: Row) -> u32
    requires { Formable store.now row }
    ensures { result ≡ size (form (formula (ledger_of store.now)) (line_of row)) }
{
    match formula_parts::parts_of(row) {
        Parts::Nothing => 1,
        Parts::One(i) => 1 + store::facts_at(store, i).size,
        Parts::Two(i, j) => {
            1 + (store::facts_at(store, i).size + store::facts_at(store, j).size)
        }
    }
}

// Whether the row's formula is plain.
pub fn row_plain(store: &Store, row: Row) -> bool
    requires { Formable store.now row }
    ensures { result ≡ plain (form (formula (ledger_of store.now)) (line_of row)) }
{
    if !formula_parts::plain_letter(row.letter) {
        return false;
    }
    match formula_parts::parts_of(row) {
        Parts::Nothing => true,
        Parts::One(i) => store::facts_at(store, i).plain,
        Parts::Two(i, j) => store::facts_at(store, i).plain && store::facts_at(store, j).plain,
    }
}

// Holders (document 02, ask 7): whether there is an unbound one, holder 0 outside `q`, and whether a `q` stands there.
#[derive(Clone, Copy)]
pub struct Holders {
    pub unbound: bool,
    pub quantified: bool,
}

// In the parts of the row's formula.
fn parts_holders(store: &Store, row: Row) -> Holders
    requires { Formable store.now row }
    ensures { PartsHoldersOf store.now row result.unbound result.quantified }
{
    match formula_parts::parts_of(row) {
        Parts::Nothing => Holders {
            unbound: false,
            quantified: false,
        },
        Parts::One(i) => {
            let x = store::facts_at(store, i);
            Holders {
                unbound: x.unbound,
                quantified: x.quantified,
            }
        }
        Parts::Two(i, j) => {
            let x = store::facts_at(store, i);
            let y = store::facts_at(store, j);
            Holders {
                unbound: x.unbound | y.unbound,
                quantified: x.quantified | y.quantified,
            }
        }
    }
}

// In the formula.
pub fn row_holders(store: &Store, row: Row) -> Holders
    requires { Formable store.now row }
    ensures { HoldersOf store.now row result.unbound result.quantified }
{
    let parts = parts_holders(store, row);
    let every = row.letter == letters::FOR_EVERY;
    let bare = (row.letter == letters::NAMED) & (row.holder == 0);
    Holders {
        unbound: bare | (!every & parts.unbound),
        quantified: every | parts.quantified,
    }
}

// Whether the row's line puts `q` within `q`.
pub fn row_nested(store: &Store, row: Row) -> bool
    requires { Formable store.now row }
    ensures { result ≡ nests (ledger_of store.now) (line_of row) }
{
    if row.letter != letters::FOR_EVERY {
        return false;
    }
    store::facts_at(store, row.a).quantified
}

// Two numbers between which the sessions of a formula's atoms are, so that a tally of another session passes it by, and
// what the formula has of session low, so that a tally of that session does not look into it.
#[derive(Clone, Copy)]
pub struct Span {
    pub low: u32,
    pub high: u32,
    pub gives: u32,
}

// What a formula has of a session that is no higher than its lowest.
fn given(span: Span, session: u32) -> u32
    ensures { result ≡ given_of span session }
{
    if span.low == session {
        return span.gives;
    }
    0
}

// Of two formulas together.
fn both(x: Span, y: Span) -> Span
    requires { (x.gives ≤ most_gives) × (y.gives ≤ most_gives) }
    ensures { BothOf x y result }
{
    let low = x.low.min(y.low);
    Span {
        low,
        high: x.high.max(y.high),
        gives: given(x, low) + given(y, low),
    }
}

// Of a formula of the ledger, as kept with its row.
fn span_at(store: &Store, n: u32) -> Span
    requires { Good store.now × (n < length (ledger_of store.now).lines) }
    ensures { SpanOf (formula (ledger_of store.now) n) result }
{
    let kept = store::facts_at(store, n);
    Span {
        low: kept.low,
        high: kept.high,
        gives: kept.gives,
    }
}

// Of the parts of the row's formula; where there is none, two numbers with no session between them.
fn parts_span(store: &Store, row: Row) -> Span
    requires { Formable store.now row }
    ensures { PartsSpanOf store.now row result }
{
    match formula_parts::parts_of(row) {
        Parts::Nothing => Span {
            low: 1,
            high: 0,
            gives: 0,
        },
        Parts::One(i) => span_at(store, i),
        Parts::Two(i, j) => both(span_at(store, i), span_at(store, j)),
    }
}

// Of the row's formula: an atom has one session.
pub fn row_span(store: &Store, row: Row) -> Span
    requires { Formable store.now row }
    ensures { SpanOf (form (formula (ledger_of store.now)) (line_of row)) result }
{
    if (row.letter == letters::ATOM) | (row.letter == letters::NAMED) {
        return Span {
            low: row.b,
            high: row.b,
            gives: gives::own(row.a),
        };
    }
    let parts = parts_span(store, row);
    if row.letter == letters::SAYS {
        return Span {
            gives: gives::said(row.a, parts.gives),
            ..parts
        };
    }
    parts
}
