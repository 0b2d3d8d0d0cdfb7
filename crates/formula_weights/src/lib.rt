// Whether a formula is balanced: its weight, from its parts', for each session that stands in it. Asked once, when its
// line comes; the row keeps the answer.
#![tactic(auto)]

ghost use Rattle.std.specs.Prelude.{◌≡◌, [], ◌∷◌};
ghost use Rattle.logic.specs.Weight.{counted};
ghost use Rattle.logic.specs.Counts.{sessions_of, balanced};
ghost use Rattle.ledger.specs.Table.{form};
ghost use Rattle.ledger.specs.Ledger.{formula};
ghost use Rattle.store.specs.Store.{line_of, ledger_of};
ghost use Rattle.formula_facts.specs.Facts.{Formable};
ghost use Rattle.formula_weights.specs.RowWeights.{weight_of, neutral_for, alone_weight, under_weight, joined_weight};
ghost use Rattle.formula_weights.specs.RowWeights.{Light, Sure, Tries};

use formula_parts::Parts;
use steps::{Row, letters};
use store::Store;

// A formula's weight for a session: what it adds (up) and what it takes away (down); and whether it is well weighed.
#[derive(Clone, Copy)]
struct Weight {
    up: u32,
    down: u32,
    even: bool,
}

// 1 for a seat or a place of the session, else 0.
fn atom_weight(predicate: u32, of: u32, session: u32) -> u32
    ensures { result ≡ counted session predicate of }
{
    if of == session {
        if predicate == formula_parts::SEAT {
            return 1;
        }
        if predicate == formula_parts::PLACE {
            return 1;
        }
    }
    0
}

// A row that has no parts.
fn alone(row: Row, session: u32) -> Weight
    ensures { result ≡ alone_weight session row }
{
    if (row.letter == letters::ATOM) | (row.letter == letters::NAMED) {
        return Weight {
            up: atom_weight(row.a, row.b, session),
            down: 0,
            even: true,
        };
    }
    Weight {
        up: 0,
        down: 0,
        even: true,
    }
}

// A row of one part: what stands under ! weighs 0.
fn under(letter: u32, part: Weight) -> Weight
    ensures { result ≡ under_weight letter part }
{
    if letter == letters::BANG {
        return Weight {
            up: part.up,
            down: part.down,
            even: part.even & (part.up == part.down),
        };
    }
    part
}

// A row of two parts: ⊗ the sum, ⊸ right minus left, ⊃ the right's, and what stands left of it weighs 0; & and ⊕ the
// left arm's, and their arms weigh alike.
fn joined(letter: u32, x: Weight, y: Weight) -> Weight
    requires { Light x × Light y }
    ensures { result ≡ joined_weight letter x y }
{
    match letter {
        letters::TENSOR => Weight {
            up: x.up + y.up,
            down: x.down + y.down,
            even: x.even & y.even,
        },
        letters::LOLLI => Weight {
            up: y.up + x.down,
            down: y.down + x.up,
            even: x.even & y.even,
        },
        letters::IMPLIES => Weight {
            up: y.up,
            down: y.down,
            even: x.even & (y.even & (x.up == x.down)),
        },
        _ => Weight {
            up: x.up,
            down: x.down,
            even: x.even & (y.even & (x.up + y.down == y.up + x.down)),
        },
    }
}

// The weight of the row's formula.
fn weigh(store: &Store, row: Row, session: u32) -> Weight
    requires { Formable store.now row }
    ensures { result ≡ weight_of session (form (formula (ledger_of store.now)) (line_of row)) }
{
    match formula_parts::parts_of(row) {
        Parts::Nothing => alone(row, session),
        Parts::One(i) => {
            let part = store::line_at(store, i);
            let x = weigh(store, part, session);
            under(row.letter, x)
        }
        Parts::Two(i, j) => {
            let left = store::line_at(store, i);
            let x = weigh(store, left, session);
            let right = store::line_at(store, j);
            let y = weigh(store, right, session);
            joined(row.letter, x, y)
        }
    }
}

// Whether the row's formula weighs 0 and is well weighed for the session.
fn neutral(store: &Store, row: Row, session: u32) -> bool
    requires { Formable store.now row }
    ensures { result ≡ neutral_for (form (formula (ledger_of store.now)) (line_of row)) session }
{
    let w = weigh(store, row, session);
    (w.up == w.down) & w.even
}

// What was found of sessions: one that was asked last and for which the formula is neutral, if any was asked; or a
// session for which it is not. Most formulas are of one session, which is weighed once.
type Tried = Result<Option<u32>, u32>;

// Whether the row's formula is neutral for the session; `last` is one for which it is, if any was asked.
fn neutral_for(store: &Store, row: Row, session: u32, last: Option<u32>) -> Tried
    requires { Formable store.now row
        × Sure (neutral_for (form (formula (ledger_of store.now)) (line_of row))) last }
    ensures { Tries (neutral_for (form (formula (ledger_of store.now)) (line_of row)))
        (session ∷ []) result }
{
    let known = last == Some(session);
    if known || neutral(store, row, session) {
        Ok(Some(session))
    } else {
        Err(session)
    }
}

// Whether the formula of `row` is so for every session that stands in the formula of `part`.
fn neutral_within(store: &Store, row: Row, part: Row, last: Option<u32>) -> Tried
    requires { Formable store.now row × Formable store.now part
        × Sure (neutral_for (form (formula (ledger_of store.now)) (line_of row))) last }
    ensures { Tries (neutral_for (form (formula (ledger_of store.now)) (line_of row)))
        (sessions_of (form (formula (ledger_of store.now)) (line_of part))) result }
{
    match formula_parts::parts_of(part) {
        Parts::Nothing => {
            if (part.letter == letters::ATOM) | (part.letter == letters::NAMED) {
                return neutral_for(store, row, part.b, last);
            }
            Ok(last)
        }
        Parts::One(i) => neutral_within(store, row, store::line_at(store, i), last),
        Parts::Two(i, j) => {
            let left = neutral_within(store, row, store::line_at(store, i), last)?;
            neutral_within(store, row, store::line_at(store, j), left)
        }
    }
}

// Whether the row's formula is balanced. A formula of one part is if that is, and its row keeps it.
pub fn row_balanced(store: &Store, row: Row) -> bool
    requires { Formable store.now row }
    ensures { result ≡ balanced (form (formula (ledger_of store.now)) (line_of row)) }
{
    if let Parts::One(i) = formula_parts::parts_of(row) {
        return store::facts_at(store, i).balanced;
    }
    let tried = neutral_within(store, row, row, None);
    tried.is_ok()
}
