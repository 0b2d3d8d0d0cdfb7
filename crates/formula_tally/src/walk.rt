// What one single of a formula gives of a session: the formula's tree is walked from its line down.
ghost use Rattle.std.specs.Prelude.{◌≡◌, ◌<◌, length};
ghost use Rattle.ledger.specs.Ledger.{formula as formula_of};
ghost use Rattle.store.specs.Store.{ledger_of, Good};
ghost use Rattle.formula_tally.specs.Gives.{gives_under, atom_gives, nearest as nearest_of};

use formula_parts::Parts;
use steps::{Row, letters};
use store::Store;

// What a row without parts gives; `under` is true where the nearest ⟨K⟩ above it is the house's.
fn atom(row: Row, under: bool, session: u32) -> u32
    ensures { result ≡ atom_gives under session row }
{
    if (row.letter == letters::ATOM) | (row.letter == letters::NAMED) {
        if row.b == session {
            if row.a == formula_parts::SEAT {
                if under {
                    return 1 + formula_parts::HOUSE_UNIT;
                }
                return 1;
            }
            if row.a == formula_parts::PLACE {
                return formula_parts::PLACE_UNIT;
            }
        }
    }
    0
}

// The same as `under`, for the row's parts.
fn nearest(row: Row, under: bool) -> bool
    ensures { result ≡ nearest_of under row }
{
    if row.letter == letters::SAYS {
        return row.a == formula_parts::HOUSE;
    }
    under
}

// What one single of a formula gives: what its parts give, or it by itself where it has none.
pub fn walk(store: &Store, formula: u32, under: bool, session: u32) -> u32
    requires { Good store.now × (formula < length (ledger_of store.now).lines) }
    ensures { result ≡ gives_under under session (formula_of (ledger_of store.now) formula) }
{
    let row = store::line_at(store, formula);
    let above = nearest(row, under);
    match formula_parts::parts_of(row) {
        Parts::Nothing => atom(row, under, session),
        Parts::One(i) => walk(store, i, above, session),
        Parts::Two(i, j) => walk(store, i, above, session) + walk(store, j, above, session),
    }
}
