// The edition of a text (document 02, ask 8): `till,1` or `till,2`, as closing would write it.
#![tactic(auto)]

ghost use Rattle.std.specs.Prelude.{◌≡◌};
ghost use Rattle.ledger.specs.Checks.{any_of};
ghost use Rattle.snapshot.specs.Snapshot.{holder_letter, holder_line, edition_by, own_edition, same_edition};
ghost use Rattle.store.specs.Store.{ledger_of, Good};

use snapshot::Edition;
use steps::letters;
use store::Store;

// "at most 512 live coupons"
const MOST_OF_FIRST: u32 = 512;

// The letter of `n` or `q`.
pub fn holder_letter(letter: u32) -> bool
    ensures { result ≡ holder_letter letter }
{
    letter == letters::NAMED || letter == letters::FOR_EVERY
}

// Whether a line of the store's ledger is `n` or `q`, used or not.
fn has_holders(store: &Store) -> bool
    requires { Good store.now }
    ensures { result ≡ any_of holder_line (ledger_of store.now).lines }
{
    for i in 0..store::formula_count(store) {
        let found = holder_letter(store::line_at(store, i).letter);
        if found {
            return true;
        }
    }
    false
}

// By whether a line is `n` or `q`, and by how many credentials are live.
pub fn edition_by(holders: bool, live: u32) -> Edition
    ensures { result ≡ edition_by holders live }
{
    if holders || MOST_OF_FIRST < live {
        Edition::Second
    } else {
        Edition::First
    }
}

// That of the store's ledger.
#[tactic(auto, unfolding(snapshot::specs::Snapshot::edition_of))]
pub fn edition_of(store: &Store) -> Edition
    requires { Good store.now }
    ensures { result ≡ own_edition (ledger_of store.now) }
{
    edition_by(has_holders(store), store::live_count(store))
}

// Stays beside `==`, as its clause has the definition's `same_edition`, and the edits same_first_second and
// same_second_first are made in it.
pub fn same(d: Edition, e: Edition) -> bool
    ensures { result ≡ same_edition d e }
{
    d == e
}
