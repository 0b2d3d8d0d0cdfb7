// Looking up a live credential by its serial: where it stands. Serials are compared and nothing is copied.
#![tactic(auto)]

ghost use Rattle.store.specs.Store.{Good};
ghost use Rattle.store_lookup.specs.Lookup.{LooksUp};

use store::Store;
use store_cells::head::Number;
use store_cells::{credentials, head};

// The search, which answers a row: serials rise over the gaps too, so half of what is left goes with each look.
fn by_halves(store: &Store, serial: u32) -> Option<u32>
    requires { Good store.now }
    ensures { LooksUp store.now serial result }
{
    let mut low = 0;
    let mut high = head::read(store, Number::Rows);
    // no `for` says halves, and `binary_search_by` wants a slice of rows, where these are numbers of one flat array
    while low < high {
        let middle = (low + high) / 2;
        let seen = credentials::serial(store, middle);
        if seen == serial {
            let left = credentials::kind_at(store, middle).is_none();
            if left {
                return None;
            }
            return Some(middle);
        }
        if seen < serial {
            low = middle + 1;
        } else {
            high = middle;
        }
    }
    None
}

// The one look-up, which answers the row where the live credential (document 01: a coupon) of a serial stands: where
// the hint says, if it stands there, or else by halves.
pub fn locate(store: &Store, serial: u32) -> Option<u32>
    requires { Good store.now }
    ensures { LooksUp store.now serial result }
{
    let i = credentials::hint(store, serial);
    if i < head::read(store, Number::Rows)
        && credentials::serial(store, i) == serial
        && credentials::kind_at(store, i).is_some()
    {
        return Some(i);
    }
    by_halves(store, serial)
}
