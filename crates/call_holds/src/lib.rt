// The holds of a booking: the credentials (document 01: the coupons) that its hold lines name by serial.
#![tactic(auto)]

ghost use Rattle.std.specs.Prelude.{◌≡◌, ◌≤◌, length};
ghost use Rattle.ledger.specs.Ledger.{held, spend as spend_of};
ghost use Rattle.ledger.specs.Checks.{twice as twice_of, hypothesis as hypothesis_of};
ghost use Rattle.ledger.specs.Calls.{with_live};
ghost use Rattle.store.specs.Store.{ledger_of, Good, StandsFor};
ghost use Rattle.step_rows.specs.LabelRows.{max_holds};
ghost use Rattle.call_holds.specs.Holds.{spent, Spendable, HeldIs};

use ledger::Credential;
use request::Kind;
use step_rows::LabelRows;
use steps::Hypothesis;
use store::Store;

// What the holds come to: the labels of the unrestricted ones (document 01: standing), those of the linear ones
// (single-use), and how many are linear.
#[derive(Clone, Copy, Default)]
pub struct Sides {
    pub unrestricted: u64,
    pub linear: u64,
    pub linears: u32,
}

// What a hold's label stands for (a function, and no `From`: both types are other crates').
fn hypothesis(c: Credential) -> Hypothesis
    ensures { result ≡ hypothesis_of c }
{
    Hypothesis {
        formula: c.formula,
        interval: c.interval,
    }
}

// 24 for all holds, in the order given: their credentials take labels 0, 1, .. in order. The one found is copied, once.
pub fn hold_all(store: &Store, serials: &[u32], table: &mut LabelRows) -> Option<Sides>
    requires { Good store.now × (length serials.now ≤ max_holds) }
    ensures { HeldIs (ledger_of store.now) serials.now table.old result table.new }
{
    let mut sides = Sides::default();
    for (k, serial) in serials.iter().enumerate() {
        let at = store_lookup::locate(store, *serial)?;
        let c = store::credential_at(store, at);
        let label = k as u32;
        table[k] = hypothesis(c);
        match c.kind {
            Kind::Linear => {
                sides.linear = labels::insert(sides.linear, label);
                sides.linears += 1;
            }
            Kind::Unrestricted => {
                sides.unrestricted = labels::insert(sides.unrestricted, label);
            }
        }
    }
    Some(sides)
}

// 31: a serial is held twice.
pub fn twice(serials: &[u32]) -> bool
    ensures { result ≡ twice_of serials.now }
{
    for (k, serial) in serials.iter().enumerate() {
        let again = serials[k + 1..].contains(serial);
        if again {
            return true;
        }
    }
    false
}

// A hold leaves if it is linear: of the one found only the kind is read.
fn spend_one(store: &mut Store, serial: u32)
    requires { Good store.old }
    ensures { StandsFor store.new (with_live (ledger_of store.old)
        (spent (ledger_of store.old).live serial)) }
{
    if let Some(at) = store_lookup::locate(store, serial) {
        let linear = store::linear_at(store, at);
        if linear {
            store_credentials::remove(store, at);
        }
    }
}

// "removes the single-use holds"
pub fn spend(store: &mut Store, serials: &[u32])
    requires { Spendable store.old serials.now }
    ensures { StandsFor store.new (with_live (ledger_of store.old)
        (spend_of (ledger_of store.old).live (held (ledger_of store.old).live serials.now))) }
{
    for serial in serials {
        spend_one(store, *serial);
    }
}
