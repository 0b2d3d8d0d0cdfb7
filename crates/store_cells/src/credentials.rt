// The credentials (document 01: the coupons): their rows, the hints and the links.
ghost use Rattle.std.specs.Prelude.{◌≡◌, ◌<◌};
ghost use Rattle.ledger.specs.Checks.{max_formulas};
ghost use Rattle.store_cells.specs.Layout.{max_rows, links};
ghost use Rattle.store_cells.specs.Layout.{kind_from, credential_at, kind_at, put_credential, put_gap};
ghost use Rattle.store_cells.specs.Layout.{hint_at, put_hint, formula_link, link_at, put_link};

use crate::{CREDENTIAL_WIDTH, CREDENTIALS, FORMULA_LINKS, HINTS, LINKS, ROWS, Store};
use ledger::Credential;
use request::Kind;

// how a kind is kept: linear, unrestricted, that of a credential that has left
const LINEAR: u32 = Kind::Linear as u32;

const GAP: u32 = 2;

// `From<u32>` would stand beside `Kind` in the crate `request`, which knows no rows.
fn kind_from(n: u32) -> Kind
    ensures { result ≡ kind_from n }
{
    if n == LINEAR {
        Kind::Linear
    } else {
        Kind::Unrestricted
    }
}

pub fn serial(store: &Store, i: u32) -> u32
    requires { i < max_rows }
    ensures { result ≡ (credential_at store.now i).serial }
{
    store[CREDENTIALS + (i as usize) * CREDENTIAL_WIDTH]
}

#[tactic(auto, unfolding(crate::specs::Layout::credential_at, crate::specs::Layout::cell))]
pub fn credential(store: &Store, i: u32) -> Credential
    requires { i < max_rows }
    ensures { result ≡ credential_at store.now i }
{
    let at = CREDENTIALS + (i as usize) * CREDENTIAL_WIDTH;
    let kind = kind_from(store[at + 1]);
    Credential {
        serial: store[at],
        kind,
        formula: store[at + 2],
        interval: intervals::read(store, at + 3),
    }
}

// The kind of the credential of a row, if it has not left: one number is read.
#[tactic(auto, unfolding(crate::specs::Layout::kind_at, crate::specs::Layout::cell))]
pub fn kind_at(store: &Store, i: u32) -> Option<Kind>
    requires { i < max_rows }
    ensures { result ≡ kind_at store.now i }
{
    let n = store[CREDENTIALS + (i as usize) * CREDENTIAL_WIDTH + 1];
    if n == GAP {
        return None;
    }
    Some(kind_from(n))
}

pub fn put_gap(store: &mut Store, i: u32)
    requires { i < max_rows }
    ensures { store.new ≡ put_gap store.old i }
{
    store[CREDENTIALS + (i as usize) * CREDENTIAL_WIDTH + 1] = GAP;
}

// A credential is put in a row, and the row before the chain of its formula.
pub fn put_credential(store: &mut Store, i: u32, c: Credential)
    requires { (i < max_rows) × (c.formula < max_formulas) }
    ensures { store.new ≡ put_credential store.old i c }
{
    let chain = formula_link(c.formula);
    let last = link(store, chain);
    put_link(store, i as usize + 1, last);
    put_link(store, chain, i + 1);
    let at = CREDENTIALS + (i as usize) * CREDENTIAL_WIDTH;
    store[at] = c.serial;
    store[at + 1] = c.kind as u32;
    store[at + 2] = c.formula;
    intervals::put(store, at + 3, c.interval);
}

// The row where the credential of a serial may stand: any number may be answered.
pub fn hint(store: &Store, serial: u32) -> u32
    ensures { result ≡ hint_at store.now serial }
{
    store[HINTS + (serial % ROWS) as usize]
}

pub fn put_hint(store: &mut Store, serial: u32, i: u32)
    ensures { store.new ≡ put_hint store.old serial i }
{
    store[HINTS + (serial % ROWS) as usize] = i;
}

// The number of a formula's link; that of row i is i + 1.
pub fn formula_link(n: u32) -> usize
    requires { n < max_formulas }
    ensures { result ≡ formula_link n }
{
    FORMULA_LINKS + n as usize
}

#[tactic(auto, unfolding(crate::specs::Layout::link_at))]
pub fn link(store: &Store, k: usize) -> u32
    requires { k < links }
    ensures { result ≡ link_at store.now k }
{
    store[LINKS + k]
}

#[tactic(auto, unfolding(crate::specs::Layout::put_link))]
pub fn put_link(store: &mut Store, k: usize, v: u32)
    requires { k < links }
    ensures { store.new ≡ put_link store.old k v }
{
    store[LINKS + k] = v;
}
