// The live credentials of a store (document 01: the coupons): one leaves, one more is given; and the next serial is
// set.
#![tactic(auto)]

ghost use Rattle.std.specs.Prelude.{◌<◌, length};
ghost use Rattle.ledger.specs.Ledger.{without_serial};
ghost use Rattle.ledger.specs.Calls.{with_live, with_credential};
ghost use Rattle.store_cells.specs.Layout.{max_rows, row_count, credential_at};
ghost use Rattle.store.specs.Store.{ledger_of, Good, StandsFor, Givable, Occupied, Compacted};
ghost use Rattle.store_credentials.specs.NextSerial.{with_next, Raisable};
ghost use Rattle.store_credentials.specs.Unlinked.{Unlinked};

use ledger::Credential;
use logic::Interval;
use request::Kind;
use store::Store;
use store_cells::head::Number;
use store_cells::{credentials, head};

// Gaps that may stand among the rows in use however few are live: moving a handful of rows together is not worth it.
const SPARE_ROWS: u32 = 16;

// The credential of a row leaves: the row becomes a gap.
pub fn remove(store: &mut Store, at: u32)
    requires { Good store.old × Occupied store.old at }
    ensures { StandsFor store.new (with_live (ledger_of store.old)
        (without_serial (ledger_of store.old).live (credential_at store.old at).serial)) }
{
    let n = head::read(store, Number::Live);
    credentials::put_gap(store, at);
    head::put(store, Number::Live, n - 1);
}

// No row is in the chain of its formula. A number that no line has yet has no chain.
fn unlink(store: &mut Store)
    requires { Good store.old }
    ensures { Unlinked store.old store.new }
{
    for n in 0..head::read(store, Number::Lines) {
        let chain = credentials::formula_link(n);
        let has_chain = credentials::link(store, chain) != 0;
        if has_chain {
            credentials::put_link(store, chain, 0);
        }
    }
}

// The live credentials move together, in order, so that no gap is left; each joins its chain anew.
fn compact(store: &mut Store)
    requires { Good store.old }
    ensures { Compacted store.old store.new }
{
    unlink(store);
    let used = head::read(store, Number::Rows);
    let mut k = 0;
    for from in 0..used {
        let stays = credentials::kind_at(store, from).is_some();
        if stays {
            let c = credentials::credential(store, from);
            credentials::put_credential(store, k, c);
            credentials::put_hint(store, c.serial, k);
            k += 1;
        }
    }
    head::put(store, Number::Rows, k);
}

// A row is free, and going through a formula's rows costs what lives: where all are in use, or most of them are gaps,
// the live credentials move together. At least every second row in use is then a gap made since rows last moved, so
// that each removal pays for two rows gone through and one moved; of few live ones two of three are gaps, and it pays
// for less.
fn make_room(store: &mut Store)
    requires { Good store.old × (length (ledger_of store.old).live < max_rows) }
    ensures { StandsFor store.new (ledger_of store.old)
        × (row_count store.new < max_rows) }
{
    let used = head::read(store, Number::Rows);
    let live = head::read(store, Number::Live);
    if (used == store_cells::ROWS) | (used > 3 * live + SPARE_ROWS) {
        compact(store);
    }
}

// The credential of a row is withdrawn.
pub fn withdraw(store: &mut Store, at: u32)
    requires { Good store.old × Occupied store.old at }
    ensures { StandsFor store.new (with_live (ledger_of store.old)
        (without_serial (ledger_of store.old).live (credential_at store.old at).serial)) }
{
    remove(store, at);
    make_room(store);
}

// One credential more, in the next row.
fn append(store: &mut Store, kind: Kind, formula: u32, interval: Interval)
    requires { Givable store.old formula × (row_count store.old < max_rows) }
    ensures { StandsFor store.new
        (with_credential (ledger_of store.old) kind formula interval) }
{
    let i = head::read(store, Number::Rows);
    let n = head::read(store, Number::Live);
    let serial = head::read(store, Number::Next);
    let c = Credential {
        serial,
        kind,
        formula,
        interval,
    };
    credentials::put_credential(store, i, c);
    head::put(store, Number::Rows, i + 1);
    head::put(store, Number::Live, n + 1);
    head::put(store, Number::Next, serial + 1);
    credentials::put_hint(store, serial, i);
}

// One credential more, with the next serial.
pub fn give(store: &mut Store, kind: Kind, formula: u32, interval: Interval)
    requires { Givable store.old formula }
    ensures { StandsFor store.new
        (with_credential (ledger_of store.old) kind formula interval) }
{
    make_room(store);
    append(store, kind, formula, interval);
}

// The next serial is n, as an opened text says.
pub fn set_next(store: &mut Store, n: u32)
    requires { Raisable store.old n }
    ensures { StandsFor store.new (with_next (ledger_of store.old) n) }
{
    head::put(store, Number::Next, n);
}
