// The ledger's state (document 01: the till) in one array of numbers, which the caller keeps and lends to every call.
// The crate `store_cells` knows where each number stands; specs/Store.antt says which ledger an array is, and what
// holds of every store. Here the array is started and read; `store_formulas` and `store_credentials` change it.
#![tactic(auto)]

ghost use Rattle.std.specs.Prelude.{◌≡◌, ◌-◌, ◌≤◌, ◌<◌, length};
ghost use Rattle.request.specs.declared.Kind.TheVariants.{Linear};
ghost use Rattle.request.specs.Request.{Line};
ghost use Rattle.ledger.specs.Table.{row_of};
ghost use Rattle.ledger.specs.Ledger.{empty, formula, is_kind};
ghost use Rattle.ledger.specs.Checks.{max_formulas};
ghost use Rattle.store_cells.specs.Layout.{row_count, row_at, credential_at, of_at, low_at, high_at};
ghost use Rattle.store_cells.specs.Layout.{groups, set_width, group_at, filled_at};
ghost use Rattle.store.specs.Chain.{last_of};
ghost use Rattle.store.specs.Store.{ledger_of, Good, StandsFor, FactsOf};

use ledger::Credential;
use request::Kind;
use steps::{Row, letters};
use store_cells::head::Number;
pub use store_cells::lines::Facts;
use store_cells::{credentials, groups, head, lines};

pub type Store = store_cells::Store;

// The empty ledger.
pub fn start(store: &mut Store)
    ensures { StandsFor store.new empty }
{
    *store = [0u32; store_cells::CELLS];
    head::put(store, Number::Next, 1);
}

// How many formula lines and how many live credentials there are, and the serial that the next one gets.
pub fn formula_count(store: &Store) -> u32
    ensures { result ≡ length (ledger_of store.now).lines }
{
    head::read(store, Number::Lines)
}

pub fn live_count(store: &Store) -> u32
    requires { Good store.now }
    ensures { result ≡ length (ledger_of store.now).live }
{
    head::read(store, Number::Live)
}

pub fn next_serial(store: &Store) -> u32
    ensures { result ≡ (ledger_of store.now).next }
{
    head::read(store, Number::Next)
}

// The row of 1.
fn one_row() -> Row
    ensures { result ≡ row_of Line.one }
{
    let i = intervals::none();
    Row {
        letter: letters::ONE,
        a: 0,
        b: 0,
        holder: 0,
        first: i,
        second: i,
    }
}

// The row of a formula's number; of a number that names none, that of 1.
pub fn row_at(store: &Store, number: u32) -> Row
    ensures { result ≡ row_at store.now number }
{
    if ledger::MAX_FORMULAS <= number {
        return one_row();
    }
    if head::read(store, Number::Lines) <= number {
        return one_row();
    }
    lines::line_row(store, number)
}

// The same of a formula that the ledger has.
pub fn line_at(store: &Store, n: u32) -> Row
    requires { Good store.now × (n < length (ledger_of store.now).lines) }
    ensures { result ≡ row_at store.now n }
{
    lines::line_row(store, n)
}

// What is kept with the row of a formula of the ledger.
#[inline]
pub fn facts_at(store: &Store, n: u32) -> Facts
    requires { Good store.now × (n < length (ledger_of store.now).lines) }
    ensures kept { FactsOf (formula (ledger_of store.now) n) result }
    ensures low { result.low ≡ low_at store.now n }
    ensures high { result.high ≡ high_at store.now n }
{
    lines::facts_at(store, n)
}

// A number of the set of lines that have something of a group's sessions: bit j of number w stands for line 32 w + j.
pub fn near(store: &Store, group: u32, w: u32) -> u32
    requires { (group < groups) × (w < set_width) }
    ensures { result ≡ group_at store.now group w }
{
    groups::set(store, group, w)
}

// Bit w of this number is set where number w of the group's set is not 0.
pub fn filled(store: &Store, group: u32) -> u32
    requires { group < groups }
    ensures { result ≡ filled_at store.now group }
{
    groups::set(store, group, store_cells::SET_WIDTH)
}

// How many credential rows are in use, gaps too.
pub fn row_count(store: &Store) -> u32
    ensures { result ≡ row_count store.now }
{
    head::read(store, Number::Rows)
}

// The credential of a row; one that has left reads as unrestricted.
pub fn credential_at(store: &Store, i: u32) -> Credential
    requires { Good store.now × (i < row_count store.now) }
    ensures { result ≡ credential_at store.now i }
{
    credentials::credential(store, i)
}

// The rows of a formula, gaps too, from the last to the first: the last one of a formula, and the one before row p that
// is of the same formula; each row by its number and one, 0 where there is none.
pub fn last_row(store: &Store, formula: u32) -> u32
    requires { Good store.now × (formula < max_formulas) }
    ensures { result ≡ last_of (of_at store.now) formula (row_count store.now) }
{
    credentials::link(store, credentials::formula_link(formula))
}

pub fn row_before(store: &Store, p: u32) -> u32
    requires { Good store.now × (0 < p) × (p ≤ row_count store.now) }
    ensures { result ≡ last_of (of_at store.now) (of_at store.now (p - 1)) (p - 1) }
{
    credentials::link(store, p as usize)
}

// Whether the credential of a row is linear (document 01: single-use), by its kind alone.
pub fn linear_at(store: &Store, i: u32) -> bool
    requires { Good store.now × (i < row_count store.now) }
    ensures { result ≡ is_kind Linear (credential_at store.now i).kind }
{
    credentials::kind_at(store, i) == Some(Kind::Linear)
}
