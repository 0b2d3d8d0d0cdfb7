// The tally, by formulas (document 02, ask 9: "Panel sums by wording"): of each, how many live linear credentials have
// the minute and how many have not, times what one of them gives.
#![tactic(auto)]

mod walk;

ghost use Rattle.std.specs.Prelude.{◌≡◌, ◌+◌, ◌<◌, ◌≤◌, length};
ghost use Rattle.logic.specs.Interval.{has};
ghost use Rattle.ledger.specs.Ledger.{formula as formula_of, by_kind};
ghost use Rattle.ledger.specs.Calls.{only};
ghost use Rattle.ledger.specs.Checks.{max_formulas};
ghost use Rattle.store_cells.specs.Layout.{max_rows};
ghost use Rattle.store.specs.Store.{ledger_of, Good};
ghost use Rattle.formula_tally.specs.Gives.{gives};
ghost use Rattle.formula_tally.specs.Tally.{Tallied};
ghost use Rattle.formula_tally.specs.ByFormula.{ByFormula, singles_with, singles_without, GivenBy, Added};
ghost use Rattle.formula_tally.specs.Sets.{Named, SetAdded};

use logic::Interval;
use request::Kind;
use store::{Facts, Store};

// The sums of a tally over the live linear credentials: "Open now counts only seats whose nearest ⟨K⟩ above them is
// principal 1, in a window that has the minute. All other seats, bare ones too, go to shut"; placed are the places.
#[derive(Clone, Copy)]
pub struct Figures {
    pub open: u32,
    pub shut: u32,
    pub placed: u32,
}

// The same, with all seats.
#[derive(Clone, Copy)]
struct Sums {
    open: u32,
    seats: u32,
    places: u32,
}

// How many live linear credentials of a formula have the minute in their interval, and how many have not.
#[derive(Clone, Copy)]
struct Singles {
    inside: u32,
    outside: u32,
}

// What one single gives of a session, three counts in one number. Of a formula's lowest session it is kept with its
// row, and most formulas have atoms of one session alone.
fn count_formula(store: &Store, formula: u32, session: u32) -> u32
    requires { Good store.now × (formula < length (ledger_of store.now).lines) }
    ensures { result ≡ gives session (formula_of (ledger_of store.now) formula) }
{
    let Facts {
        low,
        high,
        gives,
        ..
    } = store::facts_at(store, formula);
    if session == low {
        return gives % formula_parts::UNDER_UNIT;
    }
    if session < low {
        return 0;
    }
    if high < session {
        return 0;
    }
    walk::walk(store, formula, false, session)
}

// "over live singles"
fn when_linear(kind: Kind, n: u32) -> u32
    ensures { result ≡ by_kind kind n 0 }
{
    match kind {
        Kind::Linear => n,
        Kind::Unrestricted => 0,
    }
}

// "whose window has the minute"
fn when_has(interval: Interval, minute: u32, n: u32) -> u32
    ensures { result ≡ only (has interval minute) n }
{
    if intervals::has(interval, minute) {
        return n;
    }
    0
}

// The live linear credentials of a formula, along its chain: how many have the minute in their interval, and how many
// have not.
fn count_singles(store: &Store, formula: u32, minute: u32) -> Singles
    requires { Good store.now × (formula < max_formulas) }
    ensures inside { result.inside ≡ singles_with (ledger_of store.now) minute formula }
    ensures outside { result.outside ≡ singles_without (ledger_of store.now) minute formula }
    ensures few { (result.inside + result.outside) ≤ max_rows }
{
    let mut inside = 0;
    let mut all = 0;
    let mut next = store::last_row(store, formula);
    // a chain of rows is no range: each row leads to the one before it
    while 0 < next {
        let c = store::credential_at(store, next - 1);
        let kind = c.kind;
        let linear = when_linear(kind, 1);
        let one = when_has(c.interval, minute, linear);
        inside += one;
        all += linear;
        next = store::row_before(store, next);
    }
    Singles {
        inside,
        outside: all - inside,
    }
}

// What a formula gives: its counts × what one single gives.
fn given_by(store: &Store, formula: u32, session: u32, minute: u32) -> Sums
    requires { Good store.now × (formula < length (ledger_of store.now).lines) }
    ensures { GivenBy (ledger_of store.now) session minute formula result }
{
    let one = count_formula(store, formula, session);
    if one == 0 {
        return Sums {
            open: 0,
            seats: 0,
            places: 0,
        };
    }
    let singles = count_singles(store, formula, minute);
    let all = singles.inside + singles.outside;
    Sums {
        open: singles.inside * (one / formula_parts::HOUSE_UNIT % formula_parts::BYTE),
        seats: all * (one % formula_parts::BYTE),
        places: all * (one / formula_parts::PLACE_UNIT % formula_parts::BYTE),
    }
}

// What the formulas of a set give: bit j of `bits` stands for formula base + j. One that has no coupon gives nothing.
fn add_set(store: &Store, base: u32, bits: u32, session: u32, minute: u32) -> Sums
    requires { Good store.now × Named (length (ledger_of store.now).lines) base bits }
    ensures { SetAdded (ledger_of store.now) session minute base bits result }
{
    let mut rest = bits;
    let mut open = 0;
    let mut seats = 0;
    let mut places = 0;
    // the bits of a set are no range: the lowest is taken off each time, so that no empty one is looked at
    while 0 < rest {
        let formula = base + u32::trailing_zeros(rest);
        rest = rest & (rest - 1);
        if store::last_row(store, formula) != 0 {
            let more = given_by(store, formula, session, minute);
            open += more.open;
            seats += more.seats;
            places += more.places;
        }
    }
    Sums {
        open,
        seats,
        places,
    }
}

// What all formulas give: those in the set of the session's group, for the others have nothing of it.
fn add_up(store: &Store, session: u32, minute: u32) -> Sums
    requires { Good store.now }
    ensures { Added (ledger_of store.now) session minute result }
{
    let group = session % store_cells::GROUPS;
    let mut numbers = store::filled(store, group);
    let mut open = 0;
    let mut seats = 0;
    let mut places = 0;
    // as in `add_set`: the bits that are set, one after the other
    while 0 < numbers {
        let w = u32::trailing_zeros(numbers);
        numbers = numbers & (numbers - 1);
        let bits = store::near(store, group, w);
        let more = add_set(store, store_cells::SET_LINES * w, bits, session, minute);
        open += more.open;
        seats += more.seats;
        places += more.places;
    }
    Sums {
        open,
        seats,
        places,
    }
}

// The tally of a session at a minute.
pub fn tally(store: &Store, session: u32, minute: u32) -> Figures
    requires { Good store.now }
    ensures { Tallied store.now session minute result }
{
    let sums = add_up(store, session, minute);
    Figures {
        open: sums.open,
        shut: sums.seats - sums.open,
        placed: sums.places,
    }
}

// The figures by formulas are those of the sums over the credentials. The function does nothing: its `ensures` is the
// statement, of specs/ByFormula.antt.
pub fn figures_by_formula()
    ensures { ByFormula }
{}
