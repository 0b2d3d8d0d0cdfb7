// The formula lines of a store (document 01: the wordings): whether a row stands there, and one more.
#![tactic(auto)]

ghost use Rattle.std.specs.Prelude.{◌≡◌, ◌<◌, length};
ghost use Rattle.ledger.specs.Table.{row_of};
ghost use Rattle.ledger.specs.Checks.{max_formulas, any_of, same_row};
ghost use Rattle.ledger.specs.Calls.{with_line};
ghost use Rattle.store_cells.specs.Layout.{cells};
ghost use Rattle.store.specs.Store.{line_of, ledger_of, Good, StandsFor, Wordable};
ghost use Rattle.store_formulas.specs.Marked.{Marked};

use steps::Row;
use store::{Facts, Store};
use store_cells::head::Number;
use store_cells::{groups, head, lines};

// Equal letters and equal fields. Most rows differ in a number, then in the letter, and intervals are looked at only
// where these are the same. The derived `==` compares eight numbers at once, and 200 lines with the same first number
// took twice the time.
fn same_row(x: Row, y: Row) -> bool
    ensures { result ≡ same_row x y }
{
    if x.a != y.a {
        return false;
    }
    if (x.b == y.b) & ((x.holder == y.holder) & (x.letter == y.letter)) {
        if intervals::same(x.first, y.first) {
            return intervals::same(x.second, y.second);
        }
    }
    false
}

// Whether a line of the ledger has this row. It is compiled apart: within a call its loop keeps what it compares on the
// stack.
#[inline(never)]
pub fn has_row(store: &Store, row: Row) -> bool
    requires { Good store.now }
    ensures { result ≡ any_of (λ m. same_row row (row_of m)) (ledger_of store.now).lines }
{
    for i in 0..head::read(store, Number::Lines) {
        let line = store::line_at(store, i);
        let same = same_row(row, line);
        if same {
            return true;
        }
    }
    false
}

// A line joins the set of each group that a session from low to high is of: of 64 sessions one after the other each is
// of another group, and there are no more groups.
fn mark(store: &mut Store, line: u32, low: u32, high: u32)
    requires { (length store.old ≡ cells) × (line < max_formulas) }
    ensures { Marked store.old store.new line low high }
{
    let last = high.min(low.saturating_add(store_cells::GROUPS - 1));
    for session in low..=last {
        groups::mark(store, session % store_cells::GROUPS, line);
    }
}

// One formula line (document 01: a wording) more, with what is to be kept of its formula.
pub fn add_row(store: &mut Store, row: Row, facts: Facts)
    requires { Wordable store.old row facts }
    ensures { StandsFor store.new (with_line (ledger_of store.old) (line_of row)) }
{
    let n = head::read(store, Number::Lines);
    lines::put_line(store, n, row, facts);
    mark(store, n, facts.low, facts.high);
    head::put(store, Number::Lines, n + 1);
}
