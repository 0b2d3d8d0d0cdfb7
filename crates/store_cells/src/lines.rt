// The formula rows.
ghost use Rattle.std.specs.Prelude.{◌≡◌, ◌<◌};
ghost use Rattle.ledger.specs.Checks.{max_formulas};
ghost use Rattle.store_cells.specs.Layout.{row_from, line_cell, facts_at, put_line};

use crate::{
    BALANCED, GIVES, HIGH, LINE_WIDTH, LINES, LOW, PLAIN, QUANTIFIED, SIZE, Store, UNBOUND,
};
use steps::Row;

// What is kept beside a formula's row, so that no later request goes through the formula's parts again.
#[derive(Clone, Copy)]
pub struct Facts {
    pub size: u32,
    pub plain: bool,
    pub balanced: bool,
    // it has an unbound holder, a `q`
    pub unbound: bool,
    pub quantified: bool,
    // two numbers between which all sessions of its atoms are, and what it gives of the lower one: four counts, a byte
    // each
    pub low: u32,
    pub high: u32,
    pub gives: u32,
}

#[tactic(auto, unfolding(crate::specs::Layout::line_cell, crate::specs::Layout::cell))]
pub fn line_row(store: &Store, i: u32) -> Row
    requires { i < max_formulas }
    ensures { result ≡ row_from (line_cell store.now i) }
{
    let at = LINES + (i as usize) * LINE_WIDTH;
    Row {
        letter: store[at],
        a: store[at + 1],
        b: store[at + 2],
        holder: store[at + 3],
        first: intervals::read(store, at + 4),
        second: intervals::read(store, at + 8),
    }
}

#[inline]
pub fn facts_at(store: &Store, i: u32) -> Facts
    requires { i < max_formulas }
    ensures { result ≡ facts_at store.now i }
{
    let at = LINES + (i as usize) * LINE_WIDTH;
    Facts {
        size: store[at + SIZE],
        plain: store[at + PLAIN] == 1,
        balanced: store[at + BALANCED] == 1,
        unbound: store[at + UNBOUND] == 1,
        quantified: store[at + QUANTIFIED] == 1,
        low: store[at + LOW],
        high: store[at + HIGH],
        gives: store[at + GIVES],
    }
}

pub fn put_line(store: &mut Store, i: u32, row: Row, facts: Facts)
    requires { i < max_formulas }
    ensures { store.new ≡ put_line store.old i row facts }
{
    let at = LINES + (i as usize) * LINE_WIDTH;
    store[at] = row.letter;
    store[at + 1] = row.a;
    store[at + 2] = row.b;
    store[at + 3] = row.holder;
    intervals::put(store, at + 4, row.first);
    intervals::put(store, at + 8, row.second);
    store[at + SIZE] = facts.size;
    store[at + PLAIN] = u32::from(facts.plain);
    store[at + BALANCED] = u32::from(facts.balanced);
    store[at + UNBOUND] = u32::from(facts.unbound);
    store[at + QUANTIFIED] = u32::from(facts.quantified);
    store[at + LOW] = facts.low;
    store[at + HIGH] = facts.high;
    store[at + GIVES] = facts.gives;
}
