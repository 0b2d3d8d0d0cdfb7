// The sets of lines, one for each group of sessions.
ghost use Rattle.std.specs.Prelude.{◌≡◌, ◌<◌, ◌≤◌};
ghost use Rattle.ledger.specs.Checks.{max_formulas};
ghost use Rattle.store_cells.specs.Layout.{groups, set_width, group_at, put_mark};

use crate::{GROUP_SETS, GROUP_WIDTH, SET_LINES, SET_WIDTH, Store};

// A number of a group's set, or after these the one that says which of them are not 0.
pub fn set(store: &Store, group: u32, w: u32) -> u32
    requires { (group < groups) × (w ≤ set_width) }
    ensures { result ≡ group_at store.now group w }
{
    store[GROUP_SETS + (group as usize) * GROUP_WIDTH + w as usize]
}

// A line joins the set of a group.
pub fn mark(store: &mut Store, group: u32, line: u32)
    requires { (group < groups) × (line < max_formulas) }
    ensures { store.new ≡ put_mark store.old group line }
{
    let w = line / SET_LINES;
    let lines = set(store, group, w) | (1u32 << (line % SET_LINES));
    let filled = set(store, group, SET_WIDTH) | (1u32 << w);
    let at = GROUP_SETS + (group as usize) * GROUP_WIDTH;
    store[at + w as usize] = lines;
    store[at + SET_WIDTH as usize] = filled;
}
