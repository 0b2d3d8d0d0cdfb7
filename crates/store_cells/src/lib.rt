// The numbers of the ledger's state, read and put: the counts at the head of the array (head.rt), the formula rows
// (lines.rt), the sets of lines (groups.rt), the credential rows, the hints and the links (credentials.rt). No other
// functions know where a number stands in the array.
// specs/Layout.antt has the layout and its reason.
#![tactic(auto)]

pub mod credentials;
pub mod groups;
pub mod head;
pub mod lines;

// where the formula rows start; how many numbers a line has, and what stands after them; how wide a row is
const LINES: usize = 4;

const SIZE: usize = 12;

const PLAIN: usize = SIZE + 1;

const BALANCED: usize = PLAIN + 1;

const UNBOUND: usize = BALANCED + 1;

const QUANTIFIED: usize = UNBOUND + 1;

const LOW: usize = QUANTIFIED + 1;

const HIGH: usize = LOW + 1;

const GIVES: usize = HIGH + 1;

const LINE_WIDTH: usize = GIVES + 1;

// where the sets of lines start; how many groups of sessions there are, each with a set; how many numbers a set has,
// with room for so many lines each; how wide a group's row is
const GROUP_SETS: usize = LINES + ledger::MAX_FORMULAS as usize * LINE_WIDTH;

pub const GROUPS: u32 = 64;

pub const SET_WIDTH: u32 = 7;

pub const SET_LINES: u32 = 32;

const GROUP_WIDTH: usize = SET_WIDTH as usize + 1;

// where the credential rows start, how wide they are and how many there are: twice as many as may live
const CREDENTIALS: usize = GROUP_SETS + GROUPS as usize * GROUP_WIDTH;

const CREDENTIAL_WIDTH: usize = 8;

pub const ROWS: u32 = 2 * ledger::MAX_LIVE;

// where the hints start
const HINTS: usize = CREDENTIALS + ROWS as usize * CREDENTIAL_WIDTH;

// where the links start, and which of them is the first formula's, after those of the rows
const LINKS: usize = HINTS + ROWS as usize;

const FORMULA_LINKS: usize = 1 + ROWS as usize;

// How many numbers there are. C lends them, so that functions take the array, and beside it the number of a row, a line
// or a group: a struct of both would be made for one call each.
pub const CELLS: usize = LINKS + FORMULA_LINKS + ledger::MAX_FORMULAS as usize;

pub type Store = [u32; CELLS];
