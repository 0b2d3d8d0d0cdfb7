// The letters of formula lines (document 01: wordings), as `row_of` in ledger/specs/Table.antt has them. They stay
// numbers: by that definition a row has its letter's byte, and rows stand in the block of numbers that C lends.
pub const ATOM: u32 = b'a' as u32;

pub const ONE: u32 = b'o' as u32;

pub const TENSOR: u32 = b't' as u32;

pub const WITH: u32 = b'w' as u32;

pub const PLUS: u32 = b'p' as u32;

pub const LOLLI: u32 = b'l' as u32;

pub const IMPLIES: u32 = b'u' as u32;

pub const BANG: u32 = b'b' as u32;

pub const AT: u32 = b'h' as u32;

pub const SAYS: u32 = b's' as u32;

pub const SUPERSET: u32 = b'g' as u32;

pub const NAMED: u32 = b'n' as u32;

pub const FOR_EVERY: u32 = b'q' as u32;
