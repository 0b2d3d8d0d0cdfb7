// The ends of the ranges, as specs/Range.antt has them (document 01: "Ranges"; sessions, holders: document 02), for the
// code that reads fields.
pub const PREDICATE_LAST: u32 = 255;

// document 02, ask 1: "Sessions go from 0 to 65,535"
pub const SESSION_LAST: u32 = 65_535;

// document 02, ask 7: "a holder number, 1 to 65,535"; in an atom also 0
pub const HOLDER_LAST: u32 = 65_535;

pub const NAMED_HOLDER_FIRST: u32 = 1;

pub const PRINCIPAL_LAST: u32 = 255;

pub const MINUTE_LAST: u32 = 9_999_999;

pub const FORMULA_LAST: u32 = 999;

pub const SERIAL_FIRST: u32 = 1;

pub const SERIAL_LAST: u32 = 999_999;

// document 02, ask 5: "next is the next serial, 1 to 1,000,000"
pub const NEXT_SERIAL_FIRST: u32 = 1;

pub const NEXT_SERIAL_LAST: u32 = 1_000_000;

pub const LABEL_LAST: u32 = 63;

// how many labels there are
pub const LABELS: u32 = LABEL_LAST + 1;

pub const HOLDS_LAST: u32 = 32;

pub const STEPS_FIRST: u32 = 1;

pub const STEPS_LAST: u32 = 256;

// "A sheet has at most 16,384 bytes."
pub const MAX_BYTES: usize = 16_384;
