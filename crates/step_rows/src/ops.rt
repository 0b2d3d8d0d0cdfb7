// The numbers of the steps, as rows keep them: `af`; the right steps and `ax`; `cp`; the left steps, of which the last
// two choose an interval. Their words are in crate read_lines. They stay numbers: a rule of the project asks for one
// match over a step's number, with ranges, and step rows stand in the block of numbers that C lends.
pub const AF: u32 = 0;

pub const OR: u32 = 1;

pub const GR: u32 = 2;

pub const P1: u32 = 3;

pub const P2: u32 = 4;

pub const BR: u32 = 5;

pub const HR: u32 = 6;

pub const SR: u32 = 7;

pub const WR: u32 = 8;

pub const TR: u32 = 9;

pub const AX: u32 = 10;

pub const CP: u32 = 11;

pub const OL: u32 = 12;

pub const W1: u32 = 13;

pub const W2: u32 = 14;

pub const BL: u32 = 15;

pub const HL: u32 = 16;

pub const SL: u32 = 17;

pub const TL: u32 = 18;

pub const PL: u32 = 19;

pub const AL: u32 = 20;

pub const LL: u32 = 21;

pub const UL: u32 = 22;

// No step.
pub const NONE: u32 = 23;
