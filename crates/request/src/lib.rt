// Requests (document 01: sheets): the form of the bytes, and what they say. This file has the type that definitions
// and code share, src/ranges.rt the ends of the ranges; specs/ has the definitions.
#![tactic(auto)]

pub mod ranges;

// What a credential is (document 01: a coupon's kind): linear, used just once (s, single-use), or unrestricted, used as
// often as wanted (r, standing).
#[derive(Clone, Copy, PartialEq, Eq)]
pub enum Kind {
    Linear,
    Unrestricted,
}

// What is proved of reading and writing requests. Each function does nothing: its `ensures` is the statement, of
// specs/Statements.antt.

ghost use Rattle.request.specs.Ends.{RangesEnd};
ghost use Rattle.request.specs.Statements.{WriteRead, ReadInRange, ReadWrite, Wider, SheetsAsBefore};
ghost use Rattle.request.specs.Statements.{Longest, WriteShort};

// A request has one spelling: what is written is read again, and bytes that read as a request are those written.
pub fn one_spelling()
    ensures written { WriteRead }
    ensures read { ReadWrite }
{}

// Whatever is read is in range.
pub fn read_in_range()
    ensures { ReadInRange }
{}

// Both ends of each range.
pub fn ranges_end()
    ensures { RangesEnd }
{}

// A field that reads in a range reads in every wider one, as the same number.
pub fn wider_ranges_read_the_same()
    ensures { Wider }
{}

// Every sheet that was read when sessions ended at 255 reads as the same request.
pub fn sheets_read_as_before()
    ensures { SheetsAsBefore }
{}

// No request is longer than the longest booking, so none that is written is over the bytes of a sheet.
pub fn requests_are_short()
    ensures longest { Longest }
    ensures short { WriteShort }
{}
