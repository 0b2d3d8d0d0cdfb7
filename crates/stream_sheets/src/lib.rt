// The bytes of a stream (specs/Sheets.antt): the search for the end of a sheet, and the bytes of a sheet that has
// begun, kept up to one more than a sheet may have.
#![tactic(auto)]

ghost use Rattle.std.specs.Prelude.{◌≡◌, Bool, false, ◌≤◌, ◌<◌, length};
ghost use Rattle.stream_sheets.specs.Sheets.{empty_line, line_begins, most};
ghost use Rattle.stream_sheets.specs.Ends.{BothTen, Skipped, EndIs};
ghost use Rattle.stream_sheets.specs.Keeping.{Kept};
ghost use Rattle.stream_sheets.specs.Statements.{ReadBack, AllParts, InPieces, RestSkipped};

// How many bytes of a sheet are kept: one more than a sheet may have.
pub const MOST: usize = request::ranges::MAX_BYTES + 1;

// 1 if both are byte 10, the second an empty line.
fn both_ten(x: u8, y: u8) -> u8
    ensures { BothTen x y result }
{
    ((x == b'\n') & (y == b'\n')) as u8
}

// Whether an empty line stands in the bytes, where no line begins before them. No byte decides how to go on, so that
// the compiler compares many at once.
fn has_end(bytes: &[u8]) -> bool
    requires { (0 < length bytes.now) × (length bytes.now ≤ 255) }
    ensures { result ≡ empty_line false bytes.now }
{
    let mut found = 0u8;
    for i in 1..bytes.len() {
        found += both_ten(bytes[i - 1], bytes[i]);
    }
    found > 0
}

// Goes on by 64 bytes as long as no empty line stands in them. The byte after them is looked at twice: a line that ends
// with one block may be followed by an empty line in the next.
fn skip(piece: &[u8]) -> usize
    requires { 0 < length piece.now }
    ensures { Skipped piece.now result }
{
    let blocks = (piece.len() - 1) / 64;
    for block in 0..blocks {
        let i = 64 * block;
        if has_end(&piece[i..i + 65]) {
            return i;
        }
    }
    64 * blocks
}

// Looks for the first empty line: a byte 10 where a line begins.
pub fn sheet_end(piece: &[u8], fresh: bool) -> Option<usize>
    requires { 0 < length piece.now }
    ensures { EndIs piece.now fresh result }
{
    if fresh & (piece[0] == b'\n') {
        return Some(0);
    }
    for i in skip(piece) + 1..piece.len() {
        if (piece[i - 1] == b'\n') & (piece[i] == b'\n') {
            return Some(i);
        }
    }
    None
}

// Whether a line begins after the bytes: whatever comes before them.
pub fn line_ends(piece: &[u8]) -> bool
    requires { 0 < length piece.now }
    ensures { (fresh : Bool) → result ≡ line_begins fresh piece.now }
{
    piece[piece.len() - 1] == b'\n'
}

// The bytes after those held; past `MOST` they are dropped.
pub fn keep(begun: &mut [u8], filled: usize, bytes: &[u8]) -> usize
    requires { (length begun.old ≡ most) × (filled ≤ most) }
    ensures { Kept begun.old filled bytes.now begun.new result }
{
    let n = (MOST - filled).min(bytes.len());
    begun[filled..filled + n].copy_from_slice(&bytes[..n]);
    filled + n
}

// Does nothing: that it is proved says that sheets with an empty line after each are read as just these, that every
// stream is of that form, in whatever pieces it comes, and that `MOST` bytes of a sheet get the answer of the whole.
pub fn sheets_of_streams()
    ensures read_back { ReadBack }
    ensures all_parts { AllParts }
    ensures in_pieces { InPieces }
    ensures rest_skipped { RestSkipped }
{}
