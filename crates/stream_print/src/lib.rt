// What is printed of an answer (specs/Printed.antt), put into the text that waits to be written.
#![tactic(auto)]

ghost use Rattle.std.specs.Prelude.{[], ◌∷◌, ◌++◌, map, ◌+◌, ◌*◌, ◌≤◌, length};
ghost use Rattle.request.specs.Write.{digits, joined};
ghost use Rattle.ledger.specs.Calls.{told};
ghost use Rattle.stream_print.specs.Printed.{line, longest, Room, Wrote};
ghost use Rattle.stream_print.specs.Examples.{LineExamples};

use ledger::Answer;

// No answer's line is longer.
pub const LONGEST: usize = 36;

fn put_byte(text: &mut [u8], at: usize, x: u8) -> usize
    requires { Room text.old at 1 }
    ensures { Wrote text.old at (x ∷ []) text.new result }
{
    text[at] = x;
    at + 1
}

// By hand and not by `Display`: no clause of std's says of `write!` which bytes it puts into memory that is lent.
fn put_digits(text: &mut [u8], at: usize, n: u32) -> usize
    requires { Room text.old at (length (digits n)) }
    ensures { Wrote text.old at (digits n) text.new result }
{
    if n < 10 {
        return put_byte(text, at, b'0' + n as u8);
    }
    let i = put_digits(text, at, n / 10);
    put_byte(text, i, b'0' + (n % 10) as u8)
}

// A comma and a number.
fn put_field(text: &mut [u8], at: usize, n: u32) -> usize
    requires { Room text.old at 11 }
    ensures { Wrote text.old at (44 ∷ digits n) text.new result × (result ≤ at + 11) }
{
    let i = put_byte(text, at, b',');
    put_digits(text, i, n)
}

// `ok` or `no`
fn put_word(text: &mut [u8], at: usize, word: &[u8; 2]) -> usize
    requires { Room text.old at 2 }
    ensures { Wrote text.old at word.now text.new result }
{
    text[at..at + 2].copy_from_slice(word);
    at + 2
}

// A word, numbers and the line's end.
fn put_line(text: &mut [u8], at: usize, word: &[u8; 2], numbers: &[u32]) -> usize
    requires { Room text.old at (3 + 11 * length numbers.now) }
    ensures { Wrote text.old at (joined (word.now ∷ map digits numbers.now) ++ (10 ∷ []))
        text.new result × (result ≤ at + 3 + 11 * length numbers.now) }
{
    let mut i = put_word(text, at, word);
    for n in numbers {
        i = put_field(text, i, *n);
    }
    put_byte(text, i, b'\n')
}

// The line of an answer.
pub fn put_answer(text: &mut [u8], at: usize, a: Answer) -> usize
    requires { Room text.old at longest }
    ensures { Wrote text.old at (line (told a)) text.new result × (result ≤ at + longest) }
{
    match a {
        Answer::Accepted(n) => put_line(text, at, b"ok", &[n]),
        Answer::Counted(open, shut, placed) => put_line(text, at, b"ok", &[open, shut, placed]),
        Answer::Refused(n, step) => put_line(text, at, b"no", &[n, step]),
    }
}

// Lines that are printed, computed. The function does nothing: its `ensures` is what is proved.
pub fn lines_compute()
    ensures { LineExamples }
{}
