// Standard input, output and error. No contract can say which bytes a read gives and where a write puts them. So
// `receive` and `send`, a call of the library's each, are to be read, with `read_once` and `write_whole`, which make
// it: that the piece which `receive` leaves is the one that was read into, that `send` writes the text's first bytes,
// that each descriptor is that of its stream, and that the call's answer is what is noted. The notes no other crate
// can make or change, and of which bytes came in and went out it knows what these two contracts say.
#![tactic(auto)]

ghost use Rattle.std.specs.Prelude.{◌≡◌, ◌≢◌, ◌≤◌, [], length, take, pos, negsuc, false, None};
ghost use Rattle.stream_console.specs.Console.{unread, unwritten, noted, handed, CameIn, WentOut};
ghost use Rattle.stream_console.specs.Console.{answer_of, clamp_len, Moved, Received, Sent, GoesOn};

use std::io::{Read, Stderr, Stdin, Stdout};

// A descriptor to read from; the reads and the bytes read, both modulo 2^64; the bytes that the last read gave, whether
// it gave none, and whether it failed.
#[derive(Clone, Copy)]
pub struct Input {
    // numbers and flags, and no enum or Option: `unread` and `noted`, which public contracts cite, have these fields
    from: i32,
    reads: u64,
    bytes: u64,
    got: usize,
    ended: bool,
    misread: bool,
}

// A descriptor to write to; the bytes handed to it, modulo 2^64; those of the last write, and whether it failed.
#[derive(Clone, Copy)]
pub struct Output {
    to: i32,
    bytes: u64,
    put: usize,
    failed: bool,
}

// What there is to read from and to write to: the descriptors 0, 1 and 2.
#[derive(Clone, Copy)]
pub struct Streams {
    pub stdin: Stdin,
    pub stdout: Stdout,
    pub stderr: Stderr,
}

// Nothing is read yet.
pub fn reading(from: i32) -> Input
    ensures { (result ≡ unread from) × CameIn result [] }
{
    Input {
        from,
        reads: 0,
        bytes: 0,
        got: 0,
        ended: false,
        misread: false,
    }
}

// Nothing is written yet.
pub fn writing(to: i32) -> Output
    ensures { (result ≡ unwritten to) × WentOut result [] }
{
    Output {
        to,
        bytes: 0,
        put: 0,
        failed: false,
    }
}

// Reads once. A read that fails gives nothing, and a read of another descriptor than 0 fails.
pub fn receive(streams: Streams, input: Input, piece: &mut [u8]) -> Input
    ensures received { Received input piece.new result }
    ensures elsewhere { input.from ≢ pos 0 → (result ≡ noted input (negsuc 0) 0) × (piece.new ≡ piece.old) }
{
    let given = read_once(streams, input.from, piece);
    note_read(input, given, piece)
}

// Writes the first n bytes of the text. A write to another descriptor than 1 and 2 fails.
pub fn send(streams: Streams, output: Output, text: &[u8], n: usize) -> Output
    requires { n ≤ length text.now }
    ensures sent { Sent output (take n text.now) result }
    ensures elsewhere { output.to ≢ pos 1 → output.to ≢ pos 2 → result ≡ handed output n false }
{
    let written = write_whole(streams, output.to, &text[..n]);
    note_written(output, n, written)
}

// A read, of standard input alone: how many bytes it gave, if it did not fail.
fn read_once(streams: Streams, from: i32, piece: &mut [u8]) -> Option<usize>
    ensures moved { Moved (length piece.new) (answer_of result) }
    ensures elsewhere { from ≢ pos 0 → (result ≡ None) × (piece.new ≡ piece.old) }
{
    if from != 0 {
        return None;
    }
    let mut stdin = streams.stdin;
    stdin.read(piece).ok()
}

// A write, to standard output or error alone: whether all of the text was written.
fn write_whole(streams: Streams, to: i32, text: &[u8]) -> bool
    ensures { to ≢ pos 1 → to ≢ pos 2 → result ≡ false }
{
    match to {
        1 => streams.stdout.write_all(text).is_ok(),
        2 => streams.stderr.write_all(text).is_ok(),
        _ => false,
    }
}

// What a read was answered, noted.
fn note_read(input: Input, given: Option<usize>, piece: &[u8]) -> Input
    ensures { result ≡ noted input (answer_of given) (length piece.now) }
{
    let from = input.from;
    let got = count(given, piece);
    let reads = input.reads.wrapping_add(1);
    let bytes = input.bytes.wrapping_add(got as u64);
    Input {
        from,
        reads,
        bytes,
        got,
        ended: got == 0,
        misread: given.is_none(),
    }
}

// How many bytes of the piece a read gave by its answer: none where it failed, and never more than there are.
fn count(given: Option<usize>, piece: &[u8]) -> usize
    ensures { result ≡ clamp_len (answer_of given) (length piece.now) }
{
    given.unwrap_or(0).min(piece.len())
}

// What a write was answered, noted.
fn note_written(output: Output, n: usize, written: bool) -> Output
    ensures { result ≡ handed output n written }
{
    let to = output.to;
    let bytes = output.bytes.wrapping_add(n as u64);
    Output {
        to,
        bytes,
        put: n,
        failed: !written,
    }
}

// The bytes that the last read gave.
pub fn got(input: Input) -> usize
    ensures { result ≡ input.got }
{
    input.got
}

// Whether the last read failed.
pub fn misread(input: Input) -> bool
    ensures { result ≡ input.misread }
{
    input.misread
}

// Whether the last write failed.
pub fn failed(output: Output) -> bool
    ensures { result ≡ output.failed }
{
    output.failed
}

// Whether to read on. A proved loop has to end, and nothing says that the input does, so the reads are counted up to a
// number that no run reaches.
pub fn goes_on(input: Input, output: Output) -> bool
    ensures { GoesOn input output result }
{
    if input.ended {
        return false;
    }
    if output.failed {
        return false;
    }
    input.reads < u64::MAX
}
