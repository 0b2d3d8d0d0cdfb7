// `tillrun` (document 01, "Kiosk"): reads sheets from standard input and prints their answers, starting with an empty
// till. What is read in one piece is answered and written before more input is waited for. What could not be read or
// written, and arguments, get a line on standard error.
#![tactic(auto)]

ghost use Rattle.std.specs.Prelude.{◌≡◌, length};
ghost use Rattle.request.specs.Range.{max_bytes};
ghost use Rattle.ledger.specs.Ledger.{empty};
ghost use Rattle.store.specs.Store.{StandsFor};
ghost use Rattle.stream.specs.Stream.{SameLent, Ready};
ghost use Rattle.tillrun.specs.Program.{Opened, Turned, Played};
ghost use Rattle.tillrun.specs.Complaints.{Said, Warned, Complained};

use request::ranges;
use std::env::FillError;
use std::rt::Env;
use step_rows::StepRows;
use store::Store;
use stream::{Kiosk, Place};
use stream_console::{Input, Output, Streams};

// What is read at once.
const PIECE: usize = ranges::MAX_BYTES;

// The answers to the sheets of a piece, each of which takes a byte at least.
const TEXT: usize = stream_print::LONGEST * PIECE;

// What has been read and written.
#[derive(Clone, Copy)]
struct Run {
    input: Input,
    output: Output,
}

// Nothing is read yet.
fn opened<'a>(
    store: &'a mut Store,
    rows: &'a mut StepRows,
    begun: &'a mut [u8; stream_sheets::MOST],
    text: &'a mut [u8; TEXT],
) -> Kiosk<'a>
    requires { StandsFor store.old empty }
    ensures opened { Opened result max_bytes }
    ensures lent { (result.store.ghost_name ≡ store.entry.ghost_name)
        × (result.rows.ghost_name ≡ rows.entry.ghost_name)
        × (result.begun.ghost_name ≡ begun.entry.ghost_name) }
{
    Kiosk {
        store,
        rows,
        begun,
        text,
        place: Place {
            filled: 0,
            fresh: true,
            text: 0,
        },
    }
}

// Reads once, answers what came and writes the answers.
fn next_piece(streams: Streams, kiosk: &mut Kiosk, piece: &mut [u8], run: Run) -> Run
    requires { Ready kiosk.old (length piece.old) }
    ensures turned { Turned kiosk.old run kiosk.new piece.new result }
    ensures lent { SameLent kiosk.old kiosk.new }
{
    let input = stream_console::receive(streams, run.input, piece);
    let n = stream_console::got(input);
    kiosk.feed(&piece[..n]);
    let waiting = kiosk.waiting();
    let output = stream_console::send(streams, run.output, waiting, waiting.len());
    kiosk.place.text = 0;
    Run { input, output }
}

// Plays the input to its end. Where the answers cannot be written, the sheet that has begun is left.
fn play(streams: Streams, kiosk: &mut Kiosk, piece: &mut [u8; PIECE]) -> Run
    requires { Opened kiosk.old max_bytes }
    ensures { Played result.input result.output }
{
    let mut run = Run {
        input: stream_console::reading(0),
        output: stream_console::writing(1),
    };
    // no `for`: the reads are counted in the notes, up to the number that `Stopped` names
    while stream_console::goes_on(run.input, run.output) {
        run = next_piece(streams, kiosk, piece, run);
    }
    let Run { input, output } = run;
    let failed = stream_console::failed(output);
    if failed {
        return run;
    }
    let end = kiosk.finish();
    Run {
        input,
        output: stream_console::send(streams, output, kiosk.text, end),
    }
}

// Writes a line, where it is to be said. Whether that fails is of no concern.
fn say(streams: Streams, errors: Output, wrong: bool, line: &[u8]) -> Output
    ensures { Said errors wrong line.now result }
{
    if wrong {
        return stream_console::send(streams, errors, line, line.len());
    }
    errors
}

// Says that arguments are not taken, where there is one beside the program's own name.
fn warn(streams: Streams, words: usize) -> Output
    ensures { Warned words result }
{
    let errors = stream_console::writing(2);
    say(
        streams,
        errors,
        1 < words,
        b"tillrun: takes no arguments; sheets are read from standard input, as in: tillrun <FILE\n",
    )
}

// Says what could not be done.
fn complain(streams: Streams, errors: Output, run: Run) -> Output
    ensures { Complained errors run.input run.output result }
{
    let unread = stream_console::misread(run.input);
    let then = say(
        streams,
        errors,
        unread,
        b"tillrun: the input could not be read; it is taken to end there\n",
    );
    let unwritten = stream_console::failed(run.output);
    say(
        streams,
        then,
        unwritten,
        b"tillrun: the answers could not be written; nothing more is read\n",
    )
}

// How many arguments the program was started with, its own name among them. It takes the runtime as it is and not by a
// trait, so that the check rests on the one call that it makes.
fn arg_count(rt: &HostRuntime) -> usize {
    let mut front = [0u8; 1];
    for i in 0..usize::MAX {
        if let Err(FillError::NotPresent) = rt.arg(i, &mut front) {
            return i;
        }
    }
    usize::MAX
}

fn main(rt: HostRuntime) {
    let streams = Streams {
        stdin: rt.stdin(),
        stdout: rt.stdout(),
        stderr: rt.stderr(),
    };
    let errors = warn(streams, arg_count(&rt));
    let mut store = [0u32; store_cells::CELLS];
    store::start(&mut store);
    let mut begun = [0u8; stream_sheets::MOST];
    let mut text = [0u8; TEXT];
    let mut piece = [0u8; PIECE];
    let mut rows = [0u32; step_rows::STEP_CELLS];
    let mut kiosk = opened(&mut store, &mut rows, &mut begun, &mut text);
    let run = play(streams, &mut kiosk, &mut piece);
    complain(streams, errors, run);
}
