// A stream of bytes, taken piece by piece (document 01, "Kiosk"): each of its sheets is answered where it ends
// (stream_sheets/specs/Sheets.antt).
#![tactic(auto)]

ghost use Rattle.std.specs.Prelude.{◌≡◌, ◌++◌, ◌<◌, ◌≤◌, length, take};
ghost use Rattle.store.specs.Store.{Good};
ghost use Rattle.stream_print.specs.Printed.{longest, Room};
ghost use Rattle.stream.specs.Stream.{SameLent, of_parts, Said, Ready, Took, TookSome, Ended};

use step_rows::StepRows;
use store::Store;
use stream_sheets::MOST;

// How many bytes of the sheet are held, whether a line begins, and how many bytes of text wait to be written.
#[derive(Clone, Copy)]
pub struct Place {
    pub filled: usize,
    pub fresh: bool,
    pub text: usize,
}

// What is lent to answer a stream: the till and rows to work on, room for the sheet that has begun and for the text
// that waits; and the place.
#[derive(Drop)]
pub struct Kiosk<'a> {
    pub store: &'a mut Store,
    pub rows: &'a mut StepRows,
    pub begun: &'a mut [u8; MOST],
    pub text: &'a mut [u8],
    pub place: Place,
}

// Answers a sheet and puts the answer's line into the text.
fn answer(store: &mut Store, rows: &mut StepRows, sheet: &[u8], text: &mut [u8], at: usize) -> usize
    requires { Good store.old × Room text.old at longest }
    ensures { Said store.old sheet.now text.old at
        store.new text.new result }
{
    let a = call::call(store, sheet, rows);
    stream_print::put_answer(text, at, a)
}

impl Kiosk<'_> {
    // Answers the sheet whose first bytes are held and whose last are these. One of which none are held is answered
    // where it lies.
    fn answer_ended(&mut self, bytes: &[u8]) -> usize
        requires { Ready self.old 1 }
        ensures said { Said self.old.store.now (take self.old.place.filled self.old.begun.now ++ bytes.now)
            self.old.text.now self.old.place.text self.new.store.now self.new.text.now result }
        ensures kept { length self.new.begun.now ≡ length self.old.begun.now }
        ensures lent { SameLent self.old self.new }
    {
        let place = self.place;
        let none_held = place.filled == 0;
        if none_held {
            return answer(self.store, self.rows, bytes, self.text, place.text);
        }
        let filled = stream_sheets::keep(self.begun, place.filled, bytes);
        answer(
            self.store,
            self.rows,
            &self.begun[..filled],
            self.text,
            place.text,
        )
    }

    // Takes the bytes of a piece up to its first empty line, or all: how many.
    fn take_sheet(&mut self, piece: &[u8]) -> usize
        requires ready { Ready self.old (length piece.now) }
        requires piece_nonzero { 0 < length piece.now }
        ensures took { TookSome self.old piece.now self.new result }
        ensures long { length self.new.text.now ≡ length self.old.text.now }
        ensures lent { SameLent self.old self.new }
    {
        let place = self.place;
        match stream_sheets::sheet_end(piece, place.fresh) {
            Some(end) => {
                let text = self.answer_ended(&piece[..end]);
                self.place = Place {
                    filled: 0,
                    fresh: true,
                    text,
                };
                end + 1
            }
            None => {
                let filled = stream_sheets::keep(self.begun, place.filled, piece);
                self.place = Place {
                    filled,
                    fresh: stream_sheets::line_ends(piece),
                    text: place.text,
                };
                piece.len()
            }
        }
    }

    // Takes a piece of the input.
    pub fn feed(&mut self, piece: &[u8])
        requires { Ready self.old (length piece.now) }
        ensures took { Took self.old piece.now self.new }
        ensures long { length self.new.text.now ≡ length self.old.text.now }
        ensures lent { SameLent self.old self.new }
    {
        // no `for`: each turn takes as many bytes as its sheet has
        let mut rest = piece;
        while !rest.is_empty() {
            let taken = self.take_sheet(rest);
            rest = &rest[taken..];
        }
    }

    // The text that waits to be written.
    pub fn waiting(&self) -> &[u8]
        requires { self.now.place.text ≤ length self.now.text.now }
        ensures { result.now ≡ take self.now.place.text self.now.text.now }
    {
        &self.text[..self.place.text]
    }

    // The input has ended: bytes that no empty line has ended are one more sheet. How many bytes of text wait.
    pub fn finish(&mut self) -> usize
        requires { Ready self.old 1 }
        ensures ended { Ended self.old self.new.text.now result }
        ensures kept { self.new.begun.now ≡ self.old.begun.now }
        ensures place { self.new.place ≡ self.old.place }
        ensures long { length self.new.text.now ≡ length self.old.text.now }
        ensures lent { SameLent self.old self.new }
    {
        finish(self.store, self.rows, self.begun, self.text, self.place)
    }
}

// Takes a piece of the input, for one who keeps the place: what is lent then holds what a kiosk of it would.
pub fn feed(
    store: &mut Store,
    rows: &mut StepRows,
    begun: &mut [u8],
    text: &mut [u8],
    place: Place,
    piece: &[u8],
) -> Place
    requires { Ready (of_parts store.old begun.old text.old place) (length piece.now) }
    ensures { Took (of_parts store.old begun.old text.old place) piece.now
        (of_parts store.new begun.new text.new result) }
{
    let Some(begun) = begun.as_mut_array() else {
        return place;
    };
    let mut kiosk = Kiosk {
        store,
        rows,
        begun,
        text,
        place,
    };
    kiosk.feed(piece);
    kiosk.place
}

// The input has ended, for one who keeps the place, and the bytes of the sheet that has begun are only read.
pub fn finish(
    store: &mut Store,
    rows: &mut StepRows,
    begun: &[u8],
    text: &mut [u8],
    place: Place,
) -> usize
    requires { Ready (of_parts store.old begun.now text.old place) 1 }
    ensures { Ended (of_parts store.old begun.now text.old place) text.new result }
{
    let filled = place.filled;
    let ended = filled == 0;
    if ended {
        return place.text;
    }
    answer(store, rows, &begun[..filled], text, place.text)
}
