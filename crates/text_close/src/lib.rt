// Closing (document 02, ask 5): the ledger written as text into a lent buffer. Its length is worked out first, so that
// a buffer that is too short stays as it was.
#![tactic(auto)]

ghost use Rattle.std.specs.Prelude.{◌≡◌, ◌<◌};
ghost use Rattle.snapshot.specs.Snapshot.{text, title_of};
ghost use Rattle.store_cells.specs.Layout.{row_count};
ghost use Rattle.store.specs.Store.{ledger_of, Good};
ghost use Rattle.text_write.specs.Put.{Put, Room, Measured};
ghost use Rattle.text_close.specs.Lines.{title_text, formula_lines, row_text, row_lines, body_lines, ClosedAs};

use call_checks::{Verdict, tested};
use ledger::{Answer, Refusal};
use snapshot::Title;
use store::Store;
use store_cells::credentials;

fn title_of(store: &Store) -> Title
    requires { Good store.now }
    ensures { result ≡ title_of (ledger_of store.now) }
{
    Title {
        edition: text_edition::edition_of(store),
        next: store::next_serial(store),
        lines: store::formula_count(store),
        live: store::live_count(store),
    }
}

// Lengths: of the first line, of the formula lines, of the credentials' lines; a gap has none. The loops over formula
// lines and over rows stay two, here and in the writers: one over a closure is no plainer, since the closure that
// measures or writes a line would state that line's text in clauses as long as the loop.

fn title_length(store: &Store) -> usize
    requires { Good store.now }
    ensures { Measured (title_text store.now) 40 result }
{
    text_write::title_length(title_of(store))
}

fn formulas_length(store: &Store) -> usize
    requires { Good store.now }
    ensures { Measured (formula_lines store.now) 18000 result }
{
    let mut at = 0;
    for i in 0..store::formula_count(store) {
        at += text_write::formula_length(store::line_at(store, i));
    }
    at
}

fn row_length(store: &Store, i: u32) -> usize
    requires { Good store.now × (i < row_count store.now) }
    ensures { Measured (row_text store.now i) 68 result }
{
    let left = credentials::kind_at(store, i).is_none();
    if left {
        return 0;
    }
    text_write::credential_length(store::credential_at(store, i))
}

fn rows_length(store: &Store) -> usize
    requires { Good store.now }
    ensures { Measured (row_lines store.now) 278528 result }
{
    let mut at = 0;
    for i in 0..store::row_count(store) {
        at += row_length(store, i);
    }
    at
}

pub fn text_length(store: &Store) -> usize
    requires { Good store.now }
    ensures { Measured (text (ledger_of store.now)) 296568 result }
{
    title_length(store) + formulas_length(store) + rows_length(store)
}

// The writers, each into the unwritten rest of the buffer

fn put_title(rest: &mut [u8], store: &Store) -> usize
    requires { Good store.now × Room rest.old (title_text store.now) }
    ensures { Put rest.old (title_text store.now) rest.new result }
{
    text_write::put_title(rest, title_of(store))
}

fn put_formulas(rest: &mut [u8], store: &Store) -> usize
    requires { Good store.now × Room rest.old (formula_lines store.now) }
    ensures { Put rest.old (formula_lines store.now) rest.new result }
{
    let mut at = 0;
    for i in 0..store::formula_count(store) {
        at += text_write::put_formula(&mut rest[at..], store::line_at(store, i));
    }
    at
}

fn put_row(rest: &mut [u8], store: &Store, row: u32) -> usize
    requires { Good store.now × (row < row_count store.now) × Room rest.old (row_text store.now row) }
    ensures { Put rest.old (row_text store.now row) rest.new result }
{
    let left = credentials::kind_at(store, row).is_none();
    if left {
        return 0;
    }
    text_write::put_credential(rest, store::credential_at(store, row))
}

fn put_rows(rest: &mut [u8], store: &Store) -> usize
    requires { Good store.now × Room rest.old (row_lines store.now) }
    ensures { Put rest.old (row_lines store.now) rest.new result }
{
    let mut at = 0;
    for i in 0..store::row_count(store) {
        at += put_row(&mut rest[at..], store, i);
    }
    at
}

fn put_lines(rest: &mut [u8], store: &Store) -> usize
    requires { Good store.now × Room rest.old (body_lines store.now) }
    ensures { Put rest.old (body_lines store.now) rest.new result }
{
    let i = put_formulas(rest, store);
    let j = put_rows(&mut rest[i..], store);
    i + j
}

fn put_text(rest: &mut [u8], store: &Store) -> usize
    requires { Good store.now × Room rest.old (text (ledger_of store.now)) }
    ensures { Put rest.old (text (ledger_of store.now)) rest.new result }
{
    let i = put_title(rest, store);
    let j = put_lines(&mut rest[i..], store);
    i + j
}

// "closing gives 52 if the buffer is too short, the buffer then untouched"
pub fn close(store: &Store, buffer: &mut [u8]) -> Answer
    requires { Good store.now }
    ensures { ClosedAs (ledger_of store.now) buffer.old result buffer.new }
{
    let n = text_length(store);
    let Verdict::Passed = tested(buffer.len() < n) else {
        return Answer::Refused(Refusal::BufferTooShort as u32, 0);
    };
    put_text(buffer, store);
    Answer::Accepted(n as u32)
}
