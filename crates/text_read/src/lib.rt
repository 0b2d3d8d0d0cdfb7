// The ledger as text, read (document 02: opening the till): its lines one after another, and whether the whole has its
// form (refusal 50).
#![tactic(auto)]

ghost use Rattle.std.specs.Prelude.{◌≡◌, IfNone};
ghost use Rattle.request.specs.Read.{formula_line};
ghost use Rattle.snapshot.specs.Snapshot.{counts, title_line, credential_line};
ghost use Rattle.read_fields.specs.Field.{read_of};
ghost use Rattle.read_formulas.specs.Line.{read_line};
ghost use Rattle.text_read.specs.TextForm.{after_kind, past_of, lines_past, rising_past};
ghost use Rattle.text_read.specs.TextForm.{holders_in, TitleIs, FormIs};

use call_checks::{Verdict, tested};
use ledger::Credential;
use read_fields::Reader;
use read_formulas::formulas::{formula_line, interval};
use request::{Kind, ranges};
use snapshot::{Edition, Title};

// No text that is read is longer (specs/Snapshot.antt, `longest_text`): the first line, the formula lines and the
// credential lines at their longest.
pub const LONGEST_TEXT: usize = 105_384;

// `next,wordings,coupons`, the fields of a first line after its edition.
fn read_counts(r: &mut Reader<'_>, edition: Edition) -> Option<Title>
    ensures { read_of result r.new.rest.now ≡ read_line (counts edition) r.old.rest.now }
{
    let next = r.number(ranges::NEXT_SERIAL_FIRST, ranges::NEXT_SERIAL_LAST, b',')?;
    let lines = r.number(0, ledger::MAX_FORMULAS, b',')?;
    let live = r.number(0, ledger::MAX_LIVE, b'\n')?;
    Some(Title {
        edition,
        next,
        lines,
        live,
    })
}

// `till,1,next,wordings,coupons`, or `till,2`
fn read_title(r: &mut Reader<'_>) -> Option<Title>
    ensures { read_of result r.new.rest.now ≡ read_line title_line r.old.rest.now }
{
    if !r.past(b"till,") {
        return None;
    }
    if r.past(b"1,") {
        return read_counts(r, Edition::First);
    }
    if r.past(b"2,") {
        return read_counts(r, Edition::Second);
    }
    None
}

// The fields of a credential after its kind.
fn credential_rest(r: &mut Reader<'_>, serial: u32, kind: Kind) -> Option<Credential>
    ensures { read_of result r.new.rest.now ≡ read_line (after_kind serial kind) r.old.rest.now }
{
    let formula = r.number(0, ranges::FORMULA_LAST, b',')?;
    let interval = interval(r, b'\n')?;
    Some(Credential {
        serial,
        kind,
        formula,
        interval,
    })
}

// `serial,kind,wording,from,to,first,last`. Where the line is broken, the reader may have moved.
fn read_credential(r: &mut Reader<'_>) -> Option<Credential>
    ensures { read_of result r.new.rest.now ≡ read_line credential_line r.old.rest.now }
{
    let serial = r.number(ranges::SERIAL_FIRST, ranges::SERIAL_LAST, b',')?;
    if r.past(b"s,") {
        return credential_rest(r, serial, Kind::Linear);
    }
    if r.past(b"r,") {
        return credential_rest(r, serial, Kind::Unrestricted);
    }
    None
}

// A credential's line (document 02: a coupon's).
pub fn credential_line(r: &mut Reader<'_>) -> Option<Credential>
    ensures read { read_of result r.new.rest.now ≡ read_line credential_line r.old.rest.now }
    ensures kept { IfNone result (r.new.rest.now ≡ r.old.rest.now) }
{
    let mut at = *r;
    let credential = read_credential(&mut at)?;
    *r = at;
    Some(credential)
}

// Passes over `count` formula lines.
fn past_formulas(r: &mut Reader<'_>, count: u32) -> Option<()>
    ensures { past_of result r.new.rest.now ≡ lines_past count formula_line r.old.rest.now }
{
    for _ in 0..count {
        formula_line(r)?;
    }
    Some(())
}

// Whether one of `count` formula lines is `n` or `q`; none after a line that is broken is asked.
fn holders_in(r: &mut Reader<'_>, count: u32) -> bool
    ensures { result ≡ holders_in count r.old.rest.now }
{
    for _ in 0..count {
        let Some(row) = formula_line(r) else {
            return false;
        };
        let found = text_edition::holder_letter(row.letter);
        if found {
            return true;
        }
    }
    false
}

// Passes over `count` credential lines, serials rising.
fn past_credentials(r: &mut Reader<'_>, count: u32) -> Option<()>
    ensures { past_of result r.new.rest.now ≡ rising_past 0 count r.old.rest.now }
{
    let mut last = 0;
    for _ in 0..count {
        let credential = credential_line(r)?;
        if credential.serial <= last {
            return None;
        }
        last = credential.serial;
    }
    Some(())
}

// What the first line says of a text that may have its form, of which the reader has all; none: 50.
pub fn text_title(r: &mut Reader<'_>) -> Option<Title>
    ensures read { TitleIs r.old.rest.now r.new.rest.now result }
    ensures kept { IfNone result (r.new.rest.now ≡ r.old.rest.now) }
{
    let too_long = LONGEST_TEXT < r.rest.len();
    if too_long {
        return None;
    }
    let mut at = *r;
    let title = read_title(&mut at)?;
    *r = at;
    Some(title)
}

// 50: the text has not its form: what its first line announces, serials rising, and nothing after it; and a first line
// that closing would write.
pub fn text_form(text: &[u8]) -> Verdict
    ensures { FormIs text.now result }
{
    let mut r = Reader { rest: text };
    let Some(title) = text_title(&mut r) else {
        return Verdict::Failed;
    };
    let mut lines = r;
    let Some(()) = past_formulas(&mut r, title.lines) else {
        return Verdict::Failed;
    };
    let Some(()) = past_credentials(&mut r, title.live) else {
        return Verdict::Failed;
    };
    let bytes_left = !r.rest.is_empty();
    if bytes_left {
        return Verdict::Failed;
    }
    let holders = holders_in(&mut lines, title.lines);
    let own = text_edition::edition_by(holders, title.live);
    tested(!text_edition::same(title.edition, own))
}
