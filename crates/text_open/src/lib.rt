// Opening a text (document 02: the till read again): 50, then 51. The ledger is built in a spare block, by word's and
// issue's own code, and only a good one takes the till's place; where it cannot be built, the form of the whole text
// says which of the two it is.
#![tactic(auto)]

ghost use Rattle.std.specs.Prelude.{◌≡◌};
ghost use Rattle.std.proofs.Math.Option.{none};
ghost use Rattle.store.specs.Store.{line_of, ledger_of, Good};
ghost use Rattle.store_credentials.specs.NextSerial.{Raisable};
ghost use Rattle.text_open.specs.Opened.{AcceptedIs, left_of, LineAsked, line_added, LinesAsked, lines_added};
ghost use Rattle.text_open.specs.Opened.{lines_left, CredentialAsked, credential_added, LiveAsked};
ghost use Rattle.text_open.specs.Opened.{credentials_added, passing, Built, RefusalIs, Opened};

use call_checks::Verdict;
use ledger::{Answer, Credential, Refusal};
use read_fields::Reader;
use read_formulas::formulas::formula_line;
use steps::Row;
use store::Store;
use text_read::{credential_line, text_form, text_title};

// An answer that accepts, or none.
fn accepted(a: Answer) -> Option<()>
    ensures { AcceptedIs a result }
{
    match a {
        Answer::Accepted(_) => Some(()),
        Answer::Counted(..) => Some(()),
        Answer::Refused(..) => None,
    }
}

// A formula line comes, as by word.
fn take_line(spare: &mut Store, row: Row) -> Option<()>
    requires { LineAsked spare.old row }
    ensures result_after { left_of spare.new result ≡ line_added (ledger_of spare.old) (line_of row) }
    ensures good { Good spare.new }
{
    accepted(call_word::word(spare, row))
}

// `count` formula lines come, unless one breaks a rule.
fn take_lines(spare: &mut Store, r: &mut Reader<'_>, count: u32) -> Option<()>
    requires { LinesAsked spare.old count }
    ensures result_after { lines_left r.new.rest.now spare.new result
        ≡ lines_added (ledger_of spare.old) count r.old.rest.now }
    ensures good { Good spare.new }
{
    for _ in 0..count {
        let row = formula_line(r)?;
        take_line(spare, row)?;
    }
    Some(())
}

// A credential comes with its serial, as by issue; serials rise, and `next` is above them.
fn take_credential(spare: &mut Store, c: Credential, next: u32) -> Option<()>
    requires { CredentialAsked spare.old c next }
    ensures result_after { left_of spare.new result ≡ credential_added next (ledger_of spare.old) c }
    ensures raisable { Raisable spare.new next }
{
    if c.serial < store::next_serial(spare) {
        return None;
    }
    if next <= c.serial {
        return None;
    }
    store_credentials::set_next(spare, c.serial);
    accepted(call_credentials::issue(spare, c.kind, c.formula, c.interval))
}

// `count` credential lines come, unless one breaks a rule or its serial does not rise or is not below `next`.
fn take_credentials(spare: &mut Store, r: &mut Reader<'_>, count: u32, next: u32) -> Option<()>
    requires { LiveAsked spare.old count next }
    ensures result_after { lines_left r.new.rest.now spare.new result
        ≡ credentials_added next (ledger_of spare.old) count r.old.rest.now }
    ensures raisable { Raisable spare.new next }
{
    for _ in 0..count {
        let credential = credential_line(r)?;
        take_credential(spare, credential, next)?;
    }
    Some(())
}

// The ledger of a text, in one pass, unless that fails 50 or 51.
fn build(spare: &mut Store, text: &[u8]) -> Option<()>
    ensures { Built text.now spare.new result }
{
    let mut r = Reader { rest: text };
    let title = text_title(&mut r)?;
    store::start(spare);
    take_lines(spare, &mut r, title.lines)?;
    take_credentials(spare, &mut r, title.live, title.next)?;
    let bytes_left = !r.rest.is_empty();
    if bytes_left {
        return None;
    }
    store_credentials::set_next(spare, title.next);
    let own = text_edition::edition_of(spare);
    text_edition::same(title.edition, own).then_some(())
}

// 50, then 51, of a text that fails one of them.
fn refusal(text: &[u8]) -> Answer
    requires { passing text.now ≡ none }
    ensures { RefusalIs text.now result }
{
    let Verdict::Passed = text_form(text) else {
        return Answer::Refused(Refusal::BadText as u32, 0);
    };
    Answer::Refused(Refusal::TextBreaksRule as u32, 0)
}

// Opening: 50, 51, or the text's ledger takes the place of whatever the till's block held, and the answer is the text's
// length. The spare block is room to work in. A text that is opened is read once.
pub fn open(till: &mut Store, spare: &mut Store, text: &[u8]) -> Answer
    ensures { Opened till.old text.now result till.new }
{
    let Some(()) = build(spare, text) else {
        return refusal(text);
    };
    *till = *spare;
    Answer::Accepted(text.len() as u32)
}
