// The first line of a request (document 01: a sheet).
ghost use Rattle.std.specs.Prelude.{◌≡◌, ◌<◌, length, MatchOption, IfNone};
ghost use Rattle.request.specs.Read.{request_of};
ghost use Rattle.read_formulas.specs.Line.{read_line};
ghost use Rattle.read_heads.specs.First.{request_from, issue_fields, FirstIs, FirstAfter};

use crate::{First, Head};
use read_fields::Reader;
use read_formulas::formulas::{formula_line, interval};
use request::{Kind, ranges};

// A request of one line: nothing follows.
fn ended(r: &Reader<'_>) -> Option<()>
    ensures { MatchOption result (0 < length r.now.rest.now) (λ _. length r.now.rest.now ≡ 0) }
{
    r.rest.is_empty().then_some(())
}

// `word,` and a formula line
fn word(r: &mut Reader<'_>) -> Option<First>
    ensures { FirstAfter "word" r.old.rest.now r.new.rest.now result }
{
    let x = formula_line(r)?;
    ended(r)?;
    Some(First::Word(x))
}

// The fields of an issue after its kind.
fn issued(r: &mut Reader<'_>, k: Kind) -> Option<First>
    ensures { FirstIs (request_from (read_line (issue_fields k) r.old.rest.now)) r.new.rest.now result }
{
    let n = r.number(0, ranges::FORMULA_LAST, b',')?;
    let w = interval(r, b'\n')?;
    ended(r)?;
    Some(First::Issue(k, n, w))
}

// `issue,kind,wording,from,to,first,last`
fn issue(r: &mut Reader<'_>) -> Option<First>
    ensures { FirstAfter "issue" r.old.rest.now r.new.rest.now result }
{
    if r.past(b"s,") {
        return issued(r, Kind::Linear);
    }
    if r.past(b"r,") {
        return issued(r, Kind::Unrestricted);
    }
    None
}

// `withdraw,serial`
fn withdraw(r: &mut Reader<'_>) -> Option<First>
    ensures { FirstAfter "withdraw" r.old.rest.now r.new.rest.now result }
{
    let n = r.number(ranges::SERIAL_FIRST, ranges::SERIAL_LAST, b'\n')?;
    ended(r)?;
    Some(First::Withdraw(n))
}

// `tally,session,minute`
fn tally(r: &mut Reader<'_>) -> Option<First>
    ensures { FirstAfter "tally" r.old.rest.now r.new.rest.now result }
{
    let a = r.number(0, ranges::SESSION_LAST, b',')?;
    let m = r.number(0, ranges::MINUTE_LAST, b'\n')?;
    ended(r)?;
    Some(First::Tally(a, m))
}

// `book,now,wording,from,to,first,last,holds,steps`
fn book(r: &mut Reader<'_>) -> Option<First>
    ensures { FirstAfter "book" r.old.rest.now r.new.rest.now result }
{
    let now = r.number(0, ranges::MINUTE_LAST, b',')?;
    let formula = r.number(0, ranges::FORMULA_LAST, b',')?;
    let interval = interval(r, b',')?;
    let holds = r.number(0, ranges::HOLDS_LAST, b',')?;
    let steps = r.number(ranges::STEPS_FIRST, ranges::STEPS_LAST, b'\n')?;
    Some(First::Book(Head {
        now,
        formula,
        interval,
        holds,
        steps,
    }))
}

// What the bytes of a request say, by their word. Where the form is broken, the reader may have moved.
fn read_request(r: &mut Reader<'_>) -> Option<First>
    ensures { FirstIs (request_of r.old.rest.now) r.new.rest.now result }
{
    if r.past(b"word,") {
        return word(r);
    }
    if r.past(b"issue,") {
        return issue(r);
    }
    if r.past(b"withdraw,") {
        return withdraw(r);
    }
    if r.past(b"book,") {
        return book(r);
    }
    if r.past(b"tally,") {
        return tally(r);
    }
    None
}

// What the bytes of a request say, up to the lines after a booking's head, which are left.
pub fn read_first(r: &mut Reader<'_>) -> Option<First>
    ensures read { FirstIs (request_of r.old.rest.now) r.new.rest.now result }
    ensures kept { IfNone result (r.new.rest.now ≡ r.old.rest.now) }
{
    let mut at = *r;
    let first = read_request(&mut at)?;
    *r = at;
    Some(first)
}
