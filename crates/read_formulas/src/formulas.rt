// Intervals and formula lines (document 01: windows and wording lines).
ghost use Rattle.std.specs.Prelude.{◌≡◌, IfNone};
ghost use Rattle.request.specs.Read.{formula_line};
ghost use Rattle.ledger.specs.Table.{lettered as lettered_of};
ghost use Rattle.read_fields.specs.Field.{Stop, read_of};
ghost use Rattle.read_formulas.specs.Line.{read_line, interval_to, one_field, two_fields, at_fields, superset_fields};
ghost use Rattle.read_formulas.specs.Line.{named_fields, rowed};
ghost use Rattle.read_formulas.specs.Line.{TwoAsked};

use logic::Interval;
use read_fields::Reader;
use request::ranges;
use steps::{Row, letters};

// `from,to,first,last`, which the byte `stop` ends.
#[tactic(auto, unfolding(crate::specs::Line::interval_to, request::specs::Text::and_then))]
pub fn interval(r: &mut Reader<'_>, stop: u8) -> Option<Interval>
    requires { Stop stop }
    ensures read { read_of result r.new.rest.now ≡ interval_to stop r.old.rest.now }
    ensures kept { IfNone result (r.new.rest.now ≡ r.old.rest.now) }
{
    let mut at = *r;
    let from = at.number(0, ranges::MINUTE_LAST, b',')?;
    let to = at.number(0, ranges::MINUTE_LAST, b',')?;
    let first = at.number(0, ranges::MINUTE_LAST, b',')?;
    let last = at.number(0, ranges::MINUTE_LAST, stop)?;
    *r = at;
    Some(Interval {
        from,
        to,
        first,
        last,
    })
}

// A letter and two numbers, without holder and intervals.
fn lettered(letter: u32, a: u32, b: u32) -> Row
    ensures { result ≡ lettered_of letter a b }
{
    let i = intervals::none();
    Row {
        letter,
        a,
        b,
        holder: 0,
        first: i,
        second: i,
    }
}

#[tactic(auto, unfolding(crate::specs::Line::one_field, request::specs::Text::and_then))]
fn one_field(r: &mut Reader<'_>, letter: u32) -> Option<Row>
    ensures { read_of result r.new.rest.now ≡ one_field letter r.old.rest.now }
{
    let a = r.number(0, ranges::FORMULA_LAST, b'\n')?;
    Some(lettered(letter, a, 0))
}

#[tactic(auto, unfolding(crate::specs::Line::two_fields, request::specs::Text::and_then))]
fn two_fields(r: &mut Reader<'_>, letter: u32, m: u32, n: u32) -> Option<Row>
    requires { TwoAsked m n }
    ensures { read_of result r.new.rest.now ≡ two_fields letter m n r.old.rest.now }
{
    let a = r.number(0, m, b',')?;
    let b = r.number(0, n, b'\n')?;
    Some(lettered(letter, a, b))
}

#[tactic(auto, unfolding(crate::specs::Line::at_fields, request::specs::Text::and_then))]
fn at_fields(r: &mut Reader<'_>, letter: u32) -> Option<Row>
    ensures { read_of result r.new.rest.now ≡ at_fields letter r.old.rest.now }
{
    let a = r.number(0, ranges::FORMULA_LAST, b',')?;
    let w = interval(r, b'\n')?;
    Some(Row {
        letter,
        a,
        b: 0,
        holder: 0,
        first: w,
        second: intervals::none(),
    })
}

#[tactic(auto, unfolding(crate::specs::Line::superset_fields, request::specs::Text::and_then))]
fn superset_fields(r: &mut Reader<'_>, letter: u32) -> Option<Row>
    ensures { read_of result r.new.rest.now ≡ superset_fields letter r.old.rest.now }
{
    let v = interval(r, b',')?;
    let w = interval(r, b'\n')?;
    Some(Row {
        letter,
        a: 0,
        b: 0,
        holder: 0,
        first: v,
        second: w,
    })
}

// `n`: a predicate, a session, a holder
#[tactic(auto, unfolding(crate::specs::Line::named_fields, request::specs::Text::and_then))]
fn named_fields(r: &mut Reader<'_>, letter: u32) -> Option<Row>
    ensures { read_of result r.new.rest.now ≡ named_fields letter r.old.rest.now }
{
    let a = r.number(0, ranges::PREDICATE_LAST, b',')?;
    let b = r.number(0, ranges::SESSION_LAST, b',')?;
    let holder = r.number(0, ranges::HOLDER_LAST, b'\n')?;
    let none = intervals::none();
    Some(Row {
        letter,
        a,
        b,
        holder,
        first: none,
        second: none,
    })
}

// One of the 13 formula lines, by its letter. Where it is broken, the reader may have moved.
fn read_formula(r: &mut Reader<'_>) -> Option<Row>
    ensures { read_of result r.new.rest.now ≡ rowed (read_line formula_line r.old.rest.now) }
{
    let [letter, stop, after @ ..] = r.rest else {
        return None;
    };
    let x = u32::from(*letter);
    r.rest = after;
    if x == letters::ONE {
        if *stop == b'\n' {
            return Some(lettered(letters::ONE, 0, 0));
        }
        return None;
    }
    if *stop != b',' {
        return None;
    }
    // One arm a letter, as the document lists the lines: grouped by their fields, the arms are no plainer.
    match x {
        letters::ATOM => two_fields(r, x, ranges::PREDICATE_LAST, ranges::SESSION_LAST),
        letters::BANG => one_field(r, x),
        letters::SUPERSET => superset_fields(r, x),
        letters::AT => at_fields(r, x),
        letters::SAYS => two_fields(r, x, ranges::PRINCIPAL_LAST, ranges::FORMULA_LAST),
        letters::LOLLI => two_fields(r, x, ranges::FORMULA_LAST, ranges::FORMULA_LAST),
        letters::PLUS => two_fields(r, x, ranges::FORMULA_LAST, ranges::FORMULA_LAST),
        letters::TENSOR => two_fields(r, x, ranges::FORMULA_LAST, ranges::FORMULA_LAST),
        letters::IMPLIES => two_fields(r, x, ranges::FORMULA_LAST, ranges::FORMULA_LAST),
        letters::WITH => two_fields(r, x, ranges::FORMULA_LAST, ranges::FORMULA_LAST),
        letters::NAMED => named_fields(r, x),
        letters::FOR_EVERY => one_field(r, x),
        _ => None,
    }
}

// One of the 13 formula lines.
pub fn formula_line(r: &mut Reader<'_>) -> Option<Row>
    ensures read { read_of result r.new.rest.now ≡ rowed (read_line formula_line r.old.rest.now) }
    ensures kept { IfNone result (r.new.rest.now ≡ r.old.rest.now) }
{
    let mut at = *r;
    let row = read_formula(&mut at)?;
    *r = at;
    Some(row)
}
