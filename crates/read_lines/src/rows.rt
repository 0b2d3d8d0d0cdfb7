// Step lines as rows.
ghost use Rattle.std.specs.Prelude.{◌≡◌, [], ◌∷◌, ◌+◌, ◌*◌, unwrap_or, IfNone};
ghost use Rattle.logic.specs.Interval.{no_interval};
ghost use Rattle.request.specs.Read.{step_line};
ghost use Rattle.read_formulas.specs.Line.{read_line};
ghost use Rattle.step_rows.specs.StepRows.{half, step_row, tr_number, al_number, ll_number, ul_number, no_step};
ghost use Rattle.read_lines.specs.Step.{op_of, step_reader, label_reader, step_line_of};

use read_fields::Reader;
use read_formulas::formulas::interval;
use request::ranges;
use step_rows::lines::HALF;
use step_rows::{StepRow, ops};

// The number of the step whose word is the two letters, if it is one.
#[tactic(auto, using(crate::proofs::Ops::op_letters))]
fn op_of(a: u8, b: u8) -> Option<u32>
    ensures { unwrap_or result no_step ≡ op_of (a ∷ b ∷ []) }
{
    Some(match (a, b) {
        (b'a', b'f') => ops::AF,
        (b'o', b'r') => ops::OR,
        (b'g', b'r') => ops::GR,
        (b'p', b'1') => ops::P1,
        (b'p', b'2') => ops::P2,
        (b'b', b'r') => ops::BR,
        (b'h', b'r') => ops::HR,
        (b's', b'r') => ops::SR,
        (b'w', b'r') => ops::WR,
        (b't', b'r') => ops::TR,
        (b'a', b'x') => ops::AX,
        (b'c', b'p') => ops::CP,
        (b'o', b'l') => ops::OL,
        (b'w', b'1') => ops::W1,
        (b'w', b'2') => ops::W2,
        (b'b', b'l') => ops::BL,
        (b'h', b'l') => ops::HL,
        (b's', b'l') => ops::SL,
        (b't', b'l') => ops::TL,
        (b'p', b'l') => ops::PL,
        (b'a', b'l') => ops::AL,
        (b'l', b'l') => ops::LL,
        (b'u', b'l') => ops::UL,
        _ => return None,
    })
}

// A set of labels as two numbers, high and low.
fn halves(set: u64) -> (u32, u32)
    ensures { result.0 * half + result.1 ≡ set }
{
    ((set / HALF) as u32, (set % HALF) as u32)
}

// A step without an interval.
fn plain_step(op: u32, label: u32, high: u32, low: u32) -> StepRow
    ensures { result ≡ step_row op label high low no_interval }
{
    StepRow {
        op,
        label,
        high,
        low,
        interval: intervals::none(),
    }
}

// `tr`: a set of labels
#[tactic(auto, using(crate::proofs::Ops::line_fields), unfolding(step_rows::specs::StepRows::step_of))]
fn set_fields(r: &mut Reader<'_>) -> Option<StepRow>
    ensures { step_line_of result r.new.rest.now ≡ read_line (step_reader tr_number) r.old.rest.now }
{
    let set = r.label_set(b'\n')?;
    let (high, low) = halves(set);
    Some(plain_step(ops::TR, 0, high, low))
}

// A label alone.
#[tactic(auto, using(crate::proofs::Ops::line_fields), unfolding(step_rows::specs::StepRows::step_of))]
fn label_fields(r: &mut Reader<'_>, op: u32) -> Option<StepRow>
    ensures { step_line_of result r.new.rest.now ≡ read_line (label_reader op) r.old.rest.now }
{
    let label = r.number(0, ranges::LABEL_LAST, b'\n')?;
    Some(plain_step(op, label, 0, 0))
}

// `al`: a label, a holder
#[tactic(auto, using(crate::proofs::Ops::line_fields), unfolding(step_rows::specs::StepRows::step_of))]
fn holder_fields(r: &mut Reader<'_>) -> Option<StepRow>
    ensures { step_line_of result r.new.rest.now ≡ read_line (step_reader al_number) r.old.rest.now }
{
    let label = r.number(0, ranges::LABEL_LAST, b',')?;
    let holder = r.number(ranges::NAMED_HOLDER_FIRST, ranges::HOLDER_LAST, b'\n')?;
    Some(plain_step(ops::AL, label, 0, holder))
}

// `ll`: a label, a set of labels, an interval
#[tactic(auto, using(crate::proofs::Ops::line_fields), unfolding(step_rows::specs::StepRows::step_of))]
fn lolli_fields(r: &mut Reader<'_>) -> Option<StepRow>
    ensures { step_line_of result r.new.rest.now ≡ read_line (step_reader ll_number) r.old.rest.now }
{
    let label = r.number(0, ranges::LABEL_LAST, b',')?;
    let set = r.label_set(b',')?;
    let interval = interval(r, b'\n')?;
    let (high, low) = halves(set);
    Some(StepRow {
        op: ops::LL,
        label,
        high,
        low,
        interval,
    })
}

// `ul`: a label, an interval
#[tactic(auto, using(crate::proofs::Ops::line_fields), unfolding(step_rows::specs::StepRows::step_of))]
fn implies_fields(r: &mut Reader<'_>) -> Option<StepRow>
    ensures { step_line_of result r.new.rest.now ≡ read_line (step_reader ul_number) r.old.rest.now }
{
    let label = r.number(0, ranges::LABEL_LAST, b',')?;
    let interval = interval(r, b'\n')?;
    Some(StepRow {
        op: ops::UL,
        label,
        high: 0,
        low: 0,
        interval,
    })
}

// A step line as a row, by its word. Where it is broken, the reader may have moved.
#[tactic(auto, using(crate::proofs::Ops::line_words))]
fn read_row(r: &mut Reader<'_>) -> Option<StepRow>
    ensures { step_line_of result r.new.rest.now ≡ read_line step_line r.old.rest.now }
{
    let [a, b, stop, after @ ..] = r.rest else {
        return None;
    };
    let op = op_of(*a, *b)?;
    r.rest = after;
    match (op, *stop) {
        (ops::AF..=ops::WR, b'\n') => Some(plain_step(op, 0, 0, 0)),
        (ops::TR, b',') => set_fields(r),
        (ops::AX..=ops::PL, b',') => label_fields(r, op),
        (ops::AL, b',') => holder_fields(r),
        (ops::LL, b',') => lolli_fields(r),
        (ops::UL, b',') => implies_fields(r),
        _ => None,
    }
}

// A step line as a row.
pub fn read_step(r: &mut Reader<'_>) -> Option<StepRow>
    ensures read { step_line_of result r.new.rest.now ≡ read_line step_line r.old.rest.now }
    ensures kept { IfNone result (r.new.rest.now ≡ r.old.rest.now) }
{
    let mut at = *r;
    let row = read_row(&mut at)?;
    *r = at;
    Some(row)
}
