// The lines after a booking's head: hold lines, and step lines in rows.
#![tactic(auto)]

ghost use Rattle.std.specs.Prelude.{◌≡◌, ◌≤◌, IfNone};
ghost use Rattle.request.specs.Read.{hold_line, step_line};
ghost use Rattle.step_rows.specs.LabelRows.{max_holds};
ghost use Rattle.step_rows.specs.StepRows.{max_steps};
ghost use Rattle.read_rest.specs.LinesRead.{read_lines, HoldsIs, row_reversed, row_broken, all_lines};
ghost use Rattle.read_rest.specs.LinesRead.{StepsIs, BookingLines};

use read_fields::Reader;
use read_lines::hold_lines::read_hold;
use read_lines::rows::read_step;
use step_rows::lines::put_step;
use step_rows::{Serials, StepRow, StepRows, ops};

// Whether an interval of the steps is reversed (refusal 3), and whether one is broken (43).
#[derive(Clone, Copy, Default)]
pub struct Faults {
    pub reversed: bool,
    pub broken: bool,
}

// `count` hold lines, their serials in order.
pub fn read_holds(r: &mut Reader<'_>, count: u32, serials: &mut Serials) -> Option<()>
    requires { count ≤ max_holds }
    ensures read { HoldsIs (read_lines count hold_line r.old.rest.now) r.new.rest.now count
        serials.new result }
    ensures kept { IfNone result (r.new.rest.now ≡ r.old.rest.now) }
{
    let mut at = *r;
    for serial in &mut serials[..count as usize] {
        *serial = read_hold(&mut at)?;
    }
    *r = at;
    Some(())
}

// What is wrong with the interval of a step. Steps before `ll` have none.
#[tactic(auto, using(crate::proofs::Reversals::row_passes))]
fn faults_of(row: StepRow) -> Faults
    ensures { (result.reversed ≡ row_reversed row) × (result.broken ≡ row_broken row) }
{
    if row.op < ops::LL {
        return Faults::default();
    }
    Faults {
        reversed: intervals::reversed(row.interval),
        broken: intervals::broken(row.interval),
    }
}

// `count` step lines, to the end of the bytes that the reader has, which are the part of a request from its first step
// line on; each in its row.
pub fn read_steps(r: &mut Reader<'_>, count: u32, rows: &mut StepRows) -> Option<Faults>
    requires { count ≤ max_steps }
    ensures read { StepsIs (all_lines count step_line r.old.rest.now) count rows.new result }
    ensures kept { IfNone result (r.new.rest.now ≡ r.old.rest.now) }
{
    let mut at = *r;
    let mut faults = Faults::default();
    for k in 0..count {
        let row = read_step(&mut at)?;
        let found = faults_of(row);
        faults.reversed |= found.reversed;
        faults.broken |= found.broken;
        put_step(rows, k, row);
    }
    let bytes_left = !at.rest.is_empty();
    if bytes_left {
        return None;
    }
    *r = at;
    Some(faults)
}

// What the two readers say together: the request of a booking is the one of its head, its holds and its steps, or none.
// The function does nothing: its `ensures` is the point.
pub fn lines_of_a_booking()
    ensures { BookingLines }
{}
