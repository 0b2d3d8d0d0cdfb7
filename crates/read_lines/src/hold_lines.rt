// The hold lines of a booking.
ghost use Rattle.std.specs.Prelude.{◌≡◌, IfNone};
ghost use Rattle.request.specs.Read.{hold_line};
ghost use Rattle.read_fields.specs.Field.{read_of};
ghost use Rattle.read_formulas.specs.Line.{read_line};

use read_fields::Reader;
use request::ranges;

// The serial of a line `hold,serial`.
#[tactic(auto, using(crate::proofs::Ops::hold_fields), unfolding(request::specs::Text::bytes))]
pub fn read_hold(r: &mut Reader<'_>) -> Option<u32>
    ensures read { read_of result r.new.rest.now ≡ read_line hold_line r.old.rest.now }
    ensures kept { IfNone result (r.new.rest.now ≡ r.old.rest.now) }
{
    let mut at = *r;
    if !at.past(b"hold,") {
        return None;
    }
    let serial = at.number(ranges::SERIAL_FIRST, ranges::SERIAL_LAST, b'\n')?;
    *r = at;
    Some(serial)
}
