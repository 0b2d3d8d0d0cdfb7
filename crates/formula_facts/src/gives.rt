// What a formula has of a session, in one number: four counts, a byte each, for no formula has more than 64 of
// anything. They are seats, places, the house's seats where nothing stands above the formula, and where the house
// stands right above it.
ghost use Rattle.std.specs.Prelude.{◌≡◌};
ghost use Rattle.formula_facts.specs.Gives.{own_counts, nearest, said_counts};

// A seat: the house's where the house stands right above it.
const SEAT: u32 = 1 + formula_parts::UNDER_UNIT;

// A house seat whatever stands above the formula.
const HOUSE_SEAT: u32 = formula_parts::HOUSE_UNIT + formula_parts::UNDER_UNIT;

// The counts of an atom, of its own session.
pub fn own(predicate: u32) -> u32
    ensures { result ≡ own_counts predicate }
{
    if predicate == formula_parts::SEAT {
        return SEAT;
    }
    if predicate == formula_parts::PLACE {
        return formula_parts::PLACE_UNIT;
    }
    0
}

// The house's seats in a part right under ⟨K⟩.
fn under(principal: u32, part: u32) -> u32
    ensures { result ≡ nearest principal part }
{
    if principal == formula_parts::HOUSE {
        return part / formula_parts::UNDER_UNIT;
    }
    part / formula_parts::HOUSE_UNIT % formula_parts::BYTE
}

// The counts of ⟨K⟩ from its part's: the house's seats are the same whatever stands above ⟨K⟩.
pub fn said(principal: u32, part: u32) -> u32
    ensures { result ≡ said_counts principal part }
{
    let house = under(principal, part);
    part % formula_parts::HOUSE_UNIT + HOUSE_SEAT * house
}
