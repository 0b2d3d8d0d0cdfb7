// Formulas after a holder is put in (document 02, ask 7), by number: steps/specs/Instance.antt.
ghost use Rattle.std.specs.Prelude.{◌≡◌, ◌≤◌};
ghost use Rattle.steps.specs.Instance.{◌for◌, formula_of, holder_of, holder_by};
ghost use Rattle.step_rules.specs.Parts.{part, part_at};

use logic::Window;
use steps::{Hypothesis, letters};

// Formulas' own numbers are below this; the holder that was put in is how often it goes into a number.
const RADIX: u32 = 1_024;

// The formula's own number.
pub fn formula_of(m: u32) -> u32
    ensures { result ≡ formula_of m }
{
    m % RADIX
}

// The number of formula n for the holder h.
pub fn for_holder(n: u32, h: u32) -> u32
    requires { h ≤ 4194303 }
    ensures { result ≡ n for h }
{
    n % RADIX + h * RADIX
}

// The part n of the formula with the number m: it has the same holder.
pub fn part_of(n: u32, m: u32) -> u32
    ensures { result ≡ n for (holder_of m) }
{
    n % RADIX + m / RADIX * RADIX
}

// The part n of the formula of h, at j.
pub fn part_at(n: u32, h: Hypothesis, j: Window) -> Hypothesis
    ensures { result ≡ part_at n h j }
{
    Hypothesis {
        formula: part_of(n, h.formula),
        interval: j,
    }
}

// The part n of the formula of h, at its interval.
pub fn part(n: u32, h: Hypothesis) -> Hypothesis
    ensures { result ≡ part n h }
{
    part_at(n, h, h.interval)
}

// The holder k of a row with this letter, in the formula with the number m: an `n` with holder 0 has the one that was
// put in.
pub fn holder_of(letter: u32, k: u32, m: u32) -> u32
    ensures { result ≡ holder_by letter (holder_of m) k }
{
    if (letter == letters::NAMED) & (k == 0) {
        return m / RADIX;
    }
    k
}
