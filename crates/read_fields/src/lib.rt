// Fields of bytes, read one after another: decimal numbers, sets of labels, and texts that are looked for.
#![tactic(auto)]

ghost use Rattle.std.specs.Prelude.{◌≡◌, ◌≤◌, ◌<◌, drop, IfNone};
ghost use Rattle.request.specs.Range.{◌‥◌};
ghost use Rattle.request.specs.Text.{decimal_digit, number_in, label_set_in};
ghost use Rattle.read_fields.specs.Field.{Stop, NumberAsked, field_to, more_in, answer_of};
ghost use Rattle.read_fields.specs.Field.{DigitsAre, Past, read_of};

// The letters of hexadecimal digits, and how far above their value they stand.
const HEX_FIRST: u8 = b'a';

const HEX_LAST: u8 = b'f';

const HEX_SHIFT: u8 = HEX_FIRST - 10;

// The bytes that are still to be read. A reader goes on past what it answers; where its answer is none, all of them are
// left (`kept`), and so they are where `past` answers false.
#[derive(Clone, Copy)]
pub struct Reader<'a> {
    pub rest: &'a [u8],
}

// The value of a decimal digit.
#[tactic(auto, using(crate::proofs::Decimals::digit_bytes))]
#[inline(always)]
fn digit(b: u8) -> Option<u32>
    ensures { answer_of result ≡ decimal_digit b }
{
    match b {
        b'0'..=b'9' => Some(u32::from(b - b'0')),
        _ => None,
    }
}

// The value of hexadecimal digits, lower case, once the byte b is read after those of the value v.
#[tactic(auto, using(crate::proofs::LabelSets::other_bytes))]
fn with_digit(v: u64, b: u8) -> Option<u64>
    requires { v < 1152921504606846976 }
    ensures { DigitsAre v b result }
{
    match b {
        b'0'..=b'9' => Some(v * 16 + u64::from(b - b'0')),
        HEX_FIRST..=HEX_LAST => Some(v * 16 + u64::from(b - HEX_SHIFT)),
        _ => None,
    }
}

impl Reader<'_> {
    // A decimal number from `first` to `last`, without leading zeros, which the byte `stop` ends. A number of one digit
    // is read here, and a zero can only be that.
    pub fn number(&mut self, first: u32, last: u32, stop: u8) -> Option<u32>
        requires { NumberAsked last stop }
        ensures read { read_of result self.new.rest.now
            ≡ field_to stop (number_in (first ‥ last)) self.old.rest.now }
        ensures kept { IfNone result (self.new.rest.now ≡ self.old.rest.now) }
    {
        let [x, y, after @ ..] = self.rest else {
            return None;
        };
        let d = digit(*x)?;
        if *y == stop {
            let below = d < first;
            if below {
                return None;
            }
            self.rest = after;
            return Some(d);
        }
        let zero = d == 0;
        if zero {
            return None;
        }
        self.more_digits(d, first, last, stop)
    }

    // The digits after the first, of the value `start`, which is not zero.
    fn more_digits(&mut self, start: u32, first: u32, last: u32, stop: u8) -> Option<u32>
        requires { NumberAsked last stop × (1 ≤ start) × (start ≤ last) }
        ensures read { read_of result self.new.rest.now
            ≡ field_to stop (more_in (first ‥ last) start) (drop 1 self.old.rest.now) }
        ensures kept { IfNone result (self.new.rest.now ≡ self.old.rest.now) }
    {
        let s = self.rest;
        let mut v = start;
        for i in 1..s.len() {
            let Some(d) = digit(s[i]) else {
                if s[i] != stop || v < first {
                    return None;
                }
                self.rest = &s[i + 1..];
                return Some(v);
            };
            v = v * 10 + d;
            if last < v {
                return None;
            }
        }
        None
    }

    // A set of labels (document 01: a share): 16 hexadecimal digits, which the byte `stop` ends.
    pub fn label_set(&mut self, stop: u8) -> Option<u64>
        requires { Stop stop }
        ensures read { read_of result self.new.rest.now ≡ field_to stop label_set_in self.old.rest.now }
        ensures kept { IfNone result (self.new.rest.now ≡ self.old.rest.now) }
    {
        let s = self.rest;
        if s.len() < 17 {
            return None;
        }
        let mut v: u64 = 0;
        for k in 0..16 {
            v = with_digit(v, s[k])?;
        }
        if s[16] != stop {
            return None;
        }
        self.rest = &s[17..];
        Some(v)
    }

    // Whether the text w is next, which is then passed.
    pub fn past(&mut self, w: &[u8]) -> bool
        ensures { Past w.now self.old.rest.now self.new.rest.now result }
    {
        let s = self.rest;
        if s.len() < w.len() {
            return false;
        }
        // a slice's `==` would be a call for each of these few bytes
        for k in 0..w.len() {
            let other = s[k] != w[k];
            if other {
                return false;
            }
        }
        self.rest = &s[w.len()..];
        true
    }
}
