// The lines of a ledger's text (document 02, ask 5), written into a lent buffer. Each writer gets the unwritten rest of
// the buffer, asks room for its own text alone, and answers how many bytes it wrote; beside each line's writer stands
// the length of the line.
#![tactic(auto)]

ghost use Rattle.std.specs.Prelude.{◌≡◌, [], ◌∷◌, ◌++◌, ◌+◌, ◌≤◌, ◌<◌, length};
ghost use Rattle.request.specs.Text.{bytes};
ghost use Rattle.request.specs.Write.{digits, minutes, kind_field, line_fields};
ghost use Rattle.snapshot.specs.Snapshot.{edition_field, title_fields, credential_fields};
ghost use Rattle.store.specs.Store.{line_of};
ghost use Rattle.text_write.specs.declared.Shape.TheVariants.{Single, Pair, At, Superset, Triple};
ghost use Rattle.text_write.specs.Put.{Put, Room, Measured, put_two, ended, counts, shape_fields};

use ledger::Credential;
use logic::Interval;
use request::Kind;
use snapshot::{Edition, Title};
use steps::{Row, letters};

// What stands after the letter of a formula line: nothing, a number or two (with the letter), a number and an interval,
// two intervals, three numbers.
#[derive(Clone, Copy)]
enum Shape {
    One,
    Single(u8, u32),
    Pair(u8, u32, u32),
    At(u32, Interval),
    Superset(Interval, Interval),
    Triple(u32, u32, u32),
}

// Numbers

fn digits_length(n: u32) -> usize
    ensures { Measured (digits n) 10 result }
{
    // most numbers of a text have one digit or two
    if n < 10 {
        return 1;
    }
    if n < 100 {
        return 2;
    }
    n.ilog10() as usize + 1
}

// The two digits of a number below 100.
fn put_two(rest: &mut [u8], at: usize, n: u32)
    requires { (n < 100) × (at + 2 ≤ length rest.old) }
    ensures { rest.new ≡ put_two rest.old at n }
{
    rest[at] = b'0' + (n / 10) as u8;
    rest[at + 1] = b'0' + (n % 10) as u8;
}

// Two at a time, the last first. A `for` is no plainer: the places go down by two, and the first digits are two or one.
fn put_digits(rest: &mut [u8], n: u32) -> usize
    requires { Room rest.old (digits n) }
    ensures { Put rest.old (digits n) rest.new result }
{
    let k = digits_length(n);
    let mut at = k;
    let mut v = n;
    while 2 < at {
        at -= 2;
        put_two(rest, at, v % 100);
        v /= 100;
    }
    if at == 2 {
        put_two(rest, 0, v);
        return k;
    }
    rest[0] = b'0' + v as u8;
    k
}

// Fields, each with the byte that ends it

fn put_byte(rest: &mut [u8], x: u8) -> usize
    requires { Room rest.old (x ∷ []) }
    ensures { Put rest.old (x ∷ []) rest.new result }
{
    rest[0] = x;
    1
}

fn put_letter(rest: &mut [u8], x: u8, stop: u8) -> usize
    requires { Room rest.old (ended stop ((x ∷ []) ∷ [])) }
    ensures { Put rest.old (ended stop ((x ∷ []) ∷ [])) rest.new result }
{
    rest[0] = x;
    rest[1] = stop;
    2
}

fn put_field(rest: &mut [u8], n: u32, stop: u8) -> usize
    requires { Room rest.old (ended stop (digits n ∷ [])) }
    ensures { Put rest.old (ended stop (digits n ∷ [])) rest.new result }
{
    let i = put_digits(rest, n);
    let j = put_byte(&mut rest[i..], stop);
    i + j
}

fn put_fields(rest: &mut [u8], m: u32, n: u32, stop: u8) -> usize
    requires { Room rest.old (ended stop (digits m ∷ digits n ∷ [])) }
    ensures { Put rest.old (ended stop (digits m ∷ digits n ∷ [])) rest.new result }
{
    let i = put_field(rest, m, b',');
    let j = put_field(&mut rest[i..], n, stop);
    i + j
}

fn put_interval(rest: &mut [u8], v: Interval, stop: u8) -> usize
    requires { Room rest.old (ended stop (minutes v)) }
    ensures { Put rest.old (ended stop (minutes v)) rest.new result }
{
    let i = put_fields(rest, v.from, v.to, b',');
    let j = put_fields(&mut rest[i..], v.first, v.last, stop);
    i + j
}

fn interval_length(v: Interval) -> usize
    ensures { Measured (ended 10 (minutes v)) 44 result }
{
    digits_length(v.from) + digits_length(v.to) + digits_length(v.first) + digits_length(v.last) + 4
}

// `letter,number`
fn put_head(rest: &mut [u8], x: u8, n: u32, stop: u8) -> usize
    requires { Room rest.old (ended stop ((x ∷ []) ∷ digits n ∷ [])) }
    ensures { Put rest.old (ended stop ((x ∷ []) ∷ digits n ∷ [])) rest.new result }
{
    let i = put_letter(rest, x, b',');
    let j = put_field(&mut rest[i..], n, stop);
    i + j
}

fn put_intervals(rest: &mut [u8], v: Interval, w: Interval) -> usize
    requires { Room rest.old (ended 10 (minutes v ++ minutes w)) }
    ensures { Put rest.old (ended 10 (minutes v ++ minutes w)) rest.new result }
{
    let i = put_interval(rest, v, b',');
    let j = put_interval(&mut rest[i..], w, b'\n');
    i + j
}

// Formula lines (document 01: wording lines), by their shape. Each writer has fields of its own, so none is another's
// twin; all but the first field are of one writer.

fn put_pair(rest: &mut [u8], x: u8, m: u32, n: u32) -> usize
    requires { Room rest.old (ended 10 (shape_fields (Pair x m n))) }
    ensures { Put rest.old (ended 10 (shape_fields (Pair x m n))) rest.new result }
{
    let i = put_letter(rest, x, b',');
    let j = put_fields(&mut rest[i..], m, n, b'\n');
    i + j
}

fn put_at(rest: &mut [u8], n: u32, w: Interval) -> usize
    requires { Room rest.old (ended 10 (shape_fields (At n w))) }
    ensures { Put rest.old (ended 10 (shape_fields (At n w))) rest.new result }
{
    let i = put_head(rest, b'h', n, b',');
    let j = put_interval(&mut rest[i..], w, b'\n');
    i + j
}

fn put_superset(rest: &mut [u8], v: Interval, w: Interval) -> usize
    requires { Room rest.old (ended 10 (shape_fields (Superset v w))) }
    ensures { Put rest.old (ended 10 (shape_fields (Superset v w))) rest.new result }
{
    let i = put_letter(rest, b'g', b',');
    let j = put_intervals(&mut rest[i..], v, w);
    i + j
}

fn put_triple(rest: &mut [u8], l: u32, m: u32, n: u32) -> usize
    requires { Room rest.old (ended 10 (shape_fields (Triple l m n))) }
    ensures { Put rest.old (ended 10 (shape_fields (Triple l m n))) rest.new result }
{
    let i = put_head(rest, b'n', l, b',');
    let k = put_fields(&mut rest[i..], m, n, b'\n');
    i + k
}

#[tactic(auto, unfolding(request::specs::Write::line_fields, store::specs::Store::line_of, crate::specs::Put::bytes))]
fn shape_of(row: Row) -> Shape
    ensures { shape_fields result ≡ line_fields (line_of row) }
{
    match row.letter {
        letters::ATOM => Shape::Pair(b'a', row.a, row.b),
        letters::TENSOR => Shape::Pair(b't', row.a, row.b),
        letters::WITH => Shape::Pair(b'w', row.a, row.b),
        letters::PLUS => Shape::Pair(b'p', row.a, row.b),
        letters::LOLLI => Shape::Pair(b'l', row.a, row.b),
        letters::IMPLIES => Shape::Pair(b'u', row.a, row.b),
        letters::BANG => Shape::Single(b'b', row.a),
        letters::AT => Shape::At(row.a, row.first),
        letters::SAYS => Shape::Pair(b's', row.a, row.b),
        letters::SUPERSET => Shape::Superset(row.first, row.second),
        letters::NAMED => Shape::Triple(row.a, row.b, row.holder),
        letters::FOR_EVERY => Shape::Single(b'q', row.a),
        _ => Shape::One,
    }
}

pub fn put_formula(rest: &mut [u8], row: Row) -> usize
    requires { Room rest.old (ended 10 (line_fields (line_of row))) }
    ensures { Put rest.old (ended 10 (line_fields (line_of row))) rest.new result }
{
    match shape_of(row) {
        Shape::One => put_letter(rest, b'o', b'\n'),
        Shape::Single(x, n) => put_head(rest, x, n, b'\n'),
        Shape::Pair(x, m, n) => put_pair(rest, x, m, n),
        Shape::At(n, w) => put_at(rest, n, w),
        Shape::Superset(v, w) => put_superset(rest, v, w),
        Shape::Triple(l, m, n) => put_triple(rest, l, m, n),
    }
}

pub fn formula_length(row: Row) -> usize
    ensures { Measured (ended 10 (line_fields (line_of row))) 90 result }
{
    match shape_of(row) {
        Shape::One => 2,
        Shape::Single(_, n) => digits_length(n) + 3,
        Shape::Pair(_, m, n) => digits_length(m) + digits_length(n) + 4,
        Shape::At(n, w) => digits_length(n) + interval_length(w) + 3,
        Shape::Superset(v, w) => interval_length(v) + interval_length(w) + 2,
        Shape::Triple(l, m, n) => digits_length(l) + digits_length(m) + digits_length(n) + 5,
    }
}

// Credential lines (document 02: coupons)

#[tactic(auto, unfolding(request::specs::Write::kind_field, request::specs::Text::bytes))]
fn kind_letter(k: Kind) -> u8
    ensures { result ∷ [] ≡ kind_field k }
{
    match k {
        Kind::Linear => b's',
        Kind::Unrestricted => b'r',
    }
}

fn put_kind(rest: &mut [u8], k: Kind) -> usize
    requires { Room rest.old (ended 44 (kind_field k ∷ [])) }
    ensures { Put rest.old (ended 44 (kind_field k ∷ [])) rest.new result }
{
    put_letter(rest, kind_letter(k), b',')
}

// `serial,kind,`
fn put_serial(rest: &mut [u8], n: u32, k: Kind) -> usize
    requires { Room rest.old (ended 44 (digits n ∷ kind_field k ∷ [])) }
    ensures { Put rest.old (ended 44 (digits n ∷ kind_field k ∷ [])) rest.new result }
{
    let i = put_field(rest, n, b',');
    let j = put_kind(&mut rest[i..], k);
    i + j
}

// `wording` and the interval's fields
fn put_of(rest: &mut [u8], n: u32, w: Interval) -> usize
    requires { Room rest.old (ended 10 (digits n ∷ minutes w)) }
    ensures { Put rest.old (ended 10 (digits n ∷ minutes w)) rest.new result }
{
    let i = put_field(rest, n, b',');
    let j = put_interval(&mut rest[i..], w, b'\n');
    i + j
}

pub fn put_credential(rest: &mut [u8], c: Credential) -> usize
    requires { Room rest.old (ended 10 (credential_fields c)) }
    ensures { Put rest.old (ended 10 (credential_fields c)) rest.new result }
{
    let i = put_serial(rest, c.serial, c.kind);
    let j = put_of(&mut rest[i..], c.formula, c.interval);
    i + j
}

pub fn credential_length(c: Credential) -> usize
    ensures { Measured (ended 10 (credential_fields c)) 68 result }
{
    digits_length(c.serial) + digits_length(c.formula) + interval_length(c.interval) + 4
}

// The first line

// No `From`: the edit editions_exchanged is made here, and a conversion would stand in snapshot, which runs nothing.
fn edition_digit(e: Edition) -> u8
    ensures { result ∷ [] ≡ edition_field e }
{
    match e {
        Edition::First => b'1',
        Edition::Second => b'2',
    }
}

// `till,1,` or `till,2,`
fn put_edition(rest: &mut [u8], e: Edition) -> usize
    requires { Room rest.old (ended 44 (bytes "till" ∷ edition_field e ∷ [])) }
    ensures { Put rest.old (ended 44 (bytes "till" ∷ edition_field e ∷ [])) rest.new result }
{
    let d = edition_digit(e);
    rest[..7].copy_from_slice(&[b't', b'i', b'l', b'l', b',', d, b',']);
    7
}

// `next,wordings,coupons`
fn put_counts(rest: &mut [u8], next: u32, lines: u32, live: u32) -> usize
    requires { Room rest.old (ended 10 (counts next lines live)) }
    ensures { Put rest.old (ended 10 (counts next lines live)) rest.new result }
{
    let i = put_field(rest, next, b',');
    let j = put_fields(&mut rest[i..], lines, live, b'\n');
    i + j
}

pub fn put_title(rest: &mut [u8], title: Title) -> usize
    requires { Room rest.old (ended 10 (title_fields title)) }
    ensures { Put rest.old (ended 10 (title_fields title)) rest.new result }
{
    let i = put_edition(rest, title.edition);
    let j = put_counts(&mut rest[i..], title.next, title.lines, title.live);
    i + j
}

pub fn title_length(title: Title) -> usize
    ensures { Measured (ended 10 (title_fields title)) 40 result }
{
    digits_length(title.next) + digits_length(title.lines) + digits_length(title.live) + 10
}
