// Doubles and counts as they stand in a line, read from bytes and written as bytes; and a double's bits, whatever not-a-number it is.
#![tactic(auto)]

ghost use Rattle.std.specs.Prelude.{◌≡◌, ◌+◌, ◌*◌, ◌≤◌, ◌<◌, length, Some};
ghost use Rattle.std.specs.Float.{binary64};
ghost use Rattle.std.specs.Float.Ieee.{of_bits, to_bits};
ghost use Rattle.numerals.specs.Numbers.{digit_in, glyph_of, number_from, digits_of, double_of, double_text, within64, count_of, count_text};

use std::marker::Model;

const SIGN: u64 = 0x8000_0000_0000_0000;

const INFINITY: u64 = 0x7ff0_0000_0000_0000;

const NAN: u64 = 0x7ff8_0000_0000_0000;

// Kept: an array with a length beside it. A FixedList takes its items from the first on; digits come from the last.
// A count's decimal digits.
#[derive(Clone, Copy)]
pub struct CountText {
    bytes: [u8; 20],
    len: usize,
}

// Seen as its bytes. Behind them are zeros, so that the bytes give the fields back.
impl Model for CountText {
    ghost use Rattle.std.specs.Prelude.{ℕ, List, take};
    ghost use Rattle.numerals.specs.Counts.{IsText, laid_out, laid_back};

    ghost Value = { List ℕ };

    ghost view = { λ t. take t.len t.bytes };

    ghost invariant = { IsText };

    ghost inverse = { laid_out };

    ghost inverse_ok = { laid_back };
}

impl CountText {
    pub fn as_slice(&self) -> &[u8]
        ensures { result.now ≡ self.now }
    {
        &self.bytes[..self.len]
    }
}

// The double of a pattern. `from_bits` is not defined at a NaN's pattern, so that is tested first.
#[tactic(auto, using(crate::proofs::Numbers::nan_above, crate::proofs::Numbers::no_nan_above))]
pub fn double(b: u64) -> f64
    ensures { result ≡ of_bits binary64 b }
{
    if b % SIGN > INFINITY {
        return f64::NAN;
    }
    f64::from_bits(b)
}

// The pattern of a double, one and the same for every NaN, at which `to_bits` is not defined.
#[tactic(auto, using(crate::proofs::Numbers::nan_pattern))]
pub fn pattern(x: f64) -> u64
    ensures { result ≡ to_bits binary64 x }
{
    if x.is_nan() {
        return NAN;
    }
    x.to_bits()
}

// The value of c, where it is a digit in this base. What lies below a wraps, and is too large. With a branch for each kind of digit this is slower.
#[tactic(auto, unfolding(crate::specs::Numbers::digit_of))]
fn digit_value(base: u64, c: u8) -> Option<u64>
    requires { base ≤ 16 }
    ensures { result ≡ digit_in base c }
{
    let d = if c.is_ascii_digit() {
        u64::from(c - b'0')
    } else {
        u64::from(c.wrapping_sub(b'a')) + 10
    };
    if d < base { Some(d) } else { None }
}

#[tactic(auto, unfolding(crate::specs::Numbers::glyph_of))]
fn glyph(d: u64) -> u8
    requires { d < 16 }
    ensures { result ≡ glyph_of d }
{
    if d < 10 {
        b'0' + d as u8
    } else {
        b'a' + (d - 10) as u8
    }
}

// The number m with one digit more, where 64 bits hold it. Most digits need no division.
fn longer(base: u64, m: u64, d: u64) -> Option<u64>
    requires { (0 < base) × (base ≤ 16) × (d < 16) }
    ensures { result ≡ within64 (Some (base * m + d)) }
{
    if m < 0x0fff_ffff_ffff_ffff {
        return Some(base * m + d);
    }
    if m > (u64::MAX - d) / base {
        return None;
    }
    Some(base * m + d)
}

// The number with these digits, where 64 bits hold it.
#[tactic(auto, using(crate::proofs::Numbers::read_over))]
fn number(base: u64, s: &[u8]) -> Option<u64>
    requires { (0 < base) × (base ≤ 16) }
    ensures { result ≡ within64 (number_from base 0 s.now) }
{
    let mut m = 0;
    for c in s {
        m = longer(base, m, digit_value(base, *c)?)?;
    }
    Some(m)
}

// Fills out with the last digits of n.
fn spell(base: u64, n: u64, out: &mut [u8])
    requires { (0 < base) × (base ≤ 16) }
    ensures { out.new ≡ digits_of base (length out.old) n }
{
    let mut rest = n;
    for i in (0..out.len()).rev() {
        out[i] = glyph(rest % base);
        rest /= base;
    }
}

// How many decimal digits n has.
#[tactic(auto, using(crate::proofs::Numbers::long_text))]
fn places(n: u64) -> usize
    ensures { result ≡ length (count_text n) }
{
    n.checked_ilog10().unwrap_or(0) as usize + 1
}

// A double: the 16 lower-case hexadecimal digits of its bits.
#[tactic(auto, using(crate::proofs::Numbers::within_16), unfolding(crate::specs::Numbers::double_of))]
pub fn read_double(s: &[u8]) -> Option<f64>
    ensures { result ≡ double_of s.now }
{
    if s.len() != 16 {
        return None;
    }
    number(16, s).map(double)
}

// The digits of the bits of x, those of one and the same NaN for every NaN.
#[tactic(auto, unfolding(crate::specs::Numbers::double_text))]
pub fn write_double(x: f64) -> [u8; 16]
    ensures { result ≡ double_text x }
{
    let mut out = [0; 16];
    spell(16, pattern(x), &mut out);
    out
}

// A count: decimal digits with no sign and no leading zero, of a number that 64 bits hold.
#[tactic(auto, unfolding(crate::specs::Numbers::count_of))]
pub fn read_count(s: &[u8]) -> Option<u64>
    ensures { result ≡ count_of s.now }
{
    match s {
        [] | [b'0', _, ..] => None,
        _ => number(10, s),
    }
}

// The decimal digits of n.
#[tactic(auto, using(crate::proofs::Numbers::short_text, crate::proofs::Numbers::filled, crate::proofs::Numbers::written, crate::proofs::Numbers::behind))]
pub fn write_count(n: u64) -> CountText
    ensures { result ≡ count_text n }
{
    let len = places(n);
    let mut bytes = [0; 20];
    spell(10, n, &mut bytes[..len]);
    CountText { bytes, len }
}
