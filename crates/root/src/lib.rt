// The square root of a double. The library's root is a guess: it is taken where a test over whole numbers says that it is the nearest. Else the root is
// found by whole numbers alone, the input as m * 2 ^ e, then 53 digits of the root, rounded.
#![tactic(auto)]

ghost use Rattle.std.specs.Prelude.{◌≡◌, true, ◌+◌, ◌*◌, ◌/◌, ◌%◌, ◌^◌, ◌<◌, ◌≤◌};
ghost use Rattle.std.specs.Float.{binary64};
ghost use Rattle.std.specs.Float.Ieee.{of_bits};
ghost use Rattle.root.specs.Root.{root_of};
ghost use Rattle.root.specs.Nearest.{magnitude, infinity};
ghost use Rattle.root.specs.Steps.{Rounds, Scales};

// 2 ^ 52, the weight of the exponent's field.
const FIELD: u64 = 0x0010_0000_0000_0000;

// The number m * 2 ^ e.
#[derive(Clone, Copy)]
struct Number {
    m: u64,
    e: u64,
}

// The number of a pattern, in units of 2 ^ -2148. A subnormal's digits are moved up until they are 53.
#[tactic(auto, using(crate::proofs::Scaling::normal_scales))]
fn scaled(b: u64) -> Number
    requires { (0 < b) × (b < infinity) }
    ensures { Scales (magnitude b * 2 ^ 1074) result.m result.e }
{
    let field = b / FIELD;
    let t = b % FIELD;
    if field == 0 {
        let k = 52 - t.ilog2() as u64;
        return Number {
            m: t << k,
            e: 1074 - k,
        };
    }
    Number {
        m: FIELD + t,
        e: field + 1073,
    }
}

// Whether q is the whole number nearest to the root of m * 2 ^ 52. The root is never halfway.
fn is_nearest(m: u64, q: u64) -> bool
    ensures { result ≡ true → Rounds (m * 2 ^ 52) q }
{
    let number = m as u128 * FIELD as u128;
    let root = q as u128;
    let square = root * root;
    (square < number + root) & (number <= square + root)
}

// The whole number nearest to the root of m * 2 ^ 52. Nothing is asked of the guess, so the library's whole root stands behind it.
fn significand(m: u64, guess: u64) -> u64
    requires { (2 ^ 52 ≤ m) × (m < 2 ^ 54) }
    ensures { Rounds (m * 2 ^ 52) result }
{
    if is_nearest(m, guess) {
        return guess;
    }
    let number = m as u128 * FIELD as u128;
    let root = number.isqrt();
    let square = root * root;
    if number > square + root {
        return root as u64 + 1;
    }
    root as u64
}

// The pattern of the root of a pattern. The exponent is made even, and halved; the significand's leading digit adds one to its field.
#[tactic(auto, using(crate::proofs::Scaling::doubled, crate::proofs::Definition::pattern_finite))]
fn root_bits(b: u64, guess: u64) -> u64
    requires { (0 < b) × (b < infinity) }
    ensures finite { result < infinity }
    ensures root { of_bits binary64 result ≡ root_of (of_bits binary64 b) }
{
    let s = scaled(b);
    let m = s.m << (s.e % 2);
    let field = (s.e - 52) / 2 * FIELD;
    field + significand(m, guess.saturating_sub(field))
}

// The root of x: not-a-number and the zeros stay, so does infinity, and a negative number has none.
#[tactic(auto, using(crate::proofs::Cases::nan_stays, crate::proofs::Cases::zero_stays, crate::proofs::Cases::negative_none, crate::proofs::Cases::infinity_stays, crate::proofs::Cases::positive_bits, crate::proofs::Patterns::finite_bits, crate::proofs::Patterns::read_back))]
pub fn root(x: f64) -> f64
    ensures { result ≡ root_of x }
{
    if x.is_nan() {
        return x;
    }
    if x == 0.0 {
        return x; // with its sign
    }
    if x < 0.0 {
        return f64::NAN;
    }
    if x.is_infinite() {
        return x;
    }
    f64::from_bits(root_bits(x.to_bits(), x.sqrt().to_bits()))
}
