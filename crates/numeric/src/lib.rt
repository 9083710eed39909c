// Operations on doubles that the language has no operator for, each by IEEE 754's cases: finite, absolute value, max, clamp, hypot, the poll direction
// and the drop units.
#![tactic(auto)]

ghost use Rattle.std.specs.Prelude.{◌≡◌, false};
ghost use Rattle.std.specs.Float.{inf};
ghost use Rattle.numeric.specs.Numeric.{finite, within_of, abs_of, max_of, clamp_of, scaled_of, hypot_of};
ghost use Rattle.numeric.specs.Poll.{direction_of};
ghost use Rattle.numeric.specs.Drop.{express_of};

#[tactic(auto, using(crate::proofs::Laws::finite_is))]
pub fn is_finite(x: f64) -> bool
    ensures { result ≡ finite x }
{
    x.is_finite()
}

// Finite, and from the lower to the upper end, ends included.
#[tactic(auto, unfolding(crate::specs::Numeric::within_of))]
pub fn is_within(lower: f64, upper: f64, x: f64) -> bool
    ensures { result ≡ within_of lower upper x }
{
    is_finite(x) & ((lower <= x) & (x <= upper))
}

#[tactic(auto, using(crate::proofs::Laws::infinity_is))]
pub fn infinity() -> f64
    ensures { result ≡ inf false }
{
    f64::INFINITY
}

#[tactic(auto, using(crate::proofs::Laws::abs_is))]
pub fn abs(x: f64) -> f64
    ensures { result ≡ abs_of x }
{
    x.abs()
}

// Kept: which of two that compare equal std's `max` gives is left open, as for 0 and -0. Here it is the first.
#[tactic(auto, using(crate::proofs::Laws::max_by_tests))]
pub fn max(x: f64, y: f64) -> f64
    ensures { result ≡ max_of x y }
{
    if x.is_nan() | (x < y) {
        return y;
    }
    x
}

// Kept: std's `clamp` requires that the lower end is at most the upper. Here the ends may be the wrong way round.
#[tactic(auto, unfolding(crate::specs::Numeric::clamp_of))]
pub fn clamp(x: f64, lower: f64, upper: f64) -> f64
    ensures { result ≡ clamp_of x lower upper }
{
    if x < lower {
        return lower;
    }
    if x > upper {
        return upper;
    }
    x
}

// The larger part times the root of 1 + q * q, where q is the smaller over the larger.
#[tactic(auto, unfolding(crate::specs::Numeric::scaled_of))]
fn scaled(big: f64, small: f64) -> f64
    ensures { result ≡ scaled_of big small }
{
    let q = small / big;
    big * root::root(1.0 + q * q)
}

// Kept: what std's `hypot` gives is the C library's, of which no clause says anything.
#[tactic(auto, using(crate::proofs::Laws::hypot_by_tests, crate::proofs::Laws::nan_is))]
pub fn hypot(x: f64, y: f64) -> f64
    ensures { result ≡ hypot_of x y }
{
    if x.is_infinite() | y.is_infinite() {
        return infinity();
    }
    if x.is_nan() | y.is_nan() {
        return f64::NAN;
    }
    let a = abs(x);
    let b = abs(y);
    if (a == 0.0) & (b == 0.0) {
        return 0.0;
    }
    if a < b {
        return scaled(b, a);
    }
    scaled(a, b)
}

// A direction in the plane of scaled speed and coefficient.
#[derive(Clone, Copy, PartialEq, Debug)]
pub struct Direction {
    pub cos: f64,
    pub sin: f64,
}

#[tactic(auto, unfolding(crate::specs::Poll::direction_of))]
pub fn poll_direction(a00: f64, a01: f64, a11: f64) -> Direction
    ensures { result ≡ direction_of a00 a01 a11 }
{
    let x = a00 - a11;
    let y = 2.0 * a01;
    let h = hypot(x, y);
    if !is_finite(x) | !is_finite(y) | !is_finite(h) | (h == 0.0) {
        return Direction { cos: 1.0, sin: 0.0 };
    }
    let q = x / h;
    let cos = root::root((1.0 + q) / 2.0);
    let sin = root::root((1.0 - q) / 2.0);
    if y < 0.0 {
        return Direction { cos, sin: -sin };
    }
    Direction { cos, sin }
}

// The unit in which a drop is given.
#[derive(Clone, Copy, PartialEq, Eq, Debug)]
pub enum DropUnit {
    Mil,
    Moa,
    In,
}

impl DropUnit {
    // A drop of `drop_m` metres at `z_m` metres, in this unit.
    #[tactic(auto, unfolding(crate::specs::Drop::express_of), using(crate::proofs::Laws::degrees_is))]
    pub fn express_drop_m(self, drop_m: f64, z_m: f64) -> f64
        ensures { result ≡ express_of self drop_m z_m }
    {
        match self {
            DropUnit::Mil => (drop_m / z_m) * 1000.0,
            DropUnit::Moa => (drop_m / z_m).to_degrees() * 60.0,
            DropUnit::In => drop_m / 0.0254,
        }
    }
}
