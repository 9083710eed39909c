// The functions that C and Rust link, by the exports of `c_api_c`.
// Kept: numbers for refusals, and lists lent as bytes, are the C interface.
#![tactic(auto)]

ghost use Rattle.std.specs.Prelude.{◌≡◌, ◌+◌, ◌*◌, ◌≤◌, ◌<◌, length, replicate};
ghost use Rattle.root.specs.Root.{root_of};
ghost use Rattle.numeric.specs.Numeric.{zero64};
ghost use Rattle.slices.specs.Slices.{laid_over};
ghost use Rattle.c_api.specs.Desk.{double_at, column_of, double_bytes, put_at, prior_of, priors_of, sum_of, sum_outcome, inverse_bytes};
ghost use Rattle.c_api.specs.Desk.{inverse_outcome};

use definition::{NormalPriorV1, Point, TruingPriorsV1};
use likelihood::Columns;
use matrix::{InverseError, Symmetric2};

// The observations that an objective sum holds at most, and the bytes of one.
const MAX_OBSERVATIONS: usize = 64;

const RECORD: usize = 24;

// The bytes of a double, and of the four of an inverse.
const DOUBLE: usize = 8;

const INVERSE: usize = 32;

// ---- doubles in bytes

fn double_at(bytes: &[u8], at: usize) -> f64
    requires { at + 8 ≤ length bytes.now }
    ensures { result ≡ double_at at bytes.now }
{
    let word = bytes[at..].first_chunk::<DOUBLE>().unwrap();
    numerals::double(u64::from_le_bytes(*word))
}

// n doubles, one in each stride, in the first places of an array.
fn column(bytes: &[u8], stride: usize, offset: usize, n: usize) -> [f64; 64]
    requires { (n ≤ 64) × (offset + 8 ≤ stride) × (n * stride ≤ length bytes.now) }
    ensures { result ≡ laid_over (column_of stride offset n bytes.now) (replicate 64 zero64) }
{
    let mut a = [0.0; 64];
    for i in 0..n {
        a[i] = double_at(bytes, i * stride + offset);
    }
    a
}

fn put_double(out: &mut [u8], at: usize, x: f64)
    requires { at + 8 ≤ length out.old }
    ensures { out.new ≡ put_at at (double_bytes x) out.old }
{
    out[at..at + DOUBLE].copy_from_slice(&numerals::pattern(x).to_le_bytes());
}

// ---- the functions

// The square root of a double, rounded once to the nearest.
pub fn truing_root(x: f64) -> f64
    ensures { result ≡ root_of x }
{
    root::root(x)
}

// Kept: a flag beside the numbers is the form of the C interface.
fn prior(given: bool, mean: f64, sigma: f64) -> Option<NormalPriorV1>
    ensures { result ≡ prior_of given mean sigma }
{
    if given {
        return Some(NormalPriorV1 { mean, sigma });
    }
    None
}

fn priors_of(
    bits: u32,
    speed_mean: f64,
    speed_sigma: f64,
    coefficient_mean: f64,
    coefficient_sigma: f64,
) -> TruingPriorsV1
    ensures { result ≡ priors_of bits speed_mean speed_sigma coefficient_mean coefficient_sigma }
{
    let muzzle_velocity_fps = prior(bits % 2 == 1, speed_mean, speed_sigma);
    let ballistic_coefficient = prior(bits / 2 % 2 == 1, coefficient_mean, coefficient_sigma);
    TruingPriorsV1 {
        muzzle_velocity_fps,
        ballistic_coefficient,
    }
}

// The sum over n records and n replies.
fn sum(priors: TruingPriorsV1, p: Point, n: usize, observations: &[u8], replies: &[u8]) -> f64
    requires { (n ≤ 64) × (n * 24 ≤ length observations.now) × (n * 8 ≤ length replies.now) }
    ensures { result ≡ sum_of priors p n observations.now replies.now }
{
    let ranges = column(observations, RECORD, 0, n);
    let drops = column(observations, RECORD, 8, n);
    let sigmas = column(observations, RECORD, 16, n);
    let predicted = column(replies, DOUBLE, 0, n);
    let observed = Columns {
        ranges: slices::first_places(&ranges, n),
        drops: slices::first_places(&drops, n),
        sigmas: slices::first_places(&sigmas, n),
    };
    observed.objective_sum(priors, p, slices::first_places(&predicted, n))
}

// The objective sum at a point, before it is judged. Observations are records of three doubles, distance, drop and
// sigma; replies are doubles, one for each; all little-endian. The bits of `priors` say which prior is given: bit 0 the
// speed's, bit 1 the coefficient's.
// 0: the sum's 8 bytes stand at the start of `out`. Refused, and no byte written: 1, the observations are no whole
// records or more than 64; 2, the replies are not as many as they; 3, `out` is shorter than 8 bytes.
pub fn truing_objective_sum(
    speed: f64,
    coefficient: f64,
    observations: &[u8],
    replies: &[u8],
    priors: u32,
    speed_mean: f64,
    speed_sigma: f64,
    coefficient_mean: f64,
    coefficient_sigma: f64,
    out: &mut [u8],
) -> u32
    ensures value { result ≡ (sum_outcome (priors_of priors speed_mean speed_sigma coefficient_mean coefficient_sigma) (record { mv = speed; bc = coefficient }) observations.now replies.now out.old).code }
    ensures out_after { out.new ≡ (sum_outcome (priors_of priors speed_mean speed_sigma coefficient_mean coefficient_sigma) (record { mv = speed; bc = coefficient }) observations.now replies.now out.old).out }
{
    let n = observations.len() / RECORD;
    if (observations.len() % RECORD != 0) | (n > MAX_OBSERVATIONS) {
        return 1;
    }
    if replies.len() != DOUBLE * n {
        return 2;
    }
    if out.len() < DOUBLE {
        return 3;
    }
    let given = priors_of(
        priors,
        speed_mean,
        speed_sigma,
        coefficient_mean,
        coefficient_sigma,
    );
    let p = Point {
        mv: speed,
        bc: coefficient,
    };
    put_double(out, 0, sum(given, p, n, observations, replies));
    0
}

fn put_inverse(out: &mut [u8], inverse: Symmetric2, condition: f64)
    requires { 32 ≤ length out.old }
    ensures { out.new ≡ put_at 0 (inverse_bytes inverse condition) out.old }
{
    put_double(out, 0, inverse.a00);
    put_double(out, 8, inverse.a01);
    put_double(out, 16, inverse.a11);
    put_double(out, 24, condition);
}

// The inverse of a symmetric matrix of two rows.
// 0: the inverse's a00, a01, a11 and the condition number, 32 bytes, stand at the start of `out`. Refused, and no byte
// written: 3, `out` is shorter than 32 bytes; 1, NonFiniteInformation; 2, RankDeficientInformation. 3 goes before the others.
pub fn truing_inverse(a00: f64, a01: f64, a11: f64, out: &mut [u8]) -> u32
    ensures value { result ≡ (inverse_outcome (record { a00 = a00; a01 = a01; a11 = a11 }) out.old).code }
    ensures out_after { out.new ≡ (inverse_outcome (record { a00 = a00; a01 = a01; a11 = a11 }) out.old).out }
{
    if out.len() < INVERSE {
        return 3;
    }
    match (Symmetric2 { a00, a01, a11 }).inverse_with_condition() {
        Ok((inverse, condition)) => {
            put_inverse(out, inverse, condition);
            0
        }
        Err(InverseError::NonFiniteInformation) => 1,
        Err(InverseError::RankDeficientInformation) => 2,
    }
}
