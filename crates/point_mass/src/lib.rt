// A flight solver for demonstrations, and no part of the estimator: it lets a fit be run without a host's own solver. A point mass is fired horizontally; drag
// and gravity act on it in steps of a fixed time. The answer at a distance depends on the point and that distance alone, whatever else is asked about.
#![tactic(auto)]

ghost use Rattle.std.specs.Prelude.{◌≡◌};
ghost use Rattle.point_mass.specs.Flight.{is_sane, drag_of, step_of, on_line, flight, in_unit, entry_at, Filled};

use definition::Point;
use numeric::DropUnit;

// The points that are not refused: speeds in feet per second, and coefficients.
const LEAST_SPEED: f64 = 100.0;

const MOST_SPEED: f64 = 6000.0;

const LEAST_COEFFICIENT: f64 = 0.01;

const MOST_COEFFICIENT: f64 = 3.0;

// The time of a step in seconds, 1 / 512, and half of it. A power of two, so that multiplying by it rounds nothing.
const STEP: f64 = 0.001953125;

const HALF_STEP: f64 = 0.0009765625;

// A flight ends unanswered after so many steps, 8 seconds.
const STEPS: usize = 4096;

// A flight ends unanswered where its horizontal speed falls below this.
const SLOWEST: f64 = 50.0;

// Feet per second in a second.
const GRAVITY: f64 = 32.174;

// Retardation is the drag coefficient times this times the square of the speed over the ballistic coefficient.
const RETARDATION: f64 = 2.08551e-4;

const FEET_PER_YARD: f64 = 3.0;

const METRES_PER_YARD: f64 = 0.9144;

const METRES_PER_FOOT: f64 = 0.3048;

// Where the slug is, in feet forward and down, and its speeds that way, in feet per second.
#[derive(Clone, Copy)]
pub struct Flight {
    x: f64,
    y: f64,
    vx: f64,
    vy: f64,
}

// A point that is not sane is refused.
#[tactic(auto, unfolding(crate::specs::Flight::is_sane))]
pub fn is_sane(p: Point) -> bool
    ensures { result ≡ is_sane p }
{
    numeric::is_within(LEAST_SPEED, MOST_SPEED, p.mv)
        & numeric::is_within(LEAST_COEFFICIENT, MOST_COEFFICIENT, p.bc)
}

// The drag coefficient at a speed, with no jumps, in the manner of the G1 projectile: it rises near the speed of sound and falls slowly beyond.
#[tactic(auto, unfolding(crate::specs::Flight::drag_of))]
fn drag(speed: f64) -> f64
    ensures { result ≡ drag_of speed }
{
    if speed < 950.0 {
        return 0.2;
    }
    if speed < 1250.0 {
        return 0.2 + (speed - 950.0) * 0.0015;
    }
    0.65 - (speed - 1250.0) * 0.00008
}

// One step: the speeds by the forces at its start, the place by the mean of the speeds before and after. `k` is the retardation's factor over the coefficient.
// The
// whole speed is the flat-fire expansion of the velocity's length, which needs no root.
#[tactic(auto, unfolding(crate::specs::Flight::step_of))]
fn step(k: f64, s: Flight) -> Flight
    ensures { result ≡ step_of k s }
{
    let speed = s.vx + s.vy * s.vy / (s.vx + s.vx);
    let rate = drag(speed) * k * speed;
    let vx = s.vx - rate * s.vx * STEP;
    let vy = s.vy + (GRAVITY - rate * s.vy) * STEP;
    Flight {
        x: s.x + (s.vx + vx) * HALF_STEP,
        y: s.y + (s.vy + vy) * HALF_STEP,
        vx,
        vy,
    }
}

// How far down it is at so many feet forward, on the straight line between the ends of a step.
#[tactic(auto, unfolding(crate::specs::Flight::on_line))]
fn on_line(s: Flight, t: Flight, x: f64) -> f64
    ensures { result ≡ on_line s t x }
{
    s.y + (x - s.x) / (t.x - s.x) * (t.y - s.y)
}

// How far down the slug is when it has come so many feet, if it does.
#[tactic(auto, unfolding(crate::specs::Flight::flight))]
fn fly(k: f64, x: f64, start: Flight) -> Option<f64>
    ensures { result ≡ flight 4096 k x start }
{
    let mut s = start;
    for _ in 0..STEPS {
        if s.vx < SLOWEST {
            return None;
        }
        let t = step(k, s);
        if t.x >= x {
            return Some(on_line(s, t, x));
        }
        s = t;
    }
    None
}

// What is down so many feet at so many yards, in a unit.
#[tactic(auto, unfolding(crate::specs::Flight::in_unit))]
fn in_unit(unit: DropUnit, yards: f64, feet: Option<f64>) -> Option<f64>
    ensures { result ≡ in_unit unit yards feet }
{
    let drop_m = feet? * METRES_PER_FOOT;
    Some(unit.express_drop_m(drop_m, yards * METRES_PER_YARD))
}

// The drop at a distance in yards; missing too at a point that is refused, and at a distance that is not above 0.
#[tactic(auto, unfolding(crate::specs::Flight::entry_at))]
fn drop_at(p: Point, unit: DropUnit, yards: f64) -> Option<f64>
    ensures { result ≡ entry_at p unit yards }
{
    if !(is_sane(p) & (yards > 0.0)) {
        return None;
    }
    let start = Flight {
        x: 0.0,
        y: 0.0,
        vx: p.mv,
        vy: 0.0,
    };
    let found = fly(RETARDATION / p.bc, yards * FEET_PER_YARD, start);
    in_unit(unit, yards, found)
}

// A flight for each distance in yards, as far as there is room: its drop, or none where it is missing.
pub fn fill(p: Point, unit: DropUnit, distances: &[f64], entries: &mut [Option<f64>])
    ensures { Filled p unit distances.now entries.old entries.new }
{
    let n = distances.len().min(entries.len());
    for i in 0..n {
        entries[i] = drop_at(p, unit, distances[i]);
    }
}
