// `fit_map` between its questions: the damped step, the damping, the gradient test, and which candidate is asked about next.
#![tactic(auto)]

ghost use Rattle.std.specs.Prelude.{◌≡◌};
ghost use Rattle.definition.specs.Fit as fit;
ghost use Rattle.map_fit.specs.Trials.{says, next_trial_of};

use coordinates::{BC_COORDINATE_SCALE, MV_COORDINATE_SCALE_FPS};
use definition::{Evaluation, Point};
use matrix::Symmetric2;

const MAP_SCALED_GRADIENT_TOLERANCE: f64 = 1.0e-6;

// The least diagonal entry that damping works on.
const LEAST_DIAGONAL: f64 = 1.0e-12;

// A determinant of a smaller size is unfit.
const LEAST_DETERMINANT: f64 = 1.0e-24;

const LEAST_DAMPING: f64 = 1.0e-12;

// A damping trial: its candidate, the trials left after it, and its damping.
#[derive(Clone, Copy)]
pub struct Trial {
    pub point: Point,
    pub left: usize,
    pub damping: f64,
}

// A diagonal entry with its damping.
#[tactic(auto, unfolding(definition::specs::Fit::damped_of))]
fn damped(damping: f64, a: f64) -> f64
    ensures { result ≡ fit.damped_of damping a }
{
    a + damping * numeric::max(a, LEAST_DIAGONAL)
}

// Not finite, or too small.
#[tactic(auto, unfolding(definition::specs::Fit::unfit_of))]
fn is_unfit(determinant: f64) -> bool
    ensures { result ≡ fit.unfit_of determinant }
{
    !numeric::is_finite(determinant) | (numeric::abs(determinant) < LEAST_DETERMINANT)
}

// The step that solves the damped equations, as a point of the fit.
#[tactic(auto, unfolding(definition::specs::Fit::stepped_of))]
fn stepped(p: Point, d: Symmetric2, determinant: f64, gradient_mv: f64, gradient_bc: f64) -> Point
    ensures { result ≡ fit.stepped_of p d determinant gradient_mv gradient_bc }
{
    let mv = -(d.a11 * gradient_mv - d.a01 * gradient_bc) / determinant;
    let bc = -(-d.a01 * gradient_mv + d.a00 * gradient_bc) / determinant;
    coordinates::bounded(
        p.mv + MV_COORDINATE_SCALE_FPS * mv,
        p.bc + BC_COORDINATE_SCALE * bc,
    )
}

// The step with the posterior information damped: none where the determinant is unfit.
#[tactic(auto, unfolding(definition::specs::Fit::step_of))]
fn damped_step(p: Point, e: Evaluation, damping: f64) -> Option<Point>
    ensures { says result ≡ fit.step_of p e damping }
{
    let information = e.posterior_information;
    let a00 = damped(damping, information.a00);
    let a11 = damped(damping, information.a11);
    let d = Symmetric2 {
        a00,
        a01: information.a01,
        a11,
    };
    let determinant = d.determinant();
    if is_unfit(determinant) {
        return None;
    }
    Some(stepped(p, d, determinant, e.gradient_mv, e.gradient_bc))
}

// The damping after an acceptance.
#[tactic(auto, unfolding(definition::specs::Fit::lowered_of))]
pub fn lowered(damping: f64) -> f64
    ensures { result ≡ fit.lowered_of damping }
{
    numeric::max(damping * 0.5, LEAST_DAMPING)
}

// The damping after a rejection.
pub fn raised(damping: f64) -> f64
    ensures { result ≡ fit.raised damping }
{
    damping * 4.0
}

// The damping where the determinant is unfit.
fn raised_far(damping: f64) -> f64
    ensures { result ≡ fit.raised_far damping }
{
    damping * 10.0
}

// The larger absolute entry of the gradient. A not-a-number loses to a number.
#[tactic(auto, unfolding(definition::specs::Fit::gradient_norm_of))]
pub fn gradient_norm(e: Evaluation) -> f64
    ensures { result ≡ fit.gradient_norm_of e }
{
    let mv = numeric::abs(e.gradient_mv);
    let bc = numeric::abs(e.gradient_bc);
    numeric::max(mv, bc)
}

// Whether the gradient is flat at this evaluation.
#[tactic(auto, unfolding(definition::specs::Fit::flat_of))]
pub fn is_flat(e: Evaluation) -> bool
    ensures { result ≡ fit.flat_of e }
{
    gradient_norm(e) <= MAP_SCALED_GRADIENT_TOLERANCE
}

// The next candidate among so many trials, if one is left. Where the determinant is unfit nothing is asked, and it counts as a trial.
#[tactic(auto, unfolding(crate::specs::Trials::next_trial_of))]
pub fn next_trial(p: Point, e: Evaluation, trials: usize, mut damping: f64) -> Option<Trial>
    ensures { result ≡ next_trial_of p e trials damping }
{
    for left in (0..trials).rev() {
        if let Some(point) = damped_step(p, e, damping) {
            return Some(Trial {
                point,
                left,
                damping,
            });
        }
        damping = raised_far(damping);
    }
    None
}
