// The opening's checks, refusals 1 to 7: the tests of an entered point, observations, priors and requested distances, and their order.
#![tactic(auto)]

ghost use Rattle.std.specs.Prelude.{◌≡◌, Bool};
ghost use Rattle.std.specs.List.{position};
ghost use Rattle.definition.specs.Run.{require, unless};
ghost use Rattle.definition.specs.Lists.{first_at};
ghost use Rattle.definition.specs.Refusals.{number_of};
ghost use Rattle.definition.specs.Whole.{positive_of, sound_observation_of, faulty_observation, sound_prior_of, sound_sigma, sound_requested_of};
ghost use Rattle.definition.specs.Whole.{faulty_requested, checked_point, checked_count, checked_measured, checked_requested};
ghost use Rattle.definition.specs.Meaning.{opening_in};
ghost use Rattle.opening.specs.Opening.{checked_says, checked_priors, checked_of};

use criteria::{TRUING_BC_MAX, TRUING_BC_MIN, TRUING_MV_MAX_FPS, TRUING_MV_MIN_FPS};
use definition::{
    NormalPriorV1, Point, Refusal, RefusalCode, TruingPredictionRequestV1, TruingPriorsV1,
    UncertaintyTruingRequestV1, WeightedTruingObservationV1,
};

// ---- tests of numbers

// Finite and above 0.
#[tactic(auto, unfolding(definition::specs::Whole::positive_of))]
fn is_positive(x: f64) -> bool
    ensures { result ≡ positive_of x }
{
    numeric::is_finite(x) & !(x <= 0.0)
}

#[tactic(auto, unfolding(definition::specs::Whole::sound_observation_of))]
fn is_sound_observation(o: WeightedTruingObservationV1) -> bool
    ensures { result ≡ sound_observation_of o.range_yd o.drop o.sigma }
{
    is_positive(o.range_yd) & (numeric::is_finite(o.drop) & is_positive(o.sigma))
}

#[tactic(auto, unfolding(definition::specs::Whole::sound_prior_of))]
fn is_sound_prior(lower: f64, upper: f64, prior: Option<NormalPriorV1>) -> bool
    ensures { result ≡ sound_prior_of lower upper prior }
{
    prior.is_none_or(|q| numeric::is_within(lower, upper, q.mean) & is_positive(q.sigma))
}

// An absent sigma is sound.
fn is_sound_sigma(sigma: Option<f64>) -> bool
    ensures { result ≡ sound_sigma sigma }
{
    sigma.is_none_or(|x| is_positive(x))
}

#[tactic(auto, unfolding(definition::specs::Whole::sound_requested_of))]
pub fn is_sound_requested(d: TruingPredictionRequestV1) -> bool
    ensures { result ≡ sound_requested_of d }
{
    is_positive(d.range_yd) & is_sound_sigma(d.future_observation_sigma)
}

// ---- the refusals

// Goes on where the test passes.
fn require(sound: bool, code: RefusalCode, position: usize) -> Result<(), Refusal>
    ensures { checked_says result ≡ require sound (number_of code) position }
{
    if sound {
        return Ok(());
    }
    Err(Refusal { code, position })
}

// The items that a request lists, each sound or at fault.
trait Listed {
    ghost faulty: { Self → Bool };

    fn is_faulty(&self) -> bool
        ensures { result ≡ faulty self.now };
}

impl Listed for WeightedTruingObservationV1 {
    ghost faulty = { faulty_observation };

    fn is_faulty(&self) -> bool {
        !is_sound_observation(*self)
    }
}

impl Listed for TruingPredictionRequestV1 {
    ghost faulty = { faulty_requested };

    fn is_faulty(&self) -> bool {
        !is_sound_requested(*self)
    }
}

// The index of the first item at fault.
fn first_faulty<T: Listed>(items: &[T]) -> Option<usize>
    ensures { result ≡ position T.faulty items.now }
{
    items.iter().position(|item| item.is_faulty())
}

// Goes on where no item is at fault; the position of the first that is counts from 1.
#[tactic(auto, using(likelihood::proofs::Laws::first_at_position))]
fn check_items<T: Listed>(items: &[T], code: RefusalCode) -> Result<(), Refusal>
    ensures { checked_says result ≡ unless (first_at T.faulty items.now) (number_of code) }
{
    match first_faulty(items) {
        Some(i) => Err(Refusal {
            code,
            position: i + 1,
        }),
        None => Ok(()),
    }
}

// The entered point's refusal.
#[tactic(auto, unfolding(definition::specs::Whole::checked_point))]
fn check_point(p: Point) -> Result<(), Refusal>
    ensures { checked_says result ≡ checked_point p }
{
    let mv_within = numeric::is_within(TRUING_MV_MIN_FPS, TRUING_MV_MAX_FPS, p.mv);
    require(mv_within, RefusalCode::FaultyPoint, 1)?;
    let bc_within = numeric::is_within(TRUING_BC_MIN, TRUING_BC_MAX, p.bc);
    require(bc_within, RefusalCode::FaultyPoint, 2)
}

// The refusals by the number of observations.
#[tactic(auto, unfolding(definition::specs::Whole::checked_count))]
fn check_count(observations: &[WeightedTruingObservationV1]) -> Result<(), Refusal>
    ensures { checked_says result ≡ checked_count observations.now }
{
    let n = observations.len();
    require(2 <= n, RefusalCode::TooFewObservations, 0)?;
    require(n <= 64, RefusalCode::TooManyObservations, 0)
}

fn check_priors(priors: TruingPriorsV1) -> Result<(), Refusal>
    ensures { checked_says result ≡ checked_priors priors }
{
    let mv_prior = priors.muzzle_velocity_fps;
    let mv_sound = is_sound_prior(TRUING_MV_MIN_FPS, TRUING_MV_MAX_FPS, mv_prior);
    require(mv_sound, RefusalCode::FaultyPrior, 1)?;
    let bc_prior = priors.ballistic_coefficient;
    let bc_sound = is_sound_prior(TRUING_BC_MIN, TRUING_BC_MAX, bc_prior);
    require(bc_sound, RefusalCode::FaultyPrior, 2)
}

// Refusals 1 to 5, in order.
#[tactic(auto, unfolding(definition::specs::Whole::checked_measured))]
fn check_measured(request: UncertaintyTruingRequestV1<'_>) -> Result<(), Refusal>
    ensures { checked_says result ≡ checked_measured (opening_in request.entry).measured }
{
    check_point(request.entered)?;
    check_count(request.observations)?;
    check_items(request.observations, RefusalCode::FaultyObservation)?;
    check_priors(request.priors)
}

// Refusals 6 and 7, in order.
#[tactic(auto, unfolding(definition::specs::Whole::checked_requested))]
fn check_requested(predictions: &[TruingPredictionRequestV1]) -> Result<(), Refusal>
    ensures { checked_says result ≡ checked_requested predictions.now }
{
    require(predictions.len() <= 64, RefusalCode::TooManyDistances, 0)?;
    check_items(predictions, RefusalCode::FaultyDistance)
}

// Refusals 1 to 7, in order.
pub fn check(request: UncertaintyTruingRequestV1<'_>) -> Result<(), Refusal>
    ensures { checked_says result ≡ checked_of (opening_in request.entry) }
{
    check_measured(request)?;
    check_requested(request.predictions)
}
