// What a finished fit is reported as: observation results, `build_approximation` and the diagnostics.
#![tactic(auto)]

ghost use Rattle.std.specs.Prelude.{◌≡◌};
ghost use Rattle.definition.specs.Fit.{gradient_norm_of};
ghost use Rattle.definition.specs.Summary.{result_of, interval95, covariance_of, correlation_of, with_intervals, build_approximation_of, approximation_of};
ghost use Rattle.definition.specs.Summary.{effective_count_of, effective_count, degrees_of_freedom, reduced_chi_square, criterion, poll_radius, poll_improvement};
ghost use Rattle.definition.specs.Meaning.{convergence_of, approximation_says};
ghost use Rattle.summary.specs.Summary.{diagnostics_says, diagnostics_by};

use coordinates::{BC_COORDINATE_SCALE, MV_COORDINATE_SCALE_FPS};
use definition::{
    Convergence, Evaluation, Point, TruingApproximationFailureCodeV1, TruingApproximationV1,
    TruingCovarianceV1, TruingGaussianApproximationV1, TruingMapConvergenceCriterionV1,
    WeightedTruingObservationResultV1, WeightedTruingObservationV1,
};
use interval::GaussianIntervalV1;
use matrix::Symmetric2;

// ---- observation results

#[tactic(auto, unfolding(definition::specs::Summary::result_of))]
pub fn observation_result(
    o: WeightedTruingObservationV1,
    predicted: f64,
) -> WeightedTruingObservationResultV1
    ensures { result ≡ result_of o predicted }
{
    let residual = predicted - o.drop;
    WeightedTruingObservationResultV1 {
        range_yd: o.range_yd,
        observed_drop: o.drop,
        sigma: o.sigma,
        predicted_drop: predicted,
        residual,
        standardized_residual: residual / o.sigma,
    }
}

// ---- the approximation

#[tactic(auto, unfolding(definition::specs::Summary::covariance_of))]
fn covariance(q: Symmetric2) -> TruingCovarianceV1
    ensures { result ≡ covariance_of q }
{
    TruingCovarianceV1 {
        mv_variance_fps2: q.a00 * (MV_COORDINATE_SCALE_FPS * MV_COORDINATE_SCALE_FPS),
        mv_bc_covariance_fps: q.a01 * MV_COORDINATE_SCALE_FPS * BC_COORDINATE_SCALE,
        bc_variance: q.a11 * (BC_COORDINATE_SCALE * BC_COORDINATE_SCALE),
    }
}

#[tactic(auto, unfolding(definition::specs::Summary::correlation_of))]
fn correlation(c: TruingCovarianceV1) -> f64
    ensures { result ≡ correlation_of c }
{
    c.mv_bc_covariance_fps / root::root(c.mv_variance_fps2 * c.bc_variance)
}

// Where the inverse was found: the speed's interval, then the coefficient's, then the correlation.
#[tactic(auto, unfolding(definition::specs::Summary::covariance_of))]
fn with_covariance(p: Point, q: Symmetric2, condition: f64) -> TruingApproximationV1
    ensures { approximation_says result ≡ with_intervals q condition (interval95 p.mv (covariance_of q).mv_variance_fps2) (interval95 p.bc (covariance_of q).bc_variance) }
{
    let failure = TruingApproximationFailureCodeV1::NonFiniteInformation;
    let covariance = covariance(q);
    let mv = GaussianIntervalV1::from_variance(p.mv, covariance.mv_variance_fps2).ok_or(failure)?;
    let bc = GaussianIntervalV1::from_variance(p.bc, covariance.bc_variance).ok_or(failure)?;
    let found = correlation(covariance);
    if !numeric::is_finite(found) {
        return Err(failure);
    }
    let gaussian = TruingGaussianApproximationV1 {
        covariance,
        muzzle_velocity_interval_95: mv,
        ballistic_coefficient_interval_95: bc,
        mv_bc_correlation: numeric::clamp(found, -1.0, 1.0),
        scaled_information_condition_number: condition,
    };
    Ok((gaussian, q))
}

#[tactic(auto, unfolding(definition::specs::Summary::build_approximation_of))]
fn build_approximation(p: Point, information: Symmetric2) -> TruingApproximationV1
    ensures { approximation_says result ≡ build_approximation_of p information }
{
    let (inverse, condition) = information.inverse_with_condition()?;
    with_covariance(p, inverse, condition)
}

// A fit that was not verified, or that lies near a bound, has none.
#[tactic(auto, unfolding(definition::specs::Summary::approximation_of))]
pub fn approximation(converged: bool, p: Point, information: Symmetric2) -> TruingApproximationV1
    ensures { approximation_says result ≡ approximation_of converged p information }
{
    if !converged {
        return Err(TruingApproximationFailureCodeV1::OptimizerDidNotConverge);
    }
    if criteria::parameter_at_bound(p.mv, p.bc) {
        return Err(TruingApproximationFailureCodeV1::MapAtParameterBound);
    }
    build_approximation(p, information)
}

// ---- diagnostics

// Fit and approximation diagnostics.
#[derive(Clone, Copy)]
pub struct TruingUncertaintyDiagnosticsV1 {
    pub chi_square: f64,
    pub prior_penalty: f64,
    pub penalized_chi_square: f64,
    pub effective_parameter_count: Option<f64>,
    pub effective_degrees_of_freedom: Option<f64>,
    pub reduced_chi_square: Option<f64>,
    pub bc_sensitivity_ratio: f64,
    pub data_condition_number: f64,
    pub map_scaled_gradient_inf_norm: f64,
    pub map_convergence_criterion: Option<TruingMapConvergenceCriterionV1>,
    pub map_objective_poll_radius: Option<f64>,
    pub map_max_objective_poll_improvement: Option<f64>,
    pub map_objective_poll_evaluations: usize,
}

// The trace of data information times scaled covariance, in 0..2.
#[tactic(auto, unfolding(definition::specs::Summary::effective_count_of))]
fn effective_count(d: Symmetric2, q: Symmetric2) -> f64
    ensures { result ≡ effective_count_of d q }
{
    numeric::clamp(
        d.a00 * q.a00 + 2.0 * d.a01 * q.a01 + d.a11 * q.a11,
        0.0,
        2.0,
    )
}

fn effective_parameter_count(d: Symmetric2, a: TruingApproximationV1) -> Option<f64>
    ensures { result ≡ effective_count d (approximation_says a) }
{
    let (_, q) = a.ok()?;
    Some(effective_count(d, q))
}

fn degrees_of_freedom(n: usize, count: Option<f64>) -> Option<f64>
    ensures { result ≡ degrees_of_freedom n count }
{
    Some(std::num::nearest_u64_to_f64(n as u64) - count?)
}

fn reduced_chi_square(chi_square: f64, dof: Option<f64>) -> Option<f64>
    ensures { result ≡ reduced_chi_square chi_square dof }
{
    let dof = dof?;
    if dof > f64::EPSILON {
        return Some(chi_square / dof);
    }
    None
}

fn convergence_criterion(
    convergence: Option<Convergence>,
) -> Option<TruingMapConvergenceCriterionV1>
    ensures { result ≡ criterion (convergence_of convergence) }
{
    Some(TruingMapConvergenceCriterionV1::from(convergence?))
}

fn poll_radius(convergence: Option<Convergence>) -> Option<f64>
    ensures { result ≡ poll_radius (convergence_of convergence) }
{
    match convergence {
        Some(Convergence::ObjectiveMesh { radius, .. }) => Some(radius),
        _ => None,
    }
}

fn poll_improvement(convergence: Option<Convergence>) -> Option<f64>
    ensures { result ≡ poll_improvement (convergence_of convergence) }
{
    match convergence {
        Some(Convergence::ObjectiveMesh { improvement, .. }) => Some(improvement),
        _ => None,
    }
}

// n observations; the fit by how it was verified and its count of poll evaluations.
#[tactic(auto, unfolding(crate::specs::Summary::diagnostics_by, definition::specs::Summary::diagnostics_of))]
pub fn diagnostics(
    n: usize,
    convergence: Option<Convergence>,
    evaluations: usize,
    e: Evaluation,
    a: TruingApproximationV1,
) -> TruingUncertaintyDiagnosticsV1
    ensures { diagnostics_says result ≡ diagnostics_by n (convergence_of convergence) evaluations e (approximation_says a) }
{
    let count = effective_parameter_count(e.data_information, a);
    let dof = degrees_of_freedom(n, count);
    TruingUncertaintyDiagnosticsV1 {
        chi_square: e.chi_square,
        prior_penalty: e.prior_penalty,
        penalized_chi_square: e.chi_square + e.prior_penalty,
        effective_parameter_count: count,
        effective_degrees_of_freedom: dof,
        reduced_chi_square: reduced_chi_square(e.chi_square, dof),
        bc_sensitivity_ratio: e.bc_sensitivity_ratio,
        data_condition_number: e.data_condition_number,
        map_scaled_gradient_inf_norm: map_fit::gradient_norm(e),
        map_convergence_criterion: convergence_criterion(convergence),
        map_objective_poll_radius: poll_radius(convergence),
        map_max_objective_poll_improvement: poll_improvement(convergence),
        map_objective_poll_evaluations: evaluations,
    }
}
