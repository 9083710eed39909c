// The ten warnings, each as a truth.
#![tactic(auto)]

ghost use Rattle.std.specs.Prelude.{◌≡◌, true};
ghost use Rattle.std.specs.Float.{inf};
ghost use Rattle.std.specs.List.{list_any};
ghost use Rattle.definition.specs.Summary.{dominated_of, crosses_bounds_of, at_most_one};
ghost use Rattle.definition.specs.Meaning.{convergence_of, approximation_says};
ghost use Rattle.warnings.specs.Warnings.{nearest_of, farthest_of, outside_of, ill_conditioned_of, codes_of};
ghost use Rattle.warnings.specs.Warnings.{warnings_by, stands_in};

use definition::{
    Convergence, Evaluation, NormalPriorV1, TruingApproximationV1, TruingGaussianApproximationV1,
    TruingPredictionRequestV1, TruingPriorsV1, TruingUncertaintyWarningCodeV1,
};

const TRUING_MIN_BC_SENSITIVITY_RATIO: f64 = 0.2;

const TRUING_MAX_CONDITION_NUMBER: f64 = 1000.0;

// A prior dominates from this part of its variance on.
const PRIOR_DOMINANCE: f64 = 0.8;

// The nearest observed distance.
#[tactic(auto, unfolding(crate::specs::Warnings::nearest_of))]
pub fn observed_min(ranges: &[f64]) -> f64
    ensures { result ≡ nearest_of ranges.now }
{
    ranges.iter().fold(
        numeric::infinity(),
        |least, range| if *range < least { *range } else { least },
    )
}

#[tactic(auto, using(crate::proofs::Laws::neg_infinity))]
fn negative_infinity() -> f64
    ensures { result ≡ inf true }
{
    -numeric::infinity()
}

// The farthest observed distance.
#[tactic(auto, unfolding(crate::specs::Warnings::farthest_of))]
pub fn observed_max(ranges: &[f64]) -> f64
    ensures { result ≡ farthest_of ranges.now }
{
    ranges.iter().fold(
        negative_infinity(),
        |most, range| if most < *range { *range } else { most },
    )
}

#[tactic(auto, unfolding(crate::specs::Warnings::outside_of))]
fn is_outside(min: f64, max: f64, range: f64) -> bool
    ensures { result ≡ outside_of min max range }
{
    (range < min) | (range > max)
}

pub fn any_outside(min: f64, max: f64, requested: &[TruingPredictionRequestV1]) -> bool
    ensures { result ≡ list_any (λ d. outside_of min max d.range_yd) requested.now }
{
    requested.iter().any(|d| is_outside(min, max, d.range_yd))
}

// A posterior variance that remains at 0.8 of the prior's or more.
#[tactic(auto, unfolding(definition::specs::Summary::dominated_of))]
fn dominated(prior: Option<NormalPriorV1>, variance: f64) -> bool
    ensures { result ≡ dominated_of prior variance }
{
    prior.is_some_and(|q| variance >= PRIOR_DOMINANCE * (q.sigma * q.sigma))
}

#[tactic(auto, unfolding(definition::specs::Summary::crosses_bounds_of))]
pub fn crosses_bounds(g: TruingGaussianApproximationV1) -> bool
    ensures { result ≡ crosses_bounds_of g.muzzle_velocity_interval_95 g.ballistic_coefficient_interval_95 }
{
    let mv = g.muzzle_velocity_interval_95;
    let bc = g.ballistic_coefficient_interval_95;
    (mv.lower < criteria::TRUING_MV_MIN_FPS)
        | (mv.upper > criteria::TRUING_MV_MAX_FPS)
        | (bc.lower < criteria::TRUING_BC_MIN)
        | (bc.upper > criteria::TRUING_BC_MAX)
}

// The ten warnings, in the order in which the source pushes them: each stands where its truth is set.
#[derive(Clone, Copy)]
pub struct Warnings {
    pub optimizer_did_not_converge: bool,
    pub objective_mesh_convergence: bool,
    pub weak_bc_sensitivity: bool,
    pub ill_conditioned_data: bool,
    pub mv_prior_dominated: bool,
    pub bc_prior_dominated: bool,
    pub gaussian_approximation_unavailable: bool,
    pub interval_crosses_fit_bounds: bool,
    pub low_effective_degrees_of_freedom: bool,
    pub prediction_outside_observed_domain: bool,
}

// A not-a-number counts as ill conditioned.
#[tactic(auto, unfolding(crate::specs::Warnings::ill_conditioned_of))]
fn is_ill_conditioned(condition: f64) -> bool
    ensures { result ≡ ill_conditioned_of condition }
{
    !numeric::is_finite(condition) | (condition > TRUING_MAX_CONDITION_NUMBER)
}

// One or fewer effective degrees of freedom.
fn is_low(dof: Option<f64>) -> bool
    ensures { result ≡ at_most_one dof }
{
    dof.is_some_and(|x| x <= 1.0)
}

// `outside`: whether a requested distance lies outside the observed ones.
#[tactic(auto, unfolding(crate::specs::Warnings::warnings_by, crate::specs::Warnings::mv_dominated_of, crate::specs::Warnings::bc_dominated_of, crate::specs::Warnings::interval_crosses_of))]
pub fn collect_warnings(
    convergence: Option<Convergence>,
    e: Evaluation,
    priors: TruingPriorsV1,
    a: TruingApproximationV1,
    dof: Option<f64>,
    outside: bool,
) -> Warnings
    ensures { codes_of result ≡ warnings_by (convergence_of convergence) e priors (approximation_says a) dof outside }
{
    let gaussian = a.ok().map(|(g, _)| g);
    Warnings {
        optimizer_did_not_converge: convergence.is_none(),
        objective_mesh_convergence: matches!(convergence, Some(Convergence::ObjectiveMesh { .. })),
        weak_bc_sensitivity: e.bc_sensitivity_ratio < TRUING_MIN_BC_SENSITIVITY_RATIO,
        ill_conditioned_data: is_ill_conditioned(e.data_condition_number),
        mv_prior_dominated: gaussian.is_some_and(|g| dominated(
            priors.muzzle_velocity_fps,
            g.covariance.mv_variance_fps2,
        )),
        bc_prior_dominated: gaussian.is_some_and(|g| dominated(
            priors.ballistic_coefficient,
            g.covariance.bc_variance,
        )),
        gaussian_approximation_unavailable: a.is_err(),
        interval_crosses_fit_bounds: gaussian.is_some_and(|g| crosses_bounds(g)),
        low_effective_degrees_of_freedom: is_low(dof),
        prediction_outside_observed_domain: outside,
    }
}

// The codes, in the order in which the source pushes them.
pub const CODES: [TruingUncertaintyWarningCodeV1; 10] = [
    TruingUncertaintyWarningCodeV1::OptimizerDidNotConverge,
    TruingUncertaintyWarningCodeV1::ObjectiveMeshConvergence,
    TruingUncertaintyWarningCodeV1::WeakBcSensitivity,
    TruingUncertaintyWarningCodeV1::IllConditionedData,
    TruingUncertaintyWarningCodeV1::MvPriorDominated,
    TruingUncertaintyWarningCodeV1::BcPriorDominated,
    TruingUncertaintyWarningCodeV1::GaussianApproximationUnavailable,
    TruingUncertaintyWarningCodeV1::IntervalCrossesFitBounds,
    TruingUncertaintyWarningCodeV1::LowEffectiveDegreesOfFreedom,
    TruingUncertaintyWarningCodeV1::PredictionOutsideObservedDomain,
];

impl Warnings {
    // Whether the warning of a code stands.
    pub fn stands(self, code: TruingUncertaintyWarningCodeV1) -> bool
        ensures { result ≡ stands_in self code }
    {
        match code {
            TruingUncertaintyWarningCodeV1::OptimizerDidNotConverge =>
                self.optimizer_did_not_converge,
            TruingUncertaintyWarningCodeV1::ObjectiveMeshConvergence =>
                self.objective_mesh_convergence,
            TruingUncertaintyWarningCodeV1::WeakBcSensitivity => self.weak_bc_sensitivity,
            TruingUncertaintyWarningCodeV1::IllConditionedData => self.ill_conditioned_data,
            TruingUncertaintyWarningCodeV1::MvPriorDominated => self.mv_prior_dominated,
            TruingUncertaintyWarningCodeV1::BcPriorDominated => self.bc_prior_dominated,
            TruingUncertaintyWarningCodeV1::GaussianApproximationUnavailable =>
                self.gaussian_approximation_unavailable,
            TruingUncertaintyWarningCodeV1::IntervalCrossesFitBounds =>
                self.interval_crosses_fit_bounds,
            TruingUncertaintyWarningCodeV1::LowEffectiveDegreesOfFreedom =>
                self.low_effective_degrees_of_freedom,
            TruingUncertaintyWarningCodeV1::PredictionOutsideObservedDomain =>
                self.prediction_outside_observed_domain,
        }
    }
}
