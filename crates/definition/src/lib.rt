// The values that a request, a report and the pieces between them are made of.
#![tactic(auto)]

ghost use Rattle.std.specs.Prelude.{◌≡◌, None};
ghost use Rattle.numeric.specs.Numeric.{zero64};
ghost use Rattle.definition.specs.Refusals.{number_of};
ghost use Rattle.definition.specs.Conversions.{failure_of, criterion_of};

use fixed_list::Blank;
use interval::GaussianIntervalV1;
use matrix::{InverseError, Symmetric2};

// A speed in fps and a coefficient.
#[derive(Clone, Copy, PartialEq)]
pub struct Point {
    pub mv: f64,
    pub bc: f64,
}

// An explicit independent normal prior, in the parameter's own unit.
#[derive(Clone, Copy, PartialEq)]
pub struct NormalPriorV1 {
    pub mean: f64,
    pub sigma: f64,
}

// There are no hidden priors: an absent one adds nothing.
#[derive(Clone, Copy, PartialEq)]
pub struct TruingPriorsV1 {
    pub muzzle_velocity_fps: Option<NormalPriorV1>,
    pub ballistic_coefficient: Option<NormalPriorV1>,
}

// An observation: distance in yards, drop and its sigma in the run's unit.
#[derive(Clone, Copy, PartialEq)]
pub struct WeightedTruingObservationV1 {
    pub range_yd: f64,
    pub drop: f64,
    pub sigma: f64,
}

impl Blank for WeightedTruingObservationV1 {
    ghost blank = { record { range_yd = zero64; drop = zero64; sigma = zero64 } };

    fn blank() -> WeightedTruingObservationV1 {
        WeightedTruingObservationV1 {
            range_yd: 0.0,
            drop: 0.0,
            sigma: 0.0,
        }
    }
}

// A requested distance, with the sigma of a future observation if one is given.
#[derive(Clone, Copy, PartialEq)]
pub struct TruingPredictionRequestV1 {
    pub range_yd: f64,
    pub future_observation_sigma: Option<f64>,
}

impl Blank for TruingPredictionRequestV1 {
    ghost blank = { record { range_yd = zero64; future_observation_sigma = None } };

    fn blank() -> TruingPredictionRequestV1 {
        TruingPredictionRequestV1 {
            range_yd: 0.0,
            future_observation_sigma: None,
        }
    }
}

// A request: the entered point, the observations, the priors and the requested distances.
#[derive(Clone, Copy)]
pub struct UncertaintyTruingRequestV1<'a> {
    pub entered: Point,
    pub observations: &'a [WeightedTruingObservationV1],
    pub priors: TruingPriorsV1,
    pub predictions: &'a [TruingPredictionRequestV1],
}

// A drop and its slopes by speed and by coefficient, at one distance.
#[derive(Clone, Copy)]
pub struct Row {
    pub predicted_drop: f64,
    pub d_drop_d_mv: f64,
    pub d_drop_d_bc: f64,
}

// What one reading of the observations adds up.
#[derive(Clone, Copy)]
pub struct Sums {
    pub a00: f64,
    pub a01: f64,
    pub a11: f64,
    pub gradient_mv: f64,
    pub gradient_bc: f64,
    pub chi_square: f64,
    pub fractional_mv: f64,
    pub fractional_bc: f64,
}

// The posterior's information and gradient at a point, in scaled coordinates, with the data's part and its diagnostics.
#[derive(Clone, Copy)]
pub struct Evaluation {
    pub data_information: Symmetric2,
    pub posterior_information: Symmetric2,
    pub gradient_mv: f64,
    pub gradient_bc: f64,
    pub chi_square: f64,
    pub prior_penalty: f64,
    pub bc_sensitivity_ratio: f64,
    pub data_condition_number: f64,
}

// Posterior covariance of (speed, coefficient), in their own units.
#[derive(Clone, Copy, PartialEq)]
pub struct TruingCovarianceV1 {
    pub mv_variance_fps2: f64,
    pub mv_bc_covariance_fps: f64,
    pub bc_variance: f64,
}

// The local Gaussian approximation around the fit.
#[derive(Clone, Copy, PartialEq)]
pub struct TruingGaussianApproximationV1 {
    pub covariance: TruingCovarianceV1,
    pub muzzle_velocity_interval_95: GaussianIntervalV1,
    pub ballistic_coefficient_interval_95: GaussianIntervalV1,
    pub mv_bc_correlation: f64,
    pub scaled_information_condition_number: f64,
}

// An observation beside its prediction.
#[derive(Clone, Copy, PartialEq)]
pub struct WeightedTruingObservationResultV1 {
    pub range_yd: f64,
    pub observed_drop: f64,
    pub sigma: f64,
    pub predicted_drop: f64,
    pub residual: f64,
    pub standardized_residual: f64,
}

// Numerical criterion that verified the reported fit.
#[derive(Clone, Copy, PartialEq, Eq)]
pub enum TruingMapConvergenceCriterionV1 {
    ScaledGradient,
    ObjectiveMesh,
}

// Why the Gaussian approximation was withheld.
#[derive(Clone, Copy, PartialEq, Eq)]
pub enum TruingApproximationFailureCodeV1 {
    OptimizerDidNotConverge,
    MapAtParameterBound,
    RankDeficientInformation,
    NonFiniteInformation,
}

impl From<InverseError> for TruingApproximationFailureCodeV1 {
    ghost from_gives = { λ e code. code ≡ failure_of e };

    fn from(e: InverseError) -> TruingApproximationFailureCodeV1 {
        match e {
            InverseError::NonFiniteInformation =>
                TruingApproximationFailureCodeV1::NonFiniteInformation,
            InverseError::RankDeficientInformation => {
                TruingApproximationFailureCodeV1::RankDeficientInformation
            }
        }
    }
}

// The warnings, in the order in which they are pushed.
#[derive(Clone, Copy, PartialEq, Eq)]
pub enum TruingUncertaintyWarningCodeV1 {
    OptimizerDidNotConverge,
    ObjectiveMeshConvergence,
    WeakBcSensitivity,
    IllConditionedData,
    MvPriorDominated,
    BcPriorDominated,
    GaussianApproximationUnavailable,
    IntervalCrossesFitBounds,
    LowEffectiveDegreesOfFreedom,
    PredictionOutsideObservedDomain,
}

// Which distances a question is about: those of the observations, the requested ones, or the new one of an edit.
#[derive(Clone, Copy, PartialEq, Eq)]
pub enum Distances {
    Shots,
    Requested,
    New,
}

// Why a call is declined, or a run or an edit ends without a report, by the scope's numbers.
#[derive(Clone, Copy, PartialEq, Eq)]
pub enum RefusalCode {
    FaultyPoint = 1,
    TooFewObservations = 2,
    TooManyObservations = 3,
    FaultyObservation = 4,
    FaultyPrior = 5,
    TooManyDistances = 6,
    FaultyDistance = 7,
    NoQuestionOpen = 8,
    WrongEntryCount = 9,
    PointRefused = 10,
    ObservationMissing = 11,
    ObjectiveNotFinite = 12,
    DistanceMissing = 13,
    NoFinishedReport = 14,
    NoSuchPlace = 15,
}

impl RefusalCode {
    // Kept: a method and no From, since the number is what the scope calls it.
    pub fn number(self) -> u64
        ensures { result ≡ number_of self }
    {
        self as u64
    }
}

// Kept: 0 where no position is named, as the scope's table and the protocol have it.
// A refusal: why, and the position that is at fault, counted from 1, or 0 where none is named.
#[derive(Clone, Copy, PartialEq, Eq)]
pub struct Refusal {
    pub code: RefusalCode,
    pub position: usize,
}

// What a call yields: a question (a point, and which list of distances), a report, or a refusal.
#[derive(Clone, Copy, PartialEq)]
pub enum Step {
    Question(f64, f64, Distances),
    Report,
    Refused(Refusal),
}

// Kept: either case verifies a fit, and neither is none.
// How a fit was verified; the mesh with its final radius and the largest gain found there.
#[derive(Clone, Copy, PartialEq)]
pub enum Convergence {
    ScaledGradient,
    ObjectiveMesh { radius: f64, improvement: f64 },
}

impl From<Convergence> for TruingMapConvergenceCriterionV1 {
    ghost from_gives = { λ c criterion. criterion ≡ criterion_of c };

    fn from(c: Convergence) -> TruingMapConvergenceCriterionV1 {
        match c {
            Convergence::ScaledGradient => TruingMapConvergenceCriterionV1::ScaledGradient,
            Convergence::ObjectiveMesh { .. } => TruingMapConvergenceCriterionV1::ObjectiveMesh,
        }
    }
}

// The approximation, or why it was withheld. The scaled covariance is kept beside it: the predictive bands are made from that one.
pub type TruingApproximationV1 = Result<
    (TruingGaussianApproximationV1, Symmetric2),
    TruingApproximationFailureCodeV1,
>;
