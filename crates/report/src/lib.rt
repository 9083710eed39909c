// The report of a finished fit: its head, and each place of its lists.
#![tactic(auto)]

ghost use Rattle.std.specs.Prelude.{◌≡◌, ◌-◌, slice_get, option_map};
ghost use Rattle.definition.specs.Lists.{zip_with};
ghost use Rattle.definition.specs.Summary.{results_of, band_of};
ghost use Rattle.definition.specs.Meaning.{approximation_says};
ghost use Rattle.likelihood.specs.Columns.{observations_in, rows_in};
ghost use Rattle.bands.specs.Bands.{band_says};
ghost use Rattle.report.specs.Places.{any_outside_of};
ghost use Rattle.report.specs.Report.{Shows};

use bands::TruingPredictiveBandV1;
use definition::{
    TruingApproximationV1, TruingPredictionRequestV1, TruingPriorsV1,
    WeightedTruingObservationResultV1,
};
use fitting::{MAX_ITERATIONS, Progress};
use likelihood::{Columns, RowColumns};
use summary::TruingUncertaintyDiagnosticsV1;
use warnings::Warnings;

// The entered point with its chi-square; its observation results stand beside it.
#[derive(Clone, Copy)]
pub struct TruingBaselineV1 {
    pub muzzle_velocity_fps: f64,
    pub ballistic_coefficient: f64,
    pub chi_square: f64,
}

// The report but for its lists of observation results, of the baseline's and of predictive bands, which stand beside it: the first and the last by their
// lengths.
#[derive(Clone, Copy)]
pub struct UncertaintyTruingReportV1 {
    pub schema_version: u32,
    pub map_muzzle_velocity_fps: f64,
    pub map_ballistic_coefficient: f64,
    pub iterations: usize,
    pub converged: bool,
    pub priors: TruingPriorsV1,
    pub observations: usize,
    pub baseline: Option<TruingBaselineV1>,
    pub diagnostics: TruingUncertaintyDiagnosticsV1,
    pub approximation: TruingApproximationV1,
    pub predictive_bands: usize,
    pub warnings: Warnings,
}

// The iterations begun: those that are not left.
fn iterations_done(left: usize) -> usize
    ensures { result ≡ 100 - left }
{
    MAX_ITERATIONS.saturating_sub(left)
}

// n observations and `wanted` requested distances; `g` is the fit's progress when it has ended; `outside`: whether a requested distance lies outside the
// observed ones.
pub fn report(
    n: usize,
    wanted: usize,
    g: Progress,
    priors: TruingPriorsV1,
    baseline: Option<TruingBaselineV1>,
    outside: bool,
) -> UncertaintyTruingReportV1
    ensures { Shows result n wanted g priors baseline outside }
{
    let p = g.point;
    let e = g.evaluation;
    let convergence = g.convergence;
    let iterations = iterations_done(g.left);
    let converged = convergence.is_some();
    let approximation = summary::approximation(converged, p, e.posterior_information);
    let diagnostics = summary::diagnostics(n, convergence, g.evaluations, e, approximation);
    let dof = diagnostics.effective_degrees_of_freedom;
    let found = warnings::collect_warnings(convergence, e, priors, approximation, dof, outside);
    UncertaintyTruingReportV1 {
        schema_version: 1,
        map_muzzle_velocity_fps: p.mv,
        map_ballistic_coefficient: p.bc,
        iterations,
        converged,
        priors,
        observations: n,
        baseline,
        diagnostics,
        approximation,
        predictive_bands: wanted,
        warnings: found,
    }
}

// Whether a requested distance lies strictly outside the observed ones.
#[tactic(auto, unfolding(crate::specs::Places::any_outside_of))]
pub fn outside(ranges: &[f64], requested: &[TruingPredictionRequestV1]) -> bool
    ensures { result ≡ any_outside_of ranges.now requested.now }
{
    let min = warnings::observed_min(ranges);
    let max = warnings::observed_max(ranges);
    warnings::any_outside(min, max, requested)
}

// ---- the lists, by their places, which are counted from 0

fn place<T: Copy>(s: &[T], i: usize) -> Option<T>
    ensures { result ≡ slice_get s.now i }
{
    s.get(i).copied()
}

// The i-th observation result.
#[tactic(auto, using(crate::proofs::Laws::zip_get, crate::proofs::Laws::zip_none, crate::proofs::Laws::zip_none_2))]
pub fn result_at(
    i: usize,
    observations: Columns<'_>,
    predicted: &[f64],
) -> Option<WeightedTruingObservationResultV1>
    ensures { result ≡ slice_get (results_of (observations_in observations.entry) predicted.now) i }
{
    let o = observations.get(i)?;
    let predicted = place(predicted, i)?;
    Some(summary::observation_result(o, predicted))
}

// The i-th predictive band.
#[tactic(auto, using(crate::proofs::Laws::zip_get, crate::proofs::Laws::zip_none, crate::proofs::Laws::zip_none_2))]
pub fn band_at(
    i: usize,
    a: TruingApproximationV1,
    requested: &[TruingPredictionRequestV1],
    rows: RowColumns<'_>,
) -> Option<TruingPredictiveBandV1>
    ensures { option_map band_says result ≡ slice_get (zip_with (band_of (approximation_says a)) requested.now (rows_in rows.entry)) i }
{
    let d = place(requested, i)?;
    let row = rows.get(i)?;
    Some(bands::band(a, d, row))
}
