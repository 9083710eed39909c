// The parts of a report, from the arrays that a finished run holds.
#![tactic(auto)]

ghost use Rattle.std.specs.Prelude.{◌≡◌, ◌≤◌, slice_get, option_map};
ghost use Rattle.definition.specs.Lists.{any};
ghost use Rattle.definition.specs.Meaning.{convergence_of, approximation_says};
ghost use Rattle.definition.specs.Summary.{is_outside};
ghost use Rattle.definition.specs.Summary as summary;
ghost use Rattle.bands.specs.Bands.{band_says};
ghost use Rattle.lists.specs.Lists.{requested_in, observations_at};
ghost use Rattle.report.specs.Report.{baseline_says};
ghost use Rattle.report_parts.specs.Parts.{results_at, bands_at, baseline_results_at, baseline_at, ResultsCount, BandsCount};

use bands::TruingPredictiveBandV1;
use definition::{Point, TruingApproximationV1, WeightedTruingObservationResultV1};
use fitting::Progress;
use lists::{Shots, Wanted};
use report::TruingBaselineV1;
use stencil::StencilRows;

// How many observation results there are at the fit, and at the entered point.
#[tactic(auto, using(crate::proofs::Laws::counts_results))]
pub fn results_count(shots: Shots, predicted: [f64; 64], drops: Option<[f64; 64]>) -> usize
    ensures { ResultsCount shots predicted drops result }
{
    shots.n
}

// How many bands there are.
pub fn bands_count(wanted: Wanted, table: StencilRows<64>) -> usize
    ensures { BandsCount wanted table result }
{
    wanted.n
}

// Whether a requested distance lies outside the observed ones.
#[tactic(auto, using(crate::proofs::Laws::outside_places))]
pub fn any_outside(shots: Shots, wanted: Wanted) -> bool
    ensures { shots.n ≤ 64 → result ≡ any (is_outside (observations_at shots)) (requested_in wanted) }
{
    report::outside(shots.columns().ranges, wanted.as_slice())
}

// The baseline from the drops at the entered point, where there is one.
#[tactic(auto, using(crate::proofs::Laws::chi_square_first))]
pub fn baseline_of(
    shots: Shots,
    entered: Point,
    drops: Option<[f64; 64]>,
) -> Option<TruingBaselineV1>
    ensures { baseline_says result (baseline_results_at shots drops) ≡ baseline_at shots entered drops }
{
    let drops = drops?;
    Some(TruingBaselineV1 {
        muzzle_velocity_fps: entered.mv,
        ballistic_coefficient: entered.bc,
        chi_square: shots.columns().chi_square(&drops),
    })
}

// The i-th observation result at these drops.
#[tactic(auto, using(crate::proofs::Laws::results_places))]
pub fn result_of(
    shots: Shots,
    drops: [f64; 64],
    i: usize,
) -> Option<WeightedTruingObservationResultV1>
    ensures { result ≡ slice_get (results_at shots drops) i }
{
    report::result_at(i, shots.columns(), &drops)
}

// The approximation at the fit.
pub fn approximation_of(g: Progress) -> TruingApproximationV1
    ensures { approximation_says result ≡ summary.approximation_of (summary.converged (convergence_of g.convergence)) g.point g.evaluation.posterior_information }
{
    summary::approximation(
        g.convergence.is_some(),
        g.point,
        g.evaluation.posterior_information,
    )
}

// The i-th band.
#[tactic(auto, using(crate::proofs::Laws::bands_places))]
pub fn band_of(
    a: TruingApproximationV1,
    wanted: Wanted,
    table: StencilRows<64>,
    i: usize,
) -> Option<TruingPredictiveBandV1>
    ensures { option_map band_says result ≡ slice_get (bands_at (approximation_says a) wanted table) i }
{
    report::band_at(i, a, wanted.as_slice(), table.columns())
}
