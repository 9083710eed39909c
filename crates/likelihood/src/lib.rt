// The objective, the rows of the five questions and the evaluation, over lent columns: each loop goes up to the end of the shortest.
#![tactic(auto)]

ghost use Rattle.std.specs.Prelude.{◌≡◌, ◌≤◌, length, map, slice_get, false, fold, ◌||◌};
ghost use Rattle.std.specs.List.{position};
ghost use Rattle.numeric.specs.Numeric.{max_of};
ghost use Rattle.definition.specs.Constants.{◌⊗◌, step_fraction};
ghost use Rattle.definition.specs.Lists.{first_of, first_at};
ghost use Rattle.definition.specs.Run.{is_missing, drop_or0};
ghost use Rattle.definition.specs.Likelihood.{chi_square_of, with_prior_of, with_priors_of, mv_step_of, bc_step_of, slope, slopes, accumulate_of, sums_of};
ghost use Rattle.definition.specs.Likelihood.{prior_information_of, with_prior_gradient_of, sensitivity_ratio_of, from_sums};
ghost use Rattle.slices.specs.Slices.{laid_over};
ghost use Rattle.likelihood.specs.Columns.{observations_in, rows_in};

use coordinates::{BC_COORDINATE_SCALE, MV_COORDINATE_SCALE_FPS};
use definition::{
    Evaluation, NormalPriorV1, Point, Row, Sums, TruingPriorsV1, WeightedTruingObservationV1,
};
use matrix::Symmetric2;

// The steps of the five questions: this part of the coordinate, and no less than these.
const STEP_FRACTION: f64 = 1.0e-3;

const LEAST_MV_STEP: f64 = 0.5;

const LEAST_BC_STEP: f64 = 1.0e-4;

// Observations in columns.
#[derive(Clone, Copy)]
pub struct Columns<'a> {
    pub ranges: &'a [f64],
    pub drops: &'a [f64],
    pub sigmas: &'a [f64],
}

// Rows in columns: the predicted drops, and the slopes by speed and by coefficient.
#[derive(Clone, Copy)]
pub struct RowColumns<'a> {
    pub predicted: &'a [f64],
    pub by_mv: &'a [f64],
    pub by_bc: &'a [f64],
}

// ---- gaps

// Whether an entry is missing. There is no early end, so that it is done for many entries at a time.
fn any_missing(entries: &[Option<f64>]) -> bool
    ensures { result ≡ fold (λ found entry. found || is_missing entry) false entries.now }
{
    entries
        .iter()
        .fold(false, |found, entry| found | entry.is_none())
}

// The index of the first entry that is missing.
fn first_missing(entries: &[Option<f64>]) -> Option<usize>
    ensures { result ≡ position is_missing entries.now }
{
    entries.iter().position(|entry| entry.is_none())
}

// The position of the first entry that is missing, 0 where none is.
#[tactic(auto, using(crate::proofs::Laws::first_at_position, crate::proofs::Laws::position_within))]
pub fn first_gap(entries: &[Option<f64>]) -> usize
    ensures { result ≡ first_at is_missing entries.now }
{
    if !any_missing(entries) {
        return 0;
    }
    match first_missing(entries) {
        Some(i) => i + 1,
        None => 0,
    }
}

// The first of two positions, where 0 is none.
pub fn first_of(i: usize, j: usize) -> usize
    ensures { result ≡ first_of i j }
{
    if i == 0 {
        return j;
    }
    if j == 0 {
        return i;
    }
    i.min(j)
}

// ---- the objective

// A sum with the prior's squared standardized distance added, where there is a prior.
#[tactic(auto, unfolding(definition::specs::Likelihood::with_prior_of))]
fn with_prior(prior: Option<NormalPriorV1>, x: f64, sum: f64) -> f64
    ensures { result ≡ with_prior_of prior x sum }
{
    match prior {
        None => sum,
        Some(q) => {
            let standardized = (x - q.mean) / q.sigma;
            sum + standardized * standardized
        }
    }
}

// The speed's prior is added first.
#[tactic(auto, unfolding(definition::specs::Likelihood::with_priors_of))]
fn with_priors(priors: TruingPriorsV1, p: Point, sum: f64) -> f64
    ensures { result ≡ with_priors_of priors p sum }
{
    let with_mv = with_prior(priors.muzzle_velocity_fps, p.mv, sum);
    with_prior(priors.ballistic_coefficient, p.bc, with_mv)
}

impl Columns<'_> {
    // How far the columns are read together.
    fn len(self) -> usize
        ensures len { result ≡ length (observations_in self.entry) }
        ensures within_drops { result ≤ length self.entry.drops.now }
        ensures within_sigmas { result ≤ length self.entry.sigmas.now }
    {
        slices::shortest(self.ranges.len(), self.drops.len(), self.sigmas.len())
    }

    // The i-th observation, counted from 0.
    pub fn get(self, i: usize) -> Option<WeightedTruingObservationV1>
        ensures { result ≡ slice_get (observations_in self.entry) i }
    {
        let range_yd = *self.ranges.get(i)?;
        let drop = *self.drops.get(i)?;
        let sigma = *self.sigmas.get(i)?;
        Some(WeightedTruingObservationV1 {
            range_yd,
            drop,
            sigma,
        })
    }

    // The squared standardized residuals, summed from the first.
    #[tactic(auto, unfolding(definition::specs::Likelihood::chi_square_of))]
    pub fn chi_square(self, predicted: &[f64]) -> f64
        ensures { result ≡ chi_square_of (observations_in self.entry) predicted.now }
    {
        let n = self.len().min(predicted.len());
        let mut sum = 0.0;
        for i in 0..n {
            let standardized = (predicted[i] - self.drops[i]) / self.sigmas[i];
            sum = sum + standardized * standardized;
        }
        sum
    }

    // One sum, from the observations on through the priors. Whether it is finite is judged by the caller.
    #[tactic(auto, unfolding(definition::specs::Likelihood::with_priors_of, definition::specs::Likelihood::chi_square_of))]
    pub fn objective_sum(self, priors: TruingPriorsV1, p: Point, predicted: &[f64]) -> f64
        ensures { result ≡ with_priors_of priors p (chi_square_of (observations_in self.entry) predicted.now) }
    {
        with_priors(priors, p, self.chi_square(predicted))
    }

    // The squared standardized residuals of a reply, 0 in place of a missing drop.
    // Kept: beside the sum over drops. To lay them out of a reply first costs a question at 64 observations one in twenty of its instructions.
    #[tactic(auto, unfolding(definition::specs::Likelihood::chi_square_of))]
    fn reply_chi_square(self, entries: &[Option<f64>]) -> f64
        ensures { result ≡ chi_square_of (observations_in self.entry) (map drop_or0 entries.now) }
    {
        let n = self.len().min(entries.len());
        let mut sum = 0.0;
        for i in 0..n {
            let predicted = entries[i].unwrap_or(0.0);
            let standardized = (predicted - self.drops[i]) / self.sigmas[i];
            sum = sum + standardized * standardized;
        }
        sum
    }

    // The objective's sum of a reply.
    #[tactic(auto, unfolding(definition::specs::Likelihood::with_priors_of, definition::specs::Likelihood::chi_square_of))]
    pub fn reply_sum(self, priors: TruingPriorsV1, p: Point, entries: &[Option<f64>]) -> f64
        ensures { result ≡ with_priors_of priors p (chi_square_of (observations_in self.entry) (map drop_or0 entries.now)) }
    {
        with_priors(priors, p, self.reply_chi_square(entries))
    }

    // All observations, each beside its row.
    #[tactic(auto, unfolding(definition::specs::Likelihood::sums_of))]
    fn sum_rows(self, p: Point, rows: RowColumns<'_>) -> Sums
        ensures { result ≡ sums_of p (observations_in self.entry) (rows_in rows.entry) }
    {
        let n = self.len().min(rows.len());
        let mut sums = Sums {
            a00: 0.0,
            a01: 0.0,
            a11: 0.0,
            gradient_mv: 0.0,
            gradient_bc: 0.0,
            chi_square: 0.0,
            fractional_mv: 0.0,
            fractional_bc: 0.0,
        };
        for i in 0..n {
            let row = Row {
                predicted_drop: rows.predicted[i],
                d_drop_d_mv: rows.by_mv[i],
                d_drop_d_bc: rows.by_bc[i],
            };
            sums = accumulate(p, sums, self.drops[i], self.sigmas[i], row);
        }
        sums
    }

    // The information, the gradient and the diagnostics at a point, from the rows there.
    #[tactic(auto, unfolding(definition::specs::Likelihood::from_sums, definition::specs::Likelihood::sums_of))]
    pub fn evaluate(self, priors: TruingPriorsV1, p: Point, rows: RowColumns<'_>) -> Evaluation
        ensures { result ≡ from_sums priors p (sums_of p (observations_in self.entry) (rows_in rows.entry)) }
    {
        finished(priors, p, self.sum_rows(p, rows))
    }
}

// ---- the five questions and their rows

// A step of a coordinate: a part of it, and no less than the least.
#[tactic(auto, unfolding(numeric::specs::Numeric::max_of))]
fn step(x: f64, least: f64) -> f64
    ensures { result ≡ max_of (x ⊗ step_fraction) least }
{
    numeric::max(x * STEP_FRACTION, least)
}

#[tactic(auto, unfolding(definition::specs::Likelihood::mv_step_of))]
pub fn mv_step(mv: f64) -> f64
    ensures { result ≡ mv_step_of mv }
{
    step(mv, LEAST_MV_STEP)
}

#[tactic(auto, unfolding(definition::specs::Likelihood::bc_step_of))]
pub fn bc_step(bc: f64) -> f64
    ensures { result ≡ bc_step_of bc }
{
    step(bc, LEAST_BC_STEP)
}

// (plus - minus) / (2 * step)
fn slope_of(step: f64, plus: f64, minus: f64) -> f64
    ensures { result ≡ slope step plus minus }
{
    (plus - minus) / (2.0 * step)
}

// A reply's drops go over the first places of the slice, 0 in place of a missing one.
pub fn lay_drops(out: &mut [f64], entries: &[Option<f64>])
    ensures { out.new ≡ laid_over (map drop_or0 entries.now) out.old }
{
    let n = out.len().min(entries.len());
    for i in 0..n {
        out[i] = entries[i].unwrap_or(0.0);
    }
}

// The slice holds the drops at the plus point; with the reply at the minus point, the slopes go over its first places.
pub fn lay_slopes(out: &mut [f64], step: f64, entries: &[Option<f64>])
    ensures { out.new ≡ laid_over (slopes step out.old (map drop_or0 entries.now)) out.old }
{
    let n = out.len().min(entries.len());
    for i in 0..n {
        let plus = out[i];
        out[i] = slope_of(step, plus, entries[i].unwrap_or(0.0));
    }
}

// Kept: its two methods have the shape of two of `Columns`. One type for both would lose the names of the columns.
impl RowColumns<'_> {
    // How far the columns are read together.
    fn len(self) -> usize
        ensures len { result ≡ length (rows_in self.entry) }
        ensures within_predicted { result ≤ length self.entry.predicted.now }
        ensures within_mv { result ≤ length self.entry.by_mv.now }
        ensures within_bc { result ≤ length self.entry.by_bc.now }
    {
        slices::shortest(self.predicted.len(), self.by_mv.len(), self.by_bc.len())
    }

    // The i-th row, counted from 0.
    pub fn get(self, i: usize) -> Option<Row>
        ensures { result ≡ slice_get (rows_in self.entry) i }
    {
        let predicted_drop = *self.predicted.get(i)?;
        let d_drop_d_mv = *self.by_mv.get(i)?;
        let d_drop_d_bc = *self.by_bc.get(i)?;
        Some(Row {
            predicted_drop,
            d_drop_d_mv,
            d_drop_d_bc,
        })
    }
}

// ---- the evaluation

// One observation more: the two scaled columns, and the fractional sensitivities at the point.
#[tactic(auto, unfolding(definition::specs::Likelihood::accumulate_of))]
fn accumulate(p: Point, sums: Sums, measured: f64, sigma: f64, row: Row) -> Sums
    ensures { result ≡ accumulate_of p sums measured sigma row }
{
    let standardized = (row.predicted_drop - measured) / sigma;
    let j_mv = row.d_drop_d_mv * MV_COORDINATE_SCALE_FPS / sigma;
    let j_bc = row.d_drop_d_bc * BC_COORDINATE_SCALE / sigma;
    let fractional_mv = row.d_drop_d_mv * p.mv / sigma;
    let fractional_bc = row.d_drop_d_bc * p.bc / sigma;
    Sums {
        a00: sums.a00 + j_mv * j_mv,
        a01: sums.a01 + j_mv * j_bc,
        a11: sums.a11 + j_bc * j_bc,
        gradient_mv: sums.gradient_mv + j_mv * standardized,
        gradient_bc: sums.gradient_bc + j_bc * standardized,
        chi_square: sums.chi_square + standardized * standardized,
        fractional_mv: sums.fractional_mv + fractional_mv * fractional_mv,
        fractional_bc: sums.fractional_bc + fractional_bc * fractional_bc,
    }
}

// What a prior adds to a diagonal entry of the information.
#[tactic(auto, unfolding(definition::specs::Likelihood::prior_information_of))]
fn prior_information(prior: Option<NormalPriorV1>, scale: f64) -> f64
    ensures { result ≡ prior_information_of prior scale }
{
    match prior {
        None => 0.0,
        Some(q) => {
            let j = scale / q.sigma;
            0.0 + j * j
        }
    }
}

// An entry of the gradient with what the prior adds to it.
#[tactic(auto, unfolding(definition::specs::Likelihood::with_prior_gradient_of))]
fn with_prior_gradient(prior: Option<NormalPriorV1>, scale: f64, x: f64, gradient: f64) -> f64
    ensures { result ≡ with_prior_gradient_of prior scale x gradient }
{
    match prior {
        None => gradient,
        Some(q) => {
            let j = scale / q.sigma;
            let standardized = (x - q.mean) / q.sigma;
            gradient + j * standardized
        }
    }
}

// The fractional sensitivity of the coefficient over that of the speed, 0 where that of the speed is not above 0.
#[tactic(auto, unfolding(definition::specs::Likelihood::sensitivity_ratio_of))]
fn sensitivity_ratio(fractional_mv: f64, fractional_bc: f64) -> f64
    ensures { result ≡ sensitivity_ratio_of fractional_mv fractional_bc }
{
    if 0.0 < fractional_mv {
        return root::root(fractional_bc / fractional_mv);
    }
    0.0
}

// The sums with the priors.
#[tactic(auto, unfolding(definition::specs::Likelihood::from_sums))]
fn finished(priors: TruingPriorsV1, p: Point, sums: Sums) -> Evaluation
    ensures { result ≡ from_sums priors p sums }
{
    let mv_prior = priors.muzzle_velocity_fps;
    let bc_prior = priors.ballistic_coefficient;
    let data_information = Symmetric2 {
        a00: sums.a00,
        a01: sums.a01,
        a11: sums.a11,
    };
    let prior = Symmetric2 {
        a00: prior_information(mv_prior, MV_COORDINATE_SCALE_FPS),
        a01: 0.0,
        a11: prior_information(bc_prior, BC_COORDINATE_SCALE),
    };
    Evaluation {
        data_information,
        posterior_information: data_information.add(prior),
        gradient_mv: with_prior_gradient(mv_prior, MV_COORDINATE_SCALE_FPS, p.mv, sums.gradient_mv),
        gradient_bc: with_prior_gradient(bc_prior, BC_COORDINATE_SCALE, p.bc, sums.gradient_bc),
        chi_square: sums.chi_square,
        prior_penalty: with_priors(priors, p, 0.0),
        bc_sensitivity_ratio: sensitivity_ratio(sums.fractional_mv, sums.fractional_bc),
        data_condition_number: matrix::column_condition(data_information),
    }
}
