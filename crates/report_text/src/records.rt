// The records of a report, their fields in the source's order.

ghost use Rattle.std.specs.Prelude.{◌≡◌, Option, Some, None, cond, option_map, slice_get};
ghost use Rattle.definition.specs.Meaning.{approximation_says};
ghost use Rattle.coverage.specs.Rows.{at_row, rows_under};
ghost use Rattle.coverage.specs.Report.{gaussian_by, approximation_by, band_by};
ghost use Rattle.coverage.specs.Table.{rows_in};
ghost use Rattle.summary.specs.Summary.{diagnostics_says};
ghost use Rattle.bands.specs.Bands.{band_says};
ghost use Rattle.warnings.specs.Warnings.{codes_of, stands_in};
ghost use Rattle.report_text.specs.Texts.{criterion_name, failure_name, warning_text, list_name, gaussian_text, normal_text, priors_text, result_text};
ghost use Rattle.report_text.specs.Texts.{diagnostics_text, covariance_text, rows_text, interval_text, available_text, approximation_text, band_text};
ghost use Rattle.report_text.specs.Texts.{warnings_text};
ghost use Rattle.report_text.specs.Lists.{warning_at};

use crate::{First, Places, Text, Writer};
use bands::TruingPredictiveBandV1;
use coverage::Table;
use definition::{
    Distances, NormalPriorV1, TruingApproximationFailureCodeV1, TruingApproximationV1,
    TruingCovarianceV1, TruingGaussianApproximationV1, TruingMapConvergenceCriterionV1,
    TruingPriorsV1, TruingUncertaintyWarningCodeV1, WeightedTruingObservationResultV1,
};
use interval::GaussianIntervalV1;
use summary::TruingUncertaintyDiagnosticsV1;
use warnings::Warnings;
use words::Word;

// ---- codes, by their names

impl Text for TruingMapConvergenceCriterionV1 {
    ghost text = { criterion_name };

    #[tactic(auto, unfolding(words::specs::Words::word_at))]
    fn put(&self, w: &mut Writer<'_>) {
        let word = match self {
            TruingMapConvergenceCriterionV1::ScaledGradient => Word::ScaledGradient,
            TruingMapConvergenceCriterionV1::ObjectiveMesh => Word::ObjectiveMesh,
        };
        word.put(w);
    }
}

impl Text for TruingApproximationFailureCodeV1 {
    ghost text = { failure_name };

    #[tactic(auto, unfolding(words::specs::Words::word_at))]
    fn put(&self, w: &mut Writer<'_>) {
        let word = match self {
            TruingApproximationFailureCodeV1::OptimizerDidNotConverge => {
                Word::OptimizerDidNotConverge
            }
            TruingApproximationFailureCodeV1::MapAtParameterBound => Word::MapAtParameterBound,
            TruingApproximationFailureCodeV1::RankDeficientInformation => {
                Word::RankDeficientInformation
            }
            TruingApproximationFailureCodeV1::NonFiniteInformation => Word::NonFiniteInformation,
        };
        word.put(w);
    }
}

impl Text for Distances {
    ghost text = { list_name };

    #[tactic(auto, unfolding(words::specs::Words::word_at))]
    fn put(&self, w: &mut Writer<'_>) {
        let word = match self {
            Distances::Shots => Word::Shots,
            Distances::Requested => Word::Distances,
            Distances::New => Word::New,
        };
        word.put(w);
    }
}

// ---- intervals, priors, observation results

impl Text for GaussianIntervalV1 {
    ghost text = { gaussian_text };

    #[tactic(auto, using(crate::proofs::Putting::next_field, crate::proofs::Putting::closing), unfolding(crate::specs::Texts::gaussian_text))]
    fn put(&self, w: &mut Writer<'_>) {
        w.open(&self.estimate);
        w.field(&self.standard_deviation);
        w.field(&self.lower);
        w.field(&self.upper);
        w.field(&self.probability);
        w.close();
    }
}

impl Text for NormalPriorV1 {
    ghost text = { normal_text };

    #[tactic(auto, using(crate::proofs::Putting::next_field, crate::proofs::Putting::closing), unfolding(crate::specs::Texts::normal_text))]
    fn put(&self, w: &mut Writer<'_>) {
        w.open(&self.mean);
        w.field(&self.sigma);
        w.close();
    }
}

impl Text for TruingPriorsV1 {
    ghost text = { priors_text };

    #[tactic(auto, using(crate::proofs::Putting::next_field, crate::proofs::Putting::closing), unfolding(crate::specs::Texts::priors_text))]
    fn put(&self, w: &mut Writer<'_>) {
        w.open(&self.muzzle_velocity_fps);
        w.field(&self.ballistic_coefficient);
        w.close();
    }
}

impl Text for WeightedTruingObservationResultV1 {
    ghost text = { result_text };

    #[tactic(auto, using(crate::proofs::Putting::next_field, crate::proofs::Putting::closing), unfolding(crate::specs::Texts::result_text))]
    fn put(&self, w: &mut Writer<'_>) {
        w.open(&self.range_yd);
        w.field(&self.observed_drop);
        w.field(&self.sigma);
        w.field(&self.predicted_drop);
        w.field(&self.residual);
        w.field(&self.standardized_residual);
        w.close();
    }
}

// ---- diagnostics, the covariance

impl Text for TruingUncertaintyDiagnosticsV1 {
    ghost text = { λ d. diagnostics_text (diagnostics_says d) };

    #[tactic(auto, using(crate::proofs::Putting::next_field, crate::proofs::Putting::closing), unfolding(crate::specs::Texts::diagnostics_text))]
    fn put(&self, w: &mut Writer<'_>) {
        w.open(&self.chi_square);
        w.field(&self.prior_penalty);
        w.field(&self.penalized_chi_square);
        w.field(&self.effective_parameter_count);
        w.field(&self.effective_degrees_of_freedom);
        w.field(&self.reduced_chi_square);
        w.field(&self.bc_sensitivity_ratio);
        w.field(&self.data_condition_number);
        w.field(&self.map_scaled_gradient_inf_norm);
        w.field(&self.map_convergence_criterion);
        w.field(&self.map_objective_poll_radius);
        w.field(&self.map_max_objective_poll_improvement);
        w.field(&(self.map_objective_poll_evaluations as u64));
        w.close();
    }
}

impl Text for TruingCovarianceV1 {
    ghost text = { covariance_text };

    #[tactic(auto, using(crate::proofs::Putting::next_field, crate::proofs::Putting::closing), unfolding(crate::specs::Texts::covariance_text))]
    fn put(&self, w: &mut Writer<'_>) {
        w.open(&self.mv_variance_fps2);
        w.field(&self.mv_bc_covariance_fps);
        w.field(&self.bc_variance);
        w.close();
    }
}

// ---- what has intervals, under a coverage table

// Each interval comes once per row of the table.
#[derive(Clone, Copy)]
pub struct Under<'a, T> {
    pub table: &'a Table,
    pub it: T,
}

impl<'a, T> Under<'a, T> {
    // Something else under the same table.
    fn with<U>(&self, it: U) -> Under<'a, U>
        ensures same_table { result.table ≡ self.now.table }
        ensures holds { result.it ≡ it }
    {
        let table = self.table;
        Under { table, it }
    }
}

// By the rows, in their order.
impl Places for Under<'_, GaussianIntervalV1> {
    type Item = GaussianIntervalV1;

    ghost texts = { λ u i. option_map (λ r. gaussian_text (at_row u.it r)) (slice_get (rows_in u.table.now) i) };

    fn get(&self, i: usize) -> Option<GaussianIntervalV1> {
        let row = *self.table.rows().get(i)?;
        Some(row.interval(self.it))
    }
}

// One row is a record, and several are a list of records.
impl Text for Under<'_, GaussianIntervalV1> {
    ghost text = { λ u. rows_text (rows_under (rows_in u.table.now) u.it) };

    #[tactic(auto, using(crate::proofs::Listing::one_row, crate::proofs::Listing::several_rows))]
    fn put(&self, w: &mut Writer<'_>) {
        let rows = self.table.rows();
        if rows.len() == 1 {
            rows[0].interval(self.it).put(w);
        } else {
            let list = First {
                n: rows.len(),
                places: *self,
            };
            list.put(w);
        }
    }
}

impl Text for Under<'_, Option<GaussianIntervalV1>> {
    ghost text = { λ u. interval_text (option_map (rows_under (rows_in u.table.now)) u.it) };

    #[tactic(auto, unfolding(words::specs::Words::word_at))]
    fn put(&self, w: &mut Writer<'_>) {
        match self.it {
            None => Word::None.put(w),
            Some(it) => self.with(it).put(w),
        }
    }
}

impl Text for Under<'_, TruingGaussianApproximationV1> {
    ghost text = { λ u. available_text (gaussian_by (rows_under (rows_in u.table.now)) u.it) };

    #[tactic(auto, using(crate::proofs::Putting::next_field, crate::proofs::Putting::closing), unfolding(crate::specs::Texts::available_text, words::specs::Words::word_at))]
    fn put(&self, w: &mut Writer<'_>) {
        let g = self.it;
        w.open(&Word::Available);
        w.field(&g.covariance);
        w.field(&self.with(g.muzzle_velocity_interval_95));
        w.field(&self.with(g.ballistic_coefficient_interval_95));
        w.field(&g.mv_bc_correlation);
        w.field(&g.scaled_information_condition_number);
        w.close();
    }
}

impl Text for Under<'_, TruingApproximationV1> {
    ghost text = { λ u. approximation_text (approximation_by (rows_under (rows_in u.table.now)) (approximation_says u.it)) };

    #[tactic(auto, unfolding(crate::specs::Texts::approximation_text, words::specs::Words::word_at))]
    fn put(&self, w: &mut Writer<'_>) {
        match self.it {
            Ok((it, _)) => self.with(it).put(w),
            Err(code) => (Word::Unavailable, code).put(w),
        }
    }
}

impl Text for Under<'_, TruingPredictiveBandV1> {
    ghost text = { λ u. band_text (band_by (rows_under (rows_in u.table.now)) (band_says u.it)) };

    #[tactic(auto, using(crate::proofs::Putting::next_field, crate::proofs::Putting::closing), unfolding(crate::specs::Texts::band_text))]
    fn put(&self, w: &mut Writer<'_>) {
        let band = self.it;
        w.open(&band.range_yd);
        w.field(&band.predicted_drop);
        w.field(&self.with(band.latent_interval_95));
        w.field(&self.with(band.future_observation_interval_95));
        w.close();
    }
}

// ---- warnings

// A record of one code.
impl Text for TruingUncertaintyWarningCodeV1 {
    ghost text = { warning_text };

    #[tactic(auto, using(crate::proofs::Putting::closing), unfolding(crate::specs::Texts::warning_text, words::specs::Words::word_at))]
    fn put(&self, w: &mut Writer<'_>) {
        let word = match self {
            TruingUncertaintyWarningCodeV1::OptimizerDidNotConverge => {
                Word::OptimizerDidNotConverge
            }
            TruingUncertaintyWarningCodeV1::ObjectiveMeshConvergence => {
                Word::ObjectiveMeshConvergence
            }
            TruingUncertaintyWarningCodeV1::WeakBcSensitivity => Word::WeakBcSensitivity,
            TruingUncertaintyWarningCodeV1::IllConditionedData => Word::IllConditionedData,
            TruingUncertaintyWarningCodeV1::MvPriorDominated => Word::MvPriorDominated,
            TruingUncertaintyWarningCodeV1::BcPriorDominated => Word::BcPriorDominated,
            TruingUncertaintyWarningCodeV1::GaussianApproximationUnavailable => {
                Word::GaussianApproximationUnavailable
            }
            TruingUncertaintyWarningCodeV1::IntervalCrossesFitBounds => {
                Word::IntervalCrossesFitBounds
            }
            TruingUncertaintyWarningCodeV1::LowEffectiveDegreesOfFreedom => {
                Word::LowEffectiveDegreesOfFreedom
            }
            TruingUncertaintyWarningCodeV1::PredictionOutsideObservedDomain => {
                Word::PredictionOutsideObservedDomain
            }
        };
        w.open(&word);
        w.close();
    }
}

// By the codes, in their order.
impl Places for Warnings {
    type Item = TruingUncertaintyWarningCodeV1;

    ghost texts = { λ found i. warning_at warning_text found i };

    fn get(&self, i: usize) -> Option<TruingUncertaintyWarningCodeV1> {
        let code = *warnings::CODES.get(i)?;
        if self.stands(code) { Some(code) } else { None }
    }
}

impl Text for Warnings {
    ghost text = { λ found. warnings_text (codes_of found) };

    #[tactic(auto, using(crate::proofs::Listing::standing), unfolding(crate::specs::Texts::warnings_text))]
    fn put(&self, w: &mut Writer<'_>) {
        let stands = First {
            n: warnings::CODES.len(),
            places: *self,
        };
        stands.put(w);
    }
}
