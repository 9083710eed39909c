// What is read of a finished run, and a change of its requested distances.
#![tactic(auto)]

ghost use Rattle.std.specs.Prelude.{◌≡◌};
ghost use Rattle.lists.specs.Changing.{edit_of, rows_from};
ghost use Rattle.report.specs.Reading.{ReportRead, ResultRead, BaselineResultRead, BandRead};
ghost use Rattle.session.specs.Meaning.{state};
ghost use Rattle.finished_run.specs.Changing.{fitted_in, Changed};

use bands::TruingPredictiveBandV1;
use definition::{Point, Row, WeightedTruingObservationResultV1};
use lists::Change;
use phases::Phase;
use report::UncertaintyTruingReportV1;
use run_body::Body;
use session::Session;

// ---- reading

// The report that stands, but for its lists.
#[tactic(auto, using(crate::proofs::Reading::none_shown))]
pub fn report(s: Session) -> Option<UncertaintyTruingReportV1>
    ensures { ReportRead (state s) result }
{
    if !session::is_standing(&s) {
        return None;
    }
    let b = s.body;
    let baseline = report_parts::baseline_of(b.shots, b.entered, b.baseline);
    let n = report_parts::results_count(b.shots, b.predicted, b.baseline);
    let m = report_parts::bands_count(b.wanted, b.rows);
    let outside = report_parts::any_outside(b.shots, b.wanted);
    Some(report::report(n, m, b.progress, b.priors, baseline, outside))
}

// The i-th observation result of the report that stands, counted from 0.
#[tactic(auto, using(crate::proofs::Reading::no_result, crate::proofs::Reading::a_result))]
pub fn observation_result(s: Session, i: usize) -> Option<WeightedTruingObservationResultV1>
    ensures { ResultRead (state s) i result }
{
    if !session::is_standing(&s) {
        return None;
    }
    report_parts::result_of(s.body.shots, s.body.predicted, i)
}

// The i-th observation result of its baseline, if it has one.
#[tactic(auto, using(crate::proofs::Reading::no_baseline_result, crate::proofs::Reading::a_baseline_result))]
pub fn baseline_result(s: Session, i: usize) -> Option<WeightedTruingObservationResultV1>
    ensures { BaselineResultRead (state s) i result }
{
    if !session::is_standing(&s) {
        return None;
    }
    report_parts::result_of(s.body.shots, s.body.baseline?, i)
}

// The i-th band of the report that stands.
#[tactic(auto, using(crate::proofs::Reading::no_band, crate::proofs::Reading::a_band))]
pub fn predictive_band(s: Session, i: usize) -> Option<TruingPredictiveBandV1>
    ensures { BandRead (state s) i result }
{
    if !session::is_standing(&s) {
        return None;
    }
    let a = report_parts::approximation_of(s.body.progress);
    report_parts::band_of(a, s.body.wanted, s.body.rows, i)
}

// ---- changing the requested distances of a finished run

// The point of the fit and the number of requested distances, where a finished run stands.
#[tactic(auto, using(crate::proofs::Changes::fitted_none, crate::proofs::Changes::fitted_some))]
pub fn fit_of(s: Session) -> Option<(Point, usize)>
    ensures { result ≡ fitted_in (state s) }
{
    if !session::is_standing(&s) {
        return None;
    }
    let n = report_parts::bands_count(s.body.wanted, s.body.rows);
    Some((s.body.progress.point, n))
}

// The finished run with the change made, the new distance's row in its place. Nothing is asked, and nothing else changes.
#[tactic(auto, using(crate::proofs::Changes::not_changed, crate::proofs::Changes::not_fitting, crate::proofs::Changes::is_changed))]
pub fn changed(s: Session, change: Change, row: Row) -> Session
    ensures { Changed s (edit_of change) (rows_from row) result }
{
    if !session::is_standing(&s) {
        return s;
    }
    let n = report_parts::bands_count(s.body.wanted, s.body.rows);
    if !(change.is_placed(n) & change.has_room(n)) {
        return s;
    }
    let phase = Phase::Ended;
    Session {
        body: Body {
            wanted: lists::changed_wanted(s.body.wanted, change),
            rows: lists::changed_rows(s.body.rows, n, change, row),
            ..s.body
        },
        phase,
        ..s
    }
}
