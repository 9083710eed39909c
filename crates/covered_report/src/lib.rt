// What is read of a session under a coverage table: a call beside those that read, to which the table is handed.
#![tactic(auto)]

ghost use Rattle.std.specs.Prelude.{◌≡◌};
ghost use Rattle.definition.specs.Summary.{Finished, report_of};
ghost use Rattle.definition.specs.Meaning.{approximation_says};
ghost use Rattle.report.specs.Reading.{HeadOf, HeadWith};
ghost use Rattle.editing.specs.Meaning.{state};
ghost use Rattle.coverage.specs.Rows.{rows_under};
ghost use Rattle.coverage.specs.Report.{approximation_by, crosses_under, report_under};
ghost use Rattle.coverage.specs.Table.{rows_in};
ghost use Rattle.covered_report.specs.Reading.{ReportReadUnder};

use coverage::Table;
use definition::{TruingApproximationV1, TruingGaussianApproximationV1};
use editing::Session;
use report::UncertaintyTruingReportV1;
use warnings::Warnings;

// Whether a parameter's interval at the last row reaches beyond the fit's bounds.
#[tactic(auto, unfolding(coverage::specs::Report::crosses_under))]
fn crosses(a: TruingApproximationV1, table: &Table) -> bool
    ensures { result ≡ crosses_under (rows_in table.now) (approximation_says a) }
{
    let row = table.last();
    match a {
        Ok((g, _)) => warnings::crosses_bounds(TruingGaussianApproximationV1 {
            muzzle_velocity_interval_95: row.interval(g.muzzle_velocity_interval_95),
            ballistic_coefficient_interval_95: row.interval(g.ballistic_coefficient_interval_95),
            ..g
        }),
        Err(_) => false,
    }
}

// The head of a report under a table, from the one without: the crossing is judged again.
fn under(h: UncertaintyTruingReportV1, table: &Table) -> UncertaintyTruingReportV1
    ensures { (c : Finished) → HeadOf h (report_of c) → HeadWith (approximation_by (rows_under (rows_in table.now))) result (report_under (rows_in table.now) c) }
{
    let warnings = Warnings {
        interval_crosses_fit_bounds: crosses(h.approximation, table),
        ..h.warnings
    };
    UncertaintyTruingReportV1 { warnings, ..h }
}

// The head of the report that stands, under a table. Its intervals are drawn row by row where they are written.
#[tactic(auto, using(crate::proofs::Laws::absent_under, crate::proofs::Laws::given_under))]
pub fn report(s: Session, table: &Table) -> Option<UncertaintyTruingReportV1>
    ensures { ReportReadUnder (rows_in table.now) (state s) result }
{
    editing::report(s).map(|h| under(h, table))
}
