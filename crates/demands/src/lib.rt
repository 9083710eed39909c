// Every call of a host with its whole promise: what each ensures is what the three demands assume of it (specs/Demands.antt), so that a contract
// of `editing` which says less is refused here. Nothing is decided in this file.
#![tactic(auto)]

ghost use Rattle.std.specs.Prelude.{◌≡◌};
ghost use Rattle.definition.specs.Meaning.{opening_in};
ghost use Rattle.definition.specs.Whole as Edit;
ghost use Rattle.editing.specs.Meaning.{state, seen};
ghost use Rattle.definition.specs.Session.{says_of, Opened};
ghost use Rattle.report.specs.Reading.{ReportRead, ResultRead, BaselineResultRead, BandRead};
ghost use Rattle.coverage.specs.Table.{rows_in};
ghost use Rattle.covered_report.specs.Reading.{ReportReadUnder};
ghost use Rattle.demands.specs.Calls as Call;
ghost use Rattle.demands.specs.Demands.{Meets, count};

use bands::TruingPredictiveBandV1;
use coverage::Table;
use definition::{
    TruingPredictionRequestV1, UncertaintyTruingRequestV1, WeightedTruingObservationResultV1,
};
use editing::{Answer, Session};
use report::UncertaintyTruingReportV1;

// ---- the calls

pub fn open(request: UncertaintyTruingRequestV1<'_>) -> Answer
    ensures { Opened seen (opening_in request.entry) (says_of result.step) result.session }
{
    editing::open(request)
}

pub fn reply(s: Session, entries: &[Option<f64>]) -> Answer
    ensures { Meets (Call.reply entries.now) s result }
{
    editing::reply(s, entries)
}

pub fn refuse(s: Session) -> Answer
    ensures { Meets Call.refuse_point s result }
{
    editing::refuse(s)
}

pub fn put_in(s: Session, place: usize, entry: TruingPredictionRequestV1) -> Answer
    ensures { Meets (Call.change (Edit.put_in place entry)) s result }
{
    editing::put_in(s, place, entry)
}

pub fn take_out(s: Session, place: usize) -> Answer
    ensures { Meets (Call.change (Edit.take_out place)) s result }
{
    editing::take_out(s, place)
}

pub fn exchange(s: Session, place: usize, entry: TruingPredictionRequestV1) -> Answer
    ensures { Meets (Call.change (Edit.exchange place entry)) s result }
{
    editing::exchange(s, place, entry)
}

// ---- reading

pub fn asked(s: Session) -> u64
    ensures { result ≡ count s }
{
    editing::asked(s)
}

pub fn report(s: Session) -> Option<UncertaintyTruingReportV1>
    ensures { ReportRead (state s) result }
{
    editing::report(s)
}

pub fn report_under(s: Session, table: &Table) -> Option<UncertaintyTruingReportV1>
    ensures { ReportReadUnder (rows_in table.now) (state s) result }
{
    covered_report::report(s, table)
}

pub fn observation_result(s: Session, i: usize) -> Option<WeightedTruingObservationResultV1>
    ensures { ResultRead (state s) i result }
{
    editing::observation_result(s, i)
}

pub fn baseline_result(s: Session, i: usize) -> Option<WeightedTruingObservationResultV1>
    ensures { BaselineResultRead (state s) i result }
{
    editing::baseline_result(s, i)
}

pub fn predictive_band(s: Session, i: usize) -> Option<TruingPredictiveBandV1>
    ensures { BandRead (state s) i result }
{
    editing::predictive_band(s, i)
}
