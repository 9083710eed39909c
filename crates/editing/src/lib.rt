// A session whose requested distances can be edited once its run has ended. The run is a `session::Session`; an edit asks about its new distance alone and
// then changes the list and the bands of the finished run, or leaves them as they were.
#![tactic(auto)]

ghost use Rattle.std.specs.Prelude.{◌≡◌, true, length, Some};
ghost use Rattle.definition.specs.Summary.{Finished};
ghost use Rattle.definition.specs.Whole.{put_in, take_out, exchange};
ghost use Rattle.definition.specs.Refusals.{number_of};
ghost use Rattle.definition.specs.Meaning.{opening_in};
ghost use Rattle.definition.specs.Session.{says_of, standing, Stands, Declines, Opened, Replied, PointRefused, Edited};
ghost use Rattle.stencil.specs.Stencil.{all_rows};
ghost use Rattle.lists.specs.Changing.{edit_of, entry_in};
ghost use Rattle.report.specs.Reading.{ReportRead, ResultRead, BaselineResultRead, BandRead};
ghost use Rattle.session.specs.Meaning as running;
ghost use Rattle.run_body.specs.Meaning.{sizes_of};
ghost use Rattle.finished_run.specs.Changing.{fitted_in};
ghost use Rattle.editing.specs.Meaning.{opens, state, seen, of_run, closed_with, asks_with, asked_at, newly, open_point, row_from};
ghost use Rattle.editing.specs.Meaning.{next_left};

use bands::TruingPredictiveBandV1;
use definition::{
    Distances, Point, Refusal, RefusalCode, Row, Step, TruingPredictionRequestV1,
    UncertaintyTruingRequestV1, WeightedTruingObservationResultV1,
};
use lists::Change;
use report::UncertaintyTruingReportV1;
use stencil::{StencilPoint, StencilRows};

// No run puts more questions (`limited` of demand 1): enough for a host that counts them.
pub const MAX_QUESTIONS: usize = 4_546;

// An edit with a question open: the change that it makes, which of the five questions is open, and its row so far.
#[derive(Clone, Copy)]
pub struct OpenEdit {
    change: Change,
    question: StencilPoint,
    row: StencilRows<1>,
}

#[derive(Clone, Copy)]
pub struct Session {
    run: session::Session,
    edit: Option<OpenEdit>,
}

pub type Answer = session::Answer<Session>;

// ---- answers

fn refused(code: RefusalCode, position: usize) -> Step
    ensures { result ≡ Step.Refused (record { code = code; position = position }) }
{
    Step::Refused(Refusal { code, position })
}

fn declined(s: Session, code: RefusalCode) -> Answer
    ensures { Declines seen (says_of result.step) result.session s (number_of code) }
{
    Answer {
        step: refused(code, 0),
        session: s,
    }
}

// An answer of the run.
fn of_run(a: session::Answer) -> Answer
    ensures { result ≡ of_run a }
{
    // Not by `closed_with`: that would copy the session once more for each reply.
    Answer {
        step: a.step,
        session: Session {
            run: a.session,
            edit: None,
        },
    }
}

// An edit ends, with the run that stands then.
fn closed_with(run: session::Session, step: Step) -> Answer
    ensures { result ≡ closed_with run step }
{
    Answer {
        step,
        session: Session { run, edit: None },
    }
}

// An edit asks its next question, about the new distance.
fn asks(run: session::Session, asking: OpenEdit, p: Point) -> Answer
    ensures { result ≡ asked_at run asking p }
{
    Answer {
        step: Step::Question(p.mv, p.bc, Distances::New),
        session: Session {
            run,
            edit: Some(asking),
        },
    }
}

// ---- an edit

// The point of the fit, where an edit can have a question open. A session that no call gave may have an edit open that fits no finished run.
fn open_point(run: session::Session, change: Change) -> Option<Point>
    ensures { result ≡ open_point (fitted_in (running.state run)) (edit_of change) }
{
    let (p, n) = finished_run::fit_of(run)?;
    let opens = change.is_placed(n) & (change.has_room(n) & change.entry().is_some());
    if opens { Some(p) } else { None }
}

fn row_of(rows: StencilRows<1>) -> Row
    ensures { result ≡ row_from rows }
{
    Row {
        predicted_drop: rows.predicted[0],
        d_drop_d_mv: rows.by_mv[0],
        d_drop_d_bc: rows.by_bc[0],
    }
}

// A reply about the new distance is in its row. A gap is judged after the fifth; the edit then leaves the finished run as it was.
#[tactic(auto, using(crate::proofs::Laws::last_of_five))]
fn after_reply(
    run: session::Session,
    change: Change,
    k: StencilPoint,
    p: Point,
    row: StencilRows<1>,
) -> Answer
    ensures { (c : Finished) → running.state run ≡ standing c → c.fit.point ≡ p → opens (edit_of change) (length c.requested) ≡ true → Stands seen (says_of result.step) result.session (sizes_of run.body) (Some c) run.asked (next_left c change k p (all_rows row)) }
{
    if let Some(question) = k.next() {
        let next = OpenEdit {
            change,
            question,
            row,
        };
        return asks(run, next, question.at(p));
    }
    let next = finished_run::changed(run, change, row_of(row));
    if row.gap != 0 {
        return closed_with(run, refused(RefusalCode::DistanceMissing, change.place()));
    }
    closed_with(next, Step::Report)
}

// A reply about the new distance.
fn reply_new(run: session::Session, asking: OpenEdit, entries: &[Option<f64>]) -> Answer
    ensures { Replied seen (asks_with run asking) entries.now (says_of result.step) result.session }
{
    let OpenEdit {
        change,
        question,
        row,
    } = asking;
    let s = Session {
        run,
        edit: Some(asking),
    };
    let Some(p) = open_point(run, change) else {
        return declined(s, RefusalCode::NoQuestionOpen);
    };
    let is_one = entries.len() == 1;
    if !is_one {
        return declined(s, RefusalCode::WrongEntryCount);
    }
    let mut row = row;
    row.lay(question, p, entries);
    after_reply(run, change, question, p, row)
}

// A refusal of the point of a question about the new distance.
fn refuse_new(run: session::Session, asking: OpenEdit) -> Answer
    ensures { PointRefused seen (asks_with run asking) (says_of result.step) result.session }
{
    match open_point(run, asking.change) {
        None => {
            let s = Session {
                run,
                edit: Some(asking),
            };
            declined(s, RefusalCode::NoQuestionOpen)
        }
        Some(_) => closed_with(run, refused(RefusalCode::PointRefused, 0)),
    }
}

// ---- the calls

// The opening: refused by its checks, or the first question, at the entered point.
pub fn open(request: UncertaintyTruingRequestV1<'_>) -> Answer
    ensures { Opened seen (opening_in request.entry) (says_of result.step) result.session }
{
    of_run(session::open(request))
}

// A reply with an entry for each distance of the open question: a drop, or none for one that is missing.
#[tactic(auto, using(crate::proofs::Laws::run_replied))]
pub fn reply(s: Session, entries: &[Option<f64>]) -> Answer
    ensures { Replied seen s entries.now (says_of result.step) result.session }
{
    match s.edit {
        None => of_run(session::reply(s.run, entries)),
        Some(asking) => reply_new(s.run, asking, entries),
    }
}

// The host refuses the point: the run or the edit ends, but for the baseline, whose refusal refuses nothing.
#[tactic(auto, using(crate::proofs::Laws::run_refused))]
pub fn refuse(s: Session) -> Answer
    ensures { PointRefused seen s (says_of result.step) result.session }
{
    match s.edit {
        None => of_run(session::refuse(s.run)),
        Some(asking) => refuse_new(s.run, asking),
    }
}

// The finished run that stands, unless an edit has a question open.
#[tactic(auto, using(crate::proofs::Laws::unfitted))]
fn standing_fit(s: Session) -> Option<(Point, usize)>
    ensures { result ≡ fitted_in (state s) }
{
    match s.edit {
        None => finished_run::fit_of(s.run),
        Some(_) => None,
    }
}

// The first of the five questions about the new distance.
fn begin(run: session::Session, change: Change, p: Point) -> Answer
    ensures { result ≡ asked_at run (newly change) p }
{
    let asking = OpenEdit {
        change,
        question: StencilPoint::Nominal,
        row: StencilRows::new(),
    };
    asks(run, asking, p)
}

// An edit that brings a distance.
#[tactic(auto, using(crate::proofs::Laws::no_room, crate::proofs::Laws::faulty, crate::proofs::Laws::begins))]
fn edited(s: Session, change: Change, entry: TruingPredictionRequestV1) -> Answer
    ensures { entry_in (edit_of change) ≡ Some entry → Edited seen s (edit_of change) (says_of result.step) result.session }
{
    let Some((p, n)) = standing_fit(s) else {
        return declined(s, RefusalCode::NoFinishedReport);
    };
    if !change.is_placed(n) {
        return declined(s, RefusalCode::NoSuchPlace);
    }
    if !change.has_room(n) {
        return closed_with(s.run, refused(RefusalCode::TooManyDistances, 0));
    }
    if !opening::is_sound_requested(entry) {
        return closed_with(s.run, refused(RefusalCode::FaultyDistance, change.place()));
    }
    begin(s.run, change, p)
}

// A requested distance, with the sigma of a future observation or none, is put in at a place; later ones move up.
pub fn put_in(s: Session, place: usize, entry: TruingPredictionRequestV1) -> Answer
    ensures { Edited seen s (put_in place entry) (says_of result.step) result.session }
{
    edited(s, Change::PutIn(place, entry), entry)
}

// The requested distance at a place is taken out. No question is put.
pub fn take_out(s: Session, place: usize) -> Answer
    ensures { Edited seen s (take_out place) (says_of result.step) result.session }
{
    let Some((_, n)) = standing_fit(s) else {
        return declined(s, RefusalCode::NoFinishedReport);
    };
    let change = Change::TakeOut(place);
    if !change.is_placed(n) {
        return declined(s, RefusalCode::NoSuchPlace);
    }
    // No row comes in.
    let row = Row {
        predicted_drop: 0.0,
        d_drop_d_mv: 0.0,
        d_drop_d_bc: 0.0,
    };
    let shorter = finished_run::changed(s.run, change, row);
    closed_with(shorter, Step::Report)
}

// The requested distance at a place is exchanged for another.
pub fn exchange(s: Session, place: usize, entry: TruingPredictionRequestV1) -> Answer
    ensures { Edited seen s (exchange place entry) (says_of result.step) result.session }
{
    edited(s, Change::Exchange(place, entry), entry)
}

// ---- reading

// How many questions the run has put. Those of an edit are outside this count.
pub fn asked(s: Session) -> u64
    ensures { result ≡ s.run.asked }
{
    session::asked(s.run)
}

// The report that stands, but for its lists: none while a question is open.
#[tactic(auto, using(crate::proofs::Laws::unreported))]
pub fn report(s: Session) -> Option<UncertaintyTruingReportV1>
    ensures { ReportRead (state s) result }
{
    match s.edit {
        None => finished_run::report(s.run),
        Some(_) => None,
    }
}

// The i-th observation result of the report that stands, counted from 0.
#[tactic(auto, using(crate::proofs::Laws::unread))]
pub fn observation_result(s: Session, i: usize) -> Option<WeightedTruingObservationResultV1>
    ensures { ResultRead (state s) i result }
{
    match s.edit {
        None => finished_run::observation_result(s.run, i),
        Some(_) => None,
    }
}

// The i-th observation result of its baseline, if it has one.
#[tactic(auto, using(crate::proofs::Laws::unread))]
pub fn baseline_result(s: Session, i: usize) -> Option<WeightedTruingObservationResultV1>
    ensures { BaselineResultRead (state s) i result }
{
    match s.edit {
        None => finished_run::baseline_result(s.run, i),
        Some(_) => None,
    }
}

// The i-th band of the report that stands.
#[tactic(auto, using(crate::proofs::Laws::unread))]
pub fn predictive_band(s: Session, i: usize) -> Option<TruingPredictiveBandV1>
    ensures { BandRead (state s) i result }
{
    match s.edit {
        None => finished_run::predictive_band(s.run, i),
        Some(_) => None,
    }
}
