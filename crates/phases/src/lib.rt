// Which question of a run is open, what it wants of a reply, and where a taken reply leads: on the numbers of the fit alone, without the run's lists.
#![tactic(auto)]

ghost use Rattle.std.specs.Prelude.{◌≡◌};
ghost use Rattle.stencil.specs.Stencil.{next_of};
ghost use Rattle.phases.specs.Phases.{nothing_asked, objective_asked, five_asked, plan_of, asks_at, stops_at, waits_at, judged_at, at_fit_at, Evaluates};
ghost use Rattle.phases.specs.Phases.{Fives, five_bands_at, Takes};

use definition::{Distances, Evaluation, Point, Refusal, RefusalCode, Step};
use fitting::{Moved, Progress, Stage, Wait};
use stencil::StencilPoint;

// Which question is open, if one is.
#[derive(Clone, Copy)]
pub enum Phase {
    Over,
    Start,
    Evaluation(Stage, StencilPoint),
    Trial(Point),
    Look(Point),
    Bands(StencilPoint),
    Baseline,
    Ended,
}

// Kept: two places for drops, neither of which is none.
// Where the drops of a reply go: over the rows, by which of the five questions it answers, or to those at the entered point.
#[derive(Clone, Copy, PartialEq, Eq)]
pub enum Lays {
    Row(StencilPoint),
    Baseline,
}

// What a phase wants of a reply. Every call reads the phase through it.
#[derive(Clone, Copy)]
pub struct Plan {
    // the distances that the open question is about, if one is open
    pub asks: Option<Distances>,
    // a report stands
    pub stands: bool,
    // where the drops go
    pub lays: Option<Lays>,
    // the point at which an objective is asked for
    pub objective: Option<Point>,
    // it is the last of the five at the observations, and this is what the evaluation is wanted for
    pub evaluates: Option<Stage>,
}

// What a taken reply leads to: the numbers of the fit, which question is open then, and what is said.
#[derive(Clone, Copy)]
pub struct Next {
    pub progress: Progress,
    pub phase: Phase,
    pub step: Step,
}

// ---- what a phase wants

fn nothing_asked(stands: bool) -> Plan
    ensures { result ≡ nothing_asked stands }
{
    Plan {
        asks: None,
        stands,
        lays: None,
        objective: None,
        evaluates: None,
    }
}

fn objective_asked(q: Point) -> Plan
    ensures { result ≡ objective_asked q }
{
    Plan {
        asks: Some(Distances::Shots),
        stands: false,
        lays: None,
        objective: Some(q),
        evaluates: None,
    }
}

fn five_asked(list: Distances, k: StencilPoint, stage: Option<Stage>) -> Plan
    ensures { result ≡ five_asked list k stage }
{
    let evaluates = match k.next() {
        Some(_) => None,
        None => stage,
    };
    Plan {
        asks: Some(list),
        stands: false,
        lays: Some(Lays::Row(k)),
        objective: None,
        evaluates,
    }
}

pub fn plan_of(phase: Phase, entered: Point) -> Plan
    ensures { result ≡ plan_of phase entered }
{
    match phase {
        Phase::Over => nothing_asked(false),
        Phase::Start => objective_asked(entered),
        Phase::Evaluation(stage, k) => five_asked(Distances::Shots, k, Some(stage)),
        Phase::Trial(q) => objective_asked(q),
        Phase::Look(c) => objective_asked(c),
        Phase::Bands(k) => five_asked(Distances::Requested, k, None),
        Phase::Baseline => Plan {
            asks: Some(Distances::Shots),
            stands: false,
            lays: Some(Lays::Baseline),
            objective: None,
            evaluates: None,
        },
        Phase::Ended => nothing_asked(true),
    }
}

// ---- where a taken reply leads

// The run puts its next question.
fn asks(progress: Progress, phase: Phase, p: Point, list: Distances) -> Next
    ensures { result ≡ asks_at progress phase p list }
{
    Next {
        progress,
        phase,
        step: Step::Question(p.mv, p.bc, list),
    }
}

// The run ends with a refusal.
fn stops(progress: Progress, code: RefusalCode, position: usize) -> Next
    ensures { result ≡ stops_at progress code position }
{
    Next {
        progress,
        phase: Phase::Over,
        step: Step::Refused(Refusal { code, position }),
    }
}

// The fit has come to this, and waits for its next question.
fn waits(moved: Moved) -> Next
    ensures { result ≡ waits_at moved.progress moved.wait }
{
    let progress = moved.progress;
    match moved.wait {
        Wait::Evaluation(stage) => {
            let phase = Phase::Evaluation(stage, StencilPoint::Nominal);
            asks(progress, phase, progress.point, Distances::Shots)
        }
        Wait::Trial(q) => asks(progress, Phase::Trial(q), q, Distances::Shots),
        Wait::Look(c) => asks(progress, Phase::Look(c), c, Distances::Shots),
    }
}

// An objective is judged, its first gap before its sum; where it is there, the fit waits.
fn judged(g: Progress, found: usize, sum: f64, moved: Moved) -> Next
    ensures { result ≡ judged_at g found sum moved }
{
    if found != 0 {
        return stops(g, RefusalCode::ObservationMissing, found);
    }
    if !numeric::is_finite(sum) {
        return stops(g, RefusalCode::ObjectiveNotFinite, 0);
    }
    waits(moved)
}

// The evaluation at the fit is there: it is kept, and the requested distances come next, or, with none, the baseline.
#[tactic(auto, unfolding(crate::specs::Phases::at_fit_at))]
fn at_fit(g: Progress, e: Evaluation, requested: bool, entered: Point) -> Next
    ensures { result ≡ at_fit_at g e requested entered }
{
    let progress = Progress { evaluation: e, ..g };
    if requested {
        let phase = Phase::Bands(StencilPoint::Nominal);
        return asks(progress, phase, g.point, Distances::Requested);
    }
    asks(progress, Phase::Baseline, entered, Distances::Shots)
}

// The evaluation is there.
#[tactic(auto, using(crate::proofs::Laws::rows_go))]
fn evaluated(g: Progress, e: Evaluation, stage: Stage, requested: bool, entered: Point) -> Next
    ensures { Evaluates stage g e requested entered result }
{
    match stage {
        Stage::Iteration => waits(fitting::after_iteration(g, e)),
        Stage::Final => waits(fitting::after_final(g, e)),
        Stage::Mesh => waits(fitting::after_mesh(g, e)),
        Stage::AtFit => at_fit(g, e, requested, entered),
    }
}

// A reply to one of the five questions at the observations is there. A gap is judged after the fifth.
fn five(
    g: Progress,
    e: Evaluation,
    stage: Stage,
    k: StencilPoint,
    gap: usize,
    requested: bool,
    entered: Point,
) -> Next
    ensures { Fives stage k g e gap requested entered result }
{
    if let Some(q) = k.next() {
        return asks(
            g,
            Phase::Evaluation(stage, q),
            q.at(g.point),
            Distances::Shots,
        );
    }
    if gap != 0 {
        return stops(g, RefusalCode::ObservationMissing, gap);
    }
    evaluated(g, e, stage, requested, entered)
}

// A reply to one of the five questions at the requested distances is there.
#[tactic(auto, unfolding(crate::specs::Phases::five_bands_at))]
fn five_bands(g: Progress, k: StencilPoint, gap: usize, entered: Point) -> Next
    ensures { result ≡ five_bands_at (next_of k) g gap entered }
{
    if let Some(q) = k.next() {
        return asks(g, Phase::Bands(q), q.at(g.point), Distances::Requested);
    }
    if gap != 0 {
        return stops(g, RefusalCode::DistanceMissing, gap);
    }
    asks(g, Phase::Baseline, entered, Distances::Shots)
}

// By which question was open: from the reply's first gap and the objective's sum, from the evaluation, and from the first gap of the rows.
pub fn advance(
    phase: Phase,
    g: Progress,
    e: Evaluation,
    found: usize,
    sum: f64,
    gap: usize,
    requested: bool,
    entered: Point,
) -> Next
    ensures { Takes phase g e found sum gap requested entered result }
{
    match phase {
        Phase::Over => stops(g, RefusalCode::NoQuestionOpen, 0),
        Phase::Start => judged(g, found, sum, fitting::start(entered, sum)),
        Phase::Evaluation(stage, k) => five(g, e, stage, k, gap, requested, entered),
        Phase::Trial(q) => judged(g, found, sum, fitting::after_trial(g, q, sum)),
        Phase::Look(c) => judged(g, found, sum, fitting::after_look(g, c, sum)),
        Phase::Bands(k) => five_bands(g, k, gap, entered),
        Phase::Baseline => Next {
            progress: g,
            phase: Phase::Ended,
            step: Step::Report,
        },
        Phase::Ended => stops(g, RefusalCode::NoQuestionOpen, 0),
    }
}
