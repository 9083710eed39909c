// The session: opening and replying. It holds the request and what a run has come to so far; each call yields a question, a report or a refusal.
#![tactic(auto)]

ghost use Rattle.std.specs.Prelude.{◌≡◌, ◌&&◌, leb, cond, None};
ghost use Rattle.definition.specs.Session.{says_of, more_of, Declines, Opened, Replied, PointRefused};
ghost use Rattle.definition.specs.Meaning.{opening_in};
ghost use Rattle.definition.specs.Refusals.{number_of};
ghost use Rattle.run_body.specs.Meaning.{wanted_by};
ghost use Rattle.session.specs.Meaning.{state, seen, stands_in, counted_by, declined_by};

use definition::{Distances, Refusal, RefusalCode, Step, UncertaintyTruingRequestV1};
use phases::{Lays, Phase, Plan};
use run_body::Body;

#[derive(Clone, Copy)]
pub struct Session {
    pub body: Body,
    pub phase: Phase,
    pub asked: u64,
}

// What a call says, and the session afterwards, of this type or of one over it.
#[derive(Clone, Copy)]
pub struct Answer<S = Session> {
    pub step: Step,
    pub session: S,
}

// ---- counting and declining

// The count after a step: one more where it is a question. It stays at the largest number that it can hold.
#[tactic(auto, unfolding(definition::specs::Session::more_of))]
fn counted(asked: u64, step: Step) -> u64
    ensures { result ≡ counted_by (says_of step) asked }
{
    match step {
        Step::Question(_, _, _) => asked.saturating_add(1),
        Step::Report | Step::Refused(_) => asked,
    }
}

fn declined(s: Session, code: RefusalCode) -> Answer
    ensures { Declines seen (says_of result.step) result.session s (number_of code) }
{
    Answer {
        step: Step::Refused(Refusal { code, position: 0 }),
        session: s,
    }
}

// A session that no call gave may be beyond its limits.
fn is_within(shots: usize, wanted: usize) -> bool
    ensures { result ≡ (leb shots 64 && leb wanted 64) }
{
    (shots <= 64) & (wanted <= 64)
}

// The distances that the open question is about, if one is open: beyond the limits none is.
fn open_list(plan: Plan, within: bool) -> Option<Distances>
    ensures { result ≡ cond within plan.asks None }
{
    if within { plan.asks } else { None }
}

// How many entries a question wants; an edit's is about one distance.
fn size_for(list: Distances, shots: usize, wanted: usize) -> usize
    ensures { result ≡ wanted_by list shots wanted }
{
    match list {
        Distances::Shots => shots,
        Distances::Requested => wanted,
        Distances::New => 1,
    }
}

// Why a reply of n entries is declined, if it is: no question is open, or the open one wants another number.
fn declined_by(
    about: Option<Distances>,
    n: usize,
    shots: usize,
    wanted: usize,
) -> Option<RefusalCode>
    ensures { result ≡ declined_by about n shots wanted }
{
    match about {
        None => Some(RefusalCode::NoQuestionOpen),
        Some(list) if n != size_for(list, shots, wanted) => Some(RefusalCode::WrongEntryCount),
        Some(_) => None,
    }
}

// ---- the opening

// The opening: refused by its checks, or the first question, at the entered point.
pub fn open(request: UncertaintyTruingRequestV1<'_>) -> Answer
    ensures { Opened seen (opening_in request.entry) (says_of result.step) result.session }
{
    let body = run_body::prepared(request);
    let entered = request.entered;
    match opening::check(request) {
        Err(refusal) => Answer {
            step: Step::Refused(refusal),
            session: Session {
                body,
                phase: Phase::Over,
                asked: 0,
            },
        },
        Ok(()) => Answer {
            step: Step::Question(entered.mv, entered.bc, Distances::Shots),
            session: Session {
                body,
                phase: Phase::Start,
                asked: 1,
            },
        },
    }
}

// ---- a reply

// A reply with an entry for each distance of the open question: a drop, or none for one that is missing. The body is changed in place,
// and no part of the session goes by value into a function that is called twice.
pub fn reply(s: Session, entries: &[Option<f64>]) -> Answer
    ensures { Replied seen s entries.now (says_of result.step) result.session }
{
    let entered = s.body.entered;
    let plan = phases::plan_of(s.phase, entered);
    let within = is_within(s.body.shots.n, s.body.wanted.n);
    let about = open_list(plan, within);
    let n = entries.len();
    if let Some(code) = declined_by(about, n, s.body.shots.n, s.body.wanted.n) {
        return declined(s, code);
    }
    let (phase, asked) = (s.phase, s.asked);
    let g = s.body.progress;
    let priors = s.body.priors;
    let requested = lists::has_wanted(s.body.wanted);
    let mut body = s.body;
    let found = likelihood::first_gap(entries);
    run_body::lay(&mut body.rows, plan.lays, g.point, entries);
    let sum = run_body::reply_sum_at(plan.objective, &body.shots, priors, entries);
    let e = run_body::evaluation_at(
        plan.evaluates,
        g.evaluation,
        priors,
        g.point,
        &body.shots,
        &body.rows,
    );
    run_body::kept(plan.evaluates, &mut body.predicted, &body.rows);
    run_body::reply_baseline_at(plan.lays, &mut body.baseline, found, &body.shots, entries);
    let next = phases::advance(phase, g, e, found, sum, body.rows.gap, requested, entered);
    body.progress = next.progress;
    Answer {
        step: next.step,
        session: Session {
            body,
            phase: next.phase,
            asked: counted(asked, next.step),
        },
    }
}

// The host refuses the point: the run ends, but for the baseline, whose refusal refuses nothing.
#[tactic(auto, using(crate::proofs::Refusals::refuse_declined, crate::proofs::Refusals::refuse_baseline))]
pub fn refuse(s: Session) -> Answer
    ensures { PointRefused seen s (says_of result.step) result.session }
{
    let plan = phases::plan_of(s.phase, s.body.entered);
    let within = is_within(s.body.shots.n, s.body.wanted.n);
    let Some(_) = open_list(plan, within) else {
        return declined(s, RefusalCode::NoQuestionOpen);
    };
    if plan.lays == Some(Lays::Baseline) {
        return Answer {
            step: Step::Report,
            session: Session {
                body: Body {
                    baseline: None,
                    ..s.body
                },
                phase: Phase::Ended,
                ..s
            },
        };
    }
    Answer {
        step: Step::Refused(Refusal {
            code: RefusalCode::PointRefused,
            position: 0,
        }),
        session: Session {
            phase: Phase::Over,
            ..s
        },
    }
}

// ---- reading

// Whether a report stands.
pub fn is_standing(s: &Session) -> bool
    ensures { result ≡ stands_in s.now }
{
    let plan = phases::plan_of(s.phase, s.body.entered);
    is_within(s.body.shots.n, s.body.wanted.n) & plan.stands
}

// How many questions the run has put.
pub fn asked(s: Session) -> u64
    ensures { result ≡ s.asked }
{
    s.asked
}
