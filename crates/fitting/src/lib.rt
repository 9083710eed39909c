// `fit_map` as steps between questions, on the numbers of a fit alone: which question comes next once an evaluation or an objective is there.
#![tactic(auto)]

ghost use Rattle.std.specs.Prelude.{◌≡◌};
ghost use Rattle.fitting.specs.Meaning.{left_of, Moves, AfterRows, Blank, found_at, flat_at, iteration_at, candidate_at, polled_at, poll_at, start_at};
ghost use Rattle.fitting.specs.Meaning.{after_trial, after_look};
ghost use Rattle.fitting.specs.declared.Stage.TheVariants as StageOf;

use definition::{Convergence, Evaluation, Point};
use matrix::Symmetric2;
use objective_mesh::{Pass, Poll, PollStep};

// How many iterations a fit has at the most, and how many damping trials each.
pub const MAX_ITERATIONS: usize = 100;

const MAX_TRIALS: usize = 30;

const FIRST_DAMPING: f64 = 1.0e-6;

// What a fit holds between two questions.
#[derive(Clone, Copy)]
pub struct Progress {
    // the point with its objective, and the damping to go on with
    pub point: Point,
    pub current: f64,
    pub damping: f64,
    // iterations left after this one, and damping trials left in it
    pub left: usize,
    pub trials: usize,
    // the last evaluation, and the poll
    pub evaluation: Evaluation,
    pub pass: Pass,
    // how the fit was verified, if it was, and by how many poll evaluations
    pub convergence: Option<Convergence>,
    pub evaluations: usize,
}

// What the evaluation that is asked for is wanted for.
#[derive(Clone, Copy, PartialEq, Eq)]
pub enum Stage {
    Iteration,
    Final,
    Mesh,
    AtFit,
}

// What is waited for: the five questions of an evaluation, or one objective.
#[derive(Clone, Copy)]
pub enum Wait {
    Evaluation(Stage),
    Trial(Point),
    Look(Point),
}

#[derive(Clone, Copy)]
pub struct Moved {
    pub progress: Progress,
    pub wait: Wait,
}

// The fit has ended: the evaluation at it comes next.
#[tactic(auto, unfolding(definition::specs::Whole::fitted))]
fn found(g: Progress) -> Moved
    ensures { Moves result (found_at g) }
{
    Moved {
        progress: g,
        wait: Wait::Evaluation(Stage::AtFit),
    }
}

// The fit has ended by its gradient.
fn found_flat(g: Progress) -> Moved
    ensures { Moves result (flat_at g) }
{
    found(Progress {
        convergence: Some(Convergence::ScaledGradient),
        evaluations: 0,
        ..g
    })
}

// The iterations left, of which there are 100 at the most.
fn iterations_left(g: Progress) -> usize
    ensures { result ≡ left_of g }
{
    g.left.min(MAX_ITERATIONS)
}

// The next iteration, or, with none left, the final evaluation.
#[tactic(auto, unfolding(definition::specs::Fit::verify, definition::specs::Fit::iterate), using(crate::proofs::Laws::bind_assoc))]
fn next_iteration(g: Progress) -> Moved
    ensures { Moves result (iteration_at g) }
{
    if g.left == 0 {
        return Moved {
            progress: g,
            wait: Wait::Evaluation(Stage::Final),
        };
    }
    let left = iterations_left(g) - 1;
    Moved {
        progress: Progress { left, ..g },
        wait: Wait::Evaluation(Stage::Iteration),
    }
}

// The next candidate of the iteration, or, with no trial left, the final evaluation.
#[tactic(auto, unfolding(definition::specs::Fit::verify), using(crate::proofs::Laws::bind_assoc, map_fit::proofs::Trials::trials_next))]
fn next_candidate(g: Progress) -> Moved
    ensures { Moves result (candidate_at g) }
{
    match map_fit::next_trial(g.point, g.evaluation, g.trials, g.damping) {
        Some(t) => Moved {
            progress: Progress {
                trials: t.left,
                damping: t.damping,
                ..g
            },
            wait: Wait::Trial(t.point),
        },
        None => Moved {
            progress: g,
            wait: Wait::Evaluation(Stage::Final),
        },
    }
}

// The poll has ended.
fn polled(g: Progress, r: Poll) -> Moved
    ensures { Moves result (polled_at g r) }
{
    found(Progress {
        point: r.point,
        convergence: r.convergence,
        evaluations: r.evaluations,
        ..g
    })
}

// The next candidate of the poll, or its end.
#[tactic(auto, unfolding(definition::specs::Mesh::poll), using(crate::proofs::Laws::poll_turn))]
fn next_look(g: Progress) -> Moved
    ensures { Moves result (poll_at g) }
{
    let pass = g.pass;
    if pass.evaluations >= objective_mesh::MAP_OBJECTIVE_MAX_POLL_EVALUATIONS {
        return polled(g, pass.stopped());
    }
    match pass.next_step() {
        PollStep::Evaluates(c, pass) => Moved {
            progress: Progress { pass, ..g },
            wait: Wait::Look(c),
        },
        PollStep::Ended(r) => polled(g, r),
    }
}

// What a fit holds before its first objective is there.
pub fn blank(entered: Point) -> Progress
    ensures { Blank entered result }
{
    let none = Symmetric2 {
        a00: 0.0,
        a01: 0.0,
        a11: 0.0,
    };
    let evaluation = Evaluation {
        data_information: none,
        posterior_information: none,
        gradient_mv: 0.0,
        gradient_bc: 0.0,
        chi_square: 0.0,
        prior_penalty: 0.0,
        bc_sensitivity_ratio: 0.0,
        data_condition_number: 0.0,
    };
    let pass = Pass::first(none, entered, 0.0);
    Progress {
        point: entered,
        current: 0.0,
        damping: FIRST_DAMPING,
        left: MAX_ITERATIONS,
        trials: MAX_TRIALS,
        evaluation,
        pass,
        convergence: None,
        evaluations: 0,
    }
}

// The objective at the entered point is there.
pub fn start(entered: Point, value: f64) -> Moved
    ensures { Moves result (start_at entered value) }
{
    let g = blank(entered);
    next_iteration(Progress {
        current: value,
        damping: FIRST_DAMPING,
        left: MAX_ITERATIONS,
        ..g
    })
}

// The evaluation of an iteration is there.
#[tactic(auto, unfolding(definition::specs::Fit::evaluated))]
pub fn after_iteration(g: Progress, e: Evaluation) -> Moved
    ensures { AfterRows g result StageOf.Iteration e }
{
    if map_fit::is_flat(e) {
        return found_flat(g);
    }
    next_candidate(Progress {
        evaluation: e,
        trials: MAX_TRIALS,
        ..g
    })
}

// The final evaluation is there.
#[tactic(auto, unfolding(definition::specs::Fit::verified), using(crate::proofs::Laws::bind_assoc))]
pub fn after_final(g: Progress, e: Evaluation) -> Moved
    ensures { AfterRows g result StageOf.Final e }
{
    if map_fit::is_flat(e) {
        return found_flat(g);
    }
    Moved {
        progress: g,
        wait: Wait::Evaluation(Stage::Mesh),
    }
}

// The poll's own evaluation is there: it gives the directions.
pub fn after_mesh(g: Progress, e: Evaluation) -> Moved
    ensures { AfterRows g result StageOf.Mesh e }
{
    let pass = Pass::first(e.posterior_information, g.point, g.current);
    next_look(Progress { pass, ..g })
}

// The objective at a candidate of the damping trials is there.
pub fn after_trial(g: Progress, q: Point, value: f64) -> Moved
    ensures { Moves result (λ m ds. after_trial m ds g q value) }
{
    if criteria::objective_improvement_is_material(g.current, value) {
        let damping = map_fit::lowered(g.damping);
        return next_iteration(Progress {
            point: q,
            current: value,
            damping,
            ..g
        });
    }
    let damping = map_fit::raised(g.damping);
    next_candidate(Progress { damping, ..g })
}

// The objective at a candidate of the poll is there.
pub fn after_look(g: Progress, c: Point, value: f64) -> Moved
    ensures { Moves result (λ m ds. after_look m ds g c value) }
{
    let pass = g.pass.seen(c, value);
    next_look(Progress { pass, ..g })
}
