// `polish_and_verify_objective_mesh` between its questions: the poll's directions and candidates, and which comes next.
#![tactic(auto)]

ghost use Rattle.std.specs.Prelude.{◌≡◌, drop};
ghost use Rattle.definition.specs.Mesh as mesh;
ghost use Rattle.objective_mesh.specs.Meaning.{pass_of, poll_of, looks_as, says, seen_within};

use coordinates::{BC_COORDINATE_SCALE, MV_COORDINATE_SCALE_FPS};
use definition::{Convergence, Point};
use matrix::Symmetric2;
use numeric::Direction;

const MAP_OBJECTIVE_INITIAL_POLL_RADIUS: f64 = 1.0e-2;

const MAP_OBJECTIVE_MIN_POLL_RADIUS: f64 = 1.0e-7;

// How often the first radius can be quartered until it is the least.
const SMALLER_RADII: usize = 9;

pub const MAP_OBJECTIVE_MAX_POLL_EVALUATIONS: usize = 1_024;

// What the poll comes to.
#[derive(Clone, Copy)]
pub struct Poll {
    pub point: Point,
    pub convergence: Option<Convergence>,
    pub evaluations: usize,
}

// A pass: its radius and how many smaller ones are to come, its centre with the objective there, the index of the first direction not yet looked at, and
// the best seen so far.
#[derive(Clone, Copy)]
pub struct Pass {
    pub axis: Direction,
    pub radius: f64,
    pub smaller: usize,
    pub centre: Point,
    pub current: f64,
    pub next: usize,
    pub best: f64,
    pub best_point: Point,
    pub evaluations: usize,
}

// What comes next in the poll: a candidate to be evaluated, or its end.
#[derive(Clone, Copy)]
pub enum PollStep {
    Evaluates(Point, Pass),
    Ended(Poll),
}

// The four coordinate directions, then the poll direction and its turns.
fn directions(axis: Direction) -> [Point; 8]
    ensures { result ≡ mesh.directions axis }
{
    let Direction { cos, sin } = axis;
    [
        Point { mv: 1.0, bc: 0.0 },
        Point { mv: -1.0, bc: 0.0 },
        Point { mv: 0.0, bc: 1.0 },
        Point { mv: 0.0, bc: -1.0 },
        Point { mv: cos, bc: sin },
        Point { mv: -cos, bc: -sin },
        Point { mv: -sin, bc: cos },
        Point { mv: sin, bc: -cos },
    ]
}

// The point at a radius from the centre in a direction, within the bounds of the fit.
#[tactic(auto, unfolding(definition::specs::Mesh::candidate_of))]
fn candidate(radius: f64, centre: Point, d: Point) -> Point
    ensures { result ≡ mesh.candidate_of radius centre d }
{
    coordinates::bounded(
        centre.mv + radius * d.mv * MV_COORDINATE_SCALE_FPS,
        centre.bc + radius * d.bc * BC_COORDINATE_SCALE,
    )
}

// The radius after a pass without a material gain.
#[tactic(auto, unfolding(definition::specs::Mesh::quartered_of))]
fn quartered(radius: f64) -> f64
    ensures { result ≡ mesh.quartered_of radius }
{
    numeric::max(radius * 0.25, MAP_OBJECTIVE_MIN_POLL_RADIUS)
}

impl Pass {
    // The pass with which the poll begins; the information gives its directions.
    pub fn first(information: Symmetric2, centre: Point, current: f64) -> Pass
        ensures { pass_of result ≡ mesh.first_pass information centre current }
    {
        Pass {
            axis: numeric::poll_direction(information.a00, information.a01, information.a11),
            radius: MAP_OBJECTIVE_INITIAL_POLL_RADIUS,
            smaller: SMALLER_RADII,
            centre,
            current,
            next: 0,
            best: current,
            best_point: centre,
            evaluations: 0,
        }
    }

    // The pass from its first direction on, with nothing seen yet.
    fn restarted(self) -> Pass
        ensures { pass_of result ≡ mesh.pass_at self.axis self.radius self.smaller self.centre self.current self.evaluations (mesh.directions self.axis) }
    {
        Pass {
            next: 0,
            best: self.current,
            best_point: self.centre,
            ..self
        }
    }

    // The next direction that leads to another point than the centre: the candidate, and the index of the direction after it. An unmoved candidate is skipped.
    #[tactic(auto, unfolding(definition::specs::Mesh::look, definition::specs::Mesh::unmoved_of))]
    fn look(self) -> Option<(Point, usize)>
        ensures { looks_as self.axis result ≡ mesh.look self.radius self.centre (drop self.next (mesh.directions self.axis)) }
    {
        let directions = directions(self.axis);
        for j in self.next..8 {
            let c = candidate(self.radius, self.centre, directions[j]);
            if c != self.centre {
                return Some((c, j + 1));
            }
        }
        None
    }

    // The poll's end at a radius where no direction had a material gain.
    fn searched(self) -> Poll
        ensures { poll_of result ≡ mesh.searched self.radius self.centre self.current self.best self.evaluations }
    {
        Poll {
            point: self.centre,
            convergence: Some(Convergence::ObjectiveMesh {
                radius: self.radius,
                improvement: numeric::max(self.current - self.best, 0.0),
            }),
            evaluations: self.evaluations,
        }
    }

    // After a pass without a material gain: the next radius at which a candidate moves, or the end.
    #[tactic(auto, unfolding(definition::specs::Mesh::ungained))]
    fn ungained(self) -> PollStep
        ensures { says result ≡ mesh.ungained self.axis self.radius self.smaller self.centre self.current self.best self.evaluations }
    {
        let mut s = self;
        for smaller in (0..self.smaller).rev() {
            s.radius = quartered(s.radius);
            s.smaller = smaller;
            s = s.restarted();
            if let Some((c, next)) = s.look() {
                return PollStep::Evaluates(c, Pass { next, ..s });
            }
        }
        PollStep::Ended(s.searched())
    }

    // A new pass. Where every candidate is unmoved the best is the current one, and nothing is gained.
    #[tactic(auto, unfolding(definition::specs::Mesh::begin))]
    fn begin(self) -> PollStep
        ensures { says result ≡ mesh.begin self.axis self.radius self.smaller self.centre self.current self.evaluations }
    {
        let s = self.restarted();
        match s.look() {
            Some((c, next)) => PollStep::Evaluates(c, Pass { next, ..s }),
            None => s.ungained(),
        }
    }

    // The pass has looked in all eight directions: a material gain moves the centre and keeps radius and directions.
    #[tactic(auto, unfolding(definition::specs::Mesh::judged))]
    fn judged(self) -> PollStep
        ensures { says result ≡ mesh.judged (pass_of self) }
    {
        if criteria::objective_improvement_is_material(self.current, self.best) {
            let moved = Pass {
                centre: self.best_point,
                current: self.best,
                ..self
            };
            return moved.begin();
        }
        self.ungained()
    }

    // What comes next in the poll.
    #[tactic(auto, unfolding(definition::specs::Mesh::poll_step))]
    pub fn next_step(self) -> PollStep
        ensures { says result ≡ mesh.poll_step (pass_of self) }
    {
        match self.look() {
            Some((c, next)) => PollStep::Evaluates(c, Pass { next, ..self }),
            None => self.judged(),
        }
    }

    // A candidate's objective is there: it is the best if it is below the best so far. At the limit of evaluations the pass stays as it is.
    #[tactic(auto, unfolding(definition::specs::Mesh::seen))]
    pub fn seen(self, c: Point, value: f64) -> Pass
        ensures { pass_of result ≡ seen_within c value (pass_of self) }
    {
        if self.evaluations >= MAP_OBJECTIVE_MAX_POLL_EVALUATIONS {
            return self;
        }
        let evaluations = self.evaluations + 1;
        if value < self.best {
            return Pass {
                best: value,
                best_point: c,
                evaluations,
                ..self
            };
        }
        Pass {
            evaluations,
            ..self
        }
    }

    // The limit of evaluations stops the poll. A gain is kept; without one the last radius still counts as searched, also where the pass was cut.
    #[tactic(auto, unfolding(definition::specs::Mesh::stopped))]
    pub fn stopped(self) -> Poll
        ensures { poll_of result ≡ mesh.stopped (pass_of self) }
    {
        let gained = criteria::objective_improvement_is_material(self.current, self.best);
        if gained {
            return Poll {
                point: self.best_point,
                convergence: None,
                evaluations: self.evaluations,
            };
        }
        if self.smaller == 0 {
            return self.searched();
        }
        Poll {
            point: self.centre,
            convergence: None,
            evaluations: self.evaluations,
        }
    }
}
