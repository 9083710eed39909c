// Runs fits over a solver, each report written into memory, and writes how many questions they put in all and how many bytes their reports have: what a reply
// costs. Its input is a line of counts: runs, observations (at most 64), requested distances (at most 64) and, where they are wanted, the solver (0 for a
// formula of a few operations, 1 for `point_mass`) and what becomes of the reports: 0 as said, 1 for the last one's line below the counts too, 2 for none being
// written.
#![tactic(auto)]

use coverage::Table;
use definition::{
    Distances, NormalPriorV1, Point, Step, TruingPredictionRequestV1, TruingPriorsV1,
    UncertaintyTruingRequestV1, WeightedTruingObservationV1,
};
use editing::Answer;
use numeric::DropUnit;
use std::io;
use std::io::{Input, Read};

// The drop at a distance falls with the square of the time of flight, more or less.
fn solve(p: Point, range: f64) -> f64 {
    let t = range * (1.0 + range * 0.0001 / p.bc) / p.mv;
    t * t * 1500.0
}

// Which solver replies.
#[derive(Clone, Copy, PartialEq, Eq)]
enum Solver {
    Formula,
    PointMass,
}

impl Solver {
    // The entries at these distances, in the first places.
    fn fill(self, p: Point, ranges: &[f64], entries: &mut [Option<f64>; 64]) {
        match self {
            Solver::PointMass => point_mass::fill(p, DropUnit::In, ranges, entries),
            Solver::Formula => {
                for i in 0..ranges.len().min(64) {
                    entries[i] = Some(solve(p, ranges[i]));
                }
            }
        }
    }
}

// What becomes of the reports: each is written into memory, the last one's line is printed too, or none is written.
#[derive(Clone, Copy, PartialEq, Eq)]
enum Reports {
    Written,
    LastPrinted,
    Left,
}

// What the line of counts asks for.
#[derive(Clone, Copy)]
struct Asked {
    times: u64,
    observations: usize,
    distances: usize,
    solver: Solver,
    reports: Reports,
}

fn ranges_from(first: f64, step: f64) -> [f64; 64] {
    let mut ranges = [0.0; 64];
    let mut range = first;
    for place in ranges.iter_mut() {
        *place = range;
        range += step;
    }
    ranges
}

// The first n of 64 made-up observations: the solver's drops at a point beside the entered one.
fn measured(solver: Solver, ranges: &[f64; 64]) -> [WeightedTruingObservationV1; 64] {
    let blank = WeightedTruingObservationV1 {
        range_yd: 0.0,
        drop: 0.0,
        sigma: 0.5,
    };
    let p = Point {
        mv: 2730.0,
        bc: 0.41,
    };
    let mut entries = [None; 64];
    solver.fill(p, ranges, &mut entries);
    let mut observations = [blank; 64];
    for i in 0..64 {
        observations[i] = WeightedTruingObservationV1 {
            range_yd: ranges[i],
            drop: entries[i].unwrap_or(0.0),
            sigma: 0.5,
        };
    }
    observations
}

fn requested(ranges: &[f64; 64]) -> [TruingPredictionRequestV1; 64] {
    let blank = TruingPredictionRequestV1 {
        range_yd: 0.0,
        future_observation_sigma: Some(0.25),
    };
    let mut predictions = [blank; 64];
    for i in 0..64 {
        predictions[i] = TruingPredictionRequestV1 {
            range_yd: ranges[i],
            ..blank
        };
    }
    predictions
}

// The two lists of distances, and the request made of them.
#[derive(Clone, Copy)]
struct Lot {
    ranges: [f64; 64],
    distances: [f64; 64],
    observations: [WeightedTruingObservationV1; 64],
    predictions: [TruingPredictionRequestV1; 64],
}

impl Lot {
    fn new(solver: Solver) -> Lot {
        let ranges = ranges_from(100.0, 12.5);
        let distances = ranges_from(150.0, 12.5);
        Lot {
            ranges,
            distances,
            observations: measured(solver, &ranges),
            predictions: requested(&distances),
        }
    }

    fn opened(&self, asked: Asked) -> Answer {
        editing::open(UncertaintyTruingRequestV1 {
            entered: Point {
                mv: 2700.0,
                bc: 0.4,
            },
            observations: slices::first_places(&self.observations, asked.observations),
            priors: TruingPriorsV1 {
                muzzle_velocity_fps: Some(NormalPriorV1 {
                    mean: 2700.0,
                    sigma: 60.0,
                }),
                ballistic_coefficient: None,
            },
            predictions: slices::first_places(&self.predictions, asked.distances),
        })
    }

    // The distances of a question; no edit puts one here.
    fn asked_about(&self, asked: Asked, list: Distances) -> &[f64] {
        match list {
            Distances::Shots => slices::first_places(&self.ranges, asked.observations),
            Distances::Requested => slices::first_places(&self.distances, asked.distances),
            Distances::New => slices::first_places(&self.distances, 0),
        }
    }
}

// How much there was of each, and the bytes of the last report.
#[derive(Clone, Copy, Default)]
struct Total {
    questions: u64,
    bytes: u64,
    last: usize,
}

// A run, its report written from the start of `out`. The session goes from answer to reply with no copy made here.
fn run(out: &mut [u8; 131072], asked: Asked, lot: &Lot) -> Total {
    let mut a = lot.opened(asked);
    let mut entries = [None; 64];
    for _ in 0..editing::MAX_QUESTIONS {
        let Step::Question(mv, bc, list) = a.step else {
            break;
        };
        let ranges = lot.asked_about(asked, list);
        asked.solver.fill(Point { mv, bc }, ranges, &mut entries);
        a = editing::reply(a.session, slices::first_places(&entries, ranges.len()));
    }
    let last = if asked.reports == Reports::Left {
        0
    } else {
        answer_text::put_answer(out, 0, a, &Table::single())
    };
    Total {
        questions: editing::asked(a.session),
        bytes: last as u64,
        last,
    }
}

fn runs(out: &mut [u8; 131072], asked: Asked) -> Total {
    let lot = Lot::new(asked.solver);
    let mut total = Total::default();
    for _ in 0..asked.times {
        let one = run(out, asked, &lot);
        total = Total {
            questions: total.questions.wrapping_add(one.questions),
            bytes: total.bytes.wrapping_add(one.bytes),
            last: one.last,
        };
    }
    total
}

// The k-th count of a line, counted from 0; 0 where there is none.
fn word(line: &[u8], k: usize) -> u64 {
    let found = line.split(|b| *b <= b' ').nth(k);
    found.and_then(|s| numerals::read_count(s)).unwrap_or(0)
}

// At most 64.
fn places(n: u64) -> usize {
    n.min(64) as usize
}

impl Asked {
    fn read(line: &[u8]) -> Asked {
        Asked {
            times: word(line, 0),
            observations: places(word(line, 1)),
            distances: places(word(line, 2)),
            solver: match word(line, 3) {
                1 => Solver::PointMass,
                _ => Solver::Formula,
            },
            reports: match word(line, 4) {
                1 => Reports::LastPrinted,
                2 => Reports::Left,
                _ => Reports::Written,
            },
        }
    }
}

fn main(rt: HostRuntime) -> io::Result<()> {
    let mut space = [0u8; 4096];
    let mut out = [0u8; 131072];
    let mut input = rt.reader();
    let n = input.read(&mut space)?;
    let asked = Asked::read(slices::first_places(&space, n));
    let total = runs(&mut out, asked);
    println!(rt; "{} {}", total.questions, total.bytes)?;
    if asked.reports == Reports::LastPrinted {
        rt.write_all(slices::first_places(&out, total.last))?;
        rt.write_all(b"\n")?;
    }
    Ok(())
}
