// A demonstration: fits a bundled lot of twelve shots over the demonstration solver, says in plain words what comes out, and shows the request and the
// answer as lines of the protocol. It reads nothing.
#![tactic(auto)]

mod lot;
mod meaning;
mod protocol;
mod say;

use definition::{Distances, Point, Step};
use editing::{Answer, Session};
use lot::Lot;
use numeric::DropUnit;
use std::io;

fn say_heading(rt: &HostRuntime) -> io::Result<()> {
    say::text(
        rt,
        b"Launch speed and ballistic coefficient of a slug, fitted to the drops of twelve shots.\n",
    )?;
    say::text(
        rt,
        b"Nobody fired them: they are the drops of a small flight solver, each with a made-up deviation below\n",
    )?;
    say::text(
        rt,
        b"its sigma. The solver is no part of the estimator. The point that they were made at:\n",
    )?;
    say::text(rt, b"                    ")?;
    say::column(rt, lot::TRUE_POINT.mv)?;
    say::column(rt, lot::TRUE_POINT.bc)?;
    say::text(rt, b"\n\n")
}

// So many questions are shown with their replies.
const SHOWN: usize = 3;

// The solver's reply to a question about at most twelve distances: none at a point that is not sane, nor about a new distance.
fn reply<'a>(
    p: Point,
    list: Distances,
    lot: &Lot,
    places: &'a mut [Option<f64>; 12],
) -> Option<&'a [Option<f64>]> {
    if !point_mass::is_sane(p) {
        return None;
    }
    let shots = lot.shot_ranges();
    let requested = lot.requested_ranges();
    let ranges: &[f64] = match list {
        Distances::Shots => &shots,
        Distances::Requested => &requested,
        Distances::New => return None,
    };
    point_mass::fill(p, DropUnit::In, ranges, places);
    Some(slices::first_places(places, ranges.len()))
}

fn answered(s: Session, reply: Option<&[Option<f64>]>) -> Answer {
    match reply {
        Some(entries) => editing::reply(s, entries),
        None => editing::refuse(s),
    }
}

// From the opening's answer to the last.
fn conversation(opened: Answer, lot: &Lot) -> Answer {
    let mut a = opened;
    for _ in 0..editing::MAX_QUESTIONS {
        let Step::Question(mv, bc, list) = a.step else {
            break;
        };
        let mut places = [None; 12];
        a = answered(a.session, reply(Point { mv, bc }, list, lot, &mut places));
    }
    a
}

// The request and the beginning of the conversation, which is held once more for it.
fn say_beginning(rt: &HostRuntime, lot: &Lot, opened: Answer) -> io::Result<()> {
    say::text(
        rt,
        b"\nThe lines behind it, as docs/PROTOCOL.md has them. The request:\n",
    )?;
    protocol::say_request(rt, lot)?;
    say::text(rt, b"\nThe conversation begins:\n")?;
    let mut a = opened;
    for _ in 0..SHOWN {
        let Step::Question(mv, bc, list) = a.step else {
            break;
        };
        protocol::say_answer(rt, a)?;
        let mut places = [None; 12];
        let entries = reply(Point { mv, bc }, list, lot, &mut places);
        if let Some(entries) = entries {
            protocol::say_reply(rt, entries)?;
        }
        a = answered(a.session, entries);
    }
    Ok(())
}

fn say_end(rt: &HostRuntime, last: Answer) -> io::Result<()> {
    let asked = editing::asked(last.session);
    println!(rt; "and goes on, {asked} questions in all. The answer:")?;
    protocol::say_answer(rt, last)
}

fn main(rt: HostRuntime) -> io::Result<()> {
    let sample = lot::sample();
    let opened = editing::open(sample.request());
    let last = conversation(opened, &sample);
    say_heading(&rt)?;
    meaning::say_answer(&rt, last)?;
    say_beginning(&rt, &sample, opened)?;
    say_end(&rt, last)
}
