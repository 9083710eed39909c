// Lines of the protocol (docs/PROTOCOL.md).
use crate::lot::Lot;
use crate::{lot, say};
use coverage::Table;
use editing::Answer;
use std::io;

// A field is a double, or a word where there is none.
fn field(rt: &HostRuntime, x: Option<f64>, absent: &[u8]) -> io::Result<()> {
    say::text(rt, b" ")?;
    match x {
        Some(x) => say::text(rt, &numerals::write_double(x)),
        None => say::text(rt, absent),
    }
}

// A line of a form with its fields.
fn line(rt: &HostRuntime, form: &[u8], fields: &[Option<f64>], absent: &[u8]) -> io::Result<()> {
    say::text(rt, b"(")?;
    say::text(rt, form)?;
    for x in fields {
        field(rt, *x, absent)?;
    }
    say::text(rt, b")\n")
}

pub(crate) fn say_request(rt: &HostRuntime, lot: &Lot) -> io::Result<()> {
    let p = lot::ENTERED;
    line(rt, b"entered", &[Some(p.mv), Some(p.bc)], b"none")?;
    for o in &lot.shots {
        line(
            rt,
            b"shot",
            &[Some(o.range_yd), Some(o.drop), Some(o.sigma)],
            b"none",
        )?;
    }
    let prior = lot::SPEED_PRIOR;
    line(
        rt,
        b"prior speed",
        &[Some(prior.mean), Some(prior.sigma)],
        b"none",
    )?;
    for d in &lot.requested {
        line(
            rt,
            b"distance",
            &[Some(d.range_yd), d.future_observation_sigma],
            b"none",
        )?;
    }
    line(rt, b"open plain", &[], b"none")
}

pub(crate) fn say_reply(rt: &HostRuntime, entries: &[Option<f64>]) -> io::Result<()> {
    line(rt, b"drops", entries, b"missing")
}

// A question, the report or a refusal. The report has fewer bytes than there are here.
pub(crate) fn say_answer(rt: &HostRuntime, a: Answer) -> io::Result<()> {
    let mut out = [0u8; 131072];
    let end = answer_text::put_answer(&mut out, 0, a, &Table::single());
    say::first(rt, &out, end)?;
    say::text(rt, b"\n")
}
