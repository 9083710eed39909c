// The line protocol over standard input and output: a host's lines are answered one by one, and each answer is written out before the next line is read.
// An argument names a coverage file, under whose table reports and pages are shown.
// `begin`, `feed` and `finish` are those of `stream`, with what its theorem `output` assumes of them: however the input is cut into pieces, the bytes that
// they leave in the buffer are those of the protocol's definition under the table. `load_start`, `load` and `loaded` are those of `coverage`, with what its
// theorem `loads_file` assumes of them. What follows them is the loops that read, call and write.
#![tactic(auto)]

ghost use Rattle.std.specs.Prelude.{[], ◌≡◌};
ghost use Rattle.coverage.specs.File.{told_of, judged};
ghost use Rattle.coverage.specs.Reading.{begun_of, fed_all, form_in};
ghost use Rattle.coverage.specs.Table.{rows_in, standing, says};
ghost use Rattle.report_text.specs.Writing.{Writes};
ghost use Rattle.report_text.specs.Texts.{declined_text};
ghost use Rattle.answer_text.specs.Answers.{line};
ghost use Rattle.conversation.specs.Conversation.{initial};
ghost use Rattle.stream.specs.Bytes.{Holds, Feeds, Finishes};

use coverage::{Loader, Table, TableRefusal};
use report_text::{Text, Writer};
use std::env::{Env, FillError};
use std::{fs, io};
use stream::{Fed, State};
use words::Word;

// Nothing is read yet.
fn begin(table: Table) -> State
    ensures { Holds result (initial (rows_in table)) [] }
{
    State::new(table)
}

// Bytes from `at` on, up to the end of a line at most.
fn feed(s: &mut State, bytes: &[u8], at: usize, out: &mut [u8; 131072]) -> Fed
    ensures { Feeds s.old bytes.now at out.old out.new s.new result }
{
    s.feed(bytes, at, out)
}

// The input has ended.
fn finish(s: &State, out: &mut [u8; 131072]) -> usize
    ensures { Finishes s.now out.old out.new result }
{
    s.finish(out)
}

// ---- the coverage file

// Nothing of it is read yet.
fn load_start() -> Loader
    ensures { standing result ≡ begun_of }
{
    Loader::begin()
}

fn load(l: &mut Loader, bytes: &[u8])
    ensures { standing l.new ≡ fed_all (standing l.old) bytes.now }
{
    l.feed(bytes)
}

// The file has ended.
fn loaded(l: Loader) -> Result<Table, TableRefusal>
    ensures { says result ≡ judged (form_in (standing l)) }
{
    l.ended()
}

// The line of a refused table.
#[derive(Clone, Copy)]
struct Declined(TableRefusal);

impl Text for Declined {
    ghost text = { λ d. line (declined_text (told_of d.0.code) d.0.place) };

    #[tactic(auto, using(report_text::proofs::Putting::put_put), unfolding(report_text::specs::Texts::declined_text, words::specs::Words::word_at))]
    fn put(&self, w: &mut Writer<'_>) {
        (Word::Declined, u64::from(self.0.code), self.0.place as u64).put(w);
        w.put_byte(b'\n');
    }
}

fn put_refusal(refusal: TableRefusal, out: &mut [u8; 131072]) -> usize
    ensures { Writes out.old 0 out.new result (line (declined_text (told_of refusal.code) refusal.place)) }
{
    report_text::write(out, 0, &Declined(refusal))
}

// ---- the loops

// An answer that cannot be written is dropped.
fn write_out(rt: &HostRuntime, out: &[u8; 131072], end: usize) {
    let _written = rt.write_all(slices::first_places(out, end)).is_ok();
}

// Takes the bytes that were read, and writes each answer out.
fn take_bytes(rt: &HostRuntime, s: &mut State, bytes: &[u8], out: &mut [u8; 131072]) {
    let mut at = 0usize;
    // Kept: `feed` says where to go on. Its promise is about a place in the bytes, with which theorem `output` goes on.
    while at < bytes.len() {
        let fed = feed(s, bytes, at, out);
        write_out(rt, out, fed.len);
        at = fed.at;
    }
}

// Reads once, and takes what came: whether there may be more. A read that fails counts as the end of the input.
fn read_some<R: io::Read>(
    rt: &HostRuntime,
    input: &mut R,
    s: &mut State,
    out: &mut [u8; 131072],
) -> bool {
    let mut space = [0u8; 4096];
    match input.read(&mut space) {
        Ok(n) if n > 0 => {
            take_bytes(rt, s, &space[..n], out);
            true
        }
        _ => false,
    }
}

// A proved loop has to end, and nothing says that the input does: no run uses up this count.
fn serve(rt: &HostRuntime, table: Table, out: &mut [u8; 131072]) {
    let mut input = rt.reader();
    let mut state = begin(table);
    for _ in 0..u64::MAX {
        if !read_some(rt, &mut input, &mut state, out) {
            break;
        }
    }
    let len = finish(&state, out);
    write_out(rt, out, len);
}

// Reads once: whether there may be more.
fn load_some<R: io::Read>(file: &mut R, l: &mut Loader) -> io::Result<bool> {
    let mut space = [0u8; 4096];
    let n = file.read(&mut space)?;
    load(l, &space[..n]);
    Ok(n > 0)
}

fn load_all<R: io::Read>(file: &mut R) -> io::Result<Loader> {
    let mut l = load_start();
    for _ in 0..u64::MAX {
        if !load_some(file, &mut l)? {
            break;
        }
    }
    Ok(l)
}

// The file that the first argument names. A name of more bytes than a path can have, or that is not UTF-8, is none that can be opened.
fn load_file(rt: &HostRuntime) -> io::Result<Loader> {
    let mut space = [0u8; 4096];
    let none = io::ErrorKind::InvalidInput;
    let n = rt.arg(1, &mut space).map_err(|_| io::Error::from(none))?;
    let name = str::from_utf8(slices::first_places(&space, n)).map_err(|_| io::Error::from(none))?;
    let mut file = fs::open(rt, name)?;
    load_all(&mut file)
}

// A refused table: its refusal is the only line.
fn decline(rt: &HostRuntime, refusal: TableRefusal, out: &mut [u8; 131072]) {
    let len = put_refusal(refusal, out);
    write_out(rt, out, len);
}

// A file that cannot be opened or read is an empty one.
fn serve_under(rt: &HostRuntime, file: io::Result<Loader>, out: &mut [u8; 131072]) {
    let l = file.unwrap_or(load_start());
    match loaded(l) {
        Ok(table) => serve(rt, table, out),
        Err(refusal) => decline(rt, refusal, out),
    }
}

// Whether there is a k-th argument, whatever its bytes are. The program's own name, which is argument 0, is never read.
fn has_argument(rt: &HostRuntime, k: usize) -> bool {
    !matches!(rt.arg(k, &mut []), Err(FillError::NotPresent))
}

// Without an argument there is the built-in table. The buffer of the answers is made once, whatever is served.
fn main(rt: HostRuntime) {
    if has_argument(&rt, 2) {
        let _said = eprintln!(rt; "usage: truing [COVERAGE-FILE]").is_ok();
        return;
    }
    let mut out = [0u8; 131072];
    if has_argument(&rt, 1) {
        serve_under(&rt, load_file(&rt), &mut out);
    } else {
        serve(&rt, Table::single(), &mut out);
    }
}
