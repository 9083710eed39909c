// Reads coverage files, a line each: every byte as two lower-case hexadecimal digits, and a line feed behind the last. Writes for each what loading it gives:
// `(coverage (LEVEL FACTOR) ..)` with the doubles' bits, or `(declined NUMBER PLACE)`. Any other character is passed over.
#![tactic(auto)]

ghost use Rattle.std.specs.Prelude.{◌<◌, IfSome};

use coverage::{Loader, Table, TableRefusal};
use std::io::{Read, Write};
use std::{io, mem};

// A file that is being read, and the upper half of its next byte.
#[derive(Drop)]
struct Line {
    loader: Loader,
    high: Option<u8>,
}

// The value of a digit.
fn digit(c: u8) -> Option<u8>
    ensures { IfSome result (λ d. d < 16) }
{
    match c {
        b'0'..=b'9' => Some(c - b'0'),
        b'a'..=b'f' => Some(c - b'a' + 10),
        _ => None,
    }
}

impl Line {
    fn begin() -> Line {
        Line {
            loader: Loader::begin(),
            high: None,
        }
    }

    // A character within a line.
    fn take(&mut self, c: u8) {
        let Some(d) = digit(c) else {
            return;
        };
        match self.high.take() {
            None => self.high = Some(d << 4),
            Some(high) => self.loader.feed(&[high | d]),
        }
    }

    // A file has ended, and the next begins.
    fn end(&mut self) -> Result<Table, TableRefusal> {
        let Line { loader, high: _ } = mem::replace(self, Line::begin());
        loader.ended()
    }

    fn take_bytes(&mut self, rt: &HostRuntime, bytes: &[u8]) -> io::Result<()> {
        for c in bytes {
            if *c == b'\n' {
                write_answer(rt, &self.end())?;
            } else {
                self.take(*c);
            }
        }
        Ok(())
    }
}

// A table's line goes out in one call, so that no reader finds a part of it: with eight rows it has 299 bytes.
fn write_table(rt: &HostRuntime, table: &Table) -> io::Result<()> {
    let mut line = [0u8; 512];
    let mut room: &mut [u8] = &mut line;
    write!(room, "(coverage")?;
    for row in table.rows() {
        let level = numerals::pattern(row.level);
        let factor = numerals::pattern(row.factor);
        write!(room, " ({level:016x} {factor:016x})")?;
    }
    writeln!(room, ")")?;
    let left = room.len();
    rt.write_all(&line[..line.len().saturating_sub(left)])
}

fn write_answer(rt: &HostRuntime, loaded: &Result<Table, TableRefusal>) -> io::Result<()> {
    match loaded {
        Ok(table) => write_table(rt, table),
        Err(refusal) => println!(rt; "(declined {} {})", u64::from(refusal.code), refusal.place),
    }
}

// A proved loop has to end, and nothing says that the input does: no run uses up this count.
fn main(rt: HostRuntime) -> io::Result<()> {
    let mut input = rt.reader();
    let mut line = Line::begin();
    let mut space = [0u8; 4096];
    for _ in 0..u64::MAX {
        let n = input.read(&mut space)?;
        if n == 0 {
            break;
        }
        line.take_bytes(&rt, &space[..n])?;
    }
    Ok(())
}
