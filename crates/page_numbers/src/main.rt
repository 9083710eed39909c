// Reads doubles, a line of the 16 hexadecimal digits of its bits each, and writes the 14 columns that a page has for each. A line of another form ends it.
#![tactic(auto)]

use std::io;
use std::io::{ErrorKind, Read};

// A line of 16 digits and its end, if the input has a whole one left.
fn read_line<R: Read>(input: &mut R) -> io::Result<Option<[u8; 17]>> {
    let mut line = [0; 17];
    match input.read_exact(&mut line) {
        Ok(()) => Ok(Some(line)),
        Err(e) if e.kind() == ErrorKind::UnexpectedEof => Ok(None),
        Err(e) => Err(e),
    }
}

// Reads a line, writes its answer, and says whether to go on.
fn answer<R: Read>(rt: &HostRuntime, input: &mut R) -> io::Result<bool> {
    let Some(line) = read_line(input)? else {
        return Ok(false);
    };
    if line[16] != 10 {
        return Ok(false);
    }
    match numerals::read_double(&line[..16]) {
        None => Ok(false),
        Some(x) => {
            // A number takes 14 columns; the byte behind them stays.
            let mut columns = [10u8; 15];
            let next = page_text::put_number(&mut columns, 0, x);
            rt.write_all(&columns)?;
            Ok(true)
        }
    }
}

// A proved loop has to end, and nothing says that the input does: no run uses up this count.
fn main(rt: HostRuntime) -> io::Result<()> {
    let mut input = rt.reader();
    for _ in 0..u64::MAX {
        if !answer(&rt, &mut input)? {
            break;
        }
    }
    Ok(())
}
