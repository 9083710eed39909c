// Reads doubles, a line of the 16 hexadecimal digits of its bits each, and writes each one's root so. A line of another form ends it.
#![tactic(auto)]

// Kept: `page_numbers` has the same loop. A function for both would be public, and nothing says what an input holds, so that it would promise nothing.
use std::io;
use std::io::{ErrorKind, Read};

// A line of 16 digits and its end, if the input has a whole one left.
fn read_line<R: Read>(input: &mut R) -> io::Result<Option<[u8; 17]>> {
    let mut line = [0; 17];
    match input.read_exact(&mut line) {
        Ok(()) => Ok(Some(line)),
        Err(e) if e.kind() == ErrorKind::UnexpectedEof => Ok(None),
        Err(e) => Err(e),
    }
}

// Reads a line, writes its answer, and says whether to go on.
fn answer<R: Read>(rt: &HostRuntime, input: &mut R) -> io::Result<bool> {
    let Some(line) = read_line(input)? else {
        return Ok(false);
    };
    if line[16] != 10 {
        return Ok(false);
    }
    match numerals::read_double(&line[..16]) {
        None => Ok(false),
        Some(x) => {
            let root = numerals::pattern(root::root(x));
            println!(rt; "{root:016x}")?;
            Ok(true)
        }
    }
}

// A proved loop has to end, and nothing says that the input does: no run uses up this count.
fn main(rt: HostRuntime) -> io::Result<()> {
    let mut input = rt.reader();
    for _ in 0..u64::MAX {
        if !answer(&rt, &mut input)? {
            break;
        }
    }
    Ok(())
}
