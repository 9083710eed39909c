// Words and numbers to standard output.
use std::io;

pub(crate) fn text(rt: &HostRuntime, s: &[u8]) -> io::Result<()> {
    rt.write_all(s)
}

// The first `end` bytes.
pub(crate) fn first(rt: &HostRuntime, out: &[u8], end: usize) -> io::Result<()> {
    text(rt, slices::first_places(out, end))
}

// A number in the 14 columns that a page has for it.
pub(crate) fn column(rt: &HostRuntime, x: f64) -> io::Result<()> {
    let mut columns = [b' '; 14];
    let _next = page_text::put_number(&mut columns, 0, x);
    text(rt, &columns)
}

// A label in its 20 columns, and numbers, as in a line of a page.
pub(crate) fn row(rt: &HostRuntime, label: &[u8], numbers: &[f64]) -> io::Result<()> {
    text(rt, label)?;
    for x in numbers {
        column(rt, *x)?;
    }
    text(rt, b"\n")
}
