// A report and the other answers as texts, written into a lent buffer.
#![tactic(auto)]

ghost use Rattle.std.specs.Prelude.{◌≡◌};
ghost use Rattle.report_text.specs.Writing.{Writes};

mod lists;
mod records;
mod text;
mod writer;

pub use lists::{First, Places, put_each};
pub use records::Under;
pub use text::Text;
pub use writer::Writer;

// A value's text, written from a position on: the next one.
pub fn write<T: Text>(out: &mut [u8], at: usize, x: &T) -> usize
    ensures { Writes out.old at out.new result (T.text x.now) }
{
    let mut w = Writer::new(out, at);
    x.put(&mut w);
    w.at()
}
