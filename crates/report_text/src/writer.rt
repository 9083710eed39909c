// A cursor over a lent buffer.

ghost use Rattle.std.specs.Prelude.{◌≡◌, [], ◌∷◌, ◌≤◌, length, min};

use crate::Text;

// The buffer and the next position. What does not fit is left out, and what stands behind the text stays.
#[derive(Drop)]
pub struct Writer<'a> {
    out: &'a mut [u8],
    at: usize,
    ghost within: { at ≤ length out.now },
}

impl<'a> Writer<'a> {
    ghost use Rattle.words.specs.Words.{bytes};
    ghost use Rattle.report_text.specs.Texts.{led, opened};
    ghost use Rattle.report_text.specs.Writer.{Wrote};

    // A position past the end counts as the end.
    pub fn new(out: &'a mut [u8], at: usize) -> Writer<'a>
        ensures same_reference { result.out.ghost_name ≡ out.entry.ghost_name }
        ensures same_bytes { result.out.now ≡ out.old }
        ensures begun { result.at ≡ min at (length out.old) }
    {
        let at = at.min(out.len());
        Writer { out, at }
    }

    pub fn at(&self) -> usize
        ensures { result ≡ self.now.at }
    {
        self.at
    }

    pub fn put_byte(&mut self, b: u8)
        ensures { Wrote self.old self.new (b ∷ []) }
    {
        if self.at < self.out.len() {
            self.out[self.at] = b;
            self.at += 1;
        }
    }

    pub fn put_bytes(&mut self, s: &[u8])
        ensures { Wrote self.old self.new s.now }
    {
        let n = s.len().min(self.out.len() - self.at);
        let end = self.at + n;
        self.out[self.at..end].copy_from_slice(&s[..n]);
        self.at = end;
    }

    // The bracket that opens a record, and its first field.
    #[tactic(auto, using(crate::proofs::Putting::first_field))]
    pub fn open<T: Text>(&mut self, x: &T)
        ensures { Wrote self.old self.new (opened (T.text x.now ∷ [])) }
    {
        self.put_byte(b'(');
        x.put(self);
    }

    // A field after a blank.
    #[tactic(auto, using(crate::proofs::Putting::led_field))]
    pub fn field<T: Text>(&mut self, x: &T)
        ensures { Wrote self.old self.new (led (T.text x.now ∷ [])) }
    {
        self.put_byte(b' ');
        x.put(self);
    }

    // The bracket that closes a record or a list.
    pub fn close(&mut self)
        ensures { Wrote self.old self.new (bytes ")") }
    {
        self.put_byte(b')');
    }
}
