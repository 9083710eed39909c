// What can be written, with its text.

ghost use Rattle.std.specs.Prelude.{ℕ, List, [], ◌∷◌};
ghost use Rattle.words.specs.Words.{word_at, place_in};
ghost use Rattle.numerals.specs.Numbers.{double_text, count_text};
ghost use Rattle.report_text.specs.Texts.{bracketed, or_none, truth_text};
ghost use Rattle.report_text.specs.Writer.{Wrote};

use crate::Writer;
use words::Word;

// Kept: not std's Display. Most of these types are of other crates, and its law is about a Formatter, not about a buffer and what stands behind the text.
pub trait Text {
    ghost text: { Self → List ℕ };

    fn put(&self, w: &mut Writer<'_>)
        ensures { Wrote w.old w.new (text self.now) };
}

// The 16 digits of its bits.
impl Text for f64 {
    ghost text = { double_text };

    fn put(&self, w: &mut Writer<'_>) {
        w.put_bytes(&numerals::write_double(*self));
    }
}

impl Text for u64 {
    ghost text = { count_text };

    fn put(&self, w: &mut Writer<'_>) {
        let text = numerals::write_count(*self);
        w.put_bytes(text.as_slice());
    }
}

impl Text for Word {
    ghost text = { λ word. word_at (place_in word) };

    fn put(&self, w: &mut Writer<'_>) {
        w.put_bytes(self.text());
    }
}

impl Text for bool {
    ghost text = { truth_text };

    #[tactic(auto, unfolding(words::specs::Words::word_at))]
    fn put(&self, w: &mut Writer<'_>) {
        let word = if *self { Word::Yes } else { Word::No };
        word.put(w);
    }
}

impl<T: Text> Text for Option<T> {
    ghost text = { or_none T.text };

    #[tactic(auto, unfolding(words::specs::Words::word_at))]
    fn put(&self, w: &mut Writer<'_>) {
        match self {
            None => Word::None.put(w),
            Some(x) => x.put(w),
        }
    }
}

// Two, three or four fields as a record.
impl<A: Text, B: Text> Text for (A, B) {
    ghost text = { λ p. bracketed (A.text p.0 ∷ B.text p.1 ∷ []) };

    #[tactic(auto, using(crate::proofs::Putting::next_field, crate::proofs::Putting::closing))]
    fn put(&self, w: &mut Writer<'_>) {
        w.open(&self.0);
        w.field(&self.1);
        w.close();
    }
}

impl<A: Text, B: Text, C: Text> Text for (A, B, C) {
    ghost text = { λ p. bracketed (A.text p.0 ∷ B.text p.1 ∷ C.text p.2 ∷ []) };

    #[tactic(auto, using(crate::proofs::Putting::next_field, crate::proofs::Putting::closing))]
    fn put(&self, w: &mut Writer<'_>) {
        let (a, b, c) = self;
        w.open(a);
        w.field(b);
        w.field(c);
        w.close();
    }
}

impl<A: Text, B: Text, C: Text, D: Text> Text for (A, B, C, D) {
    ghost text = { λ p. bracketed (A.text p.0 ∷ B.text p.1 ∷ C.text p.2 ∷ D.text p.3 ∷ []) };

    #[tactic(auto, using(crate::proofs::Putting::next_field, crate::proofs::Putting::closing))]
    fn put(&self, w: &mut Writer<'_>) {
        let (a, b, c, d) = self;
        w.open(a);
        w.field(b);
        w.field(c);
        w.field(d);
        w.close();
    }
}
