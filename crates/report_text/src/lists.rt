// Lists that are read place by place.

ghost use Rattle.std.specs.Prelude.{◌≡◌, ℕ, List, Option, option_map};
ghost use Rattle.report_text.specs.Texts.{bracketed};
ghost use Rattle.report_text.specs.Writer.{Wrote};
ghost use Rattle.report_text.specs.Lists.{present, separated};

use crate::{Text, Writer};

// What stands at each place, if anything does.
pub trait Places {
    type Item: Text + Drop;

    ghost texts: { Self → ℕ → Option (List ℕ) };

    fn get(&self, i: usize) -> Option<Self::Item>
        ensures { option_map Self.Item.text result ≡ texts self.now i };
}

// What stands at the first n places, with `between` between two.
pub fn put_each<P: Places>(w: &mut Writer<'_>, between: &[u8], n: usize, places: &P)
    ensures { Wrote w.old w.new (separated between.now (present n (P.texts places.now))) }
{
    let mut is_first = true;
    for i in 0..n {
        if let Some(item) = places.get(i) {
            if !is_first {
                w.put_bytes(between);
            }
            is_first = false;
            item.put(w);
        }
    }
}

// What stands at the first places as a list.
#[derive(Drop)]
pub struct First<P> {
    pub n: usize,
    pub places: P,
}

impl<P: Places> Text for First<P> {
    ghost text = { λ l. bracketed (present l.n (P.texts l.places)) };

    #[tactic(auto, using(crate::proofs::Listing::in_brackets))]
    fn put(&self, w: &mut Writer<'_>) {
        w.put_byte(b'(');
        put_each(w, b" ", self.n, &self.places);
        w.close();
    }
}
