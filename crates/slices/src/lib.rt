// How far slices are read together, and the first places of one: so much of an array is in use.
#![tactic(auto)]

ghost use Rattle.std.specs.Prelude.{◌≡◌, take};
ghost use Rattle.slices.specs.Slices.{shortest_of};

pub fn shortest(a: usize, b: usize, c: usize) -> usize
    ensures { result ≡ shortest_of a b c }
{
    a.min(b.min(c))
}

// The first n of a slice, or all of it: so much of an array is in use.
pub fn first_places<'a, T>(s: &'a [T], n: usize) -> &'a [T]
    ensures { result.now ≡ take n s.now }
{
    &s[..n.min(s.len())]
}
