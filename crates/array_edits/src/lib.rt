// An entry put in, taken out or exchanged in the first places of an array. Places are counted from 0.
#![tactic(auto)]

ghost use Rattle.std.specs.Prelude.{◌≡◌, set};
ghost use Rattle.array_edits.specs.Places.{inserted_of, removed_of};

// The first n with x put in at the place i, later ones moving up; the array as it was, where i is beyond them or there is no room.
#[tactic(auto, using(crate::proofs::Laws::put_in), unfolding(crate::specs::Places::inserted_of))]
pub fn inserted<T: Copy>(old: [T; 64], n: usize, i: usize, x: T) -> [T; 64]
    ensures { result ≡ inserted_of n i x old }
{
    let mut longer = old;
    if (i <= n) & (n < 64) {
        longer.copy_within(i..n, i + 1);
        longer[i] = x;
    }
    longer
}

// The first n without the one at the place i; the array as it was, where there is none or n is beyond the array.
#[tactic(auto, using(crate::proofs::Laws::taken_out), unfolding(crate::specs::Places::removed_of))]
pub fn removed<T: Copy>(old: [T; 64], n: usize, i: usize) -> [T; 64]
    ensures { result ≡ removed_of n i old }
{
    let mut shorter = old;
    if (i < n) & (n <= 64) {
        shorter.copy_within(i + 1..n, i);
    }
    shorter
}

// The array with x at the place i; as it was, where it has no such place.
#[tactic(auto, using(crate::proofs::Laws::set_past))]
pub fn exchanged<T: Copy>(old: [T; 64], i: usize, x: T) -> [T; 64]
    ensures { result ≡ set old i x }
{
    let mut a = old;
    if i < 64 {
        a[i] = x;
    }
    a
}
