// A list of at most N items in a value that is copied, without a heap.
// Kept: an array with a length beside it. The kit's `arrayvec` is no Copy; the types that hold a list here were Copy and stay so.
#![tactic(auto)]

ghost use Rattle.std.specs.Prelude.{⊤, None, ◌≡◌, ◌+◌, ◌-◌, ◌<◌, ◌≤◌, ◌==◌, ◌↔◌, [], ◌∷◌, ◌++◌, length, take, replicate, IsOk, OnOk, OnErr, IfErr};
ghost use Rattle.fixed_list.specs.FixedList.{list_len};

use std::alloc::AllocError;
use std::marker::Model;

// What stands in the places that hold no item.
// Kept: not std's Default, whose law says that a default may be such a value, not that it is this one.
pub trait Blank: Copy {
    ghost blank: { Self };

    fn blank() -> Self
        ensures { result ≡ blank };
}

impl Blank for u8 {
    ghost blank = { 0 };

    fn blank() -> u8 {
        0
    }
}

impl<T: Copy> Blank for Option<T> {
    ghost blank = { None };

    fn blank() -> Option<T> {
        None
    }
}

// The items are in the first places.
#[derive(Copy)]
pub struct FixedList<T: Blank, const N: usize> {
    cells: [T; N],
    len: usize,
}

impl<T: Blank, const N: usize> Model for FixedList<T, N> {
    ghost use Rattle.std.specs.Prelude.{◌≡◌, ◌-◌, ◌≤◌, ◌++◌, length, take, replicate};
    ghost use Rattle.std.proofs.Common.{ap, sym, arith};
    ghost use lib.Seq.{length-take-le};
    ghost use Rattle.fixed_list.specs.FixedList.{FixedList as Items};

    ghost Value = { Items T };

    ghost view = { λ v. record { items = take v.len v.cells } };

    ghost invariant = { λ v. (v.len ≤ N) × (length v.cells ≡ N) × (v.cells ≡ take v.len v.cells ++ replicate (N - v.len) T.blank) };

    ghost inverse = { λ v. record { cells = v.items ++ replicate (N - length v.items) T.blank; len = length v.items } };

    ghost inverse_ok = { λ a h. rw (length-take-le a.len a.cells (omega (arith, h.0, h.1))) (ap (λ c. record { cells = c; len = a.len }) (sym h.2)) };
}

// Kept: a derived one would clone each item, of which nothing says that it gives the same.
impl<T: Blank, const N: usize> Clone for FixedList<T, N> {
    ghost is_clone = { λ x y. y ≡ x };

    ghost is_infallible = { λ _. ⊤ };

    fn clone(&self) -> Result<Self, AllocError> {
        Ok(*self)
    }
}

impl<T: Blank, const N: usize> FixedList<T, N> {
    pub fn new() -> Self
        ensures { result.items ≡ [] }
    {
        FixedList {
            cells: [T::blank(); N],
            len: 0,
        }
    }

    pub fn len(&self) -> usize
        ensures value { result ≡ list_len self.now }
        ensures fits { result ≤ N }
    {
        self.len
    }

    pub fn is_empty(&self) -> bool
        ensures { result ≡ (list_len self.now == 0) }
    {
        self.len == 0
    }

    pub fn as_slice(&self) -> &[T]
        ensures value { result.now ≡ self.now.items }
        ensures fits { length result.now ≤ N }
    {
        &self.cells[..self.len]
    }

    // One item more, or the item back where the list is full.
    pub fn try_push(&mut self, item: T) -> Result<(), T>
        ensures variant { IsOk result ↔ (list_len self.old < N) }
        ensures ok { OnOk result (self.new.items ≡ self.old.items ++ item ∷ []) }
        ensures len { OnOk result (list_len self.new ≡ list_len self.old + 1) }
        ensures err { OnErr result (self.new ≡ self.old) }
        ensures full { OnErr result (list_len self.old ≡ N) }
        ensures returned { IfErr result (λ x. x ≡ item) }
    {
        if self.len == N {
            return Err(item);
        }
        self.cells[self.len] = item;
        self.len += 1;
        Ok(())
    }
}
