// The rows of a table, in fixed memory.

ghost use Rattle.std.specs.Prelude.{◌≡◌, ◌<◌, ◌≤◌, ◌↔◌, [], ◌∷◌, ◌++◌, length, take, IsSome, OnSome, IfNone};

use crate::CoverageRow;

// 0 to 8 rows: the first n places, in their order.
// Kept: an array and a count. A Table was Copy, and its type may not ask more of callers (docs/DECISIONS.md 94): arrayvec is none, and a model leaves proofs to them.
#[derive(Clone, Copy)]
pub(crate) struct Rows {
    places: [CoverageRow; 8],
    n: usize,
    ghost few: { n ≤ 8 },
    ghost count: { length (take n places) ≡ n },
}

impl Rows {
    ghost use Rattle.coverage.specs.Held.{held};

    pub(crate) fn new() -> Rows
        ensures { held result ≡ [] }
    {
        Rows {
            places: [CoverageRow::default(); 8],
            n: 0,
        }
    }

    pub(crate) fn as_slice(&self) -> &[CoverageRow]
        ensures { result.now ≡ held self.now }
    {
        &self.places[..self.n]
    }

    pub(crate) fn push(&mut self, row: CoverageRow)
        requires { length (held self.old) < 8 }
        ensures { held self.new ≡ held self.old ++ row ∷ [] }
    {
        self.places[self.n] = row;
        self.n += 1;
    }

    // A row more, where there is room.
    pub(crate) fn try_push(&mut self, row: CoverageRow) -> Option<()>
        ensures room { IsSome result ↔ (length (held self.old) < 8) }
        ensures pushed { OnSome result (held self.new ≡ held self.old ++ row ∷ []) }
        ensures full { IfNone result (self.new ≡ self.old) }
    {
        if self.n == 8 {
            return None;
        }
        self.push(row);
        Some(())
    }
}
