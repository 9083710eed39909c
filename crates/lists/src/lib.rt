// The observations and the requested distances of a run, each list in the first places of arrays of 64; and changes of the latter and of their rows.
#![tactic(auto)]

ghost use Rattle.std.specs.Prelude.{◌≡◌, ◌≤◌, T, take};
ghost use Rattle.definition.specs.Whole.{edited, edited_numbers, edited_rows, placed};
ghost use Rattle.likelihood.specs.Columns.{observations_in};
ghost use Rattle.stencil.specs.Stencil.{rows_at};
ghost use Rattle.lists.specs.Lists.{HasWanted, observations_at, requested_in, places_of, drops_in, shots_from, wanted_from};
ghost use Rattle.lists.specs.Changing.{edit_of, place_of, entry_in, size_after, roomy, rows_from};

use definition::{Row, TruingPredictionRequestV1, WeightedTruingObservationV1};
use likelihood::Columns;
use stencil::StencilRows;

// Kept: arrays with a length beside them. `Shots` is the form that docs/DECISIONS.md 54 names, and `Wanted` goes with it: a FixedList would give the session a
// model, and each function that passes one on twice a proof by hand.
// The observations, in the first n places.
#[derive(Clone, Copy)]
pub struct Shots {
    pub ranges: [f64; 64],
    pub drops: [f64; 64],
    pub sigmas: [f64; 64],
    pub n: usize,
}

// The requested distances, in the first n places.
#[derive(Clone, Copy)]
pub struct Wanted {
    pub entries: [TruingPredictionRequestV1; 64],
    pub n: usize,
}

// What stands in the places past the last requested distance.
const NO_REQUEST: TruingPredictionRequestV1 = TruingPredictionRequestV1 {
    range_yd: 0.0,
    future_observation_sigma: None,
};

// ---- the lists of a request

// The drops of a reply in the first places of an array, 0 in place of a missing one.
pub fn drops_of(entries: &[Option<f64>]) -> [f64; 64]
    ensures { result ≡ places_of (drops_in entries.now) }
{
    let mut drops = [0.0; 64];
    likelihood::lay_drops(&mut drops, entries);
    drops
}

impl Shots {
    #[tactic(auto, using(crate::proofs::Arrays::column_suc, crate::proofs::Arrays::column_all))]
    pub fn new(observations: &[WeightedTruingObservationV1]) -> Shots
        ensures { result ≡ shots_from observations.now }
    {
        let mut shots = Shots {
            ranges: [0.0; 64],
            drops: [0.0; 64],
            sigmas: [0.0; 64],
            n: observations.len(),
        };
        let n = observations.len().min(64);
        for i in 0..n {
            let o = observations[i];
            shots.ranges[i] = o.range_yd;
            shots.drops[i] = o.drop;
            shots.sigmas[i] = o.sigma;
        }
        shots
    }

    // The observations in columns.
    pub fn columns(&self) -> Columns<'_>
        ensures observations { observations_in result ≡ observations_at self.now }
        ensures ranges { result.ranges.now ≡ take self.now.n self.now.ranges }
    {
        Columns {
            ranges: slices::first_places(&self.ranges, self.n),
            drops: slices::first_places(&self.drops, self.n),
            sigmas: slices::first_places(&self.sigmas, self.n),
        }
    }
}

impl Wanted {
    #[tactic(auto, using(crate::proofs::Arrays::laid_first))]
    pub fn new(requested: &[TruingPredictionRequestV1]) -> Wanted
        ensures { result ≡ wanted_from requested.now }
    {
        let mut entries = [NO_REQUEST; 64];
        let n = requested.len().min(64);
        entries[..n].copy_from_slice(&requested[..n]);
        Wanted {
            entries,
            n: requested.len(),
        }
    }

    // The requested distances.
    pub fn as_slice(&self) -> &[TruingPredictionRequestV1]
        ensures { result.now ≡ requested_in self.now }
    {
        slices::first_places(&self.entries, self.n)
    }
}

// Whether a distance is requested.
#[tactic(auto, using(crate::proofs::Arrays::wanted_some))]
pub fn has_wanted(w: Wanted) -> bool
    ensures { HasWanted w result }
{
    w.n != 0
}

// ---- a change of the requested distances

// A requested distance put in at a place, taken out of it, or exchanged there; places are counted from 1.
#[derive(Clone, Copy, PartialEq)]
pub enum Change {
    PutIn(usize, TruingPredictionRequestV1),
    TakeOut(usize),
    Exchange(usize, TruingPredictionRequestV1),
}

impl Change {
    // The place, counted from 1.
    pub fn place(self) -> usize
        ensures { result ≡ place_of (edit_of self) }
    {
        match self {
            Change::PutIn(place, _) | Change::TakeOut(place) | Change::Exchange(place, _) => place,
        }
    }

    // The new distance, if the change brings one.
    pub fn entry(self) -> Option<TruingPredictionRequestV1>
        ensures { result ≡ entry_in (edit_of self) }
    {
        match self {
            Change::PutIn(_, entry) | Change::Exchange(_, entry) => Some(entry),
            Change::TakeOut(_) => None,
        }
    }

    // Whether the place is one of a list of n. Putting in also takes the place after the last.
    #[tactic(auto, using(crate::proofs::Changes::before_end))]
    pub fn is_placed(self, n: usize) -> bool
        ensures { result ≡ placed (edit_of self) n }
    {
        match self {
            Change::PutIn(i, _) => (1 <= i) & (i.saturating_sub(1) <= n),
            Change::TakeOut(i) | Change::Exchange(i, _) => (1 <= i) & (i <= n),
        }
    }

    // Whether the edited list has a place for each of its entries.
    pub fn has_room(self, n: usize) -> bool
        ensures { result ≡ roomy (edit_of self) n }
    {
        match self {
            Change::PutIn(_, _) => n < 64,
            Change::TakeOut(_) | Change::Exchange(_, _) => true,
        }
    }

    // Kept: `n ≤ 64` is an antecedent here and below. A `Wanted` that no call made has any n; with an invariant it could not be built so.
    // The size of the list of n afterwards.
    fn size_after(self, n: usize) -> usize
        ensures { n ≤ 64 → result ≡ size_after (edit_of self) n }
    {
        match self {
            Change::PutIn(_, _) => n.saturating_add(1),
            Change::TakeOut(_) => n.saturating_sub(1),
            Change::Exchange(_, _) => n,
        }
    }

    // The first n of an array with x at the place of the change, or without the one there.
    #[tactic(auto, using(crate::proofs::Changes::put_places, crate::proofs::Changes::took_places, crate::proofs::Changes::set_places))]
    fn applied<A: Copy>(self, old: [A; 64], n: usize, x: A) -> [A; 64]
        ensures { n ≤ 64 → T (placed (edit_of self) n) → T (roomy (edit_of self) n) → take (size_after (edit_of self) n) result ≡ edited_numbers (edit_of self) x (take n old) }
    {
        match self {
            Change::PutIn(i, _) => array_edits::inserted(old, n, i.saturating_sub(1), x),
            Change::TakeOut(i) => array_edits::removed(old, n, i.saturating_sub(1)),
            Change::Exchange(i, _) => array_edits::exchanged(old, i.saturating_sub(1), x),
        }
    }
}

// The list with the change made, where it fits.
#[tactic(auto, using(crate::proofs::Changes::edited_as))]
pub fn changed_wanted(w: Wanted, change: Change) -> Wanted
    ensures { w.n ≤ 64 → T (placed (edit_of change) w.n) → T (roomy (edit_of change) w.n) → (requested_in result ≡ edited (edit_of change) (requested_in w)) × (result.n ≡ size_after (edit_of change) w.n) }
{
    let entry = change.entry().unwrap_or(NO_REQUEST);
    Wanted {
        entries: change.applied(w.entries, w.n, entry),
        n: change.size_after(w.n),
    }
}

// The rows of n distances with the same change made, the new distance's row in its place.
pub fn changed_rows(rows: StencilRows<64>, n: usize, change: Change, row: Row) -> StencilRows<64>
    ensures { n ≤ 64 → T (placed (edit_of change) n) → T (roomy (edit_of change) n) → rows_at (size_after (edit_of change) n) result ≡ edited_rows (edit_of change) (rows_from row) (rows_at n rows) }
{
    StencilRows {
        predicted: change.applied(rows.predicted, n, row.predicted_drop),
        by_mv: change.applied(rows.by_mv, n, row.d_drop_d_mv),
        by_bc: change.applied(rows.by_bc, n, row.d_drop_d_bc),
        gap: 0,
    }
}
