// The five questions about a list of distances: where each is put, and where the drops of its reply go. The rows of a run's lists and the row of an edit's new
// distance are filled by the same method.
#![tactic(auto)]

ghost use Rattle.std.specs.Prelude.{◌≡◌, slice_get};
ghost use Rattle.stencil.specs.Stencil.{five, point_at, next_of};

use definition::Point;
use likelihood::RowColumns;

// The five questions, in order: at the point itself, and at a step to either side of each coordinate.
#[derive(Clone, Copy, PartialEq, Eq)]
pub enum StencilPoint {
    Nominal,
    MvPlus,
    MvMinus,
    BcPlus,
    BcMinus,
}

impl StencilPoint {
    // The k-th of the five, counted from 0, where a caller has a number; beyond the last there is none.
    pub fn nth(k: usize) -> Option<StencilPoint>
        ensures { result ≡ slice_get five k }
    {
        match k {
            0 => Some(StencilPoint::Nominal),
            1 => Some(StencilPoint::MvPlus),
            2 => Some(StencilPoint::MvMinus),
            3 => Some(StencilPoint::BcPlus),
            4 => Some(StencilPoint::BcMinus),
            _ => None,
        }
    }

    // Where the question is put.
    #[tactic(auto, unfolding(definition::specs::Likelihood::mv_plus_at, definition::specs::Likelihood::mv_minus_at, definition::specs::Likelihood::bc_plus_at, definition::specs::Likelihood::bc_minus_at))]
    pub fn at(self, p: Point) -> Point
        ensures { result ≡ point_at self p }
    {
        let Point { mv, bc } = p;
        match self {
            StencilPoint::Nominal => p,
            StencilPoint::MvPlus => Point {
                mv: mv + likelihood::mv_step(mv),
                bc,
            },
            StencilPoint::MvMinus => Point {
                mv: mv - likelihood::mv_step(mv),
                bc,
            },
            StencilPoint::BcPlus => Point {
                mv,
                bc: bc + likelihood::bc_step(bc),
            },
            StencilPoint::BcMinus => Point {
                mv,
                bc: bc - likelihood::bc_step(bc),
            },
        }
    }

    // The question after it.
    pub fn next(self) -> Option<StencilPoint>
        ensures { result ≡ next_of self }
    {
        match self {
            StencilPoint::Nominal => Some(StencilPoint::MvPlus),
            StencilPoint::MvPlus => Some(StencilPoint::MvMinus),
            StencilPoint::MvMinus => Some(StencilPoint::BcPlus),
            StencilPoint::BcPlus => Some(StencilPoint::BcMinus),
            StencilPoint::BcMinus => None,
        }
    }
}

// Kept: 0 where there is no gap. A gap is the definition's `first_at`, whose number a refusal names; an Option would be made from it and turned back.
// The rows of the five questions as far as they have been answered, in the first places, and the position of the first gap, 0 where there is none.
#[derive(Clone, Copy)]
pub struct StencilRows<const N: usize> {
    pub predicted: [f64; N],
    pub by_mv: [f64; N],
    pub by_bc: [f64; N],
    pub gap: usize,
}

impl<const N: usize> StencilRows<N> {
    ghost use Rattle.std.specs.Prelude.{replicate};
    ghost use Rattle.numeric.specs.Numeric.{zero64};
    ghost use Rattle.likelihood.specs.Columns.{rows_in};
    ghost use Rattle.definition.specs.Likelihood.{rows_of};
    ghost use Rattle.stencil.specs.Stencil.{all_rows, laid_rows};

    // No reply is there yet.
    pub fn new() -> Self
        ensures { all_rows result ≡ record { predicted = replicate N zero64; by_mv = replicate N zero64; by_bc = replicate N zero64; gap = 0 } }
    {
        StencilRows {
            predicted: [0.0; N],
            by_mv: [0.0; N],
            by_bc: [0.0; N],
            gap: 0,
        }
    }

    // The reply to a question at p goes over the first places.
    pub fn lay(&mut self, k: StencilPoint, p: Point, entries: &[Option<f64>])
        ensures { all_rows self.new ≡ laid_rows k p entries.now (all_rows self.old) }
    {
        let found = likelihood::first_gap(entries);
        match k {
            StencilPoint::Nominal => {
                likelihood::lay_drops(&mut self.predicted, entries);
                self.gap = found;
                return;
            }
            StencilPoint::MvPlus => likelihood::lay_drops(&mut self.by_mv, entries),
            StencilPoint::MvMinus => {
                likelihood::lay_slopes(&mut self.by_mv, likelihood::mv_step(p.mv), entries)
            }
            StencilPoint::BcPlus => likelihood::lay_drops(&mut self.by_bc, entries),
            StencilPoint::BcMinus => {
                likelihood::lay_slopes(&mut self.by_bc, likelihood::bc_step(p.bc), entries)
            }
        }
        self.gap = likelihood::first_of(self.gap, found);
    }

    // The rows in all places.
    pub fn columns(&self) -> RowColumns<'_>
        ensures { rows_in result ≡ rows_of (all_rows self.now) }
    {
        RowColumns {
            predicted: &self.predicted,
            by_mv: &self.by_mv,
            by_bc: &self.by_bc,
        }
    }
}
