// What a run holds but for which question is open: the request, the rows and the fit so far; and what a reply makes of it.
#![tactic(auto)]

ghost use Rattle.std.specs.Prelude.{◌≡◌, length};
ghost use Rattle.definition.specs.Meaning.{opening_in};
ghost use Rattle.stencil.specs.Stencil.{all_rows};
ghost use Rattle.lists.specs.Lists.{places_of, drops_in};
ghost use Rattle.run_body.specs.Meaning.{Prepared, laid_by, kept_by, sum_by, evaluation_by, baseline_by};

use definition::{Evaluation, Point, TruingPriorsV1, UncertaintyTruingRequestV1};
use fitting::{Progress, Stage};
use lists::{Shots, Wanted};
use phases::Lays;
use stencil::StencilRows;

#[derive(Clone, Copy)]
pub struct Body {
    pub shots: Shots,
    pub entered: Point,
    pub priors: TruingPriorsV1,
    pub wanted: Wanted,
    pub rows: StencilRows<64>,
    pub progress: Progress,
    // the predicted drops at the fit, and the drops at the entered point if there is a baseline
    pub predicted: [f64; 64],
    pub baseline: Option<[f64; 64]>,
}

// ---- the opening

// The request, and nothing of its run yet.
pub fn prepared(request: UncertaintyTruingRequestV1<'_>) -> Body
    ensures { Prepared (opening_in request.entry) result }
{
    Body {
        shots: Shots::new(request.observations),
        entered: request.entered,
        priors: request.priors,
        wanted: Wanted::new(request.predictions),
        rows: StencilRows::new(),
        progress: fitting::blank(request.entered),
        predicted: [0.0; 64],
        baseline: None,
    }
}

// ---- a reply

// The reply goes over the rows, where this is their place.
pub fn lay(rows: &mut StencilRows<64>, lays: Option<Lays>, p: Point, entries: &[Option<f64>])
    ensures { all_rows rows.new ≡ laid_by lays p entries.now (all_rows rows.old) }
{
    if let Some(Lays::Row(k)) = lays {
        rows.lay(k, p, entries);
    }
}

// The sum of the objective from a reply, where one is asked for.
pub fn reply_sum_at(
    objective: Option<Point>,
    shots: &Shots,
    priors: TruingPriorsV1,
    entries: &[Option<f64>],
) -> f64
    ensures { result ≡ sum_by objective shots.now priors (drops_in entries.now) }
{
    match objective {
        Some(q) => shots.columns().reply_sum(priors, q, entries),
        None => 0.0,
    }
}

// The same from a reply's drops.
// Kept: this and `baseline_at` are for callers that have the drops laid out (docs/DECISIONS.md 119). No crate here calls them.
pub fn sum_at(objective: Option<Point>, shots: &Shots, priors: TruingPriorsV1, drops: &[f64]) -> f64
    ensures { result ≡ sum_by objective shots.now priors drops.now }
{
    let Some(q) = objective else { return 0.0 };
    shots.columns().objective_sum(priors, q, drops)
}

// The evaluation from whole rows, else the one before.
pub fn evaluation_at(
    evaluates: Option<Stage>,
    old: Evaluation,
    priors: TruingPriorsV1,
    p: Point,
    shots: &Shots,
    rows: &StencilRows<64>,
) -> Evaluation
    ensures { result ≡ evaluation_by evaluates old priors p shots.now rows.now }
{
    match evaluates {
        Some(_) if rows.gap == 0 => shots.columns().evaluate(priors, p, rows.columns()),
        _ => old,
    }
}

// The drops at the fit are kept, where these are.
pub fn kept(evaluates: Option<Stage>, old: &mut [f64; 64], rows: &StencilRows<64>)
    ensures { old.new ≡ kept_by evaluates old.old rows.now }
{
    match evaluates {
        Some(Stage::AtFit) if rows.gap == 0 => *old = rows.predicted,
        _ => {}
    }
}

// The drops at the entered point, where these are: not with a gap, or a sum that is not finite.
pub fn reply_baseline_at(
    lays: Option<Lays>,
    old: &mut Option<[f64; 64]>,
    found: usize,
    shots: &Shots,
    entries: &[Option<f64>],
)
    ensures { old.new ≡ baseline_by lays old.old found shots.now (places_of (drops_in entries.now)) (length entries.now) }
{
    match lays {
        Some(Lays::Baseline) => {
            let drops = lists::drops_of(entries);
            let n = entries.len();
            let chi = shots.columns().chi_square(slices::first_places(&drops, n));
            let stands = (found == 0) & numeric::is_finite(chi);
            *old = if stands { Some(drops) } else { None };
        }
        _ => {}
    }
}

// The same of the first n drops, and the baseline before in place of a lent one.
pub fn baseline_at(
    lays: Option<Lays>,
    old: Option<[f64; 64]>,
    found: usize,
    shots: &Shots,
    drops: [f64; 64],
    n: usize,
) -> Option<[f64; 64]>
    ensures { result ≡ baseline_by lays old found shots.now drops n }
{
    let Some(Lays::Baseline) = lays else {
        return old
    };
    let sum = shots.columns().chi_square(slices::first_places(&drops, n));
    if (found == 0) & numeric::is_finite(sum) {
        Some(drops)
    } else {
        None
    }
}

#[cfg(test)]
mod tests {
    use super::*;
    use definition::{NormalPriorV1, WeightedTruingObservationV1};

    fn shot(range_yd: f64, drop: f64, sigma: f64) -> WeightedTruingObservationV1 {
        WeightedTruingObservationV1 {
            range_yd,
            drop,
            sigma,
        }
    }

    // Both drops are two of their sigmas away, and the speed three: 4 + 4, and 9 from the prior.
    #[test]
    fn sum_of_drops(rt: HostRuntime) {
        let shots = Shots::new(&[shot(200.0, 10.0, 2.0), shot(400.0, 20.0, 0.5)]);
        let priors = TruingPriorsV1 {
            muzzle_velocity_fps: Some(NormalPriorV1 {
                mean: 2800.0,
                sigma: 10.0,
            }),
            ballistic_coefficient: None,
        };
        let q = Point {
            mv: 2830.0,
            bc: 0.5,
        };
        assert_eq!(rt; sum_at(Some(q), &shots, priors, &[14.0, 21.0]), 17.0);
        assert_eq!(rt;
            sum_at(Some(q), &shots, priors, &[14.0]),
            13.0,
            "the second has no drop"
        );
        assert_eq!(rt; sum_at(None, &shots, priors, &[14.0, 21.0]), 0.0);
    }

    #[test]
    fn baseline_of_drops(rt: HostRuntime) {
        let shots = Shots::new(&[shot(200.0, 10.0, 2.0), shot(400.0, 20.0, 0.5)]);
        let old = Some([3.0; 64]);
        let mut drops = [0.0; 64];
        drops[0] = 14.0;
        drops[1] = 21.0;
        let entered = Some(Lays::Baseline);
        assert_eq!(rt; baseline_at(entered, old, 0, &shots, drops, 2), Some(drops));
        assert_eq!(rt;
            baseline_at(entered, old, 1, &shots, drops, 2),
            None,
            "a gap"
        );
        assert_eq!(rt; baseline_at(None, old, 0, &shots, drops, 2), old);
        let row = Some(Lays::Row(stencil::StencilPoint::Nominal));
        assert_eq!(rt; baseline_at(row, old, 0, &shots, drops, 2), old);
        drops[1] = f64::INFINITY;
        assert_eq!(rt;
            baseline_at(entered, old, 0, &shots, drops, 2),
            None,
            "no finite sum"
        );
        assert_eq!(rt; baseline_at(entered, old, 0, &shots, drops, 1), Some(drops));
    }
}
