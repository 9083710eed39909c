// The estimator's fixed limits: the fit's bounds, and which gain of the objective is material.
#![tactic(auto)]

ghost use Rattle.std.specs.Prelude.{◌≡◌};
ghost use Rattle.criteria.specs.Criteria.{material_of, at_bound_of};

// The bounds of the fit: speeds in feet per second, and coefficients.
pub const TRUING_MV_MIN_FPS: f64 = 1000.0;

pub const TRUING_MV_MAX_FPS: f64 = 5000.0;

pub const TRUING_BC_MIN: f64 = 0.05;

pub const TRUING_BC_MAX: f64 = 2.0;

const MAP_OBJECTIVE_IMPROVEMENT_TOLERANCE: f64 = 1.0e-8;

// A bound is near within this part of its range.
const BOUND_TOLERANCE: f64 = 1.0e-6;

#[tactic(auto, unfolding(crate::specs::Criteria::material_of))]
pub fn objective_improvement_is_material(current: f64, candidate: f64) -> bool
    ensures { result ≡ material_of current candidate }
{
    current - candidate > MAP_OBJECTIVE_IMPROVEMENT_TOLERANCE
}

#[tactic(auto, unfolding(crate::specs::Criteria::at_bound_of, crate::specs::Criteria::tolerance_of))]
pub fn parameter_at_bound(mv: f64, bc: f64) -> bool
    ensures { result ≡ at_bound_of mv bc }
{
    let mv_tolerance = BOUND_TOLERANCE * (TRUING_MV_MAX_FPS - TRUING_MV_MIN_FPS);
    let bc_tolerance = BOUND_TOLERANCE * (TRUING_BC_MAX - TRUING_BC_MIN);
    (mv - TRUING_MV_MIN_FPS <= mv_tolerance)
        | (TRUING_MV_MAX_FPS - mv <= mv_tolerance)
        | (bc - TRUING_BC_MIN <= bc_tolerance)
        | (TRUING_BC_MAX - bc <= bc_tolerance)
}
