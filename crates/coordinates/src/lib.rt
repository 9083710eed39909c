// The two coordinates of a fit, speed and coefficient: their scales, and a point within their bounds.
#![tactic(auto)]

ghost use Rattle.std.specs.Prelude.{◌≡◌};
ghost use Rattle.definition.specs.Mesh.{bounded_of};

use definition::Point;

pub const MV_COORDINATE_SCALE_FPS: f64 = 100.0;

pub const BC_COORDINATE_SCALE: f64 = 0.1;

// A point within the bounds of the fit.
#[tactic(auto, unfolding(definition::specs::Mesh::bounded_of))]
pub fn bounded(mv: f64, bc: f64) -> Point
    ensures { result ≡ bounded_of mv bc }
{
    let mv = numeric::clamp(mv, criteria::TRUING_MV_MIN_FPS, criteria::TRUING_MV_MAX_FPS);
    let bc = numeric::clamp(bc, criteria::TRUING_BC_MIN, criteria::TRUING_BC_MAX);
    Point { mv, bc }
}
