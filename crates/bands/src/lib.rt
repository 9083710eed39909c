// The predictive band at one requested distance: the interval of the predicted drop, and that of a future observation.
#![tactic(auto)]

ghost use Rattle.std.specs.Prelude.{◌≡◌};
ghost use Rattle.definition.specs.Summary.{band_variance_of, latent_of, future_of, latent_with, band_of};
ghost use Rattle.definition.specs.Meaning.{approximation_says};
ghost use Rattle.bands.specs.Bands.{band_says};

use coordinates::{BC_COORDINATE_SCALE, MV_COORDINATE_SCALE_FPS};
use definition::{Row, TruingApproximationV1, TruingPredictionRequestV1};
use interval::GaussianIntervalV1;
use matrix::Symmetric2;

// A negative variance counts as 0 down to this part of its larger part, or of 1.
const VARIANCE_TOLERANCE: f64 = 1.0e-12;

#[derive(Clone, Copy)]
pub struct TruingPredictiveBandV1 {
    pub range_yd: f64,
    pub predicted_drop: f64,
    pub latent_interval_95: Option<GaussianIntervalV1>,
    pub future_observation_interval_95: Option<GaussianIntervalV1>,
}

// The variance of a predicted drop, by the scaled slopes. Rounding can make it a little negative, which counts as 0.
#[tactic(auto, unfolding(definition::specs::Summary::band_variance_of))]
fn band_variance(q: Symmetric2, g_mv: f64, g_bc: f64) -> Option<f64>
    ensures { result ≡ band_variance_of q g_mv g_bc }
{
    let mv_part = g_mv * g_mv * q.a00;
    let bc_part = g_bc * g_bc * q.a11;
    let variance = mv_part + 2.0 * g_mv * g_bc * q.a01 + bc_part;
    let larger = numeric::max(numeric::abs(mv_part), numeric::abs(bc_part));
    let tolerance = VARIANCE_TOLERANCE * numeric::max(larger, 1.0);
    if variance >= 0.0 {
        return Some(variance);
    }
    if variance >= -tolerance {
        return Some(0.0);
    }
    None
}

// The interval of the predicted drop itself.
#[tactic(auto, unfolding(definition::specs::Summary::latent_of))]
fn latent(q: Symmetric2, row: Row) -> Option<GaussianIntervalV1>
    ensures { result ≡ latent_of q row }
{
    let g_mv = row.d_drop_d_mv * MV_COORDINATE_SCALE_FPS;
    let g_bc = row.d_drop_d_bc * BC_COORDINATE_SCALE;
    let variance = band_variance(q, g_mv, g_bc)?;
    GaussianIntervalV1::from_variance(row.predicted_drop, variance)
}

fn latent_with(a: TruingApproximationV1, row: Row) -> Option<GaussianIntervalV1>
    ensures { result ≡ latent_with (approximation_says a) row }
{
    let (_, q) = a.ok()?;
    latent(q, row)
}

// For a future observation, where its sigma is given and the latent interval is there.
#[tactic(auto, unfolding(definition::specs::Summary::future_of))]
fn future(
    predicted: f64,
    latent: Option<GaussianIntervalV1>,
    sigma: Option<f64>,
) -> Option<GaussianIntervalV1>
    ensures { result ≡ future_of predicted latent sigma }
{
    let deviation = latent?.standard_deviation;
    let sigma = sigma?;
    GaussianIntervalV1::from_variance(predicted, deviation * deviation + sigma * sigma)
}

#[tactic(auto, unfolding(definition::specs::Summary::band_of))]
pub fn band(
    a: TruingApproximationV1,
    d: TruingPredictionRequestV1,
    row: Row,
) -> TruingPredictiveBandV1
    ensures { band_says result ≡ band_of (approximation_says a) d row }
{
    let latent = latent_with(a, row);
    let sigma = d.future_observation_sigma;
    TruingPredictiveBandV1 {
        range_yd: d.range_yd,
        predicted_drop: row.predicted_drop,
        latent_interval_95: latent,
        future_observation_interval_95: future(row.predicted_drop, latent, sigma),
    }
}
