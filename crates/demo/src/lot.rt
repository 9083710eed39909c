// The bundled lot: twelve shots, the entered point, a prior of the speed and three requested distances. Nobody fired the shots: each is the solver's drop with
// a made-up deviation added.
ghost use Rattle.std.specs.Prelude.{◌≡◌};

use definition::{
    NormalPriorV1, Point, TruingPredictionRequestV1, TruingPriorsV1, UncertaintyTruingRequestV1,
    WeightedTruingObservationV1,
};
use numeric::DropUnit;

// The shots' drops are the solver's at this point, in feet per second and as a coefficient.
pub const TRUE_POINT: Point = Point {
    mv: 2750.0,
    bc: 0.31,
};

// What is entered before the shots are looked at: a speed and a coefficient somewhat off.
pub const ENTERED: Point = Point {
    mv: 2700.0,
    bc: 0.29,
};

// The speed as a chronograph has it.
pub const SPEED_PRIOR: NormalPriorV1 = NormalPriorV1 {
    mean: 2735.0,
    sigma: 25.0,
};

// Distances in yards, drops in inches.
#[derive(Clone, Copy)]
pub struct Lot {
    pub shots: [WeightedTruingObservationV1; 12],
    pub requested: [TruingPredictionRequestV1; 3],
}

// A shot before its drop is known: its distance and sigma, and a deviation in place of an error of measurement.
fn shot(range_yd: f64, sigma: f64, deviation: f64) -> WeightedTruingObservationV1 {
    WeightedTruingObservationV1 {
        range_yd,
        drop: deviation,
        sigma,
    }
}

fn request(range_yd: f64, future_observation_sigma: Option<f64>) -> TruingPredictionRequestV1 {
    TruingPredictionRequestV1 {
        range_yd,
        future_observation_sigma,
    }
}

// The solver's drops with the deviation, in inches, added to each.
fn measured(deviating: [WeightedTruingObservationV1; 12]) -> [WeightedTruingObservationV1; 12] {
    let mut shots = deviating;
    for shot in shots.iter_mut() {
        let mut entry = [None];
        point_mass::fill(TRUE_POINT, DropUnit::In, &[shot.range_yd], &mut entry);
        shot.drop += entry[0].unwrap_or(0.0);
    }
    shots
}

pub(crate) fn sample() -> Lot {
    // The deviations, in inches: numbers made up for this lot, six of each sign, each below its shot's sigma.
    let deviating = [
        shot(100.0, 0.4, 0.25),
        shot(200.0, 0.6, -0.45),
        shot(250.0, 0.7, 0.3),
        shot(300.0, 0.9, 0.8),
        shot(350.0, 1.0, -0.9),
        shot(400.0, 1.2, 0.4),
        shot(450.0, 1.4, -1.1),
        shot(500.0, 1.6, 1.3),
        shot(550.0, 1.8, -0.6),
        shot(600.0, 2.0, -1.9),
        shot(650.0, 2.3, 2.1),
        shot(700.0, 2.6, -1.2),
    ];
    Lot {
        shots: measured(deviating),
        requested: [
            request(375.0, Some(1.1)),
            request(625.0, Some(2.1)),
            request(900.0, None),
        ],
    }
}

impl Lot {
    pub(crate) fn shot_ranges(&self) -> [f64; 12] {
        self.shots.map(|o| o.range_yd)
    }

    pub(crate) fn requested_ranges(&self) -> [f64; 3] {
        self.requested.map(|d| d.range_yd)
    }

    pub(crate) fn request(&self) -> UncertaintyTruingRequestV1<'_>
        ensures entered { result.entered ≡ ENTERED }
        ensures observations { result.observations.now ≡ self.now.shots }
        ensures predictions { result.predictions.now ≡ self.now.requested }
    {
        UncertaintyTruingRequestV1 {
            entered: ENTERED,
            observations: &self.shots,
            priors: TruingPriorsV1 {
                muzzle_velocity_fps: Some(SPEED_PRIOR),
                ballistic_coefficient: None,
            },
            predictions: &self.requested,
        }
    }
}
