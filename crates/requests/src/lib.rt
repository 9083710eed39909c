// The request that a host is making, line by line, in bounded memory: of each list the first 65 are kept.
#![tactic(auto)]

ghost use Rattle.definition.specs.Request.{Opening};
ghost use Rattle.definition.specs.Session.{says_of, Opened};
ghost use Rattle.editing.specs.Meaning.{seen};
ghost use Rattle.requests.specs.Request.{empty_request, with_shot, with_distance, with_speed, with_coefficient};
ghost use Rattle.requests.specs.Kept.{Keeps, held};
ghost use Rattle.std.specs.Prelude.{Some};

use definition::{
    NormalPriorV1, Point, TruingPredictionRequestV1, TruingPriorsV1, UncertaintyTruingRequestV1,
    WeightedTruingObservationV1,
};
use editing::Answer;
use fixed_list::FixedList;

// The request so far. Of each list the first 65 are kept: with more than 64 the opening is refused whatever they are.
#[derive(Clone, Copy)]
pub struct Request {
    entered: Point,
    observations: FixedList<WeightedTruingObservationV1, 65>,
    priors: TruingPriorsV1,
    predictions: FixedList<TruingPredictionRequestV1, 65>,
}

impl Request {
    pub fn new(entered: Point) -> Request
        ensures { Keeps result (empty_request entered) }
    {
        Request {
            entered,
            observations: FixedList::new(),
            priors: TruingPriorsV1 {
                muzzle_velocity_fps: None,
                ballistic_coefficient: None,
            },
            predictions: FixedList::new(),
        }
    }

    pub fn push_shot(&mut self, shot: WeightedTruingObservationV1)
        ensures { (o : Opening) → Keeps self.old o → Keeps self.new (with_shot o shot) }
    {
        let _ = self.observations.try_push(shot);
    }

    pub fn push_distance(&mut self, distance: TruingPredictionRequestV1)
        ensures { (o : Opening) → Keeps self.old o → Keeps self.new (with_distance o distance) }
    {
        let _ = self.predictions.try_push(distance);
    }

    pub fn set_speed_prior(&mut self, prior: NormalPriorV1)
        ensures { (o : Opening) → Keeps self.old o → Keeps self.new (with_speed o (Some prior)) }
    {
        self.priors.muzzle_velocity_fps = Some(prior);
    }

    pub fn set_coefficient_prior(&mut self, prior: NormalPriorV1)
        ensures { (o : Opening) → Keeps self.old o → Keeps self.new (with_coefficient o (Some prior)) }
    {
        self.priors.ballistic_coefficient = Some(prior);
    }

    pub fn open(&self) -> Answer
        ensures { Opened seen (held self.now) (says_of result.step) result.session }
    {
        editing::open(UncertaintyTruingRequestV1 {
            entered: self.entered,
            observations: self.observations.as_slice(),
            priors: self.priors,
            predictions: self.predictions.as_slice(),
        })
    }
}
