// A two-sided interval from a Gaussian's variance.
#![tactic(auto)]

ghost use Rattle.std.specs.Prelude.{◌≡◌};
ghost use Rattle.interval.specs.Interval.{level95, factor95, interval_of, at_level};

#[derive(Clone, Copy, PartialEq)]
pub struct GaussianIntervalV1 {
    pub estimate: f64,
    pub standard_deviation: f64,
    pub lower: f64,
    pub upper: f64,
    pub probability: f64,
}

impl GaussianIntervalV1 {
    // The probability that the interval holds, and how many standard deviations it reaches to either side.
    pub const LEVEL: f64 = 0.95;

    pub const FACTOR: f64 = 1.959963984540054;

    #[tactic(auto, unfolding(crate::specs::Interval::interval_of, crate::specs::Interval::interval_where, crate::specs::Interval::classification_of))]
    pub fn from_variance(estimate: f64, variance: f64) -> Option<Self>
        ensures { result ≡ interval_of level95 factor95 estimate variance }
    {
        if !numeric::is_finite(estimate) {
            return None;
        }
        if !numeric::is_finite(variance) {
            return None;
        }
        if variance < 0.0 {
            return None;
        }
        let standard_deviation = root::root(variance);
        let half_width = GaussianIntervalV1::FACTOR * standard_deviation;
        Some(GaussianIntervalV1 {
            estimate,
            standard_deviation,
            lower: estimate - half_width,
            upper: estimate + half_width,
            probability: GaussianIntervalV1::LEVEL,
        })
    }

    // The same estimate and standard deviation at another level.
    #[tactic(auto, unfolding(crate::specs::Interval::at_level))]
    pub fn at(self, level: f64, factor: f64) -> GaussianIntervalV1
        ensures { result ≡ at_level level factor self }
    {
        let half_width = factor * self.standard_deviation;
        GaussianIntervalV1 {
            lower: self.estimate - half_width,
            upper: self.estimate + half_width,
            probability: level,
            ..self
        }
    }
}
