// The objective's sum over a lent list of records, each read where it lies.
#![tactic(auto)]

ghost use Rattle.std.specs.Prelude.{◌≡◌};
ghost use Rattle.definition.specs.Likelihood.{with_shot, chi_square_of};

pub use definition::WeightedTruingObservationV1;

// A sum with the squared standardized residual of one record added.
fn with_observation(sum: f64, observation: WeightedTruingObservationV1, predicted: f64) -> f64
    ensures { result ≡ with_shot sum observation predicted }
{
    let standardized = (predicted - observation.drop) / observation.sigma;
    sum + standardized * standardized
}

// The squared standardized residuals, summed from the first, up to the end of the shorter list.
pub fn chi_square(observations: &[WeightedTruingObservationV1], predicted: &[f64]) -> f64
    ensures { result ≡ chi_square_of observations.now predicted.now }
{
    let n = observations.len().min(predicted.len());
    let mut sum = 0.0;
    for i in 0..n {
        sum = with_observation(sum, observations[i], predicted[i]);
    }
    sum
}
