// The exports for C: each calls the function of its name in `c_api`, which says what it does, with the same clauses.
#![tactic(auto)]

ghost use Rattle.std.specs.Prelude.{◌≡◌};
ghost use Rattle.root.specs.Root.{root_of};
ghost use Rattle.c_api.specs.Desk.{priors_of, sum_outcome, inverse_outcome};

#[unsafe(no_mangle)]
pub extern "C" fn truing_root(x: f64) -> f64
    ensures { result ≡ root_of x }
{
    c_api::truing_root(x)
}

#[unsafe(no_mangle)]
pub extern "C" fn truing_objective_sum(
    speed: f64,
    coefficient: f64,
    observations: &[u8],
    replies: &[u8],
    priors: u32,
    speed_mean: f64,
    speed_sigma: f64,
    coefficient_mean: f64,
    coefficient_sigma: f64,
    out: &mut [u8],
) -> u32
    ensures value { result ≡ (sum_outcome (priors_of priors speed_mean speed_sigma coefficient_mean coefficient_sigma) (record { mv = speed; bc = coefficient }) observations.now replies.now out.old).code }
    ensures out_after { out.new ≡ (sum_outcome (priors_of priors speed_mean speed_sigma coefficient_mean coefficient_sigma) (record { mv = speed; bc = coefficient }) observations.now replies.now out.old).out }
{
    c_api::truing_objective_sum(
        speed,
        coefficient,
        observations,
        replies,
        priors,
        speed_mean,
        speed_sigma,
        coefficient_mean,
        coefficient_sigma,
        out,
    )
}

#[unsafe(no_mangle)]
pub extern "C" fn truing_inverse(a00: f64, a01: f64, a11: f64, out: &mut [u8]) -> u32
    ensures value { result ≡ (inverse_outcome (record { a00 = a00; a01 = a01; a11 = a11 }) out.old).code }
    ensures out_after { out.new ≡ (inverse_outcome (record { a00 = a00; a01 = a01; a11 = a11 }) out.old).out }
{
    c_api::truing_inverse(a00, a01, a11, out)
}
