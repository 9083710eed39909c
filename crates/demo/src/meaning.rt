// What an answer means, in plain words.
use crate::say;
use bands::TruingPredictiveBandV1;
use coverage::Table;
use definition::{
    Refusal, RefusalCode, Step, TruingApproximationFailureCodeV1, TruingApproximationV1,
    TruingMapConvergenceCriterionV1, TruingUncertaintyWarningCodeV1,
    WeightedTruingObservationResultV1,
};
use editing::{Answer, Session};
use report::{TruingBaselineV1, UncertaintyTruingReportV1};
use std::io;
use summary::TruingUncertaintyDiagnosticsV1;
use warnings::{CODES, Warnings};

// ---- the page

// A page has fewer bytes than there are here.
fn say_page(rt: &HostRuntime, s: Session) -> io::Result<()> {
    let mut out = [0u8; 16384];
    let end = page::put_page(&mut out, 0, s, &Table::single());
    say::first(rt, &out, end)
}

fn say_failure(rt: &HostRuntime, code: TruingApproximationFailureCodeV1) -> io::Result<()> {
    match code {
        TruingApproximationFailureCodeV1::OptimizerDidNotConverge => say::text(
            rt,
            b"the search for the best fit did not settle.\n",
        ),
        TruingApproximationFailureCodeV1::MapAtParameterBound => say::text(
            rt,
            b"the best fit lies at the edge of the speeds and coefficients that are allowed.\n",
        ),
        TruingApproximationFailureCodeV1::RankDeficientInformation => say::text(
            rt,
            b"the shots do not tell the speed and the coefficient apart.\n",
        ),
        TruingApproximationFailureCodeV1::NonFiniteInformation => say::text(
            rt,
            b"a number in the calculation grew beyond all bounds.\n",
        ),
    }
}

fn say_approximation(rt: &HostRuntime, a: TruingApproximationV1) -> io::Result<()> {
    match a {
        Ok(_) => Ok(()),
        Err(code) => {
            say::text(rt, b"There are no 95 % intervals: ")?;
            say_failure(rt, code)
        }
    }
}

// ---- the fit

fn say_how(rt: &HostRuntime, criterion: TruingMapConvergenceCriterionV1) -> io::Result<()> {
    match criterion {
        TruingMapConvergenceCriterionV1::ScaledGradient => say::text(
            rt,
            b"The fit converged: at this point no small change of speed or coefficient makes it better.\n",
        ),
        TruingMapConvergenceCriterionV1::ObjectiveMesh => say::text(
            rt,
            b"The fit converged: of the points tried all around this one, none is better.\n",
        ),
    }
}

fn say_convergence(
    rt: &HostRuntime,
    criterion: Option<TruingMapConvergenceCriterionV1>,
) -> io::Result<()> {
    match criterion {
        None => say::text(rt, b"The fit did not converge.\n"),
        Some(criterion) => say_how(rt, criterion),
    }
}

fn say_reduced(rt: &HostRuntime, reduced: Option<f64>) -> io::Result<()> {
    match reduced {
        None => say::text(
            rt,
            b"There are too few shots to judge the fit by its chi-square.\n",
        ),
        Some(x) => {
            say::text(
                rt,
                b"Chi-square per degree of freedom, about 1 where the sigmas are right:\n",
            )?;
            say::text(rt, b"                    ")?;
            say::column(rt, x)?;
            say::text(rt, b"\n")
        }
    }
}

fn say_fit(rt: &HostRuntime, d: TruingUncertaintyDiagnosticsV1) -> io::Result<()> {
    say_convergence(rt, d.map_convergence_criterion)?;
    say_reduced(rt, d.reduced_chi_square)
}

// The entered point, for comparison.
fn say_baseline(rt: &HostRuntime, b: Option<TruingBaselineV1>) -> io::Result<()> {
    match b {
        None => say::text(
            rt,
            b"The solver has no flight at the entered point to compare with.\n",
        ),
        Some(g) => {
            say::text(
                rt,
                b"The entered speed and coefficient, and chi-square there:\n",
            )?;
            say::row(
                rt,
                b"entered             ",
                &[g.muzzle_velocity_fps, g.ballistic_coefficient, g.chi_square],
            )
        }
    }
}

// ---- the lists

fn say_result(rt: &HostRuntime, o: WeightedTruingObservationResultV1) -> io::Result<()> {
    say::row(
        rt,
        b"shot                ",
        &[o.range_yd, o.sigma, o.standardized_residual],
    )
}

// The interval of one more shot, where there is one.
fn say_band(rt: &HostRuntime, b: TruingPredictiveBandV1) -> io::Result<()> {
    match b.future_observation_interval_95 {
        None => Ok(()),
        Some(g) => say::row(rt, b"distance            ", &[b.range_yd, g.lower, g.upper]),
    }
}

// Each of a list that is read place by place, up to n of it.
fn say_each<T, R: Fn(usize) -> Option<T>, S: Fn(T) -> io::Result<()>>(
    n: usize,
    read: R,
    said: S,
) -> io::Result<()>
    requires reads { R.IsAlwaysCallable read }
    requires says { S.IsAlwaysCallable said }
{
    for i in 0..n {
        match read(i) {
            Some(item) => said(item)?,
            None => return Ok(()),
        }
    }
    Ok(())
}

// ---- the warnings

fn sentence(code: TruingUncertaintyWarningCodeV1) -> &'static [u8] {
    match code {
        TruingUncertaintyWarningCodeV1::OptimizerDidNotConverge => {
            b"the search for the best fit did not settle, so these numbers are not to be used."
        }
        TruingUncertaintyWarningCodeV1::ObjectiveMeshConvergence => {
            b"the slopes alone did not show the best fit; it was found by trying points around it."
        }
        TruingUncertaintyWarningCodeV1::WeakBcSensitivity => {
            b"these drops say little about the coefficient; shots from farther away would say more."
        }
        TruingUncertaintyWarningCodeV1::IllConditionedData => {
            b"the shots alone hardly tell a faster slug from one with less drag."
        }
        TruingUncertaintyWarningCodeV1::MvPriorDominated => {
            b"the speed rests mostly on the entered prior, and hardly on the shots."
        }
        TruingUncertaintyWarningCodeV1::BcPriorDominated => {
            b"the coefficient rests mostly on the entered prior, and hardly on the shots."
        }
        TruingUncertaintyWarningCodeV1::GaussianApproximationUnavailable => {
            b"there are no intervals, so nothing here says how far off the numbers may be."
        }
        TruingUncertaintyWarningCodeV1::IntervalCrossesFitBounds => {
            b"an interval reaches past the speeds or coefficients that the fit was allowed."
        }
        TruingUncertaintyWarningCodeV1::LowEffectiveDegreesOfFreedom => {
            b"there are hardly more shots than unknowns, so a bad fit would not show."
        }
        TruingUncertaintyWarningCodeV1::PredictionOutsideObservedDomain => {
            b"a requested distance lies nearer or farther than all shots; its drop is an extrapolation."
        }
    }
}

fn say_warnings(rt: &HostRuntime, found: Warnings) -> io::Result<()> {
    for code in &CODES {
        if found.stands(*code) {
            say::text(rt, b"Warning: ")?;
            say::text(rt, sentence(*code))?;
            say::text(rt, b"\n")?;
        }
    }
    Ok(())
}

// ---- the answer

// What the page says, and then in plain words what it does not.
fn say_report(rt: &HostRuntime, s: Session, r: UncertaintyTruingReportV1) -> io::Result<()> {
    say::text(
        rt,
        b"The page for the counter, in feet per second, yards and inches. After a fitted value, and after\n",
    )?;
    say::text(
        rt,
        b"the drop at a requested distance, stand the ends of its 95 % interval; a shot has its distance,\n",
    )?;
    say::text(rt, b"the measured drop and that of the fit.\n\n")?;
    say_page(rt, s)?;
    say::text(rt, b"\n")?;
    say_approximation(rt, r.approximation)?;
    say_fit(rt, r.diagnostics)?;
    say_baseline(rt, r.baseline)?;
    say::text(
        rt,
        b"\nEach shot's distance and sigma, and its residual (the fit's drop less the measured one) over it:\n",
    )?;
    say_each(
        r.observations,
        |i| editing::observation_result(s, i),
        |o| say_result(rt, o),
    )?;
    say::text(
        rt,
        b"\nThe 95 % interval of one more shot's drop, where its sigma was given:\n",
    )?;
    say_each(
        r.predictive_bands,
        |i| editing::predictive_band(s, i),
        |b| say_band(rt, b),
    )?;
    say::text(rt, b"\n")?;
    say_warnings(rt, r.warnings)
}

fn say_shown(rt: &HostRuntime, s: Session) -> io::Result<()> {
    match editing::report(s) {
        None => say::text(rt, b"No report stands.\n"),
        Some(r) => say_report(rt, s, r),
    }
}

fn say_reason(rt: &HostRuntime, code: RefusalCode) -> io::Result<()> {
    let reason: &[u8] = match code {
        RefusalCode::FaultyPoint => b"the entered speed or coefficient is out of range",
        RefusalCode::TooFewObservations => b"there are fewer than two shots",
        RefusalCode::TooManyObservations => b"there are more than 64 shots",
        RefusalCode::FaultyObservation => b"a shot has a distance, drop or sigma that cannot be",
        RefusalCode::FaultyPrior => b"a prior is out of range",
        RefusalCode::TooManyDistances => b"there are more than 64 requested distances",
        RefusalCode::FaultyDistance => b"a requested distance or its sigma cannot be",
        RefusalCode::PointRefused => b"the solver refused a point that the fit came to",
        RefusalCode::ObservationMissing => b"the solver has no drop for a shot",
        RefusalCode::ObjectiveNotFinite => b"the misfit grew beyond all bounds",
        RefusalCode::DistanceMissing => b"the solver has no drop at a requested distance",
        RefusalCode::NoQuestionOpen
        | RefusalCode::WrongEntryCount
        | RefusalCode::NoFinishedReport
        | RefusalCode::NoSuchPlace => b"the call was not due",
    };
    say::text(rt, reason)
}

fn say_refused(rt: &HostRuntime, refusal: Refusal) -> io::Result<()> {
    let number = refusal.code.number();
    let position = refusal.position;
    say::text(rt, b"There is no report, because ")?;
    say_reason(rt, refusal.code)?;
    println!(rt; " (number {number}, position {position}).")
}

pub(crate) fn say_answer(rt: &HostRuntime, a: Answer) -> io::Result<()> {
    match a.step {
        Step::Question(_, _, _) => say::text(rt, b"A question is still open.\n"),
        Step::Report => say_shown(rt, a.session),
        Step::Refused(refusal) => say_refused(rt, refusal),
    }
}
