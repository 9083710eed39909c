// The session's answers as lines of the protocol, under a coverage table, without their line feeds.
#![tactic(auto)]

ghost use Rattle.std.specs.Prelude.{◌≡◌};
ghost use Rattle.coverage.specs.Table.{rows_in};
ghost use Rattle.report.specs.Reading.{baseline_results, report_in};
ghost use Rattle.covered_report.specs.Reading.{covered_in};
ghost use Rattle.editing.specs.Meaning.{state};
ghost use Rattle.report_text.specs.Writing.{Writes};
ghost use Rattle.report_text.specs.Writer.{Wrote};
ghost use Rattle.report_text.specs.Texts.{or_none, result_text, band_text};
ghost use Rattle.answer_text.specs.Answers.{texts_in, entered_text, shown_text, standing_text, answer_text};

use bands::TruingPredictiveBandV1;
use coverage::Table;
use definition::{Step, WeightedTruingObservationResultV1};
use editing::{Answer, Session};
use report::{TruingBaselineV1, UncertaintyTruingReportV1};
use report_text::{First, Places, Text, Under, Writer};
use words::Word;

// ---- the lists of the report that stands

#[derive(Clone, Copy)]
struct Observations<'a>(&'a Session);

impl Places for Observations<'_> {
    type Item = WeightedTruingObservationResultV1;

    ghost texts = { λ l i. texts_in result_text (λ p. p.observations) (report_in (state l.0.now)) i };

    fn get(&self, i: usize) -> Option<WeightedTruingObservationResultV1> {
        editing::observation_result(*self.0, i)
    }
}

#[derive(Clone, Copy)]
struct BaselineResults<'a>(&'a Session);

impl Places for BaselineResults<'_> {
    type Item = WeightedTruingObservationResultV1;

    ghost texts = { λ l i. texts_in result_text baseline_results (report_in (state l.0.now)) i };

    fn get(&self, i: usize) -> Option<WeightedTruingObservationResultV1> {
        editing::baseline_result(*self.0, i)
    }
}

#[derive(Clone, Copy)]
struct Bands<'a> {
    session: &'a Session,
    table: &'a Table,
}

impl<'a> Places for Bands<'a> {
    type Item = Under<'a, TruingPredictiveBandV1>;

    ghost texts = { λ l i. texts_in band_text (λ p. p.bands) (covered_in (rows_in l.table.now) (state l.session.now)) i };

    fn get(&self, i: usize) -> Option<Under<'a, TruingPredictiveBandV1>> {
        let table = self.table;
        let it = editing::predictive_band(*self.session, i)?;
        Some(Under { table, it })
    }
}

// ---- answers

// The baseline, if there is one, with its results.
#[derive(Drop)]
struct Entered<'a> {
    baseline: Option<TruingBaselineV1>,
    results: First<BaselineResults<'a>>,
}

impl Text for Entered<'_> {
    ghost text = { λ e. or_none (entered_text e.results.n e.results.places.0.now) e.baseline };

    #[tactic(auto, using(report_text::proofs::Putting::next_field, report_text::proofs::Putting::closing), unfolding(crate::specs::Answers::entered_text, words::specs::Words::word_at))]
    fn put(&self, w: &mut Writer<'_>) {
        match self.baseline {
            None => Word::None.put(w),
            Some(b) => {
                w.open(&b.muzzle_velocity_fps);
                w.field(&b.ballistic_coefficient);
                w.field(&b.chi_square);
                w.field(&self.results);
                w.close();
            }
        }
    }
}

// A report under a table, by its head, its lists read from the session.
#[derive(Clone, Copy)]
struct Shown<'a> {
    session: &'a Session,
    table: &'a Table,
    head: UncertaintyTruingReportV1,
}

impl Text for Shown<'_> {
    ghost text = { λ r. shown_text (rows_in r.table.now) r.session.now r.head };

    #[tactic(auto, using(report_text::proofs::Putting::next_field, report_text::proofs::Putting::closing), unfolding(crate::specs::Answers::shown_text, report_text::specs::Texts::parts_text, words::specs::Words::word_at))]
    fn put(&self, w: &mut Writer<'_>) {
        let Shown {
            session,
            table,
            head,
        } = self;
        w.open(&Word::Report);
        w.field(&(head.schema_version as u64));
        w.field(&head.map_muzzle_velocity_fps);
        w.field(&head.map_ballistic_coefficient);
        w.field(&(head.iterations as u64));
        w.field(&head.converged);
        w.field(&head.priors);
        w.field(&First {
            n: head.observations,
            places: Observations(session),
        });
        w.field(&Entered {
            baseline: head.baseline,
            results: First {
                n: head.observations,
                places: BaselineResults(session),
            },
        });
        w.field(&head.diagnostics);
        w.field(&Under {
            table,
            it: head.approximation,
        });
        w.field(&First {
            n: head.predictive_bands,
            places: Bands { session, table },
        });
        w.field(&head.warnings);
        w.close();
    }
}

// The report that stands, or nothing where none does.
#[tactic(auto, using(crate::proofs::Laws::one_stands, crate::proofs::Laws::none_stands, report_text::proofs::Putting::wrote_nothing))]
fn put_report(w: &mut Writer<'_>, s: Session, table: &Table)
    ensures { Wrote w.old w.new (standing_text (covered_in (rows_in table.now) (state s))) }
{
    match covered_report::report(s, table) {
        None => {}
        Some(head) => {
            let session = &s;
            let shown = Shown {
                session,
                table,
                head,
            };
            shown.put(w);
        }
    }
}

#[tactic(auto, unfolding(crate::specs::Answers::answer_text, report_text::specs::Texts::question_text, report_text::specs::Texts::declined_text, words::specs::Words::word_at))]
pub fn write_answer(w: &mut Writer<'_>, a: Answer, table: &Table)
    ensures { Wrote w.old w.new (answer_text (rows_in table.now) a) }
{
    match a.step {
        Step::Question(mv, bc, list) => (Word::Question, list, mv, bc).put(w),
        Step::Report => put_report(w, a.session, table),
        Step::Refused(refusal) => {
            let (number, position) = (refusal.code.number(), refusal.position as u64);
            (Word::Declined, number, position).put(w);
        }
    }
}

// The answer from `at` on: the next position.
pub fn put_answer(out: &mut [u8], at: usize, a: Answer, table: &Table) -> usize
    ensures { Writes out.old at out.new result (answer_text (rows_in table.now) a) }
{
    let mut w = Writer::new(out, at);
    write_answer(&mut w, a, table);
    w.at()
}
