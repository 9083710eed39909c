// The page of the report that stands, under a coverage table: one more call that reads a session.
#![tactic(auto)]

ghost use Rattle.std.specs.Prelude.{◌≡◌, length};
ghost use Rattle.coverage.specs.Table.{rows_in};
ghost use Rattle.report.specs.Reading.{report_in};
ghost use Rattle.editing.specs.Meaning.{state};
ghost use Rattle.covered_report.specs.Reading.{covered_in};
ghost use Rattle.report_text.specs.Writing.{Writes};
ghost use Rattle.report_text.specs.Writer.{Wrote};
ghost use Rattle.answer_text.specs.Answers.{texts_in};
ghost use Rattle.page_text.specs.Page.{shot_line, band_line, lines_in, page_in};
ghost use Rattle.page.specs.Shown.{shown_page};

use coverage::Table;
use editing::Session;
use page_text::{Band, Shot};
use report::UncertaintyTruingReportV1;
use report_text::{Places, Writer, put_each};

// ---- the lines of the report's lists

// Kept: these two and the three lists of `answer_text` have one shape. Each has its own text, a ghost, which no closure and no parameter carries.

#[derive(Clone, Copy)]
struct Shots<'a>(&'a Session);

impl Places for Shots<'_> {
    type Item = Shot;

    ghost texts = { λ l i. texts_in shot_line (λ p. p.observations) (report_in (state l.0.now)) i };

    fn get(&self, i: usize) -> Option<Shot> {
        Some(Shot(editing::observation_result(*self.0, i)?))
    }
}

#[derive(Clone, Copy)]
struct Bands<'a> {
    session: &'a Session,
    table: &'a Table,
}

impl<'a> Places for Bands<'a> {
    type Item = Band<'a>;

    ghost texts = { λ l i. texts_in band_line (λ p. p.bands) (covered_in (rows_in l.table.now) (state l.session.now)) i };

    fn get(&self, i: usize) -> Option<Band<'a>> {
        let table = self.table;
        let band = editing::predictive_band(*self.session, i)?;
        Some(Band { band, table })
    }
}

// ---- the page

// A report by its head, its lists read from the session.
#[tactic(auto, using(crate::proofs::Laws::shown_put, page_text::proofs::Laws::by_nothing))]
fn put_shown(w: &mut Writer<'_>, s: &Session, h: UncertaintyTruingReportV1, table: &Table)
    ensures { Wrote w.old w.new (shown_page (rows_in table.now) (state s.now) h) }
{
    page_text::put_head(w, h, table);
    put_each(w, b"", h.observations, &Shots(s));
    put_each(w, b"", h.predictive_bands, &Bands { session: s, table });
    page_text::put_warnings(w, h.warnings);
}

// Where no report stands there is no page.
#[tactic(auto, using(crate::proofs::Laws::one_stands, crate::proofs::Laws::none_stands, report_text::proofs::Putting::wrote_nothing))]
pub fn write_page(w: &mut Writer<'_>, s: Session, table: &Table)
    ensures { Wrote w.old w.new (page_in (covered_in (rows_in table.now) (state s))) }
{
    match covered_report::report(s, table) {
        None => {}
        Some(h) => put_shown(w, &s, h, table),
    }
}

// The page from `at` on: the next position.
pub fn put_page(out: &mut [u8], at: usize, s: Session, table: &Table) -> usize
    ensures { Writes out.old at out.new result (page_in (covered_in (rows_in table.now) (state s))) }
{
    let mut w = Writer::new(out, at);
    write_page(&mut w, s, table);
    w.at()
}

// How many lines the page has.
pub fn lines(s: Session, table: &Table) -> usize
    ensures { result ≡ length (lines_in (covered_in (rows_in table.now) (state s))) }
{
    match covered_report::report(s, table) {
        None => 0,
        Some(h) => { 3 + h.observations + h.predictive_bands + page_text::warnings(h.warnings) }
    }
}
