// The lines of the page for the counter. An interval shows the last row of the coverage table.
#![tactic(auto)]

ghost use Rattle.std.specs.Prelude.{◌≡◌, ◌++◌, map, ◌+◌, ◌<◌, length, count_by, option_map};
ghost use Rattle.interval.specs.declared.GaussianIntervalV1.{GaussianIntervalV1};
ghost use Rattle.definition.specs.Meaning.{approximation_says};
ghost use Rattle.coverage.specs.Rows.{rows_under};
ghost use Rattle.coverage.specs.Report.{approximation_by, band_by};
ghost use Rattle.coverage.specs.Table.{rows_in};
ghost use Rattle.bands.specs.Bands.{band_says};
ghost use Rattle.warnings.specs.Warnings.{codes_of, stands_in};
ghost use Rattle.report_text.specs.Writing.{Writes};
ghost use Rattle.report_text.specs.Writer.{Wrote};
ghost use Rattle.report_text.specs.Lists.{warning_at};
ghost use Rattle.page_text.specs.Columns.{right_aligned, sign_text, fixed_text, shown_text, number_text, cell_text, row_text};
ghost use Rattle.page_text.specs.Page.{shown_row, ends_of, speed_interval, coefficient_interval, shot_line, band_line, phrase_text, warning_line, joined_lines};
ghost use Rattle.page_text.specs.Pieces.{head_text};

use bands::TruingPredictiveBandV1;
use coverage::Table;
use definition::{
    TruingApproximationV1, TruingUncertaintyWarningCodeV1, WeightedTruingObservationResultV1,
};
use interval::GaussianIntervalV1;
use report::UncertaintyTruingReportV1;
use report_text::{Places, Text, Writer};
use thousandths::Shown;
use warnings::{CODES, Warnings};

const BLANKS: [u8; 14] = [b' '; 14];

// What stands in 14 columns: nothing, a mark in place of a missing number, or a number.
#[derive(Clone, Copy)]
pub enum Cell {
    Blank,
    Mark(u8),
    Number(f64),
}

// The ends of an interval's row.
#[derive(Clone, Copy)]
pub struct Ends {
    pub lower: Cell,
    pub upper: Cell,
}

impl From<Option<GaussianIntervalV1>> for Ends {
    ghost from_gives = { λ i ends. ends ≡ ends_of i };

    fn from(i: Option<GaussianIntervalV1>) -> Ends {
        match i {
            None => Ends {
                lower: Cell::Mark(b'-'),
                upper: Cell::Mark(b'-'),
            },
            Some(g) => Ends {
                lower: Cell::Number(g.lower),
                upper: Cell::Number(g.upper),
            },
        }
    }
}

// ---- a number

fn digit(d: u64) -> u8
    requires { d < 10 }
    ensures { result ≡ 48 + d }
{
    b'0' + d as u8
}

fn put_sign(w: &mut Writer<'_>, minus: bool)
    ensures { Wrote w.old w.new (sign_text minus) }
{
    w.put_bytes(if minus { b"-" } else { b"" });
}

// So many thousandths in 14 columns.
#[tactic(auto, using(crate::proofs::Laws::fixed_put))]
fn put_fixed(w: &mut Writer<'_>, minus: bool, q: u64)
    ensures { Wrote w.old w.new (right_aligned 14 (fixed_text minus q)) }
{
    let text = numerals::write_count(q / 1000);
    let whole = text.as_slice();
    let room = BLANKS
        .len()
        .saturating_sub(usize::from(minus) + whole.len() + 4);
    w.put_bytes(&BLANKS[..room]);
    put_sign(w, minus);
    w.put_bytes(whole);
    let rest = q % 1000;
    w.put_bytes(&[
        b'.',
        digit(rest / 100),
        digit(rest / 10 % 10),
        digit(rest % 10),
    ]);
}

#[tactic(auto, unfolding(crate::specs::Columns::number_text, crate::specs::Columns::shown_text))]
fn put_thousandths(w: &mut Writer<'_>, x: f64)
    ensures { Wrote w.old w.new (number_text x) }
{
    match thousandths::show(x) {
        Shown::Hyphen => w.put_bytes(b"             -"),
        Shown::Hashes => w.put_bytes(b"##############"),
        Shown::Fixed(minus, q) => put_fixed(w, minus, q),
    }
}

impl Text for Cell {
    ghost text = { cell_text };

    #[tactic(auto, using(report_text::proofs::Putting::put_put), unfolding(crate::specs::Columns::cell_text))]
    fn put(&self, w: &mut Writer<'_>) {
        match self {
            Cell::Blank => w.put_bytes(&BLANKS),
            Cell::Mark(letter) => {
                w.put_bytes(&BLANKS[1..]);
                w.put_byte(*letter);
            }
            Cell::Number(x) => put_thousandths(w, *x),
        }
    }
}

#[tactic(auto, unfolding(crate::specs::Columns::cell_text))]
pub fn put_number(out: &mut [u8], at: usize, x: f64) -> usize
    ensures { Writes out.old at out.new result (number_text x) }
{
    report_text::write(out, at, &Cell::Number(x))
}

// ---- the lines of numbers

// The label stands in its 20 columns.
#[tactic(auto, using(crate::proofs::Laws::row_put))]
fn put_row(w: &mut Writer<'_>, label: &[u8], a: Cell, b: Cell, c: Cell)
    ensures { Wrote w.old w.new (row_text label.now a b c) }
{
    w.put_bytes(label);
    a.put(w);
    b.put(w);
    c.put(w);
    w.put_bytes(b"  \n");
}

// The row of an interval that the page uses: the last.
#[tactic(auto, using(crate::proofs::Laws::last_shown))]
fn shown(i: Option<GaussianIntervalV1>, table: &Table) -> Option<GaussianIntervalV1>
    ensures { result ≡ shown_row (option_map (rows_under (rows_in table.now)) i) }
{
    let row = table.last();
    i.map(|g| row.interval(g))
}

// A value with the ends of its interval's row.
fn put_with_ends(w: &mut Writer<'_>, label: &[u8], x: f64, i: Option<GaussianIntervalV1>)
    ensures { Wrote w.old w.new (row_text label.now (Cell.Number x) (ends_of i).lower (ends_of i).upper) }
{
    let Ends { lower, upper } = Ends::from(i);
    put_row(w, label, Cell::Number(x), lower, upper);
}

// Those of the speed's interval and of the coefficient's.
fn intervals(
    a: TruingApproximationV1,
    table: &Table,
) -> (Option<GaussianIntervalV1>, Option<GaussianIntervalV1>)
    ensures speed { result.0 ≡ shown_row (speed_interval (approximation_by (rows_under (rows_in table.now)) (approximation_says a))) }
    ensures coefficient { result.1 ≡ shown_row (coefficient_interval (approximation_by (rows_under (rows_in table.now)) (approximation_says a))) }
{
    match a {
        Ok((g, _)) => (
            shown(Some(g.muzzle_velocity_interval_95), table),
            shown(Some(g.ballistic_coefficient_interval_95), table),
        ),
        Err(_) => (None, None),
    }
}

// The lines before those of the observations: speed, coefficient, chi-square.
#[tactic(auto, using(crate::proofs::Laws::head_put), unfolding(crate::specs::Page::speed_line, crate::specs::Page::coefficient_line, crate::specs::Page::chi_square_line))]
pub fn put_head(w: &mut Writer<'_>, h: UncertaintyTruingReportV1, table: &Table)
    ensures { Wrote w.old w.new (head_text (rows_in table.now) h) }
{
    let (speed, coefficient) = intervals(h.approximation, table);
    put_with_ends(w, b"speed               ", h.map_muzzle_velocity_fps, speed);
    put_with_ends(
        w,
        b"coefficient         ",
        h.map_ballistic_coefficient,
        coefficient,
    );
    let chi_square = Cell::Number(h.diagnostics.chi_square);
    put_row(
        w,
        b"chi-square          ",
        chi_square,
        Cell::Blank,
        Cell::Blank,
    );
}

// The line of an observation.
#[derive(Clone, Copy)]
pub struct Shot(pub WeightedTruingObservationResultV1);

impl Text for Shot {
    ghost text = { λ shot. shot_line shot.0 };

    #[tactic(auto, unfolding(crate::specs::Page::shot_line))]
    fn put(&self, w: &mut Writer<'_>) {
        put_row(
            w,
            b"shot                ",
            Cell::Number(self.0.range_yd),
            Cell::Number(self.0.observed_drop),
            Cell::Number(self.0.predicted_drop),
        );
    }
}

// The line of a predictive band under a table.
#[derive(Clone, Copy)]
pub struct Band<'a> {
    pub band: TruingPredictiveBandV1,
    pub table: &'a Table,
}

impl Text for Band<'_> {
    ghost text = { λ b. band_line (band_by (rows_under (rows_in b.table.now)) (band_says b.band)) };

    #[tactic(auto, unfolding(crate::specs::Page::band_line))]
    fn put(&self, w: &mut Writer<'_>) {
        put_with_ends(
            w,
            b"distance            ",
            self.band.predicted_drop,
            shown(self.band.latent_interval_95, self.table),
        );
    }
}

// ---- the warnings

// The name of a code, cut to 24 letters, in 24 columns.
#[tactic(auto, unfolding(crate::specs::Page::phrase_text))]
fn phrase(code: TruingUncertaintyWarningCodeV1) -> &'static [u8; 24]
    ensures { result.now ≡ phrase_text code }
{
    match code {
        TruingUncertaintyWarningCodeV1::OptimizerDidNotConverge => b"OptimizerDidNotConverge ",
        TruingUncertaintyWarningCodeV1::ObjectiveMeshConvergence => b"ObjectiveMeshConvergence",
        TruingUncertaintyWarningCodeV1::WeakBcSensitivity => b"WeakBcSensitivity       ",
        TruingUncertaintyWarningCodeV1::IllConditionedData => b"IllConditionedData      ",
        TruingUncertaintyWarningCodeV1::MvPriorDominated => b"MvPriorDominated        ",
        TruingUncertaintyWarningCodeV1::BcPriorDominated => b"BcPriorDominated        ",
        TruingUncertaintyWarningCodeV1::GaussianApproximationUnavailable => {
            b"GaussianApproximationUna"
        }
        TruingUncertaintyWarningCodeV1::IntervalCrossesFitBounds => b"IntervalCrossesFitBounds",
        TruingUncertaintyWarningCodeV1::LowEffectiveDegreesOfFreedom => {
            b"LowEffectiveDegreesOfFre"
        }
        TruingUncertaintyWarningCodeV1::PredictionOutsideObservedDomain => {
            b"PredictionOutsideObserve"
        }
    }
}

// The line of a warning.
#[derive(Clone, Copy)]
pub struct Warned(pub TruingUncertaintyWarningCodeV1);

impl Text for Warned {
    ghost text = { λ warned. warning_line warned.0 };

    #[tactic(auto, using(report_text::proofs::Putting::put_put), unfolding(crate::specs::Page::warning_line))]
    fn put(&self, w: &mut Writer<'_>) {
        w.put_bytes(phrase(self.0));
        w.put_bytes(b"                                        \n");
    }
}

// Those that stand, by their codes.
#[derive(Clone, Copy)]
struct Standing(Warnings);

impl Places for Standing {
    type Item = Warned;

    ghost texts = { λ found i. warning_at warning_line found.0 i };

    fn get(&self, i: usize) -> Option<Warned> {
        let code = *CODES.get(i)?;
        self.0.stands(code).then_some(Warned(code))
    }
}

// The lines of those that stand, in the order of the codes.
#[tactic(auto, using(report_text::proofs::Listing::standing, crate::proofs::Laws::by_nothing))]
pub fn put_warnings(w: &mut Writer<'_>, found: Warnings)
    ensures { Wrote w.old w.new (joined_lines (map warning_line (codes_of found))) }
{
    report_text::put_each(w, b"", CODES.len(), &Standing(found));
}

fn count(found: Warnings) -> usize
    ensures { result ≡ count_by (stands_in found) CODES }
{
    CODES.iter().filter(|code| found.stands(**code)).count()
}

// How many stand.
#[tactic(auto, using(crate::proofs::Laws::standing_count))]
pub fn warnings(found: Warnings) -> usize
    ensures { result ≡ length (codes_of found) }
{
    count(found)
}
