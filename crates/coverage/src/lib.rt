// A laboratory's own coverage table, and the reader of its file: a value that takes the file's bytes in pieces, in bounded memory.
#![tactic(auto)]

ghost use Rattle.std.specs.Prelude.{◌≡◌, ◌≤◌, length, slice_index_or, MatchResult, OnOk};
ghost use Rattle.coverage.specs.Held.{held};
ghost use Rattle.coverage.specs.Rows.{built_in_row, built_in, last_row, at_row};
ghost use Rattle.coverage.specs.File.{told_of, refusal, in_range, rises, outside_of, flat_of, ranged, judged};
ghost use Rattle.coverage.specs.Reading.{longer_of, digit_after, point_after, number_after, quotient_of, value_at, stop_of, behind_of, field_after, text_after};
ghost use Rattle.coverage.specs.Reading.{next_at, rows_after, line_at, begun_of, fed_of, fed_all, form_in, Fits};

use interval::GaussianIntervalV1;
use rows::Rows;

mod rows;

// Whole numbers below 2^53 are doubles.
const WHOLE_END: u64 = 1 << 53;

// 10 to the number of the digits behind a point, where one more is the fifteenth.
const FOURTEEN_PLACES: u64 = 100_000_000_000_000;

const FIRST_LINE: &[u8] = b"(coverage\n";

// How a row begins.
const ROW_OPENING: &[u8] = b"(level ";

// A row of a coverage table: the level of an interval, and the factor of its standard deviation. The default lies in the places that hold no row.
#[derive(Clone, Copy, Default)]
pub struct CoverageRow {
    pub level: f64,
    pub factor: f64,
}

// 1 to 8 rows.
#[derive(Clone, Copy)]
pub struct Table {
    rows: Rows,
    ghost least: { 1 ≤ length (held rows) },
    ghost most: { length (held rows) ≤ 8 },
}

// Why a file is refused, with the number that is told.
#[derive(Clone, Copy, Debug, PartialEq, Eq)]
pub enum TableRefusalCode {
    // a line is not of the form
    Line = 16,
    // a row is outside its range
    Range = 17,
    // a row does not rise above the one before it
    Order = 18,
}

// The place is the number of the line, or of the row.
#[derive(Clone, Copy, Debug, PartialEq, Eq)]
pub struct TableRefusal {
    pub code: TableRefusalCode,
    pub place: usize,
}

// Kept: where the reader stands, with the level once it is read; neither case is none.
// The number of a row that is being read: its level, or its factor behind that level.
#[derive(Clone, Copy)]
enum Field {
    Level,
    Factor(f64),
}

// What is read of a number: nothing, its digits in front of the point, these and the point, or the digits on both sides, as a numerator and a denominator.
#[derive(Clone, Copy)]
enum Digits {
    Due,
    Whole(u64),
    Point(u64),
    Places(u64, u64),
}

// Where the reader stands.
#[derive(Clone, Copy)]
enum Spot {
    // so many bytes of the first line are read, or of the beginning of a row
    Head(usize),
    Opening(usize),
    Number(Field, Digits),
    // behind the ) of a row
    Closed(CoverageRow),
    // at the beginning of a line behind a row
    Start,
    // behind the ) of the table, and behind its line feed
    End,
    Done,
    // a line is not of the form, with its number
    Wrong(usize),
}

// The rows are those whose lines are read.
#[derive(Clone, Copy)]
pub struct Loader {
    spot: Spot,
    rows: Rows,
    ghost fits: { ∥ Fits (record { spot = spot; rows = held rows }) ∥₁ },
}

// ---- refusals

impl From<TableRefusalCode> for u64 {
    ghost from_gives = { λ code n. n ≡ told_of code };

    fn from(code: TableRefusalCode) -> u64 {
        code as u64
    }
}

impl TableRefusalCode {
    fn at(self, place: usize) -> TableRefusal
        ensures { result ≡ refusal self place }
    {
        TableRefusal { code: self, place }
    }
}

// ---- a table

impl CoverageRow {
    // Without a file: the old single row.
    const BUILT_IN: CoverageRow = CoverageRow {
        level: GaussianIntervalV1::LEVEL,
        factor: GaussianIntervalV1::FACTOR,
    };

    // An interval at this row.
    pub fn interval(self, g: GaussianIntervalV1) -> GaussianIntervalV1
        ensures { result ≡ at_row g self }
    {
        g.at(self.level, self.factor)
    }

    #[tactic(auto, unfolding(crate::specs::File::in_range))]
    fn in_range(&self) -> bool
        ensures { result ≡ in_range self.now }
    {
        0.0 < self.level && self.level < 1.0 && 0.0 < self.factor
    }

    #[tactic(auto, unfolding(crate::specs::File::rises))]
    fn rises(&self, next: &CoverageRow) -> bool
        ensures { result ≡ rises self.now next.now }
    {
        self.level < next.level && self.factor < next.factor
    }
}

impl Table {
    ghost use Rattle.coverage.specs.Table.{rows_in, says};

    // Without a file: the built-in row alone.
    pub fn single() -> Table
        ensures { rows_in result ≡ built_in }
    {
        let mut rows = Rows::new();
        rows.push(CoverageRow::BUILT_IN);
        Table { rows }
    }

    pub fn rows(&self) -> &[CoverageRow]
        ensures { result.now ≡ rows_in self.now }
    {
        self.rows.as_slice()
    }

    // A row, counted from 0; behind the last the built-in one.
    pub fn row(&self, k: usize) -> CoverageRow
        ensures { result ≡ slice_index_or (rows_in self.now) k built_in_row }
    {
        self.rows().get(k).copied().unwrap_or(CoverageRow::BUILT_IN)
    }

    pub fn last(&self) -> CoverageRow
        ensures { result ≡ last_row (rows_in self.now) }
    {
        let n = self.rows().len();
        self.row(n - 1)
    }

    // The place of the first row outside its range.
    fn outside(&self) -> Option<usize>
        ensures { result ≡ outside_of (rows_in self.now) }
    {
        self.rows().iter().position(|r| !r.in_range())
    }

    // The place of the first row above which the next one does not rise.
    fn flat(&self) -> Option<usize>
        ensures { result ≡ flat_of (rows_in self.now) }
    {
        let rows = self.rows();
        rows.iter()
            .zip(rows.iter().skip(1))
            .position(|(r, next)| !r.rises(next))
    }

    // The table, or the first refusal of its rows.
    fn judged(self) -> Result<Table, TableRefusal>
        ensures { says result ≡ ranged (rows_in self) (outside_of (rows_in self)) }
    {
        if let Some(i) = self.outside() {
            return Err(TableRefusalCode::Range.at(i + 1));
        }
        if let Some(i) = self.flat() {
            return Err(TableRefusalCode::Order.at(i + 2));
        }
        Ok(self)
    }
}

// ---- a number

// One division of two whole numbers below 2^53 is the nearest double.
#[tactic(auto, unfolding(crate::specs::Reading::quotient_of))]
fn quotient(n: u64, d: u64) -> f64
    ensures { result ≡ quotient_of n d }
{
    std::num::nearest_u64_to_f64(n) / std::num::nearest_u64_to_f64(d)
}

// A number with one digit more.
#[tactic(auto, unfolding(crate::specs::Reading::longer_of))]
fn longer(n: u64, digit: u8) -> Option<u64>
    ensures { result ≡ longer_of n digit }
{
    let sum = n.checked_mul(10)?.checked_add(u64::from(digit))?;
    if sum < WHOLE_END { Some(sum) } else { None }
}

impl Digits {
    fn digit(self, digit: u8) -> Option<Digits>
        ensures { result ≡ digit_after self digit }
    {
        match self {
            Digits::Due => longer(0, digit).map(Digits::Whole),
            Digits::Whole(n) => longer(n, digit).map(Digits::Whole),
            Digits::Point(n) => longer(n, digit).map(|m| Digits::Places(m, 10)),
            Digits::Places(_, d) if d > FOURTEEN_PLACES => None,
            Digits::Places(n, d) => longer(n, digit).map(|m| Digits::Places(m, d * 10)),
        }
    }

    fn point(self) -> Option<Digits>
        ensures { result ≡ point_after self }
    {
        match self {
            Digits::Whole(n) => Some(Digits::Point(n)),
            _ => None,
        }
    }

    // With one byte more, where a number may go on so.
    #[tactic(auto, unfolding(crate::specs::Reading::number_after))]
    fn next(self, c: u8) -> Option<Digits>
        ensures { result ≡ number_after self c }
    {
        match c {
            b'0'..=b'9' => self.digit(c - b'0'),
            b'.' => self.point(),
            _ => None,
        }
    }

    // The double, where a number may end.
    #[tactic(auto, unfolding(crate::specs::Reading::value_at))]
    fn value(self) -> Option<f64>
        ensures { result ≡ value_at self }
    {
        match self {
            Digits::Whole(n) => Some(quotient(n, 1)),
            Digits::Places(n, d) => Some(quotient(n, d)),
            Digits::Due | Digits::Point(_) => None,
        }
    }
}

// ---- the reader of a file

impl Field {
    // The byte behind its number.
    fn stop(self) -> u8
        ensures { result ≡ stop_of self }
    {
        match self {
            Field::Level => b' ',
            Field::Factor(_) => b')',
        }
    }

    // Where the reader stands behind that byte.
    fn behind(self, x: f64) -> Spot
        ensures { result ≡ behind_of self x }
    {
        match self {
            Field::Level => Spot::Number(Field::Factor(x), Digits::Due),
            Field::Factor(level) => Spot::Closed(CoverageRow { level, factor: x }),
        }
    }

    #[tactic(auto, unfolding(crate::specs::Reading::field_after))]
    fn next(self, digits: Digits, c: u8) -> Option<Spot>
        ensures { result ≡ field_after self digits c }
    {
        if c == self.stop() {
            return digits.value().map(|x| self.behind(x));
        }
        digits.next(c).map(|more| Spot::Number(self, more))
    }
}

// How many bytes of a text are read with one more, if that is the next.
#[tactic(auto, unfolding(crate::specs::Reading::text_after))]
fn text(expected: &[u8], k: usize, c: u8) -> Option<usize>
    ensures { result ≡ text_after expected.now k c }
{
    if c == *expected.get(k)? {
        Some(k + 1)
    } else {
        None
    }
}

impl Spot {
    // Where the reader stands with one byte more, if the line may go on so. The line feed behind a row puts it among the rows.
    fn next(self, rows: &mut Rows, c: u8) -> Option<Spot>
        ensures spot { result ≡ next_at self (length (held rows.old)) c }
        ensures rows { held rows.new ≡ rows_after self (held rows.old) c }
    {
        match self {
            Spot::Head(k) => text(FIRST_LINE, k, c).map(|j| {
                if j < FIRST_LINE.len() {
                    Spot::Head(j)
                } else {
                    Spot::Opening(0)
                }
            }),
            Spot::Opening(k) => text(ROW_OPENING, k, c).map(|j| {
                if j < ROW_OPENING.len() {
                    Spot::Opening(j)
                } else {
                    Spot::Number(Field::Level, Digits::Due)
                }
            }),
            Spot::Number(field, digits) => field.next(digits, c),
            Spot::Closed(row) if c == b'\n' => {
                rows.try_push(row)?;
                Some(Spot::Start)
            }
            Spot::Start if c == b'(' => Some(Spot::Opening(1)),
            Spot::Start if c == b')' => Some(Spot::End),
            Spot::End if c == b'\n' => Some(Spot::Done),
            Spot::Closed(_) | Spot::Start | Spot::End | Spot::Done => None,
            Spot::Wrong(_) => Some(self),
        }
    }
}

impl Loader {
    ghost use Rattle.coverage.specs.Table.{standing, says};

    // Nothing is read yet.
    #[tactic(auto, unfolding(crate::specs::Reading::begun_of))]
    pub fn begin() -> Loader
        ensures { standing result ≡ begun_of }
    {
        Loader {
            spot: Spot::Head(0),
            rows: Rows::new(),
        }
    }

    // The number of the line that is being read.
    fn line(&self) -> usize
        ensures { result ≡ line_at self.now.spot (length (held self.now.rows)) }
    {
        let n = self.rows.as_slice().len();
        match self.spot {
            Spot::Head(_) => 1,
            Spot::Done => n + 3,
            _ => n + 2,
        }
    }

    // One byte more; where the line may not go on so, its number stays.
    #[tactic(auto, unfolding(crate::specs::Reading::fed_of))]
    fn take(&mut self, c: u8)
        ensures { standing self.new ≡ fed_of (standing self.old) c }
    {
        let line = self.line();
        let spot = self.spot.next(&mut self.rows, c);
        self.spot = spot.unwrap_or(Spot::Wrong(line));
    }

    // Bytes more.
    pub fn feed(&mut self, bytes: &[u8])
        ensures { standing self.new ≡ fed_all (standing self.old) bytes.now }
    {
        for c in bytes {
            self.take(*c);
        }
    }

    // Whether what was read is of the form, were it the whole file, or the number of the first line that is not.
    #[tactic(auto, unfolding(crate::specs::Reading::form_in))]
    fn form(&self) -> Result<(), usize>
        ensures answer { MatchResult result (λ _. form_in (standing self.now) ≡ Ok (held self.now.rows)) (λ k. form_in (standing self.now) ≡ Err k) }
        ensures least { OnOk result (1 ≤ length (held self.now.rows)) }
    {
        match self.spot {
            Spot::Done => Ok(()),
            Spot::Wrong(k) => Err(k),
            _ => Err(self.line()),
        }
    }

    // The file has ended.
    #[tactic(auto, unfolding(crate::specs::File::judged))]
    pub fn ended(self) -> Result<Table, TableRefusal>
        ensures { says result ≡ judged (form_in (standing self)) }
    {
        self.form().map_err(|k| TableRefusalCode::Line.at(k))?;
        Table { rows: self.rows }.judged()
    }
}
