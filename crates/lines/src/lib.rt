// The lines that a host writes, read word by word in bounded memory: what a line is, is one of the protocol's forms.
#![tactic(auto)]

ghost use Rattle.std.specs.Prelude.{◌≡◌, true, false, Some, None};
ghost use Rattle.std.specs.Option.{option_map, option_and_then};
ghost use Rattle.lines.specs.Lines.{with1, with2, with3, entered_of, shot_of, prior_of, distance_of, open_of, take_out_of};
ghost use Rattle.lines.specs.Reading.{word_reading, is_word, reading_or, start_of, entries_with, feed_of, fed_to, form_says, form_in, requested_in, change_in, opened_if, closed_if, take_of};

use definition::{NormalPriorV1, Point, TruingPredictionRequestV1, WeightedTruingObservationV1};
use fixed_list::{Blank, FixedList};
use words::Word;

// What a line is.
#[derive(Clone, Copy)]
pub enum Form<'a> {
    Entered(Point),
    Shot(WeightedTruingObservationV1),
    PriorSpeed(NormalPriorV1),
    PriorCoefficient(NormalPriorV1),
    Distance(TruingPredictionRequestV1),
    Open,
    Drops(&'a [Option<f64>]),
    Refused,
    PutIn(u64, TruingPredictionRequestV1),
    TakeOut(u64),
    Exchange(u64, TruingPredictionRequestV1),
    Asked,
    Page,
}

// A word, read in each way that a field can be.
#[derive(Clone, Copy)]
struct Reading {
    word: Option<Word>,
    double: Option<f64>,
    count: Option<u64>,
}

// Of a line's entries 65 are kept.
type Entries = FixedList<Option<f64>, 65>;

// The words of a line that are read so far: the first five, and those after the first as entries, where all of them are.
#[derive(Clone, Copy)]
pub struct Line {
    words: FixedList<Reading, 5>,
    entries: Option<Entries>,
}

impl Blank for Reading {
    ghost blank = { record { word = None; double = None; count = None } };

    fn blank() -> Reading {
        Reading {
            word: None,
            double: None,
            count: None,
        }
    }
}

impl Reading {
    #[tactic(auto, unfolding(crate::specs::Reading::word_reading))]
    fn of(s: &[u8]) -> Reading
        ensures { result ≡ word_reading s.now }
    {
        Reading {
            word: words::find(s),
            double: numerals::read_double(s),
            count: numerals::read_count(s),
        }
    }

    fn is(self, word: Word) -> bool
        ensures { result ≡ is_word self.word word }
    {
        self.word == Some(word)
    }

    // A double, or nothing where the word is this one.
    fn or(self, word: Word) -> Option<Option<f64>>
        ensures { result ≡ reading_or self word }
    {
        match self.double {
            Some(x) => Some(Some(x)),
            None if self.is(word) => Some(None),
            None => None,
        }
    }
}

// The entry that the word is, behind the others; none is kept from where a word is no entry.
fn with_entry(entries: &mut Option<Entries>, word: Reading)
    ensures { entries.new ≡ entries_with entries.old (reading_or word Word.Missing) }
{
    let Some(entry) = word.or(Word::Missing) else {
        *entries = None;
        return;
    };
    if let Some(entries) = entries {
        let _ = entries.try_push(entry);
    }
}

impl Line {
    pub fn new() -> Line
        ensures { result ≡ start_of }
    {
        Line {
            words: FixedList::new(),
            entries: Some(FixedList::new()),
        }
    }

    // One word more, without parentheses: whether the line may still be a form. No word of a form has more than 20 bytes. Where five words are read that are no
    // reply, a further one changes nothing.
    #[tactic(auto, unfolding(crate::specs::Reading::feed_of))]
    fn feed(&mut self, s: &[u8]) -> bool
        ensures { fed_to result self.new ≡ feed_of self.old s.now }
    {
        if s.len() > 20 {
            return false;
        }
        if self.words.len() == 5 && self.entries.is_none() {
            return true;
        }
        let word = Reading::of(s);
        if !self.words.is_empty() {
            with_entry(&mut self.entries, word);
        }
        let _ = self.words.try_push(word);
        true
    }

    // One word more, with a blank behind it. A line's first word begins with (.
    // Kept: `first` is where the word stands in its line, which the reader of the bytes knows.
    pub fn take(self, word: &[u8], first: bool) -> Option<Line>
        ensures { result ≡ take_of (Some self) word.now first false }
    {
        let mut line = Some(self);
        take_word(&mut line, word, first, false);
        line
    }

    // The last word, which ends with ).
    pub fn end(self, word: &[u8], first: bool) -> Option<Line>
        ensures { result ≡ take_of (Some self) word.now first true }
    {
        let mut line = Some(self);
        take_word(&mut line, word, first, true);
        line
    }

    // What the words that are read come to, where the line ends there.
    #[tactic(auto, unfolding(crate::specs::Reading::form_in))]
    pub fn form(&self) -> Option<Form<'_>>
        ensures { form_says result ≡ form_in self.now }
    {
        let (first, fields) = self.words.as_slice().split_first()?;
        match first.word? {
            Word::Entered => entered(fields),
            Word::Shot => shot(fields),
            Word::Prior => prior(fields),
            Word::Distance => distance(fields),
            Word::Open => open(fields),
            Word::Drops => self.entries.as_ref().map(|e| Form::Drops(e.as_slice())),
            Word::Refused if fields.is_empty() => Some(Form::Refused),
            Word::PutIn => change(fields).map(|(place, distance)| Form::PutIn(place, distance)),
            Word::TakeOut => take_out(fields),
            Word::Exchange => change(fields).map(|(place, distance)| Form::Exchange(
                place, distance,
            )),
            Word::Asked if fields.is_empty() => Some(Form::Asked),
            Word::Page if fields.is_empty() => Some(Form::Page),
            _ => None,
        }
    }
}

// One word more of the line, in place, with the parentheses that it has: the line's first word begins with (, its last ends with ).
#[tactic(auto, unfolding(crate::specs::Reading::take_of))]
pub fn take_word(line: &mut Option<Line>, word: &[u8], first: bool, last: bool)
    ensures { line.new ≡ take_of line.old word.now first last }
{
    let Some(open) = line else { return };
    let still = match bare(word, first, last) {
        Some(s) => open.feed(s),
        None => false,
    };
    if !still {
        *line = None;
    }
}

// ---- forms by the words after the first

#[tactic(auto, unfolding(crate::specs::Lines::entered_of))]
fn entered(fields: &[Reading]) -> Option<Form<'_>>
    ensures { form_says result ≡ with2 (λ a b. entered_of a.double b.double) fields.now }
{
    let [mv, bc] = fields else { return None };
    Some(Form::Entered(Point {
        mv: mv.double?,
        bc: bc.double?,
    }))
}

#[tactic(auto, unfolding(crate::specs::Lines::shot_of))]
fn shot(fields: &[Reading]) -> Option<Form<'_>>
    ensures { form_says result ≡ with3 (λ a b c. shot_of a.double b.double c.double) fields.now }
{
    let [range, drop, sigma] = fields else {
        return None
    };
    Some(Form::Shot(WeightedTruingObservationV1 {
        range_yd: range.double?,
        drop: drop.double?,
        sigma: sigma.double?,
    }))
}

#[tactic(auto, unfolding(crate::specs::Lines::prior_of))]
fn prior(fields: &[Reading]) -> Option<Form<'_>>
    ensures { form_says result ≡ with3 (λ a b c. prior_of (is_word a.word Word.Speed) (is_word a.word Word.Coefficient) b.double c.double) fields.now }
{
    let [which, mean, sigma] = fields else {
        return None
    };
    let prior = NormalPriorV1 {
        mean: mean.double?,
        sigma: sigma.double?,
    };
    match which.word? {
        Word::Speed => Some(Form::PriorSpeed(prior)),
        Word::Coefficient => Some(Form::PriorCoefficient(prior)),
        _ => None,
    }
}

fn requested(range: Reading, sigma: Reading) -> Option<TruingPredictionRequestV1>
    ensures { result ≡ requested_in range sigma }
{
    Some(TruingPredictionRequestV1 {
        range_yd: range.double?,
        future_observation_sigma: sigma.or(Word::None)?,
    })
}

#[tactic(auto, unfolding(crate::specs::Lines::distance_of))]
fn distance(fields: &[Reading]) -> Option<Form<'_>>
    ensures { form_says result ≡ with2 (λ a b. distance_of a.double (reading_or b Word.None)) fields.now }
{
    let [range, sigma] = fields else { return None };
    Some(Form::Distance(requested(*range, *sigma)?))
}

fn open(fields: &[Reading]) -> Option<Form<'_>>
    ensures { form_says result ≡ with1 (λ a. open_of (is_word a.word Word.Plain)) fields.now }
{
    let [which] = fields else { return None };
    which.is(Word::Plain).then_some(Form::Open)
}

#[tactic(auto, unfolding(crate::specs::Lines::take_out_of))]
fn take_out(fields: &[Reading]) -> Option<Form<'_>>
    ensures { form_says result ≡ with1 (λ a. take_out_of a.count) fields.now }
{
    let [place] = fields else { return None };
    Some(Form::TakeOut(place.count?))
}

// A place and what stands there in an edit.
fn change(fields: &[Reading]) -> Option<(u64, TruingPredictionRequestV1)>
    ensures { result ≡ change_in fields.now }
{
    let [place, range, sigma] = fields else {
        return None
    };
    Some((place.count?, requested(*range, *sigma)?))
}

// ---- parentheses

fn opened(word: &[u8], first: bool) -> Option<&[u8]>
    ensures { option_map (λ s. s.now) result ≡ opened_if first word.now }
{
    if first {
        word.strip_prefix(b"(")
    } else {
        Some(word)
    }
}

fn closed(word: &[u8]) -> Option<&[u8]>
    ensures { option_map (λ s. s.now) result ≡ closed_if true word.now }
{
    word.strip_suffix(b")")
}

// A word without the parentheses that it has.
fn bare(word: &[u8], first: bool, last: bool) -> Option<&[u8]>
    ensures { option_map (λ s. s.now) result ≡ option_and_then (closed_if last) (opened_if first word.now) }
{
    let word = opened(word, first)?;
    if last { closed(word) } else { Some(word) }
}
