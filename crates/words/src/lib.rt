// The fixed words of the line protocol, those that are read and those that are written.
#![tactic(auto)]

ghost use Rattle.std.specs.Prelude.{◌≡◌, find, slice_get};
ghost use Rattle.words.specs.Words.{same, place_in, place_by, word_at, found};
ghost use Rattle.words.specs.Low.{low, with_length};

// The number of words.
pub const COUNT: usize = 43;

// In the order of the table, so that a word's number is its place.
#[derive(Clone, Copy, PartialEq, Eq)]
pub enum Word {
    Entered,
    Shot,
    Prior,
    Distance,
    Open,
    Drops,
    Refused,
    PutIn,
    TakeOut,
    Exchange,
    Asked,
    Speed,
    Coefficient,
    Plain,
    Missing,
    None,
    Yes,
    No,
    ScaledGradient,
    ObjectiveMesh,
    OptimizerDidNotConverge,
    ObjectiveMeshConvergence,
    WeakBcSensitivity,
    IllConditionedData,
    MvPriorDominated,
    BcPriorDominated,
    GaussianApproximationUnavailable,
    IntervalCrossesFitBounds,
    LowEffectiveDegreesOfFreedom,
    PredictionOutsideObservedDomain,
    MapAtParameterBound,
    RankDeficientInformation,
    NonFiniteInformation,
    Available,
    Unavailable,
    Report,
    Question,
    Shots,
    Distances,
    New,
    Declined,
    Malformed,
    Page,
}

static ALL: [Word; COUNT] = [
    Word::Entered,
    Word::Shot,
    Word::Prior,
    Word::Distance,
    Word::Open,
    Word::Drops,
    Word::Refused,
    Word::PutIn,
    Word::TakeOut,
    Word::Exchange,
    Word::Asked,
    Word::Speed,
    Word::Coefficient,
    Word::Plain,
    Word::Missing,
    Word::None,
    Word::Yes,
    Word::No,
    Word::ScaledGradient,
    Word::ObjectiveMesh,
    Word::OptimizerDidNotConverge,
    Word::ObjectiveMeshConvergence,
    Word::WeakBcSensitivity,
    Word::IllConditionedData,
    Word::MvPriorDominated,
    Word::BcPriorDominated,
    Word::GaussianApproximationUnavailable,
    Word::IntervalCrossesFitBounds,
    Word::LowEffectiveDegreesOfFreedom,
    Word::PredictionOutsideObservedDomain,
    Word::MapAtParameterBound,
    Word::RankDeficientInformation,
    Word::NonFiniteInformation,
    Word::Available,
    Word::Unavailable,
    Word::Report,
    Word::Question,
    Word::Shots,
    Word::Distances,
    Word::New,
    Word::Declined,
    Word::Malformed,
    Word::Page,
];

impl Word {
    pub fn number(self) -> usize
        ensures { result ≡ place_in self }
    {
        self as usize
    }

    // The word of that number, none past the table.
    #[tactic(auto, using(crate::proofs::Found::number_text))]
    pub fn at(k: usize) -> Option<Word>
        ensures value { result ≡ slice_get ALL k }
        ensures text { word_at (place_by result) ≡ word_at k }
    {
        nth(&ALL, k)
    }

    #[tactic(auto, unfolding(crate::specs::Words::word_at))]
    pub fn text(self) -> &'static [u8]
        ensures { result.now ≡ word_at (place_in self) }
    {
        match self {
            Word::Entered => b"entered",
            Word::Shot => b"shot",
            Word::Prior => b"prior",
            Word::Distance => b"distance",
            Word::Open => b"open",
            Word::Drops => b"drops",
            Word::Refused => b"refused",
            Word::PutIn => b"put-in",
            Word::TakeOut => b"take-out",
            Word::Exchange => b"exchange",
            Word::Asked => b"asked",
            Word::Speed => b"speed",
            Word::Coefficient => b"coefficient",
            Word::Plain => b"plain",
            Word::Missing => b"missing",
            Word::None => b"none",
            Word::Yes => b"yes",
            Word::No => b"no",
            Word::ScaledGradient => b"ScaledGradient",
            Word::ObjectiveMesh => b"ObjectiveMesh",
            Word::OptimizerDidNotConverge => b"OptimizerDidNotConverge",
            Word::ObjectiveMeshConvergence => b"ObjectiveMeshConvergence",
            Word::WeakBcSensitivity => b"WeakBcSensitivity",
            Word::IllConditionedData => b"IllConditionedData",
            Word::MvPriorDominated => b"MvPriorDominated",
            Word::BcPriorDominated => b"BcPriorDominated",
            Word::GaussianApproximationUnavailable => b"GaussianApproximationUnavailable",
            Word::IntervalCrossesFitBounds => b"IntervalCrossesFitBounds",
            Word::LowEffectiveDegreesOfFreedom => b"LowEffectiveDegreesOfFreedom",
            Word::PredictionOutsideObservedDomain => b"PredictionOutsideObservedDomain",
            Word::MapAtParameterBound => b"MapAtParameterBound",
            Word::RankDeficientInformation => b"RankDeficientInformation",
            Word::NonFiniteInformation => b"NonFiniteInformation",
            Word::Available => b"Available",
            Word::Unavailable => b"Unavailable",
            Word::Report => b"report",
            Word::Question => b"question",
            Word::Shots => b"shots",
            Word::Distances => b"distances",
            Word::New => b"new",
            Word::Declined => b"declined",
            Word::Malformed => b"malformed",
            Word::Page => b"page",
        }
    }

    #[tactic(auto, using(crate::proofs::Rule::pointwise_same))]
    fn is(self, s: &[u8]) -> bool
        ensures { result ≡ same s.now (word_at (place_in self)) }
    {
        s == self.text()
    }
}

fn nth(among: &[Word], k: usize) -> Option<Word>
    ensures { result ≡ slice_get among.now k }
{
    among.get(k).copied()
}

// Whether s begins before the letters, as numbers mostly do.
fn is_low(s: &[u8]) -> bool
    ensures { result ≡ low s.now }
{
    s.first().is_some_and(|c| *c < b':')
}

// The word that s is.
#[tactic(auto, using(crate::proofs::Found::low_found))]
pub fn find(s: &[u8]) -> Option<Word>
    ensures { result ≡ found s.now }
{
    if is_low(s) {
        return None;
    }
    search(of_length(s.len()), s)
}

// The first of these words that s is.
fn search(among: &[Word], s: &[u8]) -> Option<Word>
    ensures { result ≡ find (λ w. same s.now (word_at (place_in w))) among.now }
{
    among.iter().copied().find(|w| w.is(s))
}

// The words of n bytes, in the order of the table.
#[tactic(auto, unfolding(crate::specs::Words::word_at))]
fn of_length(n: usize) -> &'static [Word]
    ensures { result.now ≡ with_length n ALL }
{
    match n {
        2 => &[Word::No],
        3 => &[Word::Yes, Word::New],
        4 => &[Word::Shot, Word::Open, Word::None, Word::Page],
        5 => &[
            Word::Prior,
            Word::Drops,
            Word::Asked,
            Word::Speed,
            Word::Plain,
            Word::Shots,
        ],
        6 => &[Word::PutIn, Word::Report],
        7 => &[Word::Entered, Word::Refused, Word::Missing],
        8 => &[
            Word::Distance,
            Word::TakeOut,
            Word::Exchange,
            Word::Question,
            Word::Declined,
        ],
        9 => &[Word::Available, Word::Distances, Word::Malformed],
        11 => &[Word::Coefficient, Word::Unavailable],
        13 => &[Word::ObjectiveMesh],
        14 => &[Word::ScaledGradient],
        16 => &[Word::MvPriorDominated, Word::BcPriorDominated],
        17 => &[Word::WeakBcSensitivity],
        18 => &[Word::IllConditionedData],
        19 => &[Word::MapAtParameterBound],
        20 => &[Word::NonFiniteInformation],
        23 => &[Word::OptimizerDidNotConverge],
        24 => &[
            Word::ObjectiveMeshConvergence,
            Word::IntervalCrossesFitBounds,
            Word::RankDeficientInformation,
        ],
        28 => &[Word::LowEffectiveDegreesOfFreedom],
        31 => &[Word::PredictionOutsideObservedDomain],
        32 => &[Word::GaussianApproximationUnavailable],
        _ => &[],
    }
}
