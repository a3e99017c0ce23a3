#![tactic(auto)]

// The words that every promise is written with stand in specs/, their laws in proofs/. Here stands what a call answers in place of a value.
ghost use Rattle.std.specs.Prelude.{◌≡◌};
ghost use Rattle.paper.specs.Refusal.{number};

// What is wrong with what a call was given: document 01, "Refusal numbers", each with its number.
#[derive(Clone, Copy, Debug, PartialEq, Eq)]
pub enum Refusal {
    VarintPastEnd = 1,
    VarintTooLong = 2,
    EntryPastEnd = 3,
    NoKind = 4,
    WrongKind = 5,
    EntryCutShort = 6,
    ValueCutShort = 7,
    NotUtf8 = 8,
    UnknownTag = 9,
    BytesLeftOver = 10,
    BadPage = 11,
    AboveCount = 12,
    AlreadyPresent = 13,
    DoesNotFit = 14,
    BadValueList = 15,
    OutputTooShort = 16,
    NothingToChain = 17,
    TooFewPages = 18,
    UnusablePage = 19,
    PageBeyondStore = 20,
    WrongPageType = 21,
    PayloadTooLong = 22,
    ChainNeverEnds = 23,
    ChainLengthDiffers = 24,
    WrongSize = 25,
    NotOneEntry = 26,
    NullInValue = 27,
}

impl Refusal {
    // No `From`: so the clause is the plain equation.
    pub fn number(self) -> u8
        ensures { result ≡ number self }
    {
        self as u8
    }
}
