//! What the checker answers.
ghost use Rattle.std.specs.Prelude.{◌≡◌};
ghost use Rattle.clash_check.specs.Verdicts.{IsNo};

/// The answer, and what it took.
#[derive(Clone, Copy, PartialEq, Eq)]
pub struct Checked {
    pub verdict: Verdict,
    /// How many instances were made, 2^64-1 at most: for each group those of each of its series, once, that start before its bound, and for each entry
    /// those of its two series, once where they are one, up to the first that fails; and then each single, and at most three more for each series beside it. None for a refused
    /// calendar, or a wrong text or count.
    pub made: u64,
}

/// Does the certificate hold for the calendar?
#[derive(Clone, Copy, PartialEq, Eq)]
pub enum Verdict {
    Yes,
    /// The first reason that applies.
    No(Why),
}

/// Why a certificate doesn't hold: the calendar is refused (80), the certificate's text is wrong
/// (81, `first` is its first wrong or missing line), a count isn't the calendar's (82), an entry or a group
/// doesn't hold (83, `first` and `second` are its pair or its first two series, counted from 1), a single clashes (84). Elsewhere `first`
/// and `second` are 0.
#[derive(Clone, Copy, PartialEq, Eq)]
pub struct Why {
    pub number: u8,
    pub first: u64,
    pub second: u64,
}

impl Why {
    /// The calendar is refused.
    pub const CALENDAR: u8 = 80;

    /// The certificate's text is wrong.
    pub const TEXT: u8 = 81;

    /// A count isn't the calendar's.
    pub const COUNTS: u8 = 82;

    /// An entry or a group doesn't hold.
    pub const ENTRY: u8 = 83;

    /// A single clashes with another, or with a series.
    pub const SINGLES: u8 = 84;
}

impl Checked {
    /// A no of that number that names nothing.
    pub(crate) fn no(number: u8, made: u64) -> Checked
        ensures no { IsNo number 0 0 result.verdict }
        ensures made { result.made ≡ made }
    {
        Checked::no_at(number, 0, 0, made)
    }

    /// A no of that number that names a line, or the two series of a pair.
    pub(crate) fn no_at(number: u8, first: u64, second: u64, made: u64) -> Checked
        ensures no { IsNo number first second result.verdict }
        ensures made { result.made ≡ made }
    {
        let why = Why {
            number,
            first,
            second,
        };
        Checked {
            verdict: Verdict::No(why),
            made,
        }
    }
}
