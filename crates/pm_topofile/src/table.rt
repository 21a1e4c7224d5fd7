//! The forms of the lines of a topology's text.

ghost use Rattle.std.specs.Prelude.{◌≡◌};
ghost use Rattle.pm_topofile.specs.Table.{keyword_text, least_words, most_words};

/// What a line begins with.
#[derive(Clone, Copy, Debug, PartialEq, Eq)]
pub enum Keyword {
    Power,
    Proc,
    Slave,
    State,
    Line,
    Owner,
}

/// All keywords.
pub static ALL_KEYWORDS: [Keyword; 6] = [
    Keyword::Power,
    Keyword::Proc,
    Keyword::Slave,
    Keyword::State,
    Keyword::Line,
    Keyword::Owner,
];

/// The greatest number of a word, unless its place has a limit of its own.
pub const GREATEST: u32 = u32::MAX;

/// The greatest number of a word that is 0 or 1.
pub const GREATEST_FLAG: u32 = 1;

/// The greatest set of capabilities.
pub const GREATEST_CAPS: u32 = 7;

/// The word that a keyword is written as.
pub fn keyword_text(keyword: Keyword) -> &'static [u8]
    ensures { result.now ≡ keyword_text keyword }
{
    match keyword {
        Keyword::Power => b"power",
        Keyword::Proc => b"proc",
        Keyword::Slave => b"slave",
        Keyword::State => b"state",
        Keyword::Line => b"line",
        Keyword::Owner => b"owner",
    }
}

/// How many words a line has at least, its keyword too.
pub fn least_words(keyword: Keyword) -> usize
    ensures { result ≡ least_words keyword }
{
    match keyword {
        Keyword::Power => 6,
        Keyword::Proc | Keyword::State => 5,
        Keyword::Slave | Keyword::Line | Keyword::Owner => 3,
    }
}

/// How many words a line has at most, its keyword too.
pub fn most_words(keyword: Keyword) -> usize
    ensures { result ≡ most_words keyword }
{
    match keyword {
        Keyword::Power => 6,
        Keyword::Proc | Keyword::State => 5,
        Keyword::Slave | Keyword::Line => 3,
        Keyword::Owner => 18,
    }
}
