//! The words of an object's text that are no numbers.

ghost use Rattle.std.specs.Prelude.{◌≡◌};
ghost use Rattle.pm_objtext.specs.Names.{keyword_text, section_text};

use pm_object::Section;

/// What a line begins with.
#[derive(Clone, Copy, Debug, PartialEq, Eq)]
pub enum Keyword {
    Header,
    Section,
    Master,
    Slave,
    Group,
    Prefer,
    Power,
    Reset,
    Shutdown,
    Config,
    Gpo,
}

/// The word that a keyword is written as.
pub fn keyword_text(keyword: Keyword) -> &'static [u8]
    ensures { result.now ≡ keyword_text keyword }
{
    match keyword {
        Keyword::Header => b"header",
        Keyword::Section => b"section",
        Keyword::Master => b"master",
        Keyword::Slave => b"slave",
        Keyword::Group => b"group",
        Keyword::Prefer => b"prefer",
        Keyword::Power => b"power",
        Keyword::Reset => b"reset",
        Keyword::Shutdown => b"shutdown",
        Keyword::Config => b"config",
        Keyword::Gpo => b"gpo",
    }
}

/// The word that a section's name is written as.
pub fn section_text(section: Section) -> &'static [u8]
    ensures { result.now ≡ section_text section }
{
    match section {
        Section::Masters => b"masters",
        Section::Slaves => b"slaves",
        Section::Prealloc => b"prealloc",
        Section::Power => b"power",
        Section::Reset => b"reset",
        Section::Shutdown => b"shutdown",
        Section::Config => b"config",
        Section::Gpo => b"gpo",
    }
}

/// All keywords.
pub static ALL_KEYWORDS: [Keyword; 11] = [
    Keyword::Header,
    Keyword::Section,
    Keyword::Master,
    Keyword::Slave,
    Keyword::Group,
    Keyword::Prefer,
    Keyword::Power,
    Keyword::Reset,
    Keyword::Shutdown,
    Keyword::Config,
    Keyword::Gpo,
];

/// All sections.
pub static ALL_SECTIONS: [Section; 8] = [
    Section::Masters,
    Section::Slaves,
    Section::Prealloc,
    Section::Power,
    Section::Reset,
    Section::Shutdown,
    Section::Config,
    Section::Gpo,
];
