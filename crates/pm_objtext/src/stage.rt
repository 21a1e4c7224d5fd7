//! What is open while the text of an object is read.

ghost use Rattle.std.specs.Prelude.{◌≡◌};
ghost use Rattle.pm_objtext.specs.Stage.{is_single, awaits_record, takes_header, takes_section, is_in};

use pm_object::Section;

/// Where in a text the next line stands.
#[derive(Clone, Copy, Debug, PartialEq, Eq)]
pub enum Stage {
    /// Before the header.
    Start,
    /// After a header line, which has 16 extra words if it is full.
    Header { full: bool },
    /// In a section. One that has exactly one record is filled once it is there.
    In { section: Section, filled: bool },
}

/// Whether a section has exactly one record.
pub fn is_single(section: Section) -> bool
    ensures { result ≡ is_single section }
{
    section.is_same(Section::Config) || section.is_same(Section::Gpo)
}

impl Stage {
    /// Whether the open section still has to have its one record.
    pub fn awaits_record(self) -> bool
        ensures { result ≡ awaits_record self }
    {
        match self {
            Stage::Start | Stage::Header { .. } => false,
            Stage::In { section, filled } => is_single(section) && !filled,
        }
    }

    /// Whether a header line may come here.
    pub fn takes_header(self) -> bool
        ensures { result ≡ takes_header self }
    {
        match self {
            Stage::Start => true,
            Stage::Header { full } => full,
            Stage::In { .. } => false,
        }
    }

    /// Whether a section may begin here, or the text end.
    pub fn takes_section(self) -> bool
        ensures { result ≡ takes_section self }
    {
        match self {
            Stage::Start => false,
            Stage::Header { .. } => true,
            Stage::In { section, filled } => !(is_single(section) && !filled),
        }
    }

    /// Whether a section is open.
    pub fn is_in(self, section: Section) -> bool
        ensures { result ≡ is_in section self }
    {
        match self {
            Stage::Start | Stage::Header { .. } => false,
            Stage::In { section: open, .. } => open.is_same(section),
        }
    }
}
