//! The sections of an object.

ghost use Rattle.std.specs.Prelude.{◌≡◌};
ghost use Rattle.pm_object.specs.Grammar.{identifier, is_same};
ghost use Rattle.pm_object.specs.Reading.{GivesAt, GivesInto, counted_records, is_among, section, section_body, section_name, section_of, sections};

use crate::masters::read_masters;
use crate::object::{DecodeError, Object, ObjectCause, Section};
use crate::records::{Keyed, Record, read_list};
use crate::words::{Words, fault};
use pm_base::List;
use std::alloc::Global;

impl Section {
    /// The word that the section begins with.
    pub fn identifier(self) -> u32
        ensures { result ≡ identifier self }
    {
        match self {
            Section::Masters => 0x101,
            Section::Slaves => 0x102,
            Section::Prealloc => 0x103,
            Section::Power => 0x104,
            Section::Reset => 0x105,
            Section::Shutdown => 0x106,
            Section::Config => 0x107,
            Section::Gpo => 0x108,
        }
    }

    /// Whether it is the same section.
    pub fn is_same(self, other: Section) -> bool
        ensures { result ≡ is_same self other }
    {
        self.identifier() == other.identifier()
    }

    /// The section that begins with this word, if there is one.
    pub fn with_identifier(word: u32) -> Option<Section>
        ensures { result ≡ section_of word }
    {
        match word {
            0x101 => Some(Section::Masters),
            0x102 => Some(Section::Slaves),
            0x103 => Some(Section::Prealloc),
            0x104 => Some(Section::Power),
            0x105 => Some(Section::Reset),
            0x106 => Some(Section::Shutdown),
            0x107 => Some(Section::Config),
            0x108 => Some(Section::Gpo),
            _ => None,
        }
    }
}

impl Keyed for Section {
    ghost key_of = { identifier };

    /// The section's identifier, which no other section has.
    fn key(&self) -> u32 {
        self.identifier()
    }
}

/// Whether the section is one of these.
pub fn has_section(order: &[Section], section: Section) -> bool
    ensures { result ≡ is_among section order.now }
{
    order.iter().any(|earlier| earlier.is_same(section))
}

/// Reads the identifier of a section after those of `order`. The masters come first, and no section
/// comes twice.
#[tactic(auto, unfolding(crate::specs::Reading::section_name))]
fn read_name(order: &[Section], words: &mut Words) -> Result<Section, DecodeError>
    ensures { GivesAt words.new result (section_name order.now words.old) }
{
    let place = words.place();
    let Some(section) = Section::with_identifier(words.next()?) else {
        return Err(fault(ObjectCause::UnknownSection, place));
    };
    if has_section(order, section) {
        return Err(fault(ObjectCause::RepeatedSection, place));
    }
    if order.is_empty() && section.identifier() != Section::Masters.identifier() {
        return Err(fault(ObjectCause::NoMasters, place));
    }
    Ok(section)
}

/// Reads a list of records, which stands in the place of another one then.
fn read_into<T: Record + Drop>(
    alloc: Global,
    list: &mut List<T>,
    words: &mut Words,
) -> Result<(), DecodeError>
    ensures { GivesInto list.new words.new result (counted_records T.one words.old) }
{
    *list = read_list(alloc, words)?;
    Ok(())
}

/// Reads the words of a section behind its identifier into the object.
#[tactic(auto, unfolding(crate::specs::Reading::section_body, crate::specs::Reading::body))]
fn read_body(
    alloc: Global,
    section: Section,
    object: &mut Object,
    words: &mut Words,
) -> Result<(), DecodeError>
    ensures { GivesInto object.new words.new result (section_body section object.old words.old) }
{
    match section {
        Section::Masters => object.masters = read_masters(alloc, words)?,
        Section::Slaves => read_into(alloc, &mut object.slaves, words)?,
        Section::Prealloc => read_into(alloc, &mut object.groups, words)?,
        Section::Power => read_into(alloc, &mut object.power, words)?,
        Section::Reset => read_into(alloc, &mut object.reset, words)?,
        Section::Shutdown => read_into(alloc, &mut object.shutdown, words)?,
        Section::Config => {
            object.base_mask = words.next()?;
            object.overlay_mask = words.next()?;
        }
        Section::Gpo => object.gpo = words.next()?,
    }
    Ok(())
}

/// Reads a section, its identifier first, into the object. UnknownSection and RepeatedSection come at the identifier.
#[tactic(auto, unfolding(crate::specs::Reading::section))]
fn read_section(alloc: Global, object: &mut Object, words: &mut Words) -> Result<(), DecodeError>
    ensures { GivesInto object.new words.new result (section object.old words.old) }
{
    let section = read_name(object.order.as_slice(), words)?;
    read_body(alloc, section, object, words)?;
    object.order.push(section)?;
    Ok(())
}

/// Reads so many sections into an object.
pub fn read_sections(
    alloc: Global,
    count: u32,
    object: &mut Object,
    words: &mut Words,
) -> Result<(), DecodeError>
    ensures { GivesInto object.new words.new result (sections count object.old words.old) }
{
    for _ in 0..count {
        read_section(alloc, object, words)?;
    }
    Ok(())
}
