//! The text of an object.

ghost use Rattle.std.specs.Prelude.{◌≡◌, ◌++◌, ◌∷◌, [], map, IfOk, OnOk};
ghost use Rattle.std.specs.List.{flat_map};
ghost use Rattle.pm_objtext.specs.declared.item.Item.TheVariants.{Opens, Master, Slave, Prefer, Power, Reset, Shutdown};
ghost use Rattle.pm_objtext.specs.Names.{keyword_text, section_text};
ghost use Rattle.pm_objtext.specs.Items.{group_items, record_items, section_items};
ghost use Rattle.pm_objtext.specs.Printing.{numbers_line, number_text, ended_line, lines_text, header_items, text_of};

use crate::names::{Keyword, keyword_text, section_text};
use itoa::Buffer;
use pm_base::NoMemory;
use pm_object::{MasterRec, Object, Pair, PreGroup, PreRec, Section, SlaveRec};
use std::alloc::Global;

/// Puts bytes at the end of the text. All functions here can want memory, and put lines at the end.
fn put(text: &mut Vec<u8>, bytes: &[u8]) -> Result<(), NoMemory>
    ensures { OnOk result (text.new.items ≡ text.old.items ++ bytes.now) }
{
    text.extend_from_slice(bytes).map_err(|_| NoMemory)
}

/// Puts a space and a decimal number.
fn put_number(text: &mut Vec<u8>, number: u32) -> Result<(), NoMemory>
    ensures { OnOk result (text.new.items ≡ text.old.items ++ number_text number) }
{
    put(text, b" ")?;
    let mut buffer = Buffer::new();
    put(text, buffer.format(number).as_bytes())
}

/// Puts numbers, each behind a space.
fn put_numbers(text: &mut Vec<u8>, numbers: &[u32]) -> Result<(), NoMemory>
    ensures { OnOk result (text.new.items ≡ text.old.items ++ flat_map number_text numbers.now) }
{
    for number in numbers {
        put_number(text, *number)?;
    }
    Ok(())
}

/// Puts a line: a keyword and numbers.
fn put_line(text: &mut Vec<u8>, keyword: Keyword, numbers: &[u32]) -> Result<(), NoMemory>
    ensures { OnOk result (text.new.items ≡ text.old.items ++ (numbers_line keyword numbers.now ++ 10 ∷ [])) }
{
    put(text, keyword_text(keyword))?;
    put_numbers(text, numbers)?;
    put(text, b"\n")
}

/// Puts the header lines, each with at most 16 extra words.
fn put_header(text: &mut Vec<u8>, extra: &[u32]) -> Result<(), NoMemory>
    ensures { OnOk result (text.new.items ≡ text.old.items ++ lines_text (header_items extra.now)) }
{
    let mut left = extra;
    'lines: while left.len() > 16 {
        put_line(text, Keyword::Header, &left[..16])?;
        left = &left[16..];
    }
    put_line(text, Keyword::Header, left)
}

/// Puts a line for each master.
fn put_masters(text: &mut Vec<u8>, masters: &[MasterRec]) -> Result<(), NoMemory>
    ensures { OnOk result (text.new.items ≡ text.old.items ++ lines_text (map Master masters.now)) }
{
    for m in masters {
        put_line(
            text,
            Keyword::Master,
            &[m.node, m.mask, m.timeout, m.suspend, m.wake],
        )?;
    }
    Ok(())
}

/// Puts a line for each slave record.
fn put_slaves(text: &mut Vec<u8>, slaves: &[SlaveRec]) -> Result<(), NoMemory>
    ensures { OnOk result (text.new.items ≡ text.old.items ++ lines_text (map Slave slaves.now)) }
{
    for s in slaves {
        put_line(text, Keyword::Slave, &[s.node, s.flags, s.mask])?;
    }
    Ok(())
}

/// Puts a line for each record of a preallocation group.
fn put_presets(text: &mut Vec<u8>, recs: &[PreRec]) -> Result<(), NoMemory>
    ensures { OnOk result (text.new.items ≡ text.old.items ++ lines_text (map Prefer recs.now)) }
{
    for rec in recs {
        put_line(
            text,
            Keyword::Prefer,
            &[rec.node, rec.flags, rec.current, rec.preset],
        )?;
    }
    Ok(())
}

/// Puts a preallocation group: its mask, then its records.
fn put_group(text: &mut Vec<u8>, group: &PreGroup) -> Result<(), NoMemory>
    ensures { OnOk result (text.new.items ≡ text.old.items ++ lines_text (group_items group.now)) }
{
    put_line(text, Keyword::Group, &[group.mask])?;
    put_presets(text, group.recs.as_slice())
}

/// Puts the preallocation groups.
fn put_groups(text: &mut Vec<u8>, groups: &[PreGroup]) -> Result<(), NoMemory>
    ensures { OnOk result (text.new.items ≡ text.old.items ++ lines_text (flat_map group_items groups.now)) }
{
    for group in groups {
        put_group(text, group)?;
    }
    Ok(())
}

/// Puts a line for each power record.
fn put_power(text: &mut Vec<u8>, pairs: &[Pair]) -> Result<(), NoMemory>
    ensures { OnOk result (text.new.items ≡ text.old.items ++ lines_text (map Power pairs.now)) }
{
    for pair in pairs {
        put_line(text, Keyword::Power, &[pair.key, pair.mask])?;
    }
    Ok(())
}

/// Puts a line for each reset record.
fn put_reset(text: &mut Vec<u8>, pairs: &[Pair]) -> Result<(), NoMemory>
    ensures { OnOk result (text.new.items ≡ text.old.items ++ lines_text (map Reset pairs.now)) }
{
    for pair in pairs {
        put_line(text, Keyword::Reset, &[pair.key, pair.mask])?;
    }
    Ok(())
}

/// Puts a line for each shutdown record.
fn put_shutdown(text: &mut Vec<u8>, pairs: &[Pair]) -> Result<(), NoMemory>
    ensures { OnOk result (text.new.items ≡ text.old.items ++ lines_text (map Shutdown pairs.now)) }
{
    for pair in pairs {
        put_line(text, Keyword::Shutdown, &[pair.key, pair.mask])?;
    }
    Ok(())
}

/// Puts the records of a section.
fn put_records(text: &mut Vec<u8>, section: Section, o: &Object) -> Result<(), NoMemory>
    ensures { OnOk result (text.new.items ≡ text.old.items ++ lines_text (record_items section o.now)) }
{
    match section {
        Section::Masters => put_masters(text, o.masters.as_slice()),
        Section::Slaves => put_slaves(text, o.slaves.as_slice()),
        Section::Prealloc => put_groups(text, o.groups.as_slice()),
        Section::Power => put_power(text, o.power.as_slice()),
        Section::Reset => put_reset(text, o.reset.as_slice()),
        Section::Shutdown => put_shutdown(text, o.shutdown.as_slice()),
        Section::Config => put_line(text, Keyword::Config, &[o.base_mask, o.overlay_mask]),
        Section::Gpo => put_line(text, Keyword::Gpo, &[o.gpo]),
    }
}

/// Puts the line that opens a section.
fn put_section_line(text: &mut Vec<u8>, section: Section) -> Result<(), NoMemory>
    ensures { OnOk result (text.new.items ≡ text.old.items ++ ended_line (Opens section)) }
{
    put(text, keyword_text(Keyword::Section))?;
    put(text, b" ")?;
    put(text, section_text(section))?;
    put(text, b"\n")
}

/// Puts a section: the line that opens it, then its records.
fn put_section(text: &mut Vec<u8>, section: Section, o: &Object) -> Result<(), NoMemory>
    ensures { OnOk result (text.new.items ≡ text.old.items ++ lines_text (section_items o.now section)) }
{
    put_section_line(text, section)?;
    put_records(text, section, o)
}

/// Puts the sections, in the object's order.
fn put_sections(text: &mut Vec<u8>, o: &Object) -> Result<(), NoMemory>
    ensures { OnOk result (text.new.items ≡ text.old.items ++ lines_text (flat_map (section_items o.now) o.now.order)) }
{
    for section in o.order.as_slice() {
        put_section(text, *section, o)?;
    }
    Ok(())
}

/// The text of an object: its header, and then its sections with their records, in the object's
/// order. Each line ends with a line feed, its words have one space between them, and its numbers
/// are decimal.
///
/// The one error is want of memory.
#[tactic(auto, unfolding(crate::specs::Printing::text_of))]
pub fn print(alloc: Global, o: &Object) -> Result<Vec<u8>, NoMemory>
    ensures { IfOk result (λ text. text.items ≡ text_of o.now) }
{
    let mut text = Vec::new(alloc);
    put_header(&mut text, o.extra.as_slice())?;
    put_sections(&mut text, o)?;
    Ok(text)
}
