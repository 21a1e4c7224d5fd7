//! The words that an object is written as.

ghost use Rattle.std.specs.Prelude.{◌≡◌, ℕ, ◌<◌, ◌^◌, ◌++◌, OnOk, IfOk};
ghost use Rattle.std.specs.Prelude.{List as Sequence};
ghost use Rattle.std.specs.List.{All, flat_map};
ghost use Rattle.pm_object.specs.Grammar.{IsObject, inner_words, counted, group_words, header_words, master_words, pair_words, preset_words, section_words, slave_words, words_of};

use crate::object::{MasterRec, Object, Pair, PreGroup, PreRec, Section, SlaveRec};
use pm_base::{List, NoMemory};
use std::alloc::Global;

/// What is written as words.
trait Spell {
    ghost spelling: { Self → Sequence ℕ };

    /// Writes the words at the end.
    fn spell(&self, out: &mut List<u32>) -> Result<(), NoMemory>
        requires { All (λ w. w < 2 ^ 32) (spelling self.now) }
        ensures { OnOk result (out.new ≡ out.old ++ spelling self.now) };
}

impl Spell for MasterRec {
    ghost spelling = { master_words };

    /// Puts the five words of a master at the end.
    fn spell(&self, out: &mut List<u32>) -> Result<(), NoMemory> {
        out.push(self.node)?;
        out.push(self.mask)?;
        out.push(self.timeout)?;
        out.push(self.suspend)?;
        out.push(self.wake)
    }
}

impl Spell for SlaveRec {
    ghost spelling = { slave_words };

    /// Puts the three words of a slave record at the end.
    fn spell(&self, out: &mut List<u32>) -> Result<(), NoMemory> {
        out.push(self.node)?;
        out.push(self.flags)?;
        out.push(self.mask)
    }
}

impl Spell for PreRec {
    ghost spelling = { preset_words };

    /// Puts the four words of a preallocation record at the end.
    fn spell(&self, out: &mut List<u32>) -> Result<(), NoMemory> {
        out.push(self.node)?;
        out.push(self.flags)?;
        out.push(self.current)?;
        out.push(self.preset)
    }
}

impl Spell for Pair {
    ghost spelling = { pair_words };

    /// Puts the two words of a power, reset or shutdown record at the end.
    fn spell(&self, out: &mut List<u32>) -> Result<(), NoMemory> {
        out.push(self.key)?;
        out.push(self.mask)
    }
}

impl Spell for PreGroup {
    ghost spelling = { group_words };

    /// Puts a preallocation group at the end: its mask, the number of its records, and these.
    fn spell(&self, out: &mut List<u32>) -> Result<(), NoMemory> {
        out.push(self.mask)?;
        spell_list(&self.recs, out)
    }
}

/// Writes the number of records, and then each of them.
fn spell_list<T: Spell>(items: &List<T>, out: &mut List<u32>) -> Result<(), NoMemory>
    requires { All (λ w. w < 2 ^ 32) (counted T.spelling items.now) }
    ensures { OnOk result (out.new ≡ out.old ++ counted T.spelling items.now) }
{
    out.push(items.len() as u32)?;
    for item in items.as_slice() {
        item.spell(out)?;
    }
    Ok(())
}

/// Puts words at the end.
fn spell_words(words: &[u32], out: &mut List<u32>) -> Result<(), NoMemory>
    ensures { OnOk result (out.new ≡ out.old ++ words.now) }
{
    for word in words {
        out.push(*word)?;
    }
    Ok(())
}

/// Puts the words of a section behind its identifier at the end.
fn spell_body(object: &Object, section: Section, out: &mut List<u32>) -> Result<(), NoMemory>
    requires { All (λ w. w < 2 ^ 32) (inner_words section object.now) }
    ensures { OnOk result (out.new ≡ out.old ++ inner_words section object.now) }
{
    match section {
        Section::Masters => spell_list(&object.masters, out),
        Section::Slaves => spell_list(&object.slaves, out),
        Section::Prealloc => spell_list(&object.groups, out),
        Section::Power => spell_list(&object.power, out),
        Section::Reset => spell_list(&object.reset, out),
        Section::Shutdown => spell_list(&object.shutdown, out),
        Section::Config => spell_words(&[object.base_mask, object.overlay_mask], out),
        Section::Gpo => out.push(object.gpo),
    }
}

/// Puts a section at the end, its identifier first.
fn spell_section(object: &Object, section: Section, out: &mut List<u32>) -> Result<(), NoMemory>
    requires { All (λ w. w < 2 ^ 32) (section_words object.now section) }
    ensures { OnOk result (out.new ≡ out.old ++ section_words object.now section) }
{
    out.push(section.identifier())?;
    spell_body(object, section, out)
}

/// Puts the sections at the end, in the object's order.
fn spell_sections(object: &Object, out: &mut List<u32>) -> Result<(), NoMemory>
    requires { All (λ w. w < 2 ^ 32) (flat_map (section_words object.now) object.now.order) }
    ensures { OnOk result (out.new ≡ out.old ++ flat_map (section_words object.now) object.now.order) }
{
    for section in object.order.as_slice() {
        spell_section(object, *section, out)?;
    }
    Ok(())
}

/// Puts the header at the end: how many words follow in it, the number of sections, the type 1, and the extra words.
fn spell_header(object: &Object, out: &mut List<u32>) -> Result<(), NoMemory>
    requires { All (λ w. w < 2 ^ 32) (header_words object.now) }
    ensures { OnOk result (out.new ≡ out.old ++ header_words object.now) }
{
    out.push(2 + object.extra.len() as u32)?;
    out.push(object.order.len() as u32)?;
    out.push(1)?;
    spell_words(object.extra.as_slice(), out)
}

/// The words of an object: its header, and its sections in their order.
pub fn words_of_object(alloc: Global, object: &Object) -> Result<List<u32>, NoMemory>
    requires { All (λ w. w < 2 ^ 32) (words_of object.now) }
    ensures { IfOk result (λ words. words ≡ words_of object.now) }
{
    let mut words = List::new(alloc);
    spell_header(object, &mut words)?;
    spell_sections(object, &mut words)?;
    Ok(words)
}
