//! An object while its text is read, line by line.

ghost use Rattle.std.specs.Prelude.{◌≡◌, ◌+◌, ◌≤◌, ◌<◌, ◌++◌, ◌^◌, false, length, Some, None, OnOk, IfOk};
ghost use Rattle.pm_objtext.specs.SoFar.{start, header_size, words_in, stage_after, with_item};
ghost use Rattle.pm_objtext.specs.Causes.{stands, repeats, lacks_masters, breaks_masters, cause_of, end_cause};
ghost use Rattle.pm_objtext.specs.Draft.{so_far, accepting, reading, finished};
ghost use Rattle.pm_objtext.specs.declared.fault.BuildError.TheVariants.{Bad};
ghost use Rattle.pm_objtext.specs.declared.stage.Stage.TheVariants.{In};
ghost use Rattle.pm_objtext.specs.Answers.{Gives, GivesInto};

use crate::fault::{BuildError, TextCause, TextFault};
use crate::groups::Groups;
use crate::item::Item;
use crate::reading::item_of;
use crate::stage::{Stage, is_single};
use crate::table::Table;
use pm_base::{List, NoMemory};
use pm_object::{
    MOST_WORDS, MasterRec, Object, Pair, PreGroup, Section, SlaveRec, has_key, is_bad_mask,
    is_bad_node,
};
use std::alloc::Global;

/// What the lines so far say. `line` is the number of the line that comes next, `size` the number
/// of the object's words so far. What may not come twice stands in tables; the masters are four at
/// most, and stand in a list.
#[derive(Drop)]
pub struct Draft {
    pub line: u32,
    pub stage: Stage,
    pub size: u32,
    pub extra: List<u32>,
    pub order: Table<Section>,
    pub masters: List<MasterRec>,
    pub slaves: Table<SlaveRec>,
    pub groups: Groups,
    pub power: Table<Pair>,
    pub reset: Table<Pair>,
    pub shutdown: Table<Pair>,
    pub base_mask: u32,
    pub overlay_mask: u32,
    pub gpo: u32,
}

impl Draft {
    /// Nothing yet.
    pub fn new(alloc: Global) -> Self
        ensures first { result.line ≡ 1 }
        ensures none { so_far result ≡ start }
    {
        Draft {
            line: 1,
            stage: Stage::Start,
            size: 0,
            extra: List::new(alloc),
            order: Table::new(alloc),
            masters: List::new(alloc),
            slaves: Table::new(alloc),
            groups: Groups::new(alloc),
            power: Table::new(alloc),
            reset: Table::new(alloc),
            shutdown: Table::new(alloc),
            base_mask: 0,
            overlay_mask: 0,
            gpo: 0,
        }
    }

    /// Whether a line is in its place: whether the section so far takes such a record. Else its cause is Place.
    fn stands(&self, item: &Item) -> bool
        ensures { result ≡ stands item.now (so_far self.now) }
    {
        let stage = self.stage;
        match item {
            Item::Empty => true,
            Item::Header(_) => stage.takes_header(),
            Item::Opens(_) => stage.takes_section(),
            Item::Master(_) => stage.is_in(Section::Masters),
            Item::Slave(_) => stage.is_in(Section::Slaves),
            Item::Group(_) => stage.is_in(Section::Prealloc),
            Item::Prefer(_) => stage.is_in(Section::Prealloc) && !self.groups.is_empty(),
            Item::Power(_) => stage.is_in(Section::Power),
            Item::Reset(_) => stage.is_in(Section::Reset),
            Item::Shutdown(_) => stage.is_in(Section::Shutdown),
            Item::Config(_, _) => stage.is_in(Section::Config) && stage.awaits_record(),
            Item::Gpo(_) => stage.is_in(Section::Gpo) && stage.awaits_record(),
        }
    }

    /// Whether a line repeats a section, or the first word of an earlier record of its section or group: Repeated.
    fn repeats(&self, item: &Item) -> bool
        ensures { result ≡ repeats item.now (so_far self.now) }
    {
        match item {
            Item::Opens(section) => self.order.has(section.identifier()),
            Item::Master(master) => has_key(self.masters.as_slice(), master.node),
            Item::Slave(slave) => self.slaves.has(slave.node),
            Item::Prefer(rec) => self.groups.has_node(rec.node),
            Item::Power(pair) => self.power.has(pair.key),
            Item::Reset(pair) => self.reset.has(pair.key),
            Item::Shutdown(pair) => self.shutdown.has(pair.key),
            Item::Empty | Item::Header(_) | Item::Group(_) | Item::Config(_, _) | Item::Gpo(_) => {
                false
            }
        }
    }

    /// Whether a section may not begin, since the masters' section isn't the first or has no master.
    fn lacks_masters(&self, section: Section) -> bool
        ensures { result ≡ lacks_masters section (so_far self.now).object }
    {
        if self.order.is_empty() {
            !section.is_same(Section::Masters)
        } else {
            self.masters.is_empty()
        }
    }

    /// Whether a line breaks a rule on masters: Master.
    fn breaks_masters(&self, item: &Item) -> bool
        ensures { result ≡ breaks_masters item.now (so_far self.now) }
    {
        match item {
            Item::Opens(section) => self.lacks_masters(*section),
            Item::Master(master) => {
                let earlier = self.masters.as_slice();
                is_bad_node(earlier, master.node) || is_bad_mask(earlier, master.mask)
            }
            _ => false,
        }
    }

    /// The cause by which a line is bad, if it is: the first of Place, Repeated, Master, Size.
    #[tactic(auto, unfolding(crate::specs::Causes::cause_of))]
    fn cause_of(&self, item: &Item) -> Option<TextCause>
        requires { self.now.size ≤ 4096 }
        ensures { result ≡ cause_of item.now (so_far self.now) }
    {
        if !self.stands(item) {
            Some(TextCause::Place)
        } else if self.repeats(item) {
            Some(TextCause::Repeated)
        } else if self.breaks_masters(item) {
            Some(TextCause::Master)
        } else if self.size + words_in(item, self.stage) > MOST_WORDS {
            Some(TextCause::Size)
        } else {
            None
        }
    }

    /// The fault of the line that is read.
    fn fault(&self, cause: TextCause) -> BuildError
        ensures { result ≡ Bad (record { line = self.now.line; cause = cause }) }
    {
        BuildError::Bad(TextFault {
            line: self.line,
            cause,
        })
    }

    /// Takes a good line into the object.
    fn place(&mut self, alloc: Global, item: Item) -> Result<(), NoMemory>
        requires { repeats item (so_far self.old) ≡ false }
        ensures said { OnOk result (so_far self.new ≡ record (so_far self.old)
            { stage = stage_after item self.old.stage; object = with_item item (so_far self.old).object }) }
        ensures line { OnOk result (self.new.line ≡ self.old.line) }
    {
        match item {
            Item::Empty => {}
            Item::Header(extra) => {
                self.stage = Stage::Header {
                    full: extra.len() == 16,
                };
                append(&mut self.extra, extra.as_slice())?;
            }
            Item::Opens(section) => {
                self.stage = opened(section, false);
                self.order.push(section)?;
            }
            Item::Master(master) => self.masters.push(master)?,
            Item::Slave(slave) => self.slaves.push(slave)?,
            Item::Group(mask) => self.groups.begin(alloc, mask)?,
            Item::Prefer(rec) => self.groups.add(rec)?,
            Item::Power(pair) => self.power.push(pair)?,
            Item::Reset(pair) => self.reset.push(pair)?,
            Item::Shutdown(pair) => self.shutdown.push(pair)?,
            Item::Config(base, overlay) => {
                self.stage = opened(Section::Config, true);
                self.base_mask = base;
                self.overlay_mask = overlay;
            }
            Item::Gpo(word) => {
                self.stage = opened(Section::Gpo, true);
                self.gpo = word;
            }
        }
        Ok(())
    }

    /// Takes a line of right form. If it is refused, the draft stays as it was.
    #[tactic(auto, unfolding(crate::specs::Draft::accepting, crate::specs::Causes::cause_of))]
    pub fn accept(&mut self, alloc: Global, item: Item) -> Result<(), BuildError>
        requires small { self.old.size ≤ 4096 }
        requires early { self.old.line + 1 < 2 ^ 32 }
        ensures next { GivesInto (so_far self.new) result (accepting self.old.line item (so_far self.old)) }
        ensures small { OnOk result (self.new.size ≤ 4096) }
        ensures line { OnOk result (self.new.line ≡ self.old.line + 1) }
    {
        if let Some(cause) = self.cause_of(&item) {
            return Err(self.fault(cause));
        }
        let words = words_in(&item, self.stage);
        self.place(alloc, item)?;
        self.size += words;
        self.line += 1;
        Ok(())
    }

    /// Takes a line. If it is refused, the answer names the line's number.
    #[tactic(auto, unfolding(crate::specs::Draft::reading, crate::specs::Draft::accepting))]
    pub fn read(&mut self, alloc: Global, line: &[u8]) -> Result<(), BuildError>
        requires small { self.old.size ≤ 4096 }
        requires early { self.old.line + 1 < 2 ^ 32 }
        ensures next { GivesInto (so_far self.new) result (reading self.old.line line.now (so_far self.old)) }
        ensures small { OnOk result (self.new.size ≤ 4096) }
        ensures line { OnOk result (self.new.line ≡ self.old.line + 1) }
    {
        let Some(item) = item_of(line) else {
            return Err(self.fault(TextCause::Form));
        };
        self.accept(alloc, item)
    }

    /// The cause by which the end of the text is bad, if it is.
    fn end_cause(&self) -> Option<TextCause>
        ensures { result ≡ end_cause (so_far self.now) }
    {
        if !self.stage.takes_section() {
            Some(TextCause::Place)
        } else if self.order.is_empty() || self.masters.is_empty() {
            Some(TextCause::Master)
        } else {
            None
        }
    }

    /// The object, if the text ends here.
    #[tactic(auto, unfolding(crate::specs::Draft::finished))]
    pub fn finish(self, alloc: Global) -> Result<Object, BuildError>
        ensures { Gives result (finished self.line (so_far self)) }
    {
        if let Some(cause) = self.end_cause() {
            let fault = self.fault(cause);
            // Dropped here, by a generic function: that is cheaper to prove.
            drop(self);
            return Err(fault);
        }
        Ok(self.into_object(alloc)?)
    }

    /// The object that the lines make.
    fn into_object(self, alloc: Global) -> Result<Object, NoMemory>
        ensures { IfOk result (λ object. object ≡ (so_far self).object) }
    {
        let (power, reset, shutdown) = pair_lists(alloc, self.power, self.reset, self.shutdown)?;
        let (order, slaves, groups) = other_lists(alloc, self.order, self.slaves, self.groups)?;
        Ok(Object {
            extra: self.extra,
            order,
            masters: self.masters,
            slaves,
            groups,
            power,
            reset,
            shutdown,
            base_mask: self.base_mask,
            overlay_mask: self.overlay_mask,
            gpo: self.gpo,
        })
    }
}

/// The tables of pairs as lists, apart from `into_object` so that few values are open at each exit.
fn pair_lists(
    alloc: Global,
    power: Table<Pair>,
    reset: Table<Pair>,
    shutdown: Table<Pair>,
) -> Result<(List<Pair>, List<Pair>, List<Pair>), NoMemory>
    ensures { IfOk result (λ lists. (lists.0 ≡ power) × (lists.1 ≡ reset) × (lists.2 ≡ shutdown)) }
{
    let power = power.into_list(alloc)?;
    let reset = reset.into_list(alloc)?;
    let shutdown = shutdown.into_list(alloc)?;
    Ok((power, reset, shutdown))
}

/// The other tables as lists, apart from `into_object` so that few values are open at each exit.
fn other_lists(
    alloc: Global,
    order: Table<Section>,
    slaves: Table<SlaveRec>,
    groups: Groups,
) -> Result<(List<Section>, List<SlaveRec>, List<PreGroup>), NoMemory>
    ensures { IfOk result (λ lists. (lists.0 ≡ order) × (lists.1 ≡ slaves) × (lists.2 ≡ groups)) }
{
    let order = order.into_list(alloc)?;
    let slaves = slaves.into_list(alloc)?;
    let groups = groups.into_list(alloc)?;
    Ok((order, slaves, groups))
}

/// The words that a header line adds to the object: the first one has three besides the extra ones.
fn header_size(stage: Stage, extra: usize) -> u32
    requires { extra ≤ 16 }
    ensures { result ≡ header_size stage extra }
{
    match stage {
        Stage::Start => 3 + extra as u32,
        Stage::Header { .. } | Stage::In { .. } => extra as u32,
    }
}

/// The words of the object that a line brings.
fn words_in(item: &Item, stage: Stage) -> u32
    ensures words { result ≡ words_in item.now stage }
    ensures few { result ≤ 19 }
{
    match item {
        Item::Empty => 0,
        Item::Header(extra) => header_size(stage, extra.len()),
        Item::Opens(section) => { if is_single(*section) { 1 } else { 2 } }
        Item::Master(_) => 5,
        Item::Slave(_) => 3,
        Item::Prefer(_) => 4,
        Item::Gpo(_) => 1,
        Item::Group(_) | Item::Power(_) | Item::Reset(_) | Item::Shutdown(_) | Item::Config(_, _) =>
            2,
    }
}

/// Puts words at the end.
fn append(list: &mut List<u32>, words: &[u32]) -> Result<(), NoMemory>
    ensures { OnOk result (list.new ≡ list.old ++ words.now) }
{
    for word in words {
        list.push(*word)?;
    }
    Ok(())
}

/// The stage within a section that has its record, or has none yet.
fn opened(section: Section, filled: bool) -> Stage
    ensures { result ≡ In section filled }
{
    Stage::In { section, filled }
}
