//! What a configuration object permits on a chip, by places (UG1137, configuration object).

ghost use Rattle.std.specs.Prelude.{◌≡◌, IfOk, map};
ghost use Rattle.pm_perms.specs.Permits.{pair_record};
ghost use Rattle.pm_grants.specs.Grants as spec;
ghost use Rattle.pm_grants.specs.Grants.{grants_of, master_masks, slave_mask};

use pm_base::{List, NoMemory, at_or};
use pm_object::{MasterRec, Object, Pair};
use pm_perms::{mask_has, slave_record};
use pm_topology::{Kind, LineDef, PowerDef, ProcDef, SlaveDef, Topology};
use std::alloc::Global;

/// The shutdown record of the power supply's domain.
const DOMAIN: u32 = 1;

/// The shutdown record of the system.
const SYSTEM: u32 = 2;

/// A master's bit in each mask, and the masks of the masters that it may suspend and wake.
#[derive(Clone, Copy, Debug, PartialEq, Eq)]
pub struct MasterMasks {
    bit: u32,
    suspend: u32,
    wake: u32,
}

/// What an object permits on a chip. For each master of the object and each slave, processor, power node and reset
/// line of the chip, by its place, it has the mask of the object's record. Each look-up takes constant time.
#[derive(Debug, Drop)]
pub struct Grants {
    masters: List<MasterMasks>,
    slaves: List<u32>,
    procs: List<u32>,
    powers: List<u32>,
    lines: List<u32>,
    domain: u32,
    system: u32,
    configure: u32,
}

impl Grants {
    /// What an object permits on a chip.
    ///
    /// # Errors
    ///
    /// `NoMemory` if there is not enough memory.
    pub fn load(alloc: Global, object: &Object, t: &Topology) -> Result<Grants, NoMemory>
        ensures { IfOk result (λ grants. grants ≡ grants_of object.now t.now) }
    {
        Ok(Grants {
            masters: masters(alloc, object.masters.as_slice())?,
            slaves: slaves(alloc, object, t.slaves.as_slice())?,
            procs: procs(alloc, object.power.as_slice(), t.procs.as_slice())?,
            powers: powers(alloc, object.power.as_slice(), t.powers.as_slice())?,
            lines: lines(alloc, object.reset.as_slice(), t.lines.as_slice())?,
            domain: mask_for(object.shutdown.as_slice(), DOMAIN),
            system: mask_for(object.shutdown.as_slice(), SYSTEM),
            configure: object.base_mask,
        })
    }

    /// Whether the master at a place may use the slave at a place.
    pub fn permits_use(&self, master: usize, slave: usize) -> bool
        ensures { result ≡ spec.permits_use self.now master slave }
    {
        self.is_within(master, at_or(self.slaves.as_slice(), slave, 0))
    }

    /// Whether the master at a place may suspend another.
    pub fn permits_suspend(&self, master: usize, other: usize) -> bool
        ensures { result ≡ spec.permits_suspend self.now master other }
    {
        self.is_within(other, self.suspend_mask(master))
    }

    /// Whether the master at a place may wake another.
    pub fn permits_wake(&self, master: usize, other: usize) -> bool
        ensures { result ≡ spec.permits_wake self.now master other }
    {
        self.is_within(other, self.wake_mask(master))
    }

    /// Whether the master at a place may force a node of a kind down: a processor or a power node.
    pub fn permits_force(&self, master: usize, kind: Kind) -> bool
        ensures { result ≡ spec.permits_force self.now master kind }
    {
        self.is_within(master, self.force_mask(kind))
    }

    /// Whether the master at a place may reset the line at a place.
    pub fn permits_reset(&self, master: usize, line: usize) -> bool
        ensures { result ≡ spec.permits_reset self.now master line }
    {
        self.is_within(master, at_or(self.lines.as_slice(), line, 0))
    }

    /// Whether the master at a place may shut down, by a subtype: itself (0) always, the power supply's domain (1)
    /// and the system (2) by the object's shutdown records.
    pub fn permits_shut(&self, master: usize, subtype: u32) -> bool
        ensures { result ≡ spec.permits_shut self.now master subtype }
    {
        if subtype == 0 {
            return self.masters.as_slice().get(master).is_some();
        }
        self.is_within(master, self.shut_mask(subtype))
    }

    /// Whether the master at a place may set the configuration.
    pub fn permits_configure(&self, master: usize) -> bool
        ensures { result ≡ spec.permits_configure self.now master }
    {
        self.is_within(master, self.configure)
    }

    /// Whether a mask has the bit of the master at a place.
    fn is_within(&self, master: usize, mask: u32) -> bool
        ensures { result ≡ spec.is_within_mask self.now master mask }
    {
        mask_has(mask, self.bit(master))
    }

    /// The bit of the master at a place (UG1137, IPI mask); 0 if there is no such master.
    fn bit(&self, master: usize) -> u32
        ensures { result ≡ spec.bit_of self.now master }
    {
        self.masters
            .as_slice()
            .get(master)
            .map_or(0, |masks| masks.bit)
    }

    /// Whom the master at a place may suspend; 0 if there is no such master.
    fn suspend_mask(&self, master: usize) -> u32
        ensures { result ≡ spec.suspend_mask self.now master }
    {
        self.masters
            .as_slice()
            .get(master)
            .map_or(0, |masks| masks.suspend)
    }

    /// Whom the master at a place may wake; 0 if there is no such master.
    fn wake_mask(&self, master: usize) -> u32
        ensures { result ≡ spec.wake_mask self.now master }
    {
        self.masters
            .as_slice()
            .get(master)
            .map_or(0, |masks| masks.wake)
    }

    /// Who may force a processor or power node down; of any other node nobody.
    fn force_mask(&self, kind: Kind) -> u32
        ensures { result ≡ spec.force_mask self.now kind }
    {
        match kind {
            Kind::Proc(p) => at_or(self.procs.as_slice(), p, 0),
            Kind::Power(w) => at_or(self.powers.as_slice(), w, 0),
            Kind::Slave(_) | Kind::Unknown => 0,
        }
    }

    /// Who may shut down by a subtype: 1 or 2, else nobody.
    fn shut_mask(&self, subtype: u32) -> u32
        ensures { result ≡ spec.shut_mask self.now subtype }
    {
        match subtype {
            DOMAIN => self.domain,
            SYSTEM => self.system,
            _ => 0,
        }
    }
}

/// The masks of the masters, in the object's order.
fn masters(alloc: Global, records: &[MasterRec]) -> Result<List<MasterMasks>, NoMemory>
    ensures { IfOk result (λ list. list ≡ map master_masks records.now) }
{
    let mut masks = List::new(alloc);
    for entry in records {
        masks.push(master_masks(entry))?;
    }
    Ok(masks)
}

/// The masks of a master: its own bit, whom it may suspend, and whom it may wake.
fn master_masks(entry: &MasterRec) -> MasterMasks
    ensures { result ≡ master_masks entry.now }
{
    MasterMasks {
        bit: entry.mask,
        suspend: entry.suspend,
        wake: entry.wake,
    }
}

/// Who may use each slave, in the topology's order.
fn slaves(alloc: Global, object: &Object, slaves: &[SlaveDef]) -> Result<List<u32>, NoMemory>
    ensures { IfOk result (λ list. list ≡ map (slave_mask object.now) slaves.now) }
{
    let mut masks = List::new(alloc);
    for slave in slaves {
        masks.push(slave_mask(object, slave))?;
    }
    Ok(masks)
}

/// The mask of the object's record of a slave, and 0 if it has none.
fn slave_mask(object: &Object, slave: &SlaveDef) -> u32
    ensures { result ≡ slave_mask object.now slave.now }
{
    slave_record(object, slave.node).map_or(0, |entry| entry.mask)
}

/// Who may force each processor down, in the topology's order.
fn procs(alloc: Global, pairs: &[Pair], procs: &[ProcDef]) -> Result<List<u32>, NoMemory>
    ensures { IfOk result (λ list. list ≡ map (λ proc. spec.mask_for pairs.now proc.node.0) procs.now) }
{
    let mut masks = List::new(alloc);
    for proc in procs {
        masks.push(mask_for(pairs, proc.node.0))?;
    }
    Ok(masks)
}

/// Who may force each power node down, in the topology's order.
fn powers(alloc: Global, pairs: &[Pair], powers: &[PowerDef]) -> Result<List<u32>, NoMemory>
    ensures { IfOk result (λ list. list ≡ map (λ power. spec.mask_for pairs.now power.node.0) powers.now) }
{
    let mut masks = List::new(alloc);
    for power in powers {
        masks.push(mask_for(pairs, power.node.0))?;
    }
    Ok(masks)
}

/// Who may reset each line, in the topology's order.
fn lines(alloc: Global, pairs: &[Pair], lines: &[LineDef]) -> Result<List<u32>, NoMemory>
    ensures { IfOk result (λ list. list ≡ map (λ line. spec.mask_for pairs.now line.line.0) lines.now) }
{
    let mut masks = List::new(alloc);
    for line in lines {
        masks.push(mask_for(pairs, line.line.0))?;
    }
    Ok(masks)
}

/// The record with a key, if there is one.
fn pair_record(pairs: &[Pair], key: u32) -> Option<Pair>
    ensures { result ≡ pair_record pairs.now key }
{
    pairs.iter().copied().find(|entry| entry.key == key)
}

/// The mask of the record with a key, and 0 if there is none.
fn mask_for(pairs: &[Pair], key: u32) -> u32
    ensures { result ≡ spec.mask_for pairs.now key }
{
    pair_record(pairs, key).map_or(0, |entry| entry.mask)
}
