//! The table of the Zynq UltraScale+. The numbers are those of UG1200, the latencies and figures
//! of power this project's own.

ghost use Rattle.std.specs.Prelude.{◌≡◌, ◌++◌, ◌∷◌, [], IfOk, map};
ghost use Rattle.std.specs.List.{flat_map};
ghost use Rattle.pm_topology.specs.WellFormed.{IsSupported};
ghost use Rattle.pm_chip.specs.Chip.{chip, line_of, lines_of, master, masters, powers, proc, procs, power, slaves, slaves_in};

use crate::classes::{Class, states};
use pm_base::{LineId, List, NoMemory, NodeId, with};
use pm_topology::{LineDef, MasterDef, PowerDef, ProcDef, SlaveDef, Topology, list_of};
use std::alloc::Global;

/// The places of the power nodes.
const PLD: usize = 0;

const FPD: usize = 1;

const LPD: usize = 2;

const APU: usize = 3;

const RPU: usize = 4;

/// Slaves with numbers that follow one another: the first number, how many they are, the place
/// of their power node and their class.
#[derive(Clone, Copy)]
pub struct Group(pub u8, pub u8, pub usize, pub Class);

/// The slaves by rising number.
static GROUPS: [Group; 32] = [
    Group(11, 4, LPD, Class::Memory), // OCM
    Group(15, 4, RPU, Class::Memory), // TCM
    Group(19, 1, FPD, Class::Memory), // L2
    Group(20, 2, FPD, Class::Block), // GPU_PP
    Group(22, 2, LPD, Class::Peripheral), // USB
    Group(24, 4, LPD, Class::Peripheral), // TTC
    Group(28, 1, FPD, Class::Peripheral), // SATA
    Group(29, 4, LPD, Class::Peripheral), // ETH
    Group(33, 2, LPD, Class::Peripheral), // UART
    Group(35, 2, LPD, Class::Peripheral), // SPI
    Group(37, 2, LPD, Class::Peripheral), // I2C
    Group(39, 2, LPD, Class::Peripheral), // SD
    Group(41, 1, FPD, Class::Block), // DP
    Group(42, 1, FPD, Class::Peripheral), // GDMA
    Group(43, 1, LPD, Class::Peripheral), // ADMA
    Group(44, 1, LPD, Class::Peripheral), // NAND
    Group(45, 1, LPD, Class::Peripheral), // QSPI
    Group(46, 1, LPD, Class::Peripheral), // GPIO
    Group(47, 2, LPD, Class::Peripheral), // CAN
    Group(49, 1, LPD, Class::External), // EXTERN
    Group(50, 3, FPD, Class::Block), // APLL, VPLL, DPLL
    Group(53, 2, LPD, Class::Block), // RPLL, IOPLL
    Group(55, 1, FPD, Class::Dram), // DDR
    Group(56, 2, LPD, Class::Peripheral), // IPI_APU, IPI_RPU_0
    Group(58, 1, FPD, Class::Block), // GPU
    Group(59, 1, FPD, Class::Block), // PCIE
    Group(60, 1, LPD, Class::Block), // PCAP
    Group(61, 1, LPD, Class::Peripheral), // RTC
    Group(63, 1, PLD, Class::Block), // VCU
    Group(64, 1, LPD, Class::Peripheral), // IPI_RPU_1
    Group(65, 4, LPD, Class::Peripheral), // IPI_PL
    Group(69, 1, PLD, Class::Block), // PL
];

/// The table of the Zynq UltraScale+.
///
/// # Errors
///
/// `NoMemory` if there is not enough memory.
#[tactic(auto, using(crate::proofs::ChipLaw::chip_sound), unfolding(crate::specs::Chip::chip))]
pub fn zynqmp(alloc: Global) -> Result<Topology, NoMemory>
    ensures table { IfOk result (λ topology. topology ≡ chip) }
    ensures sound { IfOk result IsSupported }
{
    let slaves = slaves(alloc)?;
    let nodes = with(slaves, procs(alloc))?;
    let lines = lines(alloc, nodes.1.as_slice(), nodes.0.as_slice());
    let parts = with(nodes, lines)?;
    let parts = with(parts, powers(alloc))?;
    let parts = with(parts, masters(alloc))?;
    let ((((slaves, procs), lines), powers), masters) = parts;
    Ok(Topology {
        slaves,
        procs,
        powers,
        lines,
        masters,
    })
}

/// The power nodes: each after its parent.
fn powers(alloc: Global) -> Result<List<PowerDef>, NoMemory>
    ensures { IfOk result (λ list. list ≡ powers) }
{
    let powers = [
        power(9, None, false, 50, 1000), // PLD
        power(10, None, false, 80, 2000), // FPD
        power(62, None, true, 20, 3000), // LPD
        power(1, Some(FPD), false, 30, 500), // APU
        power(6, Some(LPD), false, 10, 300), // RPU
    ];
    list_of(alloc, &powers)
}

/// A power node by its number, its parent's place, whether it is held, its figure and its latency.
fn power(number: u32, parent: Option<usize>, held: bool, figure: u32, latency: u32) -> PowerDef
    ensures { result ≡ power number parent held figure latency }
{
    PowerDef {
        node: NodeId(number),
        parent,
        held,
        figure,
        latency,
    }
}

/// The processors by rising number.
fn procs(alloc: Global) -> Result<List<ProcDef>, NoMemory>
    ensures { IfOk result (λ list. list ≡ procs) }
{
    let procs = [
        proc(2, APU, 300, 400), // APU_0
        proc(3, APU, 300, 400), // APU_1
        proc(4, APU, 300, 400), // APU_2
        proc(5, APU, 300, 400), // APU_3
        proc(7, RPU, 100, 200), // RPU_0
        proc(8, RPU, 100, 200), // RPU_1
    ];
    list_of(alloc, &procs)
}

/// A processor by its number, its parent's place, its figure and its latency.
fn proc(number: u32, parent: usize, figure: u32, latency: u32) -> ProcDef
    ensures { result ≡ proc number parent figure latency }
{
    ProcDef {
        node: NodeId(number),
        parent,
        figure,
        latency,
    }
}

/// The slaves by rising number.
#[tactic(auto, unfolding(crate::specs::Chip::slaves))]
fn slaves(alloc: Global) -> Result<List<SlaveDef>, NoMemory>
    ensures { IfOk result (λ list. list ≡ slaves) }
{
    slaves_of(alloc, &GROUPS)
}

/// The slaves of these groups, one group after another.
fn slaves_of(alloc: Global, groups: &[Group]) -> Result<List<SlaveDef>, NoMemory>
    ensures { IfOk result (λ list. list ≡ flat_map slaves_in groups.now) }
{
    let mut slaves = List::new(alloc);
    for group in groups {
        push_group(alloc, &mut slaves, *group)?;
    }
    Ok(slaves)
}

/// Puts the slaves of a group at the end.
fn push_group(alloc: Global, slaves: &mut List<SlaveDef>, group: Group) -> Result<(), NoMemory>
    ensures { IfOk result (λ _. slaves.new ≡ slaves.old ++ slaves_in group) }
{
    let Group(first, count, parent, class) = group;
    for place in 0..count {
        slaves.push(SlaveDef {
            node: NodeId(first as u32 + place as u32),
            parent,
            states: states(alloc, class)?,
        })?;
    }
    Ok(())
}

/// A reset line for each processor and each slave.
fn lines(alloc: Global, procs: &[ProcDef], slaves: &[SlaveDef]) -> Result<List<LineDef>, NoMemory>
    ensures { IfOk result (λ list. list ≡ lines_of procs.now slaves.now) }
{
    let mut lines = proc_lines(alloc, procs)?;
    for slave in slaves {
        lines.push(line(slave.node))?;
    }
    Ok(lines)
}

/// A reset line for each processor, with its number.
fn proc_lines(alloc: Global, procs: &[ProcDef]) -> Result<List<LineDef>, NoMemory>
    ensures { IfOk result (λ list. list ≡ map (λ p. line_of p.node) procs.now) }
{
    let mut lines = List::new(alloc);
    for proc in procs {
        lines.push(line(proc.node))?;
    }
    Ok(lines)
}

/// The line that resets a node has its number.
fn line(target: NodeId) -> LineDef
    ensures { result ≡ line_of target }
{
    LineDef {
        line: LineId(target.0),
        target: Some(target),
    }
}

/// The masters: the APU, the RPU in lock-step, and its two halves.
fn masters(alloc: Global) -> Result<List<MasterDef>, NoMemory>
    ensures { IfOk result (λ list. list ≡ masters) }
{
    let mut masters = List::new(alloc);
    push_master(
        alloc,
        &mut masters,
        1,
        &[NodeId(2), NodeId(3), NodeId(4), NodeId(5)],
    )?;
    push_master(alloc, &mut masters, 6, &[NodeId(7)])?;
    push_master(alloc, &mut masters, 7, &[NodeId(7)])?;
    push_master(alloc, &mut masters, 8, &[NodeId(8)])?;
    Ok(masters)
}

/// Puts a master at the end.
fn push_master(
    alloc: Global,
    masters: &mut List<MasterDef>,
    number: u32,
    procs: &[NodeId],
) -> Result<(), NoMemory>
    ensures { IfOk result (λ _. masters.new ≡ masters.old ++ master number procs.now ∷ []) }
{
    let made = master(alloc, number, procs)?;
    masters.push(made)
}

/// A master by its number and its processors.
fn master(alloc: Global, number: u32, procs: &[NodeId]) -> Result<MasterDef, NoMemory>
    ensures { IfOk result (λ made. made ≡ master number procs.now) }
{
    Ok(MasterDef {
        node: NodeId(number),
        procs: list_of(alloc, procs)?,
    })
}
