//! The text of a topology.

ghost use Rattle.std.specs.Prelude.{◌≡◌, ◌++◌, ◌∷◌, [], map, option_and_then, Ok, IfOk, OnOk};
ghost use Rattle.std.specs.List.{AllByRecursion, flat_map};
ghost use Rattle.std.specs.Option.{option_map};
ghost use Rattle.pm_topofile.specs.Printing.{AreSmall, HasSmallNumbers, IsSmall, IsSmallSlave, flag, line_text, number_of, owner_line, owner_text, owner_words, power_at, power_text, power_words, proc_text, proc_words, reset_text, reset_words, slave_text, slave_words, state_text, state_words, text_of, word_text};
ghost use Rattle.pm_topology.specs.WellFormed.{IsSupported};
ghost use Rattle.pm_topofile.specs.Meaning.{meaning};

use crate::laws::printed_topology_is_read_again;
use crate::table::{Keyword, keyword_text};
use itoa::Buffer;
use pm_base::{NoMemory, NodeId};
use pm_topology::{LineDef, MasterDef, PowerDef, ProcDef, SlaveDef, SlaveState, Topology};
use std::alloc::Global;

/// The most processors of one line.
const MOST_MEMBERS: usize = 16;

/// Puts bytes at the end of the text. All functions here can want memory, and put lines at the end.
fn put(text: &mut Vec<u8>, bytes: &[u8]) -> Result<(), NoMemory>
    ensures { OnOk result (text.new.items ≡ text.old.items ++ bytes.now) }
{
    text.extend_from_slice(bytes).map_err(|_| NoMemory)
}

/// Puts a space and a number, or `none`.
fn put_word(text: &mut Vec<u8>, word: Option<u32>) -> Result<(), NoMemory>
    ensures text { OnOk result (text.new.items ≡ text.old.items ++ word_text word) }
    ensures small { OnOk result (IsSmall word) }
{
    let Some(number) = word else {
        return put(text, b" none");
    };
    put(text, b" ")?;
    let mut buffer = Buffer::new();
    put(text, buffer.format(number).as_bytes())
}

/// Puts words, each behind a space: numbers, or `none`.
fn put_words(text: &mut Vec<u8>, words: &[Option<u32>]) -> Result<(), NoMemory>
    ensures text { OnOk result (text.new.items ≡ text.old.items ++ flat_map word_text words.now) }
    ensures small { OnOk result (AreSmall words.now) }
{
    for word in words {
        put_word(text, *word)?;
    }
    Ok(())
}

/// Puts a line: a keyword and words.
fn put_line(text: &mut Vec<u8>, keyword: Keyword, words: &[Option<u32>]) -> Result<(), NoMemory>
    ensures text { OnOk result (text.new.items ≡ text.old.items ++ line_text keyword words.now) }
    ensures small { OnOk result (AreSmall words.now) }
{
    put(text, keyword_text(keyword))?;
    put_words(text, words)?;
    put(text, b"\n")
}

/// The word of a flag: 1 if it is set, else 0.
fn flag(set: bool) -> Option<u32>
    ensures { result ≡ flag set }
{
    Some(u32::from(set))
}

/// The number of the power node at a place.
fn power_at(powers: &[PowerDef], place: usize) -> Option<u32>
    ensures { result ≡ power_at powers.now place }
{
    Some(powers.get(place)?.node.0)
}

/// The number of a parent by its place, if there is one.
fn parent_at(powers: &[PowerDef], place: Option<usize>) -> Option<u32>
    ensures { result ≡ option_and_then (power_at powers.now) place }
{
    power_at(powers, place?)
}

/// Puts a line for each power node.
fn put_powers(text: &mut Vec<u8>, powers: &[PowerDef]) -> Result<(), NoMemory>
    ensures text { OnOk result (text.new.items ≡ text.old.items ++ flat_map (power_text powers.now) powers.now) }
    ensures small { OnOk result (AllByRecursion (λ p. AreSmall (power_words powers.now p)) powers.now) }
{
    for power in powers {
        put_line(
            text,
            Keyword::Power,
            &[
                Some(power.node.0),
                parent_at(powers, power.parent),
                flag(power.held),
                Some(power.figure),
                Some(power.latency),
            ],
        )?;
    }
    Ok(())
}

/// Puts a line for each processor.
fn put_procs(text: &mut Vec<u8>, powers: &[PowerDef], procs: &[ProcDef]) -> Result<(), NoMemory>
    ensures text { OnOk result (text.new.items ≡ text.old.items ++ flat_map (proc_text powers.now) procs.now) }
    ensures small { OnOk result (AllByRecursion (λ p. AreSmall (proc_words powers.now p)) procs.now) }
{
    for proc in procs {
        put_line(
            text,
            Keyword::Proc,
            &[
                Some(proc.node.0),
                power_at(powers, proc.parent),
                Some(proc.figure),
                Some(proc.latency),
            ],
        )?;
    }
    Ok(())
}

/// Puts a line for each state of a slave.
fn put_states(text: &mut Vec<u8>, states: &[SlaveState]) -> Result<(), NoMemory>
    ensures text { OnOk result (text.new.items ≡ text.old.items ++ flat_map state_text states.now) }
    ensures small { OnOk result (AllByRecursion (λ s. AreSmall (state_words s)) states.now) }
{
    for state in states {
        put_line(
            text,
            Keyword::State,
            &[
                Some(state.caps.0),
                Some(state.latency),
                flag(state.powered),
                Some(state.figure),
            ],
        )?;
    }
    Ok(())
}

/// Puts a slave, and then its states.
fn put_slave(text: &mut Vec<u8>, powers: &[PowerDef], slave: &SlaveDef) -> Result<(), NoMemory>
    ensures text { OnOk result (text.new.items ≡ text.old.items ++ slave_text powers.now slave.now) }
    ensures small { OnOk result (IsSmallSlave powers.now slave.now) }
{
    put_line(
        text,
        Keyword::Slave,
        &[Some(slave.node.0), power_at(powers, slave.parent)],
    )?;
    put_states(text, slave.states.as_slice())
}

/// Puts the lines of each slave: its own, then those of its states.
fn put_slaves(text: &mut Vec<u8>, powers: &[PowerDef], slaves: &[SlaveDef]) -> Result<(), NoMemory>
    ensures text { OnOk result (text.new.items ≡ text.old.items ++ flat_map (slave_text powers.now) slaves.now) }
    ensures small { OnOk result (AllByRecursion (IsSmallSlave powers.now) slaves.now) }
{
    for slave in slaves {
        put_slave(text, powers, slave)?;
    }
    Ok(())
}

/// The word of a reset line's target: its number, or `none`.
fn number_of_target(target: Option<NodeId>) -> Option<u32>
    ensures { result ≡ option_map (λ n. n.0) target }
{
    Some(target?.0)
}

/// Puts a line for each reset line.
fn put_resets(text: &mut Vec<u8>, lines: &[LineDef]) -> Result<(), NoMemory>
    ensures text { OnOk result (text.new.items ≡ text.old.items ++ flat_map reset_text lines.now) }
    ensures small { OnOk result (AllByRecursion (λ l. AreSmall (reset_words l)) lines.now) }
{
    for line in lines {
        put_line(
            text,
            Keyword::Line,
            &[Some(line.line.0), number_of_target(line.target)],
        )?;
    }
    Ok(())
}

/// Puts the numbers of processors, each behind a space.
fn put_members(text: &mut Vec<u8>, procs: &[NodeId]) -> Result<(), NoMemory>
    ensures text { OnOk result (text.new.items ≡ text.old.items ++ flat_map word_text (map number_of procs.now)) }
    ensures small { OnOk result (AreSmall (map number_of procs.now)) }
{
    for proc in procs {
        put_word(text, Some(proc.0))?;
    }
    Ok(())
}

/// Puts one `owner` line: a master and processors of it.
fn put_owner_line(text: &mut Vec<u8>, node: NodeId, procs: &[NodeId]) -> Result<(), NoMemory>
    ensures text { OnOk result (text.new.items ≡ text.old.items ++ owner_line node procs.now) }
    ensures small { OnOk result (AreSmall (owner_words node procs.now)) }
{
    put(text, keyword_text(Keyword::Owner))?;
    put_word(text, Some(node.0))?;
    put_members(text, procs)?;
    put(text, b"\n")
}

/// Puts the `owner` lines of a master, each with at most 16 processors.
fn put_owner(text: &mut Vec<u8>, master: &MasterDef) -> Result<(), NoMemory>
    ensures text { OnOk result (text.new.items ≡ text.old.items ++ owner_text master.now) }
    ensures small { OnOk result (AreSmall (owner_words master.now.node master.now.procs)) }
{
    let mut left = master.procs.as_slice();
    'lines: while left.len() > MOST_MEMBERS {
        put_owner_line(text, master.node, &left[..MOST_MEMBERS])?;
        left = &left[MOST_MEMBERS..];
    }
    put_owner_line(text, master.node, left)
}

/// Puts the `owner` lines of all masters.
fn put_owners(text: &mut Vec<u8>, masters: &[MasterDef]) -> Result<(), NoMemory>
    ensures text { OnOk result (text.new.items ≡ text.old.items ++ flat_map owner_text masters.now) }
    ensures small { OnOk result (AllByRecursion (λ m. AreSmall (owner_words m.node m.procs)) masters.now) }
{
    for master in masters {
        put_owner(text, master)?;
    }
    Ok(())
}

/// The text of a topology, apart from `print_topology` so that one proof alone unfolds it.
#[tactic(auto, unfolding(crate::specs::Printing::text_of))]
fn print_lists(alloc: Global, t: &Topology) -> Result<Vec<u8>, NoMemory>
    ensures printed { IfOk result (λ text. text.items ≡ text_of t.now) }
    ensures small { IfOk result (λ _. HasSmallNumbers t.now) }
{
    let mut text = Vec::new(alloc);
    let powers = t.powers.as_slice();
    put_powers(&mut text, powers)?;
    put_procs(&mut text, powers, t.procs.as_slice())?;
    put_slaves(&mut text, powers, t.slaves.as_slice())?;
    put_resets(&mut text, t.lines.as_slice())?;
    put_owners(&mut text, t.masters.as_slice())?;
    Ok(text)
}

/// The text of a topology: a line for each power node, processor, slave, state of a slave and reset line, in the
/// topology's order, and of each master as many lines as hold its processors, each but the last with 16 of them. Each
/// line ends with a line feed, its words have one space between them, and its numbers are decimal.
///
/// The one error is want of memory.
pub fn print_topology(alloc: Global, t: &Topology) -> Result<Vec<u8>, NoMemory>
    ensures printed { IfOk result (λ text. text.items ≡ text_of t.now) }
    ensures small { IfOk result (λ _. HasSmallNumbers t.now) }
    // The text means the topology that was printed.
    ensures again { IsSupported t.now → IfOk result (λ text. meaning text.items ≡ Ok t.now) }
{
    printed_topology_is_read_again();
    print_lists(alloc, t)
}
