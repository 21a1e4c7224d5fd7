//! The lines of a script are taken and followed one after another. Those that attach words of objects before all others are
//! read ahead.

ghost use Rattle.std.specs.Prelude.{◌≡◌, ◌+◌, [], List as Sequence, IfErr, IfOk, map, replicate};
ghost use Rattle.pm_base.specs.declared.events.Event.TheVariants.{Pass};
ghost use Rattle.pm_io.specs.Readings.{Meanwhile};
ghost use Rattle.pm_block.specs.declared.block.Piece.{Piece};
ghost use Rattle.pm_block.specs.Pieces.{kept};
ghost use Rattle.pm_reader.specs.Follow.{FollowedFront, FollowedInput, FollowedOne, IsBrokenOff, ReadsLines};
ghost use Rattle.pm_reader.specs.Front.{Ahead, AttachedOne, Attaches, ReadAhead, WasReadAhead};

use crate::meant::{Meant, meant_of};
use crate::reader::{LineBuf, LineReader, Taken};
use pm_base::{Event, Failed, NoMemory};
use pm_block::Block;
use pm_io::{Inputs, StopReason};
use pm_script::{LineFault, SCRIPT_LIMIT, parse_line};
use std::alloc::Global;

/// What carries out the lines of a script, one after another.
pub trait Follower {
    ghost use Rattle.pm_reader.specs.Follow.{Following};

    /// A line with its number and its event leads from a follower to a follower, and to an answer. Generic
    /// code knows no way to it but `line`, so who shows a chain of these has followed just these lines, in this
    /// order.
    ghost Follows: { Following Self };

    /// Follows the line of a number, counted from 1, that means an event.
    ///
    /// # Errors
    ///
    /// `Failed` if no further line is to be followed.
    fn line(&mut self, number: u32, event: &Event) -> Result<(), Failed>
        ensures { Follows number event.now self.old self.new result };
}

/// That all lines of a script were followed: how many, and why no more came.
#[derive(Clone, Copy, Debug, PartialEq, Eq)]
pub struct LinesEnd {
    pub count: u32,
    pub stop: StopReason,
}

/// Why not all lines of a script were followed.
#[derive(Clone, Copy, Debug, PartialEq, Eq)]
pub enum LineStop {
    /// The line of this number, counted from 1, has no meaning: its first fault.
    Bad(u32, LineFault),
    /// The follower failed.
    Broken,
}

/// A script whose first lines were read ahead, those that attach words of objects: how many they are, and what was
/// taken after them.
#[derive(Drop)]
pub struct Front {
    reader: LineReader,
    line: LineBuf,
    taken: Taken,
    lines: u32,
}

impl Front {
    /// Reads the first lines of an input that was just begun, as long as each attaches words and the block takes them,
    /// and one line more. The words are attached.
    ///
    /// # Errors
    ///
    /// `NoMemory` if there is not enough memory for the words.
    pub fn read<I: Inputs>(
        alloc: Global,
        inputs: &mut I,
        id: u32,
        block: &mut Block,
    ) -> Result<Front, NoMemory>
        requires empty { block.old ≡ [] }
        ensures ahead { IfOk result
            (ReadAhead I.observable id (I.state inputs.old) (I.state inputs.new) block.new) }
        ensures reads { IfErr result (λ _. Meanwhile (I.state inputs.old) (I.state inputs.new) (IsBrokenOff id)) }
    {
        let mut reader = LineReader::new(SCRIPT_LIMIT);
        let mut line = LineBuf::new();
        let mut lines = 0;
        'lines: loop {
            let taken = reader.next(inputs, id, &mut line);
            if !attach(alloc, taken, line.as_slice(), block)? {
                return Ok(Front {
                    reader,
                    line,
                    taken,
                    lines,
                });
            }
            lines += 1;
        }
    }

    /// Has a follower follow the lines of the script from the first one on, up to the first one that has no meaning. In
    /// those of the block nothing happens any more. A line after those that were read ahead is taken when the line before
    /// it was followed. It takes no memory.
    ///
    /// # Errors
    ///
    /// `Bad` for the first line that has no meaning, and `Broken` if the follower failed at one before it.
    pub fn follow<I: Inputs, F: Follower>(
        &mut self,
        inputs: &mut I,
        id: u32,
        follower: &mut F,
    ) -> Result<LinesEnd, LineStop>
        requires front { WasReadAhead I.observable id (I.state inputs.old) self.old }
        ensures followed { (ahead : Ahead) → Attaches I.observable id ahead (I.state inputs.old) self.old
            → FollowedInput F.Follows I.observable id ahead (I.state inputs.new) follower.old follower.new result }
        // The input is read and nothing else: to its end, to one byte past the limit, up to a read that failed, or,
        // where not all lines are followed, up to somewhere.
        ensures reads { (ahead : Ahead) → Attaches I.observable id ahead (I.state inputs.old) self.old
            → Meanwhile ahead.first (I.state inputs.new) (ReadsLines id result) }
    {
        follow_passed(self.lines, follower)?;
        let mut count = self.lines;
        let mut event = Event::Pass;
        let mut meant = meant_of(self.taken, self.line.as_slice(), &mut event);
        'lines: loop {
            match meant {
                Meant::Event => {
                    follow_one(count + 1, &event, follower)?;
                    count += 1;
                    meant = self
                        .reader
                        .next_meant(inputs, id, &mut self.line, &mut event);
                }
                Meant::Bad(cause) => return Err(LineStop::Bad(count + 1, cause)),
                Meant::Over(stop) => return Ok(LinesEnd { count, stop }),
            }
        }
    }
}

/// Whether what was taken is a further line of the block. Then its words are attached.
fn attach(alloc: Global, taken: Taken, line: &[u8], block: &mut Block) -> Result<bool, NoMemory>
    ensures { IfOk result (λ is. (pieces : Sequence Piece) → block.old ≡ map kept pieces
        → AttachedOne is taken line.now pieces block.new) }
{
    if taken != Taken::Line {
        return Ok(false);
    }
    match parse_line(line) {
        Ok(Event::Attach { address, words }) => {
            if !block.takes(address) {
                return Ok(false);
            }
            block.add(alloc, address, &words)?;
            Ok(true)
        }
        _ => Ok(false),
    }
}

/// Has a follower follow the lines of the block, in which nothing happens.
fn follow_passed<F: Follower>(lines: u32, follower: &mut F) -> Result<(), LineStop>
    ensures { FollowedFront F.Follows (replicate lines Pass) follower.old follower.new result }
{
    for k in 0..lines {
        follow_one(k + 1, &Event::Pass, follower)?;
    }
    Ok(())
}

/// Has a follower follow one line.
#[inline(always)]
fn follow_one<F: Follower>(number: u32, event: &Event, follower: &mut F) -> Result<(), LineStop>
    ensures { FollowedOne F.Follows number event.now follower.old follower.new result }
{
    match follower.line(number, event) {
        Ok(()) => Ok(()),
        Err(Failed) => Err(LineStop::Broken),
    }
}
