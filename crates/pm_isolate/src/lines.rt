//! Running the lines of a script in two books, one after another.

ghost use Rattle.std.specs.Prelude.{◌≡◌, ◌≢◌, IfOk};
ghost use Rattle.pm_base.specs.Faults.{Rose};
ghost use Rattle.pm_io.specs.declared.prefix.StopReason.TheVariants.{Failure, Unbegun};
ghost use Rattle.pm_io.specs.Readings.{Meanwhile};
ghost use Rattle.pm_block.specs.Block.{attached_by};
ghost use Rattle.pm_reader.specs.Follow.{ReadsLines};
ghost use Rattle.pm_reader.specs.Front.{Ahead, Attaches, WasReadAhead, ran};
ghost use Rattle.pm_reader.specs.Shown.{OfRead};
ghost use Rattle.pm_isolate.specs.Within.{RanLines};

use crate::worlds::Worlds;
use pm_base::{Event, Failed, NodeId};
use pm_io::Inputs;
use pm_reader::{Follower, Front, LineStop, LinesEnd};

/// Steps both books by each line of a script, the quiet one without the messages of a master. It never fails.
#[derive(Drop)]
pub(crate) struct Watcher<'w> {
    worlds: &'w mut Worlds,
    m: NodeId,
}

impl<'w> Follower for Watcher<'w> {
    ghost use Rattle.pm_isolate.specs.Within.{Watches};

    ghost Follows = { Watches };

    /// Steps both runs by a line.
    fn line(&mut self, _number: u32, event: &Event) -> Result<(), Failed> {
        self.worlds.step(self.m, event);
        Ok(())
    }
}

/// Runs the lines of an opened input in both books, up to the first one that can't be read. Its block was read
/// before.
pub fn run_lines<I: Inputs>(
    worlds: &mut Worlds,
    front: &mut Front,
    m: NodeId,
    inputs: &mut I,
    id: u32,
) -> Result<LinesEnd, LineStop>
    requires front { WasReadAhead I.observable id (I.state inputs.old) front.old }
    ensures ran { (ahead : Ahead) → Attaches I.observable id ahead (I.state inputs.old) front.old
        → OfRead I.observable id ahead.first (I.state inputs.new)
        (λ s. (attached_by s.events ≡ ahead.attached) × RanLines m (ran s) worlds.old worlds.new result) }
    ensures ends { IfOk result (λ end. end.stop ≢ Unbegun) }
    ensures fault { (ahead : Ahead) → Attaches I.observable id ahead (I.state inputs.old) front.old
        → IfOk result (λ end. end.stop ≡ Failure → Rose ahead.first.faults (I.state inputs.new).faults) }
    ensures reads { (ahead : Ahead) → Attaches I.observable id ahead (I.state inputs.old) front.old
        → Meanwhile ahead.first (I.state inputs.new) (ReadsLines id result) }
{
    let mut watcher = Watcher { worlds, m };
    front.follow(inputs, id, &mut watcher)
}
