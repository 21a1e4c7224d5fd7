//! All of some bytes is written to a sink.

ghost use Rattle.std.specs.Prelude.{◌∷◌, [], OnOk, OnErr};
ghost use Rattle.pm_io.specs.Sink.{Wrote};
ghost use Rattle.pm_io.specs.Writing.{BreaksIn};

use crate::sink::Sink;
use pm_base::Failed;

/// Writes all of `bytes`, in as many pieces as the sink wants.
///
/// `Failed` comes exactly if the sink failed or took 0 of a piece that isn't empty. The sink then
/// has some first bytes of them, never all, and is given nothing more.
pub fn write_all<K: Sink>(sink: &mut K, bytes: &[u8]) -> Result<(), Failed>
    ensures written { OnOk result (Wrote K.observable bytes.now (K.state sink.old) (K.state sink.new)) }
    ensures short { OnErr result
        (BreaksIn K.Sink 0 (bytes.now ∷ []) sink.old sink.new) }
{
    let mut written = 0;
    while written < bytes.len() {
        match sink.write(&bytes[written..])? {
            0 => return Err(Failed),
            count => written += count,
        }
    }
    Ok(())
}
