//! Reading a named object, from its bytes or from its text.

ghost use Rattle.std.specs.Prelude.{◌≡◌, ◌⊎◌, IfOk};
ghost use Rattle.pm_io.specs.Readings.{Meanwhile};
ghost use Rattle.pm_object.specs.Grammar.{IsObject, Reads};
ghost use Rattle.pm_object.specs.Reading.{reading};
ghost use Rattle.pm_objtext.specs.Building.{building};
ghost use Rattle.pm_objtext.specs.Meaning.{Means};
ghost use Rattle.pm_top.specs.declared.works.Source.TheVariants as source;
ghost use Rattle.pm_top.specs.Asked.{object_or_fault, text_or_fault};
ghost use Rattle.pm_top.specs.Reads.{ReadsFor, source_named};
ghost use Rattle.pm_top.specs.Within.{ReadsAs};

use pm_io::{Inputs, StopReason, gather};
use pm_object::{DecodeError, Object, decode};
use pm_objtext::{BuildError, build};
use pm_trace::Fault;
use std::alloc::Global;

/// The most bytes that are read of an object.
pub const OBJECT_LIMIT: u32 = 16_384;

/// The most bytes that are read of an object's text.
const TEXT_LIMIT: u32 = 1_048_576;

/// Reads the object that a name of the inputs holds as bytes. Fails with Read, Object or Memory.
pub(crate) fn read_object<I: Inputs>(
    alloc: Global,
    inputs: &mut I,
    name: &str,
) -> Result<Object, Fault>
    ensures read { (result ≡ Err Fault.Memory)
        ⊎ ReadsAs source.Object I.observable name.now (I.state inputs.old) (I.state inputs.new) result }
    ensures begun { Meanwhile (I.state inputs.old) (I.state inputs.new)
        (ReadsFor result (source_named source.Object name.now)) }
    ensures formed { IfOk result IsObject }
{
    let Ok(prefix) = gather(alloc, inputs, name, OBJECT_LIMIT) else {
        return Err(Fault::Memory);
    };
    match prefix.stop() {
        StopReason::Failure | StopReason::Unbegun => Err(Fault::Read),
        StopReason::End | StopReason::Limit => object_from(alloc, prefix.bytes()),
    }
}

/// The object that these bytes are. Fails with Object or Memory.
fn object_from(alloc: Global, bytes: &[u8]) -> Result<Object, Fault>
    ensures exact { (result ≡ Err Fault.Memory) ⊎ (object_or_fault (reading bytes.now) ≡ result) }
    ensures reads { IfOk result (Reads bytes.now) }
    ensures formed { IfOk result IsObject }
{
    match decode(alloc, bytes) {
        Ok(object) => Ok(object),
        Err(DecodeError::Bad(fault)) => Err(Fault::Object(fault)),
        Err(DecodeError::Memory(_)) => Err(Fault::Memory),
    }
}

/// Reads the object that a name of the inputs holds as text. Fails with Read, Text or Memory.
pub(crate) fn read_text<I: Inputs>(
    alloc: Global,
    inputs: &mut I,
    name: &str,
) -> Result<Object, Fault>
    ensures read { (result ≡ Err Fault.Memory)
        ⊎ ReadsAs source.Text I.observable name.now (I.state inputs.old) (I.state inputs.new) result }
    ensures begun { Meanwhile (I.state inputs.old) (I.state inputs.new)
        (ReadsFor result (source_named source.Text name.now)) }
    ensures formed { IfOk result IsObject }
{
    let Ok(prefix) = gather(alloc, inputs, name, TEXT_LIMIT) else {
        return Err(Fault::Memory);
    };
    match prefix.stop() {
        StopReason::Failure | StopReason::Unbegun => Err(Fault::Read),
        StopReason::End | StopReason::Limit => object_from_text(alloc, prefix.bytes()),
    }
}

/// The object that this text says. Fails with Text or Memory.
fn object_from_text(alloc: Global, text: &[u8]) -> Result<Object, Fault>
    ensures exact { (result ≡ Err Fault.Memory) ⊎ (text_or_fault (building text.now) ≡ result) }
    ensures means { IfOk result (Means text.now) }
    ensures formed { IfOk result IsObject }
{
    match build(alloc, text) {
        Ok(object) => Ok(object),
        Err(BuildError::Bad(fault)) => Err(Fault::Text(fault)),
        Err(BuildError::Memory(_)) => Err(Fault::Memory),
    }
}
