//! The inputs of a form before its script: the object or the number of lines, then the topology, then the word of a
//! master.

ghost use Rattle.std.specs.Prelude.{◌≡◌, ◌≢◌, ◌⊎◌, ◌==◌, None, IfOk, IfSome, IsTrue, map, string_bytes};
ghost use Rattle.std.specs.List.{list_any};
ghost use Rattle.pm_io.specs.Readings.{Meanwhile};
ghost use Rattle.pm_object.specs.Grammar.{IsObject};
ghost use Rattle.pm_top.specs.Asked.{master_of, script_word, with_master};
ghost use Rattle.pm_top.specs.Reads.{ReadsFor, SubjectReads, source_named, topology_named};
ghost use Rattle.pm_top.specs.Words.{word};
ghost use Rattle.pm_top.specs.Within.{IsNamed, IsSubject, ReadsAs, ReadsRest, ReadsSubject};

use crate::making::{laboratory, laboratory_for, lines_by};
use crate::objects::{read_object, read_text};
use crate::topologies::topology_for;
use crate::works::{Form, Source, word};
use pm_base::NodeId;
use pm_io::{Inputs, number};
use pm_object::{Object, has_key};
use pm_topology::Topology;
use pm_trace::Fault;
use std::alloc::Global;

/// The subject of a work: an object, a topology, a master of the object if the form names one, and the number of
/// lines of a generated script, or 0.
#[derive(Debug, Drop)]
pub struct Subject {
    pub object: Object,
    pub topology: Topology,
    pub master: Option<NodeId>,
    pub lines: u32,
}

/// Reads the subject of a form: its object, then its topology, then the word of a master. Fails with the first fault.
pub(crate) fn read_subject<I: Inputs>(
    alloc: Global,
    form: Form,
    words: &[String],
    inputs: &mut I,
) -> Result<Subject, Fault>
    requires plain { form.source ≢ Source.Object → form.topology ≡ None }
    ensures read { (result ≡ Err Fault.Memory)
        ⊎ ReadsSubject I.observable form (map string_bytes words.now) (I.state inputs.old) (I.state inputs.new) result }
    ensures begun { Meanwhile (I.state inputs.old) (I.state inputs.new)
        (SubjectReads result (source_named form.source (word 1 (map string_bytes words.now)))
        (topology_named form.topology (map string_bytes words.now))) }
    ensures sound { IfOk result IsSubject }
{
    let name = word(words, 1);
    match read_source(alloc, form.source, inputs, name) {
        Ok(object) => read_rest(alloc, object, form, words, inputs),
        Err(fault) => Err(fault),
    }
}

/// Reads the rest of a subject after its object: the topology, and then the word of a master.
fn read_rest<I: Inputs>(
    alloc: Global,
    object: Object,
    form: Form,
    words: &[String],
    inputs: &mut I,
) -> Result<Subject, Fault>
    requires object { IsObject object }
    ensures read { (result ≡ Err Fault.Memory)
        ⊎ ReadsRest I.observable form (map string_bytes words.now) object
        (I.state inputs.old) (I.state inputs.new) result }
    ensures begun { Meanwhile (I.state inputs.old) (I.state inputs.new)
        (ReadsFor result (topology_named form.topology (map string_bytes words.now))) }
    ensures sound { IfOk result IsSubject }
{
    let name = word(words, 1);
    match topology_for(alloc, form.topology, inputs, words) {
        Ok(topology) => with_master(
            object,
            topology,
            lines_by(form.source, name),
            form.node,
            words,
        ),
        Err(fault) => {
            // Dropped here, where its type is generic: that costs less to prove.
            drop(object);
            Err(fault)
        }
    }
}

/// Reads the named object, from its bytes or its text. With a number of lines, or without a name, it is the
/// laboratory's.
fn read_source<I: Inputs>(
    alloc: Global,
    source: Source,
    inputs: &mut I,
    name: &str,
) -> Result<Object, Fault>
    ensures read { (result ≡ Err Fault.Memory)
        ⊎ ReadsAs source I.observable name.now (I.state inputs.old) (I.state inputs.new) result }
    ensures begun { Meanwhile (I.state inputs.old) (I.state inputs.new)
        (ReadsFor result (source_named source name.now)) }
    ensures formed { IfOk result IsObject }
{
    match source {
        Source::Object => read_object(alloc, inputs, name),
        Source::Text => read_text(alloc, inputs, name),
        Source::Number => laboratory_for(alloc, name),
        Source::Nothing => laboratory(alloc),
    }
}

/// The subject of an object and a topology, with the master in the word at place `node`, if there is one. Fails with
/// Node if the object has no such master.
fn with_master(
    object: Object,
    topology: Topology,
    lines: u32,
    node: Option<usize>,
    words: &[String],
) -> Result<Subject, Fault>
    ensures exact { result ≡ with_master object topology lines node (map string_bytes words.now) }
    ensures named { IfOk result IsNamed }
{
    let Some(place) = node else {
        return Ok(Subject {
            object,
            topology,
            master: None,
            lines,
        });
    };
    match master_of(&object, word(words, place)) {
        Some(master) => Ok(Subject {
            object,
            topology,
            master: Some(master),
            lines,
        }),
        None => {
            // Dropped here, where their types are generic: that costs less to prove.
            drop((object, topology));
            Err(Fault::Node)
        }
    }
}

/// The master of an object whose number a word is; None if it is no number, or the object has no such master.
fn master_of(object: &Object, name: &str) -> Option<NodeId>
    ensures exact { result ≡ master_of object.now name.now }
    ensures named { IfSome result (λ node. IsTrue (list_any (λ r. r.node == node.0) object.now.masters)) }
{
    let node = number(name.as_bytes(), u64::from(u32::MAX))? as u32;
    if has_key(object.masters.as_slice(), node) {
        Some(NodeId(node))
    } else {
        None
    }
}

/// The word that names the script of a form, or an empty one if it has none.
pub(crate) fn script_word(form: Form, words: &[String]) -> &str
    ensures { result.now ≡ script_word form.script (map string_bytes words.now) }
{
    match form.script {
        Some(place) => word(words, place),
        None => "",
    }
}
