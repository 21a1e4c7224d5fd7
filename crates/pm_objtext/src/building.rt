//! The object that a text means.

ghost use Rattle.std.specs.Prelude.{◌≡◌, ◌≤◌, [], length, IfErr, IfOk, OnOk, Ok, Err, Some};
ghost use Rattle.pm_object.specs.Answers.{FailsAs};
ghost use Rattle.pm_object.specs.Grammar.{IsObject};
ghost use Rattle.pm_objtext.specs.Answers.{Gives, fault_in};
ghost use Rattle.pm_objtext.specs.Building.{building, judged};
ghost use Rattle.pm_objtext.specs.Draft.{so_far};
ghost use Rattle.pm_objtext.specs.SoFar.{start};
ghost use Rattle.pm_objtext.specs.FirstBad.{first_bad};
ghost use Rattle.pm_objtext.specs.Meaning.{Means};
ghost use Rattle.pm_objtext.specs.declared.fault.TextFault.{TextFault};
ghost use Rattle.pm_object.specs.declared.object.Object.{Object};
ghost use Rattle.pm_io.specs.Lines.{lines_of};

use crate::draft::Draft;
use crate::fault::{BuildError, TextCause, TextFault};
use crate::laws::one_meaning;
use pm_io::{Ending, split_line};
use pm_object::Object;
use std::alloc::Global;
use std::mem::drop;

/// The greatest number of bytes of a text.
const MOST_BYTES: usize = 1_048_576;

/// Reads the lines of a text that isn't too long, apart from `build_lines` so that no draft is owned along the loop.
fn read_lines(alloc: Global, text: &[u8], draft: &mut Draft) -> Result<(), BuildError>
    requires text { length text.now ≤ 1048576 }
    requires first { draft.old.line ≡ 1 }
    requires none { so_far draft.old ≡ start }
    ensures read { OnOk result (judged draft.new.line (so_far draft.new) [] ≡ judged 1 start (lines_of text.now)) }
    ensures bad { IfErr result (λ error. FailsAs fault_in error (judged 1 start (lines_of text.now))) }
{
    let mut left = text;
    'lines: while let Some((line, after)) = split_line(left, Ending::Whole) {
        draft.read(alloc, line)?;
        left = after;
    }
    Ok(())
}

/// The object of a text that isn't too long, apart from the test of its length.
fn build_lines(alloc: Global, text: &[u8]) -> Result<Object, BuildError>
    requires { length text.now ≤ 1048576 }
    ensures { Gives result (judged 1 start (lines_of text.now)) }
{
    let mut draft = Draft::new(alloc);
    match read_lines(alloc, text, &mut draft) {
        Ok(()) => draft.finish(alloc),
        Err(error) => {
            drop(draft);
            Err(error)
        }
    }
}

/// The object of a text, apart from `build` so that one proof alone unfolds what is built.
#[tactic(auto, unfolding(crate::specs::Building::building))]
fn build_text(alloc: Global, text: &[u8]) -> Result<Object, BuildError>
    ensures { Gives result (building text.now) }
{
    if text.len() > MOST_BYTES {
        return Err(BuildError::Bad(TextFault {
            line: 0,
            cause: TextCause::Size,
        }));
    }
    build_lines(alloc, text)
}

/// The object that a text means. Spaces, tabs, comments and empty lines between its words and lines
/// make no difference, nor does the way in which a number is written.
///
/// `Bad` comes exactly if the text means no object, with its first bad line and the first of that
/// line's causes. A text of more than 1,048,576 bytes is bad as a whole. The other error is want of
/// memory.
pub fn build(alloc: Global, text: &[u8]) -> Result<Object, BuildError>
    // The text means what is built.
    ensures found { IfOk result (λ o. Means text.now o) }
    // What the text means is built.
    ensures only { (o : Object) → Means text.now o → Gives result (Ok o) }
    ensures formed { IfOk result IsObject }
    // What is wrong is the first bad line, and then the text means nothing.
    ensures bad { (f : TextFault) → result ≡ Err (BuildError.Bad f) → first_bad text.now ≡ Some f }
    ensures unreadable { (f : TextFault) → result ≡ Err (BuildError.Bad f) → (o : Object) → Means text.now o → ⊥ }
    // The answer is the object that the text means, or its first bad line.
    ensures exact { Gives result (building text.now) }
{
    one_meaning();
    build_text(alloc, text)
}
