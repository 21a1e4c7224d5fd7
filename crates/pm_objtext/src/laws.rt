//! Laws of the text of an object.

ghost use Rattle.std.specs.Prelude.{◌≡◌, ℕ, ◌↔◌, List, None, Ok};
ghost use Rattle.pm_object.specs.declared.object.Object.{Object};
ghost use Rattle.pm_object.specs.Grammar.{IsObject};
ghost use Rattle.pm_objtext.specs.Printing.{text_of};
ghost use Rattle.pm_objtext.specs.Meaning.{Means};
ghost use Rattle.pm_objtext.specs.FirstBad.{first_bad};
ghost use Rattle.pm_objtext.specs.Building.{building};

use pm_object::{object_sections, section_identifiers};

/// What is built from a text is what it means: at most one object, and one exactly if no line is
/// bad. A printed object's text means that object.
pub fn one_meaning()
    ensures built { (text : List ℕ) (o : Object) → building text ≡ Ok o ↔ Means text o }
    ensures fault { (text : List ℕ) → first_bad text ≡ None ↔ ((o : Object) × Means text o) }
    ensures one { (text : List ℕ) (o p : Object) → Means text o → Means text p → o ≡ p }
    ensures printed { (o : Object) → IsObject o → Means (text_of o) o }
{
    object_sections();
    section_identifiers();
}

/// The text of every well-formed object says that object.
pub fn printed_object_is_built_again()
    ensures { (o : Object) → IsObject o → building (text_of o) ≡ Ok o }
{
    one_meaning();
}
