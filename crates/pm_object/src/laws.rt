//! Laws of objects, of their sections and of the object grammar.

ghost use Rattle.std.specs.Prelude.{◌≡◌, ◌≢◌, ℕ, ◌<◌, ◌↔◌, true, List, ◌∷◌, None, Some, Ok};
ghost use Rattle.std.specs.List.{All};
ghost use Rattle.pm_object.specs.declared.object.Object.{Object};
ghost use Rattle.pm_object.specs.declared.object.ObjectFault.{ObjectFault};
ghost use Rattle.pm_object.specs.declared.object.Section.{Section};
ghost use Rattle.pm_object.specs.Bodies.{Body, body_of, no_body, unset, with_body};
ghost use Rattle.pm_object.specs.Grammar.{IsBody, IsObject, Reads, body_words, identifier, is_same, little_endian, section_words, words_of};
ghost use Rattle.pm_object.specs.Reading.{IsFatal, first_fault, reading};

/// The grammar and reading word by word agree: bytes spell an object exactly if nothing is wrong
/// with them, and they spell at most one. What is written is read again, and nothing that follows the
/// first fault's word mends the bytes.
pub fn one_reading()
    ensures read { (bytes : List ℕ) (o : Object) → All (λ b. b < 256) bytes → reading bytes ≡ Ok o ↔ Reads bytes o }
    ensures written { (bytes : List ℕ) (o : Object) → Reads bytes o → reading bytes ≡ Ok o }
    ensures fault { (bytes : List ℕ) → All (λ b. b < 256) bytes
        → first_fault bytes ≡ None ↔ ((o : Object) × Reads bytes o) }
    ensures fatal { (bytes : List ℕ) (f : ObjectFault) → first_fault bytes ≡ Some f → IsFatal bytes f }
    ensures again { (o : Object) → IsObject o → reading (little_endian (words_of o)) ≡ Ok o }
    ensures one { (bytes : List ℕ) (o p : Object) → Reads bytes o → Reads bytes p → o ≡ p }
{}

/// What is put into a section of an object stands there, and all else of the object stays. A section that
/// nothing was put into is empty, and an empty one is in order. An object is what stands in its sections,
/// their order, and its further header words.
pub fn object_sections()
    ensures put { (s : Section) (body : Body s) (o : Object) → body_of s (with_body s body o) ≡ body }
    ensures others { (s t : Section) (body : Body s) (o : Object) → t ≢ s
        → body_of t (with_body s body o) ≡ body_of t o }
    ensures order { (s : Section) (body : Body s) (o : Object) → (with_body s body o).order ≡ o.order }
    ensures extra { (s : Section) (body : Body s) (o : Object) → (with_body s body o).extra ≡ o.extra }
    ensures reordered { (s : Section) (order : List Section) (o : Object)
        → body_of s (record o { order = order }) ≡ body_of s o }
    ensures none { (s : Section) (extra : List ℕ) → body_of s (unset extra) ≡ no_body s }
    ensures empty { (s : Section) → IsBody s (no_body s) }
    ensures whole { (o p : Object) → o.extra ≡ p.extra → o.order ≡ p.order
        → ((s : Section) → body_of s o ≡ body_of s p) → o ≡ p }
{}

/// A section is spelled as its identifier and what stands in it, and its identifier is no other section's.
pub fn section_identifiers()
    ensures same { (s t : Section) → is_same s t ≡ true ↔ s ≡ t }
    ensures words { (s : Section) (o : Object) → section_words o s ≡ identifier s ∷ body_words s (body_of s o) }
{}
