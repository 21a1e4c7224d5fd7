//! The modules of a board, in the order in which they were added.

ghost use Rattle.std.specs.Prelude.{◌≡◌, ◌≤◌, ◌++◌, ◌∷◌, [], vec_capacity, IfOk, OnOk, OnErr, IfErr, Some, None};

use crate::module::ModuleOf;
use crate::responders::Responder;
use pm_base::{Message, NoMemory};
use pm_ipi::Response;
use std::alloc::Global;

/// How many modules there is room for.
pub const ROOM: usize = 8;

/// The first API word that a module can have. The words below it are the core's.
const FIRST_WORD: u32 = 256;

/// Why a module isn't added. It hands the module back.
#[derive(Drop)]
pub enum AddErrorOf<H: Drop> {
    /// A word is in its range and in that of a module that was added earlier.
    Overlap(ModuleOf<H>),
    /// Eight modules were added already.
    Full(ModuleOf<H>),
}

/// At most eight modules, of which no two have a word in common. Contracts see the list of their ranges, each
/// with what its handler says.
#[derive(Drop)]
pub struct ModulesOf<H: Drop> {
    modules: Vec<ModuleOf<H>>,
    ghost room: { 8 ≤ vec_capacity modules },
}

/// Modules whose handlers are any that a board brings.
pub type Modules = ModulesOf<Box<dyn Responder>>;

/// Why such a module isn't added.
pub type AddError = AddErrorOf<Box<dyn Responder>>;

impl<H: Responder> ModulesOf<H> {
    ghost use Rattle.pm_modules.specs.Modules.{overlaps, ranged, ranges, refusal, says_of};

    /// No modules, with room for eight. No later call takes memory.
    ///
    /// # Errors
    ///
    /// `NoMemory` if there is not enough memory.
    pub fn new(alloc: Global) -> Result<ModulesOf<H>, NoMemory>
        ensures { IfOk result (λ modules. ranges H.Responder modules ≡ []) }
    {
        match Vec::with_capacity(alloc, ROOM) {
            Ok(modules) => Ok(ModulesOf { modules }),
            Err(_) => Err(NoMemory),
        }
    }

    /// Whether the range of a module has a word of one that is here.
    fn overlaps(&self, added: &ModuleOf<H>) -> bool
        ensures { result ≡ overlaps H.Responder added.now self.now }
    {
        for module in self.modules.as_slice() {
            if added.overlaps(module) {
                return true;
            }
        }
        false
    }

    /// Adds a module after the others.
    ///
    /// # Errors
    ///
    /// `Overlap` if a word is in its range and in that of a module that is stored, and else `Full` if
    /// eight are stored. Both hand the module back, and nothing changes.
    pub fn add(&mut self, added: ModuleOf<H>) -> Result<(), AddErrorOf<H>>
        ensures added { OnOk result (ranges H.Responder self.new
            ≡ ranges H.Responder self.old ++ ranged H.Responder added ∷ []) }
        ensures fits { OnOk result (refusal H.Responder added self.old ≡ None) }
        ensures refused { IfErr result (λ error. refusal H.Responder added self.old ≡ Some error) }
        ensures kept { OnErr result (self.new ≡ self.old) }
    {
        if self.overlaps(&added) {
            return Err(AddErrorOf::Overlap(added));
        }
        if self.modules.len() >= ROOM {
            return Err(AddErrorOf::Full(added));
        }
        self.modules.push_reserved(added);
        Ok(())
    }

    /// What the handler says whose range has the message's API word, and nothing if no range has it.
    pub fn answer(&self, message: &Message) -> Option<Response>
        ensures { result ≡ says_of H.Responder self.now message.now }
    {
        if message.api < FIRST_WORD {
            return None;
        }
        for module in self.modules.as_slice() {
            if module.has_word(message.api) {
                return Some(module.serve(message));
            }
        }
        None
    }
}
