//! Modules by their ranges of words.

use pm_base::{Message, NoMemory};
use pm_ipi::Response;
use pm_modules::{AddError, Echo, Masked, Module, Modules, Responder};
use std::alloc::Global;
use std::process::Abort;
use std::test::Fail;

/// A handler with another response to each word: status 7, the word, its double and the fifth argument.
#[derive(Drop)]
struct Telling;

impl Responder for Telling {
    ghost use Rattle.test_handlers.specs.Telling.{told};

    ghost says = { λ _. told };

    fn serve(&self, message: &Message) -> Response {
        Response {
            status: 7,
            words: [
                message.api,
                message.api.wrapping_add(message.api),
                message.args[4],
            ],
        }
    }
}

/// A handler with one response to all: status 0 and a word.
#[derive(Drop)]
struct Constant {
    word: u32,
}

impl Responder for Constant {
    ghost use Rattle.test_handlers.specs.Telling.{constant};

    ghost says = { λ responder. constant responder.word };

    fn serve(&self, _message: &Message) -> Response {
        Response {
            status: 0,
            words: [self.word, 0, 0],
        }
    }
}

/// Fails the test if a table has a wrong row; `wrong` is the index of the first one.
fn all_right(rt: &impl Abort, wrong: Option<usize>) {
    assert_eq!(rt; wrong, None);
}

/// The outcome of adding a module.
#[derive(Clone, Copy, Debug, PartialEq, Eq)]
enum Added {
    Done,
    Overlaps,
    IsFull,
}

fn result_of(adding: Result<(), AddError>) -> Added {
    match adding {
        Ok(()) => Added::Done,
        Err(AddError::Overlap(_)) => Added::Overlaps,
        Err(AddError::Full(_)) => Added::IsFull,
    }
}

/// Adds a module that responds to these words with a constant word.
fn add(
    alloc: Global,
    modules: &mut Modules,
    range: (u32, u32),
    word: u32,
) -> Result<Added, NoMemory> {
    let handler = Box::new(alloc, Constant { word }).map_err(|_| NoMemory)?;
    let (first, last) = range;
    if first < 256 || last < first || 65535 < last {
        return Ok(Added::Done);
    }
    Ok(result_of(modules.add(Module::new(first, last, handler))))
}

/// The two modules of the program.
fn programs_modules(alloc: Global) -> Result<Modules, NoMemory> {
    let mut modules = Modules::new(alloc)?;
    let echo = Box::new(alloc, Echo).map_err(|_| NoMemory)?;
    let _ = result_of(modules.add(Module::new(256, 259, echo)));
    let masked = Box::new(alloc, Masked { mask: 255 }).map_err(|_| NoMemory)?;
    let _ = result_of(modules.add(Module::new(260, 263, masked)));
    Ok(modules)
}

/// A row: an API word, its arguments, and the status and words of the response, if a module answers it.
type Row = (u32, [u32; 5], Option<(u32, [u32; 3])>);

static PROGRAMS: [Row; 12] = [
    (256, [7, 8, 9, 0, 0], Some((0, [7, 8, 9]))),
    (256, [7, 8, 9, 10, 11], Some((0, [7, 8, 9]))),
    (256, [0, 0, 0, 0, 0], Some((0, [0, 0, 0]))),
    (
        259,
        [1, 0xFFFF_FFFF, 3, 0, 0],
        Some((0, [1, 0xFFFF_FFFF, 3])),
    ),
    (260, [511, 0, 0, 0, 0], Some((0, [255, 0, 0]))),
    (260, [256, 9, 9, 9, 9], Some((0, [0, 0, 0]))),
    (263, [0xFFFF_FF0F, 1, 1, 1, 1], Some((0, [15, 0, 0]))),
    (264, [0, 0, 0, 0, 0], None),
    (255, [7, 8, 9, 0, 0], None),
    (0, [0, 0, 0, 0, 0], None),
    (13, [0, 0, 0, 0, 0], None),
    (0xFFFF_FFFF, [0, 0, 0, 0, 0], None),
];

fn status_and_words(response: Response) -> (u32, [u32; 3]) {
    let words = response.words;
    (response.status, words)
}

/// The index of the first row with another response.
fn wrong_answer(modules: &Modules, rows: &[Row]) -> Option<usize> {
    for (place, (api, args, expected)) in rows.iter().enumerate() {
        let message = Message {
            api: *api,
            args: *args,
        };
        let answer = modules.answer(&message);
        if answer.map(status_and_words) != *expected {
            return Some(place);
        }
    }
    None
}

#[test]
fn a_word_is_answered_by_the_handler_of_its_range(rt: HostRuntime) -> Result<(), Fail> {
    let modules = programs_modules(rt.alloc())?;
    all_right(&rt, wrong_answer(&modules, &PROGRAMS));
    Ok(())
}

static TOLD: [Row; 5] = [
    (299, [0, 0, 0, 0, 0], None),
    (300, [1, 2, 3, 4, 5], Some((7, [300, 600, 5]))),
    (301, [1, 2, 3, 4, 5], Some((7, [301, 602, 5]))),
    (302, [0, 0, 0, 0, 0], Some((7, [302, 604, 0]))),
    (303, [0, 0, 0, 0, 0], None),
];

#[test]
fn a_handler_may_say_something_else_to_each_word(rt: HostRuntime) -> Result<(), Fail> {
    let mut modules = Modules::new(rt.alloc())?;
    let telling = Box::new(rt.alloc(), Telling).map_err(|_| NoMemory)?;
    assert_eq!(rt;
        result_of(modules.add(Module::new(300, 302, telling))),
        Added::Done
    );
    all_right(&rt, wrong_answer(&modules, &TOLD));
    Ok(())
}

/// Ranges that are added one after another, with the outcome of each. The word in a range's response is its index.
static RANGES: [((u32, u32), Added); 22] = [
    ((300, 310), Added::Done),
    ((290, 299), Added::Done),
    ((311, 320), Added::Done),
    ((320, 330), Added::Overlaps),
    ((280, 290), Added::Overlaps),
    ((305, 306), Added::Overlaps),
    ((300, 310), Added::Overlaps),
    ((256, 65535), Added::Overlaps),
    ((310, 310), Added::Overlaps),
    ((331, 331), Added::Done),
    ((331, 331), Added::Overlaps),
    ((330, 332), Added::Overlaps),
    ((330, 330), Added::Done),
    ((256, 256), Added::Done),
    ((65535, 65535), Added::Done),
    ((65534, 65535), Added::Overlaps),
    ((257, 289), Added::Done),
    ((321, 329), Added::IsFull),
    ((332, 332), Added::IsFull),
    ((331, 332), Added::Overlaps),
    ((65534, 65534), Added::IsFull),
    ((290, 290), Added::Overlaps),
];

/// The index of the first range with another outcome.
fn wrong_range(alloc: Global, modules: &mut Modules) -> Result<Option<usize>, NoMemory> {
    let mut word = 0u32;
    for (place, (range, expected)) in RANGES.iter().enumerate() {
        if add(alloc, modules, *range, word)? != *expected {
            return Ok(Some(place));
        }
        word = word.wrapping_add(1);
    }
    Ok(None)
}

static RANGES_ANSWER: [Row; 14] = [
    (300, [0; 5], Some((0, [0, 0, 0]))),
    (310, [0; 5], Some((0, [0, 0, 0]))),
    (299, [0; 5], Some((0, [1, 0, 0]))),
    (290, [0; 5], Some((0, [1, 0, 0]))),
    (311, [0; 5], Some((0, [2, 0, 0]))),
    (320, [0; 5], Some((0, [2, 0, 0]))),
    (321, [0; 5], None),
    (330, [0; 5], Some((0, [12, 0, 0]))),
    (331, [0; 5], Some((0, [9, 0, 0]))),
    (332, [0; 5], None),
    (256, [0; 5], Some((0, [13, 0, 0]))),
    (257, [0; 5], Some((0, [16, 0, 0]))),
    (65535, [0; 5], Some((0, [14, 0, 0]))),
    (65534, [0; 5], None),
];

#[test]
fn ranges_have_no_word_in_common_and_there_are_eight(rt: HostRuntime) -> Result<(), Fail> {
    let mut modules = Modules::new(rt.alloc())?;
    let wrong = wrong_range(rt.alloc(), &mut modules)?;
    all_right(&rt, wrong);
    all_right(&rt, wrong_answer(&modules, &RANGES_ANSWER));
    Ok(())
}

#[test]
fn a_module_that_is_not_added_is_handed_back(rt: HostRuntime) -> Result<(), Fail> {
    let mut modules = programs_modules(rt.alloc())?;
    let mut others = Modules::new(rt.alloc())?;
    let handler = Box::new(rt.alloc(), Constant { word: 5 }).map_err(|_| NoMemory)?;
    if let Err(AddError::Overlap(module)) = modules.add(Module::new(258, 260, handler)) {
        assert_eq!(rt; result_of(others.add(module)), Added::Done);
    }
    let message = Message {
        api: 258,
        args: [9; 5],
    };
    assert_eq!(rt;
        others.answer(&message).map(|response| response.words),
        Some([5, 0, 0])
    );
    assert_eq!(rt;
        modules.answer(&message).map(|response| response.words),
        Some([9, 9, 9])
    );
    Ok(())
}
