//! The boxes of masters.

ghost use Rattle.std.specs.Prelude.{◌≡◌, ◌<◌, length};

use crate::rows::all_right;
use pm_base::{Message, NoMemory};
use pm_ipi::Mail;
use std::alloc::Global;
use std::test::Fail;

/// An act on a box with the expected outcome. A message is known by the number of its call.
#[derive(Clone, Copy)]
enum Act {
    Put(u32),
    IsFull(u32),
    Taken(u32),
    IsEmpty,
}

/// Acts on the boxes of three masters, one after another: each box is filled, is full, and is emptied by itself.
static ACTS: [(usize, Act); 14] = [
    (0, Act::IsEmpty),
    (1, Act::Put(13)),
    (0, Act::IsEmpty),
    (2, Act::IsEmpty),
    (1, Act::IsFull(7)),
    (0, Act::Put(1)),
    (2, Act::Put(21)),
    (1, Act::Taken(13)),
    (1, Act::IsEmpty),
    (0, Act::IsFull(21)),
    (0, Act::Taken(1)),
    (1, Act::Put(7)),
    (1, Act::Taken(7)),
    (2, Act::Taken(21)),
];

fn message_of(api: u32) -> Message {
    Message {
        api,
        args: [api, 2, 3, 4, 5],
    }
}

/// Whether an act on a box has the expected outcome.
fn is_answered(mail: &mut Mail, m: usize, act: Act) -> bool
    requires { m < length mail.old }
    ensures { length mail.new ≡ length mail.old }
{
    match act {
        Act::Put(api) => mail.post(m, message_of(api)),
        Act::IsFull(api) => !mail.post(m, message_of(api)),
        Act::Taken(api) => mail.take(m) == Some(message_of(api)),
        Act::IsEmpty => mail.take(m).is_none(),
    }
}

fn wrong_act(alloc: Global) -> Result<Option<usize>, NoMemory> {
    let mut mail = Mail::load(alloc, 3)?;
    for (place, (m, act)) in ACTS.iter().enumerate() {
        if *m < 3 && !is_answered(&mut mail, *m, *act) {
            return Ok(Some(place));
        }
    }
    Ok(None)
}

#[test]
fn a_box_holds_one_message_until_it_is_taken(rt: HostRuntime) -> Result<(), Fail> {
    all_right(&rt, wrong_act(rt.alloc())?);
    Ok(())
}
