//! Each permission over an object that gives it, beside the nearest one that doesn't.

use crate::rows::boxed;
use pm_object::Object;
use pm_objtext::build;
use std::alloc::Global;
use std::test::Fail;

/// The beginning of each object's text.
pub(crate) const HEAD: &str = "header\nsection masters\n";

/// Masters 1 and 7, neither of which may suspend or wake another.
const MASTERS: &str = "header\nsection masters\nmaster 1 0x1 0 0 0\nmaster 7 0x100 0 0 0\n";

/// A master's request: to use a slave, to suspend or wake a master, to force a node, to reset by a line, to shut down
/// by a subtype, or to set the configuration.
#[derive(Clone, Copy)]
pub(crate) enum Wish {
    Use(u32, u32),
    Suspend(u32, u32),
    Wake(u32, u32),
    Force(u32, u32),
    Reset(u32, u32),
    Shut(u32, u32),
    Configure(u32),
}

/// A row: the rest of an object's text, a request, and whether the master may make it.
pub(crate) type Permission = (&'static str, Wish, bool);

/// The section of slaves.
const USES: &[Permission] = &[
    // alone, and among others
    ("section slaves\nslave 33 0 0x100\n", Wish::Use(7, 33), true),
    ("section slaves\nslave 33 0 0x101\n", Wish::Use(7, 33), true),
    ("section slaves\nslave 33 0 0x101\n", Wish::Use(1, 33), true),
    (
        "section slaves\nslave 34 0 0x1\nslave 33 0 0xFFFFFFFF\n",
        Wish::Use(7, 33),
        true,
    ),
    // without the master's bit, in the record of another slave, in another section, in none
    (
        "section slaves\nslave 33 0 0x001\n",
        Wish::Use(7, 33),
        false,
    ),
    (
        "section slaves\nslave 33 0 0xFFFFFEFF\n",
        Wish::Use(7, 33),
        false,
    ),
    (
        "section slaves\nslave 34 0 0x100\n",
        Wish::Use(7, 33),
        false,
    ),
    ("section power\npower 33 0x100\n", Wish::Use(7, 33), false),
    ("", Wish::Use(7, 33), false),
    // a master that isn't configured, and nodes that are no slaves
    (
        "section slaves\nslave 33 0 0x200\n",
        Wish::Use(8, 33),
        false,
    ),
    (
        "section slaves\nslave 10 0 0x100\n",
        Wish::Use(7, 10),
        false,
    ),
    ("section slaves\nslave 7 0 0x100\n", Wish::Use(7, 7), false),
    (
        "section slaves\nslave 99 0 0x100\n",
        Wish::Use(7, 99),
        false,
    ),
];

/// The suspend word of a master.
const SUSPENDS: &[Permission] = &[
    // alone, among others, and oneself
    (
        "master 1 0x1 0 0x100 0\nmaster 7 0x100 0 0 0\n",
        Wish::Suspend(1, 7),
        true,
    ),
    (
        "master 1 0x1 0 0x301 0\nmaster 7 0x100 0 0 0\n",
        Wish::Suspend(1, 7),
        true,
    ),
    (
        "master 1 0x1 0 0x301 0\nmaster 7 0x100 0 0 0\n",
        Wish::Suspend(1, 1),
        true,
    ),
    // without the other's bit, by the other word
    (
        "master 1 0x1 0 0x001 0\nmaster 7 0x100 0 0 0\n",
        Wish::Suspend(1, 7),
        false,
    ),
    (
        "master 1 0x1 0 0xFFFFFEFF 0\nmaster 7 0x100 0 0 0\n",
        Wish::Suspend(1, 7),
        false,
    ),
    (
        "master 1 0x1 0 0x100 0\nmaster 7 0x100 0 0 0\n",
        Wish::Suspend(1, 1),
        false,
    ),
    (
        "master 1 0x1 0 0 0x100\nmaster 7 0x100 0 0 0\n",
        Wish::Suspend(1, 7),
        false,
    ),
    // the other way, and masters that aren't configured
    (
        "master 1 0x1 0 0x100 0\nmaster 7 0x100 0 0 0\n",
        Wish::Suspend(7, 1),
        false,
    ),
    (
        "master 1 0x1 0 0x200 0\nmaster 7 0x100 0 0 0\n",
        Wish::Suspend(1, 8),
        false,
    ),
    (
        "master 1 0x1 0 0x100 0\nmaster 7 0x100 0 0 0\n",
        Wish::Suspend(8, 7),
        false,
    ),
];

/// The wake word of a master.
const WAKES: &[Permission] = &[
    // alone, among others, and oneself
    (
        "master 1 0x1 0 0 0x100\nmaster 7 0x100 0 0 0\n",
        Wish::Wake(1, 7),
        true,
    ),
    (
        "master 1 0x1 0 0 0x301\nmaster 7 0x100 0 0 0\n",
        Wish::Wake(1, 7),
        true,
    ),
    (
        "master 1 0x1 0 0 0x301\nmaster 7 0x100 0 0 0\n",
        Wish::Wake(1, 1),
        true,
    ),
    // without the other's bit, by the other word
    (
        "master 1 0x1 0 0 0x001\nmaster 7 0x100 0 0 0\n",
        Wish::Wake(1, 7),
        false,
    ),
    (
        "master 1 0x1 0 0 0xFFFFFEFF\nmaster 7 0x100 0 0 0\n",
        Wish::Wake(1, 7),
        false,
    ),
    (
        "master 1 0x1 0 0 0x100\nmaster 7 0x100 0 0 0\n",
        Wish::Wake(1, 1),
        false,
    ),
    (
        "master 1 0x1 0 0x100 0\nmaster 7 0x100 0 0 0\n",
        Wish::Wake(1, 7),
        false,
    ),
    // the other way, and masters that aren't configured
    (
        "master 1 0x1 0 0 0x100\nmaster 7 0x100 0 0 0\n",
        Wish::Wake(7, 1),
        false,
    ),
    (
        "master 1 0x1 0 0 0x200\nmaster 7 0x100 0 0 0\n",
        Wish::Wake(1, 8),
        false,
    ),
    (
        "master 1 0x1 0 0 0x100\nmaster 7 0x100 0 0 0\n",
        Wish::Wake(8, 7),
        false,
    ),
];

/// The section of power nodes.
const FORCES: &[Permission] = &[
    // a power node, alone and among others, and a processor
    ("section power\npower 10 0x100\n", Wish::Force(7, 10), true),
    (
        "section power\npower 9 0x1\npower 10 0x101\n",
        Wish::Force(7, 10),
        true,
    ),
    ("section power\npower 2 0x100\n", Wish::Force(7, 2), true),
    // without the master's bit, in the record of another node, in another section, in none
    ("section power\npower 10 0x001\n", Wish::Force(7, 10), false),
    (
        "section power\npower 10 0xFFFFFEFF\n",
        Wish::Force(7, 10),
        false,
    ),
    ("section power\npower 9 0x100\n", Wish::Force(7, 10), false),
    ("section reset\nreset 2 0x100\n", Wish::Force(7, 2), false),
    ("", Wish::Force(7, 10), false),
    // a master that isn't configured, a slave, and no node
    ("section power\npower 10 0x200\n", Wish::Force(8, 10), false),
    ("section power\npower 33 0x100\n", Wish::Force(7, 33), false),
    ("section power\npower 99 0x100\n", Wish::Force(7, 99), false),
];

/// The section of reset lines.
const RESETS: &[Permission] = &[
    // the line of a slave, alone and among others, and that of a processor
    ("section reset\nreset 33 0x100\n", Wish::Reset(7, 33), true),
    (
        "section reset\nreset 34 0x1\nreset 33 0x101\n",
        Wish::Reset(7, 33),
        true,
    ),
    ("section reset\nreset 2 0x100\n", Wish::Reset(7, 2), true),
    // without the master's bit, in the record of another line, in another section, in none
    ("section reset\nreset 33 0x001\n", Wish::Reset(7, 33), false),
    (
        "section reset\nreset 33 0xFFFFFEFF\n",
        Wish::Reset(7, 33),
        false,
    ),
    ("section reset\nreset 34 0x100\n", Wish::Reset(7, 33), false),
    ("section power\npower 33 0x100\n", Wish::Reset(7, 33), false),
    ("", Wish::Reset(7, 33), false),
    // a master that isn't configured, and lines that the chip doesn't have
    ("section reset\nreset 33 0x200\n", Wish::Reset(8, 33), false),
    ("section reset\nreset 10 0x100\n", Wish::Reset(7, 10), false),
    (
        "section reset\nreset 1000 0x100\n",
        Wish::Reset(7, 1000),
        false,
    ),
];

/// The section of shutdowns.
const SHUTDOWNS: &[Permission] = &[
    // the master itself, with no record, and with one that lacks its bit
    ("", Wish::Shut(7, 0), true),
    ("section shutdown\nshutdown 0 0x1\n", Wish::Shut(7, 0), true),
    // the two subtypes that want a record
    (
        "section shutdown\nshutdown 1 0x100\n",
        Wish::Shut(7, 1),
        true,
    ),
    (
        "section shutdown\nshutdown 1 0x1\nshutdown 2 0x101\n",
        Wish::Shut(7, 2),
        true,
    ),
    // without the master's bit, by the record of another subtype, by none
    (
        "section shutdown\nshutdown 1 0x001\n",
        Wish::Shut(7, 1),
        false,
    ),
    (
        "section shutdown\nshutdown 2 0xFFFFFEFF\n",
        Wish::Shut(7, 2),
        false,
    ),
    (
        "section shutdown\nshutdown 2 0x100\n",
        Wish::Shut(7, 1),
        false,
    ),
    (
        "section shutdown\nshutdown 1 0x100\n",
        Wish::Shut(7, 2),
        false,
    ),
    ("", Wish::Shut(7, 1), false),
    // masters that aren't configured, and an unknown subtype
    ("", Wish::Shut(8, 0), false),
    (
        "section shutdown\nshutdown 1 0x200\n",
        Wish::Shut(8, 1),
        false,
    ),
    (
        "section shutdown\nshutdown 3 0xFFFFFFFF\n",
        Wish::Shut(7, 3),
        false,
    ),
];

/// The section of set-configuration.
const CONFIGURATIONS: &[Permission] = &[
    ("section config\nconfig 0x100 0\n", Wish::Configure(7), true),
    ("section config\nconfig 0x301 0\n", Wish::Configure(7), true),
    // without the master's bit, by the overlay mask, by no section
    (
        "section config\nconfig 0x001 0\n",
        Wish::Configure(7),
        false,
    ),
    (
        "section config\nconfig 0xFFFFFEFF 0\n",
        Wish::Configure(7),
        false,
    ),
    (
        "section config\nconfig 0 0x100\n",
        Wish::Configure(7),
        false,
    ),
    ("", Wish::Configure(7), false),
    // a master that isn't configured
    (
        "section config\nconfig 0x200 0\n",
        Wish::Configure(8),
        false,
    ),
];

/// The beginnings of the objects of each list, and the list.
pub(crate) static LISTS: [(&str, &[Permission]); 7] = [
    (MASTERS, USES),
    (HEAD, SUSPENDS),
    (HEAD, WAKES),
    (MASTERS, FORCES),
    (MASTERS, RESETS),
    (MASTERS, SHUTDOWNS),
    (MASTERS, CONFIGURATIONS),
];

/// The object of a text with this beginning and this rest.
pub(crate) fn object_of(alloc: Global, head: &str, rest: &str) -> Result<Box<Object>, Fail> {
    let mut text = Vec::from_slice(alloc, head.as_bytes())?;
    text.extend_from_slice(rest.as_bytes())?;
    let object = build(alloc, &text)?;
    Ok(boxed(alloc, object)?)
}
