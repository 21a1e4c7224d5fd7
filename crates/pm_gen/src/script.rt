//! A script of any length, made from a number.

ghost use Rattle.std.specs.Prelude.{◌≡◌, ◌+◌, ◌*◌, ◌++◌, ◌<◌, ◌≤◌, codes, decimal, length, IfOk, OnOk};
ghost use Rattle.pm_gen.specs.Script.{HasMeaning, about, device_at, line_by, line_of, made, next};

use itoa::Buffer;
use pm_base::NoMemory;
use std::alloc::Global;

/// The numbers of the slaves that lines name, in decimal.
const DEVICES: [[u8; 2]; 5] = [*b"11", *b"28", *b"33", *b"39", *b"46"];

/// The first two lines: the configuration is said to be set, and processor 7 starts.
const OPENING: &[u8] = b"ipi 1 21\nboot 7 0\n";

/// The script of a number: two opening lines, and then so many lines. Each of them has a meaning, and none has more than 18
/// bytes. The one error is want of memory.
pub fn make(alloc: Global, n: u32) -> Result<Vec<u8>, NoMemory>
    ensures exact { IfOk result (λ text. text.items ≡ made n) }
    ensures meant { IfOk result (λ text. HasMeaning text.items) }
    ensures short { IfOk result (λ text. length text.items ≤ 18 * (n + 1)) }
{
    let mut text = Vec::new(alloc);
    put(&mut text, OPENING)?;
    let mut state = u64::from(n);
    for _ in 0..n {
        state = next(state);
        put_line(&mut text, state)?;
    }
    Ok(text)
}

/// The number after another: of 64 bits, by Knuth's constants for a linear congruential generator.
fn next(state: u64) -> u64
    ensures { result ≡ next state }
{
    state
        .wrapping_mul(6_364_136_223_846_793_005)
        .wrapping_add(1_442_695_040_888_963_407)
}

/// Puts the line of a number at the end. Its bits from 33 on count: the low four of them say the kind of the line.
fn put_line(text: &mut Vec<u8>, state: u64) -> Result<(), NoMemory>
    ensures { OnOk result (text.new.items ≡ text.old.items ++ line_of state) }
{
    let upper = state >> 33;
    put_kind(text, upper % 16, upper / 16)
}

/// Puts the line of a kind at the end: the rest of its number says which slave it names, or how long a tick is.
fn put_kind(text: &mut Vec<u8>, kind: u64, rest: u64) -> Result<(), NoMemory>
    requires { kind < 16 }
    ensures { OnOk result (text.new.items ≡ text.old.items ++ line_by kind rest) }
{
    match kind {
        0 | 1 => put_about(text, b"ipi 1 13 ", &device(rest), b" 1 0 2\n"),
        2 | 3 => put_about(text, b"ipi 1 14 ", &device(rest), b"\n"),
        4 | 5 => put_about(text, b"ipi 7 13 ", &device(rest), b" 1 0 2\n"),
        6 => put_about(text, b"ipi 7 14 ", &device(rest), b"\n"),
        7 => put(text, b"ipi 1 11 2 46 1\n"),
        8 => put(text, b"ipi 1 7 2 0 0 0 0\n"),
        9 => put(text, b"wfi 2\n"),
        10 => put(text, b"irq 46\n"),
        11 => put(text, b"gic 2\n"),
        12 => put_about(text, b"ipi 1 15 ", &device(rest), b" 0 0 2\n"),
        13 => put_about(text, b"ipi 7 15 ", &device(rest), b" 1 0 2\n"),
        14 => put_tick(text, (rest % 50) as u32),
        _ => put(text, b"boot 7 0\n"),
    }
}

/// The number of the slave that a number names, in decimal.
fn device(rest: u64) -> [u8; 2]
    ensures { result ≡ decimal (device_at rest) }
{
    DEVICES[(rest % 5) as usize]
}

/// Puts the line of a tick at the end.
#[inline(never)]
fn put_tick(text: &mut Vec<u8>, length: u32) -> Result<(), NoMemory>
    ensures { OnOk result (text.new.items ≡ text.old.items ++ about (codes "tick ") length (codes "\n")) }
{
    put_about(
        text,
        b"tick ",
        Buffer::new().format(length).as_bytes(),
        b"\n",
    )
}

/// Puts a number, in decimal, between two texts at the end.
#[inline]
fn put_about(text: &mut Vec<u8>, before: &[u8], number: &[u8], after: &[u8]) -> Result<(), NoMemory>
    ensures { OnOk result (text.new.items ≡ text.old.items ++ before.now ++ number.now ++ after.now) }
{
    put(text, before)?;
    put(text, number)?;
    put(text, after)
}

/// Puts bytes at the end.
fn put(text: &mut Vec<u8>, more: &[u8]) -> Result<(), NoMemory>
    ensures { OnOk result (text.new.items ≡ text.old.items ++ more.now) }
{
    text.extend_from_slice(more).map_err(|_| NoMemory)
}
