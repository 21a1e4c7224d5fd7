//! The program `pmu`: the top call over the host's files, its standard output, and a device in memory.
#![tactic(auto)]

ghost use Rattle.std.specs.Prelude.{◌≡◌, ◌⊎◌, ℕ, [], IfOk, List as Sequence, MatchResult, None, Option, Some, map, string_bytes};
ghost use Rattle.std.specs.Process.{exit_status};
ghost use Rattle.pm_io.specs.Calls.{Call};
ghost use Rattle.pm_host.specs.Written.{Written};
ghost use Rattle.pm_chip.specs.Chip.{chip};
ghost use Rattle.pm_device.specs.Fresh.{IsFresh};
ghost use Rattle.pm_device.specs.Model.{moment_of};
ghost use Rattle.pm_top.specs.declared.works.Work.TheVariants.{Replay};
ghost use Rattle.pm_top.specs.Form.{form, over, request_of, topology_in};
ghost use Rattle.pm_top.specs.Ran.{IsBeforeRun};
ghost use Rattle.pm_modules.specs.Modules.{ranges};
ghost use Rattle.pm_tasks.specs.Stored.{timetable};
ghost use Rattle.pm_cli.specs.Brought.{AreTwoCounters, programs_modules};
ghost use Rattle.pm_cli.specs.Ended.{AreWordsOf, HasEnded, HasRun, HasRunGiven, MayRun, ProcessEnds, code_of};
ghost use Rattle.pm_cli.specs.Logged.{IsLogOfRun, IsSafeLog};
ghost use Rattle.pm_cli.specs.Replayed.{RunEnded};

mod brought;

use brought::{boxed, modules, tasks};
use pm_base::{Exit, NoMemory};
use pm_chip::zynqmp;
use pm_device::{Device, ModelDevice, chains_are_logged};
use pm_host::{HostInputs, HostSink};
use pm_io::Inputs;
use pm_modules::{Echo, Masked, Modules, Responder};
use pm_replay::logged_acts_are_safe;
use pm_tasks::{Counter, Handler, Tasks};
use pm_top::pm_main;
use std::alloc::Global;
use std::io::Write;
use std::process::ExitCode;
use std::rt::{Env, Files};
use std::{env, io};

fn main(rt: HostRuntime) -> ExitCode {
    end(&rt, words(&rt))
}

/// Runs the words that the host gave, and ends the process with the number of the exit.
fn end<R: Files + Print + AllocGlobal>(rt: &R, words: io::Result<Vec<String>>) -> ExitCode
    ensures { ProcessEnds ⟦<ModelDevice as Device>⟧ words (exit_status result) }
{
    ExitCode::from(code_of(run(rt, words)))
}

/// The number with which the process ends.
fn code_of(exit: Exit) -> u8
    ensures { result ≡ code_of exit }
{
    exit as u8
}

/// Runs these words. The exit is Memory if there is not enough memory to begin.
fn run<R: Files + Print + AllocGlobal>(rt: &R, words: io::Result<Vec<String>>) -> Exit
    ensures { MayRun ⟦<ModelDevice as Device>⟧ words result }
{
    match run_given(rt, words) {
        Ok(exit) => exit,
        Err(NoMemory) => Exit::Memory,
    }
}

/// Runs these words, or fails with `NoMemory` before they are run.
fn run_given<R: Files + Print + AllocGlobal>(
    rt: &R,
    words: io::Result<Vec<String>>,
) -> Result<Exit, NoMemory>
    ensures { IfOk result (HasRunGiven ⟦<ModelDevice as Device>⟧ words) }
{
    let words = texts(rt.alloc(), words)?;
    run_words(rt, words.as_slice())
}

/// The words as texts. If one of them is no text there are none, and so they have no form. Fails with `NoMemory`.
fn texts(alloc: Global, words: io::Result<Vec<String>>) -> Result<Vec<String>, NoMemory>
    ensures { IfOk result (λ texts. AreWordsOf words (map string_bytes texts.items)) }
{
    match words {
        Ok(words) => Ok(words),
        Err(error) if error.kind() == io::ErrorKind::InvalidData => Ok(Vec::new(alloc)),
        Err(_) => Err(NoMemory),
    }
}

/// Runs these words over a new device, or fails with `NoMemory` before they are run.
fn run_words<R: Files + Print + AllocGlobal>(rt: &R, words: &[String]) -> Result<Exit, NoMemory>
    ensures { IfOk result (HasRun ⟦<ModelDevice as Device>⟧ (map string_bytes words.now)) }
{
    let mut device = device(rt.alloc())?;
    run_over(rt, words, &mut device)
}

/// Runs these words over this device, with the program's two modules and two timed tasks, or fails with `NoMemory`
/// before they are run.
fn run_over<R: Files + Print + AllocGlobal>(
    rt: &R,
    words: &[String],
    device: &mut ModelDevice,
) -> Result<Exit, NoMemory>
    requires fresh { IsFresh chip (moment_of device.old) }
    requires log { device.old.log ≡ [] }
    ensures { MatchResult result
        (λ exit. HasEnded ⟦<ModelDevice as Device>⟧ (map string_bytes words.now) exit device.old device.new)
        (λ _. device.old ≡ device.new) }
{
    let alloc = rt.alloc();
    let echo = boxed(alloc, Echo)?;
    let masked = boxed(alloc, Masked { mask: 255 })?;
    let modules = modules::<Box<dyn Responder>>(alloc, echo, masked)?;
    run_with(rt, words, device, &modules)
}

/// Runs these words over this device and these modules, with two tasks that count their calls, or fails with
/// `NoMemory` before they are run.
fn run_with<R: Files + Print + AllocGlobal>(
    rt: &R,
    words: &[String],
    device: &mut ModelDevice,
    modules: &Modules,
) -> Result<Exit, NoMemory>
    requires fresh { IsFresh chip (moment_of device.old) }
    requires log { device.old.log ≡ [] }
    requires modules { ranges ⟦<Box<dyn Responder> as Responder>⟧ modules.now ≡ programs_modules }
    ensures { MatchResult result
        (λ exit. HasEnded ⟦<ModelDevice as Device>⟧ (map string_bytes words.now) exit device.old device.new)
        (λ _. device.old ≡ device.new) }
{
    let alloc = rt.alloc();
    let first = boxed(alloc, Counter { calls: 0 })?;
    let second = boxed(alloc, Counter { calls: 0 })?;
    let mut tasks = tasks::<Box<dyn Handler>>(alloc, first, second)?;
    Ok(work(rt, words, device, modules, &mut tasks))
}

/// Runs these words over a new device, with the host's files and standard output, and the modules and timed tasks of
/// the program. On every exit, the acts on the device are in an order in which nothing is used without power and no
/// domain goes down under its users. If `replay` ends with Done they are those of the whole run of a script, after a
/// fit if the words name a topology.
fn work<R: Files + Print + AllocGlobal>(
    rt: &R,
    words: &[String],
    device: &mut ModelDevice,
    modules: &Modules,
    tasks: &mut Tasks,
) -> Exit
    requires fresh { IsFresh chip (moment_of device.old) }
    requires log { device.old.log ≡ [] }
    requires modules { ranges ⟦<Box<dyn Responder> as Responder>⟧ modules.now ≡ programs_modules }
    requires tasks { AreTwoCounters (timetable ⟦<Box<dyn Handler> as Handler>⟧ tasks.old) }
    // Usage comes only if the words have no form.
    ensures usage { result ≡ Exit.Usage → form (map string_bytes words.now) ≡ None }
    // Before a script is run nothing is done to the device.
    ensures untouched { IsBeforeRun (form (map string_bytes words.now)) result → device.old ≡ device.new }
    ensures safe { IsSafeLog (topology_in (map string_bytes words.now)) device.new.log }
    ensures driven { (named : Option ℕ) → result ≡ Exit.Done
        → request_of (map string_bytes words.now) ≡ Some (over named Replay) → IsLogOfRun named device.new.log }
    // Memory ran out before there were inputs and an output; or some calls decide the exit, and on Done some writer took
    // exactly the text. `run_on` says that these are all calls on the files, and the writer of this output.
    ensures ran { ((result ≡ Exit.Memory) × (device.old ≡ device.new))
        ⊎ ((calls : Sequence Call) × (writer : Written) × RunEnded ⟦<ModelDevice as Device>⟧
        (map string_bytes words.now) calls writer result device.old device.new) }
{
    let Ok(mut inputs) = HostInputs::new(rt.alloc(), rt) else {
        return Exit::Memory;
    };
    let Ok(mut out) = HostSink::new(rt.alloc(), io::writer(rt)) else {
        return Exit::Memory;
    };
    run_on(
        rt.alloc(),
        words,
        &mut inputs,
        &mut out,
        device,
        modules,
        tasks,
    )
}

/// Runs these words over inputs on which no call was made and a sink that has accepted nothing, and hands the sink's
/// bytes on to its writer.
fn run_on<I: Inputs, W: Write + Drop>(
    alloc: Global,
    words: &[String],
    inputs: &mut I,
    out: &mut HostSink<W>,
    device: &mut ModelDevice,
    modules: &Modules,
    tasks: &mut Tasks,
) -> Exit
    requires unread { (I.state inputs.old).calls ≡ [] }
    requires unused { out.old.accepted ≡ [] }
    requires fresh { IsFresh chip (moment_of device.old) }
    requires log { device.old.log ≡ [] }
    requires modules { ranges ⟦<Box<dyn Responder> as Responder>⟧ modules.now ≡ programs_modules }
    requires tasks { AreTwoCounters (timetable ⟦<Box<dyn Handler> as Handler>⟧ tasks.old) }
    // Usage comes only if the words have no form.
    ensures usage { result ≡ Exit.Usage → form (map string_bytes words.now) ≡ None }
    // Before a script is run nothing is done to the device.
    ensures untouched { IsBeforeRun (form (map string_bytes words.now)) result → device.old ≡ device.new }
    ensures safe { IsSafeLog (topology_in (map string_bytes words.now)) device.new.log }
    ensures driven { (named : Option ℕ) → result ≡ Exit.Done
        → request_of (map string_bytes words.now) ≡ Some (over named Replay) → IsLogOfRun named device.new.log }
    // What all calls on the inputs gave decides the exit, and on Done all bytes that the writer took are the text.
    ensures given { RunEnded ⟦<ModelDevice as Device>⟧ (map string_bytes words.now) (I.state inputs.new).calls
        out.new.out result device.old device.new }
{
    logged_acts_are_safe();
    chains_are_logged();
    let exit = pm_main(alloc, words, inputs, out, device, modules, tasks);
    out.finish(exit)
}

/// A device of the chip, with all units at 0. Fails with `NoMemory` if there is not enough memory.
fn device(alloc: Global) -> Result<ModelDevice, NoMemory>
    ensures fresh { IfOk result (λ device. IsFresh chip (moment_of device)) }
    ensures log { IfOk result (λ device. device.log ≡ []) }
{
    ModelDevice::new(alloc, &zynqmp(alloc)?)
}

/// The words after the program's name, or the host's error if one of them is no text.
fn words<R: Env + AllocGlobal>(rt: &R) -> io::Result<Vec<String>> {
    Ok(env::args(rt)?.skip(1).collect(rt.alloc())?)
}
