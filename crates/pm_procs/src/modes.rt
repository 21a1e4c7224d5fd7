//! The modes of processors, and the mode of several of them together.

ghost use Rattle.std.specs.Prelude.{◌≡◌};
ghost use Rattle.pm_procs.specs.Modes.{is_awake, mode_number, same_mode};

use pm_base::Mode;

/// The number by which a mode is told: 0 off, 1 active, 2 asleep, 3 suspending.
pub fn mode_number(mode: Mode) -> u32
    ensures { result ≡ mode_number mode }
{
    match mode {
        Mode::Off => 0,
        Mode::Active => 1,
        Mode::Asleep => 2,
        Mode::Suspending => 3,
    }
}

/// Whether two modes are the same.
pub fn same_mode(a: Mode, b: Mode) -> bool
    ensures { result ≡ same_mode a b }
{
    mode_number(a) == mode_number(b)
}

/// Whether a processor in this mode runs, and so needs its power node: it is active or suspending.
pub fn is_awake(mode: Mode) -> bool
    ensures { result ≡ is_awake mode }
{
    matches!(mode, Mode::Active | Mode::Suspending)
}
