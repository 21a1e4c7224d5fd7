//! The calls by their words (Arm DEN0022, function identifiers).

ghost use Rattle.std.specs.Prelude.{◌≡◌};
ghost use Rattle.pm_psci.specs.Calls.{function_of, low_word, high_word};

use pm_base::NodeId;

/// A call by a processor: the number of the function, and its arguments. Missing arguments are 0.
#[derive(Clone, Copy, Debug, PartialEq, Eq)]
pub struct Smc {
    pub proc: NodeId,
    pub function: u32,
    pub args: [u64; 3],
}

/// What a call asks for. Targets are the processors of master 1 by their places, counted from 0. The context of
/// CPU_ON is left out, since nothing depends on it.
#[derive(Clone, Copy, Debug, PartialEq, Eq)]
pub enum Function {
    /// The target starts at the entry.
    CpuOn { target: u64, entry: u64 },
    /// The caller goes off.
    CpuOff,
    /// Whether the target is on. The level counts the levels of affinity that are left out, and is to be 0.
    AffinityInfo { target: u64, level: u32 },
    SystemOff,
    SystemReset,
    /// Any other number of a function.
    Unknown,
}

/// The function that a call asks for. CPU_ON and AFFINITY_INFO have a form of 32 bits, of whose arguments the low
/// words alone count, and one of 64 bits.
pub fn decode_function(smc: &Smc) -> Function
    ensures { result ≡ function_of smc.now }
{
    let [first, second, ..] = smc.args;
    match smc.function {
        0x8400_0002 => Function::CpuOff,
        0x8400_0003 => Function::CpuOn {
            target: u64::from(low_word(first)),
            entry: u64::from(low_word(second)),
        },
        0xC400_0003 => Function::CpuOn {
            target: first,
            entry: second,
        },
        0x8400_0004 => Function::AffinityInfo {
            target: u64::from(low_word(first)),
            level: low_word(second),
        },
        0xC400_0004 => Function::AffinityInfo {
            target: first,
            level: low_word(second),
        },
        0x8400_0008 => Function::SystemOff,
        0x8400_0009 => Function::SystemReset,
        _ => Function::Unknown,
    }
}

/// The low word of 64 bits.
pub(crate) fn low_word(word: u64) -> u32
    ensures { result ≡ low_word word }
{
    (word % 0x1_0000_0000) as u32
}

/// The high word of 64 bits.
pub(crate) fn high_word(word: u64) -> u32
    ensures { result ≡ high_word word }
{
    (word / 0x1_0000_0000) as u32
}
