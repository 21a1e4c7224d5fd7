//! The version of the interface.

ghost use Rattle.std.specs.Prelude.{◌≡◌};

/// The version of the interface in this library, as `PMU_VERSION` of its header has it: 10,000 times the major
/// number, plus 100 times the minor one, plus the patch. 100 is version 0.1.0.
#[unsafe(no_mangle)]
pub extern "C" fn pmu_version() -> u32
    ensures { result ≡ 100 }
{
    100
}
