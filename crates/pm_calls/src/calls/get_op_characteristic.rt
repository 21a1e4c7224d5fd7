//! PM_GET_OP_CHARACTERISTIC (UG1200).

ghost use Rattle.std.specs.Prelude.{◌≡◌};
ghost use Rattle.pm_values.specs.Caches.{AreKept};
ghost use Rattle.pm_calls.specs.Characteristics.{characteristics};
ghost use Rattle.pm_calls.specs.Verdict.{verdict_of};
ghost use Rattle.pm_calls.specs.calls.GetOpCharacteristic.{get_op_characteristic};

use crate::characteristics::characteristics_of;
use crate::verdict::Verdict;
use pm_base::NodeId;
use pm_ipi::status::{INVALID_NODE, INVALID_PARAMETER, NO_FEATURE};
use pm_state::Tables;
use pm_values::Caches;

const POWER: u32 = 1;

const TEMPERATURE: u32 = 2;

const LATENCY: u32 = 3;

/// Tells the power figure (characteristic 1) or the latency (3) of a node in its present state. No permission is
/// needed.
/// Refused with INVALID_NODE if the chip has no such node, INVALID_PARAMETER if the characteristic is unknown, and
/// NO_FEATURE for the temperature (2), which the product doesn't know.
pub fn serve(
    tables: &Tables,
    caches: &Caches,
    node: NodeId,
    characteristic: u32,
    verdict: &mut Verdict,
)
    requires { AreKept tables.now caches.now }
    ensures { verdict.new ≡ verdict_of (get_op_characteristic characteristic (characteristics node tables.now)) }
{
    let Some(has) = characteristics_of(tables, caches, node) else {
        return verdict.refuse(INVALID_NODE);
    };
    match characteristic {
        POWER => verdict.tell([has.figure, 0, 0]),
        TEMPERATURE => verdict.refuse(NO_FEATURE),
        LATENCY => verdict.tell([has.latency, 0, 0]),
        _ => verdict.refuse(INVALID_PARAMETER),
    }
}
