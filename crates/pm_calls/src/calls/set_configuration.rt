//! PM_SET_CONFIGURATION (UG1200; UG1137, configuration object).

ghost use Rattle.std.specs.Prelude.{◌≡◌, [], ◌∷◌};
ghost use Rattle.pm_state.specs.Changes.{written_along};
ghost use Rattle.pm_grants.specs.Grants.{permits_configure};
ghost use Rattle.pm_ipi.specs.Status.{invalid_parameter};
ghost use Rattle.pm_object.specs.Causes.{cause_number};
ghost use Rattle.pm_calls.specs.Verdict.{stages_of, verdict_of};
ghost use Rattle.pm_state.specs.Objects.{found_at};
ghost use Rattle.pm_state.specs.Stages.{after_stages};
ghost use Rattle.pm_state.specs.State.{grants_in};
ghost use Rattle.pm_calls.specs.calls.SetConfiguration.{set_configuration};

use crate::verdict::{Say, Verdict};
use pm_ipi::Response;
use pm_ipi::status::{INVALID_PARAMETER, NO_ACCESS};
use pm_object::ObjectFault;
use pm_state::{Changes, Found, Tables};

/// Puts the object that is attached at the address in force, and removes all notifiers.
/// Refused with INVALID_PARAMETER if no object there can be put in force, and NO_ACCESS if the object in force
/// doesn't permit the call.
pub fn serve(
    tables: &mut Tables,
    changes: &mut Changes,
    master: usize,
    address: u32,
    verdict: &mut Verdict,
)
    ensures verdict { verdict.new ≡ verdict_of
        (set_configuration (found_at address tables.old.fixed) (permits_configure (grants_in tables.old) master)) }
    ensures book { tables.new ≡ after_stages
        (stages_of (set_configuration (found_at address tables.old.fixed)
        (permits_configure (grants_in tables.old) master)))
        tables.old }
    ensures written { changes.new ≡ written_along
        (stages_of (set_configuration (found_at address tables.old.fixed) (permits_configure (grants_in tables.old) master)))
        tables.old changes.old }
{
    match tables.found(address) {
        Found::Nothing | Found::Unusable => verdict.refuse(INVALID_PARAMETER),
        Found::Unreadable(fault) => verdict.refuse_by(unreadable(fault)),
        Found::Usable(k) => {
            if !tables.grants().permits_configure(master) {
                return verdict.refuse(NO_ACCESS);
            }
            tables.enforce_stage(k, changes);
            verdict.say(Say::Unwatch)
        }
    }
}

/// The refusal for attached words that are no object: INVALID_PARAMETER, the number of the cause, and the place of
/// the fault in words from the front.
fn unreadable(fault: ObjectFault) -> Response
    ensures { result ≡ record {
      status = invalid_parameter;
      words = cause_number fault.cause ∷ fault.offset ∷ 0 ∷ [];
    } }
{
    Response {
        status: INVALID_PARAMETER,
        words: [fault.cause.number(), fault.offset, 0],
    }
}
