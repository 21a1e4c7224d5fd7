//! The fields that rows have.

ghost use Rattle.std.specs.Prelude.{◌≡◌, ◌<◌};

use pm_base::{NoMemory, Steps};
use pm_rows::Rows;
use std::alloc::Global;
use std::marker::Brand;
use std::sync::ledger::{Blank, Ledger};
use std::test::Fail;

/// Loads rows without pairs: this names their fields.
fn load_and_name<L: Ledger>(alloc: Global, blank: Blank) -> Result<(), NoMemory>
    requires name { blank.name ≡ L.name }
    requires parts { blank.parts ≡ L.parts }
    requires some { 0 < blank.parts }
{
    let rows = Rows::load(alloc, 1, 1, 0, 0, &[], &mut Steps::<L>::new(blank))?;
    rows.name_fields();
    Ok(())
}

#[test]
fn rows_fields(rt: HostRuntime) -> Result<(), Fail> {
    load_and_name::<Brand>(rt.alloc(), Blank::new(1))?;
    Ok(())
}
