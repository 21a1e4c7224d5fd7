//! The table of a chip: its slaves with their states, its processors, power nodes, reset lines and
//! masters, and the rules that such a table keeps.
#![tactic(auto)]

pub mod check;
pub mod faults;
pub mod laws;
pub mod masters;
pub mod places;
pub mod topology;
pub mod unit_map;
pub mod units;

pub use faults::{TopoCause, TopoFault};
pub use laws::{kinds_are_exact, unit_map_places, unit_maps, units_stand_in_order};
pub use places::Kind;
pub use topology::{
    LineDef, MasterDef, PowerDef, ProcDef, SlaveDef, SlaveState, Topology, list_of,
};
pub use unit_map::UnitMap;
pub use units::{
    has_unit, is_before, kind_needs_power, needs_in, needs_power, parent_of_unit, same_unit,
    units_of,
};
