//! The chip of the tests.

use crate::rows::boxed;
use pm_chip::zynqmp;
use pm_topology::Topology;
use std::alloc::Global;
use std::test::Fail;

/// The chip's topology, without a contract: the tests need none.
pub(crate) fn chip(alloc: Global) -> Result<Box<Topology>, Fail> {
    Ok(boxed(alloc, zynqmp(alloc)?)?)
}
