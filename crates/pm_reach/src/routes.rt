//! The least paths from a master to the masters that it reaches.

ghost use Rattle.std.specs.Prelude.{◌≡◌, ℕ, ◌+◌, ◌<◌, ◌≤◌, ◌++◌, ◌∷◌, ◌==◌, [], length, IfOk, OnOk};
ghost use Rattle.std.specs.List.{list_any};
ghost use Rattle.pm_perms.specs.Several.{masters_of};
ghost use Rattle.pm_reach.specs.declared.members.Why.TheVariants.{Myself};
ghost use Rattle.pm_reach.specs.Paths.{AreLeast};
ghost use Rattle.pm_reach.specs.Search.{IsSearch, longer_if_new};

use crate::leads::{lead, master_count};
use crate::members::Why;
use pm_base::{List, NoMemory};
use pm_object::Object;
use pm_topology::Topology;
use std::alloc::Global;

/// A path of masters, by their places in the objects: where it ends, and for which reason the last but one
/// leads to the last.
#[derive(Debug, Drop)]
pub struct Route {
    pub end: usize,
    pub why: Why,
    pub path: List<usize>,
}

/// The path of a master to itself.
fn start(alloc: Global, from: usize) -> Result<Route, NoMemory>
    ensures { IfOk result (λ route. route ≡ record { end = from; why = Myself; path = from ∷ [] }) }
{
    let mut path = List::new(alloc);
    path.push(from)?;
    Ok(Route {
        end: from,
        why: Why::Myself,
        path,
    })
}

/// A path that goes on from `path` to `end`.
fn longer(alloc: Global, path: &[usize], end: usize, why: Why) -> Result<Route, NoMemory>
    ensures { IfOk result (λ route. route ≡ record { end = end; why = why; path = path.now ++ end ∷ [] }) }
{
    let mut longer = List::new(alloc);
    for place in path {
        longer.push(*place)?;
    }
    longer.push(end)?;
    Ok(Route {
        end,
        why,
        path: longer,
    })
}

/// Whether one of these paths ends at this place.
fn is_found(routes: &[Route], place: usize) -> bool
    ensures { result ≡ list_any (λ r. r.end == place) routes.now }
{
    routes.iter().any(|route| route.end == place)
}

/// The path and one step more, to the master at place `end`, where it leads there and none of the paths
/// found so far ends there.
fn longer_if_new(
    alloc: Global,
    objects: &[Object],
    t: &Topology,
    routes: &List<Route>,
    from: &Route,
    end: usize,
) -> Result<Option<Route>, NoMemory>
    ensures { IfOk result (λ made. made ≡ longer_if_new objects.now t.now routes.now from.now end) }
{
    if is_found(routes.as_slice(), end) {
        return Ok(None);
    }
    match lead(objects, t, from.end, end) {
        Some(why) => Ok(Some(longer(alloc, from.path.as_slice(), end, why)?)),
        None => Ok(None),
    }
}

/// Tries the path at `next` with the master at place `end`.
fn try_end(
    alloc: Global,
    objects: &[Object],
    t: &Topology,
    routes: &mut List<Route>,
    next: usize,
    end: usize,
) -> Result<(), NoMemory>
    requires next { next < length routes.old }
    requires end { end < length (masters_of objects.now) }
    ensures search { (from : ℕ) → IsSearch objects.now t.now from routes.old next end
        → OnOk result (IsSearch objects.now t.now from routes.new next (end + 1)) }
    ensures longer { length routes.old ≤ length routes.new }
{
    if let Some(route) = longer_if_new(alloc, objects, t, routes, routes.get(next), end)? {
        routes.push(route)?;
    }
    Ok(())
}

/// Tries the path at `next` with each master.
fn try_all(
    alloc: Global,
    objects: &[Object],
    t: &Topology,
    routes: &mut List<Route>,
    next: usize,
) -> Result<(), NoMemory>
    requires { next < length routes.old }
    ensures { (from : ℕ) → IsSearch objects.now t.now from routes.old next 0
        → OnOk result (IsSearch objects.now t.now from routes.new (next + 1) 0) }
{
    for end in 0..master_count(objects) {
        try_end(alloc, objects, t, routes, next, end)?;
    }
    Ok(())
}

/// The least path to each master that a path from the master at place `from` leads to, in their order:
/// shorter ones first, and those of one length by the places of their masters.
pub fn least_routes(
    alloc: Global,
    objects: &[Object],
    t: &Topology,
    from: usize,
) -> Result<List<Route>, NoMemory>
    requires { from < length (masters_of objects.now) }
    ensures { IfOk result (λ routes. AreLeast objects.now t.now from routes) }
{
    let mut routes = List::new(alloc);
    routes.push(start(alloc, from)?)?;
    let mut next = 0;
    while next < routes.len() {
        try_all(alloc, objects, t, &mut routes, next)?;
        next += 1;
    }
    Ok(routes)
}
