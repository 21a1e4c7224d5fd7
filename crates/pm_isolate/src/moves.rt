//! A log of the units that moved in a script line, by their places, and whether a mode may have changed.

ghost use Rattle.std.specs.Prelude.{◌≡◌, [], false, IfOk};
ghost use Rattle.pm_isolate.specs.Moves.{cleared, with_place, with_turn, with_unit, with_units};

use pm_base::{BoundedList, NoMemory, Unit};
use pm_topology::UnitMap;
use std::alloc::Global;
use std::marker::Model;

/// The places of the units that moved in a script line, or all places if there was no room for one more; and whether
/// a processor may have changed its mode. Contracts see all three.
#[derive(Drop)]
pub struct Moves {
    places: BoundedList<usize>,
    room: usize,
    all: bool,
    modes: bool,
}

impl Model for Moves {
    ghost use Rattle.std.specs.Prelude.{◌≡◌};
    ghost use Rattle.pm_isolate.specs.Moves.{Logged};

    ghost Value = { Logged };

    ghost view = { λ moves. record { places = moves.places; all = moves.all; modes = moves.modes } };

    ghost invariant = { λ moves. moves.room ≡ moves.places.room };
}

impl Moves {
    /// An empty log, with room for so many places.
    ///
    /// # Errors
    ///
    /// `NoMemory` if there is not enough memory.
    pub fn load(alloc: Global, room: usize) -> Result<Moves, NoMemory>
        ensures { IfOk result (λ moves. moves
            ≡ record { places = record { items = []; room = room }; all = false; modes = false }) }
    {
        let places = BoundedList::with_room(alloc, room)?;
        Ok(Moves {
            places,
            room,
            all: false,
            modes: false,
        })
    }

    /// Empties the log: no place, and no change of a mode.
    pub fn clear(&mut self)
        ensures { self.new ≡ cleared self.old }
    {
        self.places.clear();
        self.all = false;
        self.modes = false;
    }

    /// Whether all places count as logged, for want of room.
    pub fn all(&self) -> bool
        ensures { result ≡ self.now.all }
    {
        self.all
    }

    /// Whether a processor may have changed its mode.
    pub fn modes(&self) -> bool
        ensures { result ≡ self.now.modes }
    {
        self.modes
    }

    /// The logged places. A place may occur more than once.
    pub fn places(&self) -> &[usize]
        ensures { result.now ≡ self.now.places.items }
    {
        self.places.as_slice()
    }

    /// Logs whether a processor went to a mode in a step.
    pub fn add_turn(&mut self, turned: bool)
        ensures { self.new ≡ with_turn turned self.old }
    {
        self.modes = self.modes || turned;
    }

    /// Logs the place of each of these units.
    pub fn add_units(&mut self, marks: &UnitMap<bool>, units: &[Unit])
        ensures { self.new ≡ with_units marks.now units.now self.old }
    {
        for unit in units {
            self.add_unit(marks, *unit);
        }
    }

    /// Logs the place of a unit, if it has one.
    fn add_unit(&mut self, marks: &UnitMap<bool>, unit: Unit)
        ensures { self.new ≡ with_unit marks.now self.old unit }
    {
        if let Some(place) = marks.place(unit) {
            self.add(place);
        }
    }

    /// Logs a place; or all places, if there is no room for it.
    fn add(&mut self, place: usize)
        ensures { self.new ≡ with_place place self.old }
    {
        if self.places.as_slice().len() < self.room {
            self.places.push(place);
        } else {
            self.all = true;
        }
    }
}
