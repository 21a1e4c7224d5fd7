//! One row: what a master requires of a slave.

ghost use Rattle.std.specs.Prelude.{◌≡◌, false};
ghost use Rattle.pm_rows.specs.declared.row.Change.TheVariants.{Request, Release, Limit};
ghost use Rattle.pm_rows.specs.Filling.{is_blank};
ghost use Rattle.pm_rows.specs.Passes.{is_idle, rests};
ghost use Rattle.pm_rows.specs.Rows as spec;
ghost use Rattle.pm_rows.specs.Rows.{applied, pair_of, set_in, is_at, is_of_other, is_rival, is_user};

use pm_base::{Caps, Mode, NodeId};

/// A permitted pair: the place of the master in the object, the place of the slave in the table,
/// whether several masters may use the slave at a time, the slave's capabilities, and those with which the
/// master starts from off.
#[derive(Clone, Copy, Debug, PartialEq, Eq)]
pub struct Pair {
    pub master: usize,
    pub slave: usize,
    pub shareable: bool,
    pub all: Caps,
    pub preset: Caps,
}

/// A permitted pair with what its row has at first: the capabilities with which the slave is in use from
/// then on, if it is, and whether it is held.
#[derive(Clone, Copy, Debug, PartialEq, Eq)]
pub struct RowSeed {
    pub master: usize,
    pub slave: usize,
    pub shareable: bool,
    pub all: Caps,
    pub preset: Caps,
    pub start: Option<Caps>,
    pub hold: bool,
}

/// What a master requires of a slave: whether it uses it, the capabilities that it wants now and those
/// that are scheduled for the next change of its mode, those with which it starts from off, whether the
/// slave is held for it until it finishes its initialization, the processor that the slave's interrupt
/// wakes, if it is armed, and the greatest latency that it allows.
#[derive(Clone, Copy, Debug, PartialEq, Eq)]
pub struct Row {
    pub used: bool,
    pub now: Caps,
    pub next: Caps,
    pub preset: Caps,
    pub hold: bool,
    pub armed: Option<NodeId>,
    pub latency: Option<u32>,
}

/// A row, and the pair to which it belongs. The pair never changes.
#[derive(Clone, Copy, Debug, PartialEq, Eq)]
pub struct Entry {
    pub seed: Pair,
    pub row: Row,
}

/// A change of one row.
#[derive(Clone, Copy, Debug, PartialEq, Eq)]
pub enum Change {
    /// The row is used from now on, with these capabilities.
    Request(Caps),
    /// The row isn't used any more, and requires nothing. Its arming and its hold stay.
    Release,
    /// The row requires these capabilities: at once if its master is active, and from its sleep on
    /// if it is suspending. In another mode nothing changes.
    Set(Mode, Caps),
    /// The row allows this latency at most.
    Limit(u32),
    /// The slave's interrupt wakes this processor, or none.
    Arm(Option<NodeId>),
}

impl Row {
    /// The row with nothing but its preset.
    pub(crate) fn cleared(self) -> Row
        ensures { result ≡ spec.cleared self }
    {
        Row {
            used: false,
            now: Caps(0),
            next: Caps(0),
            preset: self.preset,
            hold: false,
            armed: None,
            latency: None,
        }
    }

    /// The row without its hold.
    pub(crate) fn settled(self) -> Row
        ensures { result ≡ record self { hold = false } }
    {
        Row {
            hold: false,
            ..self
        }
    }

    /// What the row requires now and next with its requirement set.
    fn caps_in(self, mode: Mode, caps: Caps) -> (Caps, Caps)
        ensures { record self { now = result.0; next = result.1 } ≡ set_in mode caps self }
    {
        match mode {
            Mode::Active => (caps, caps),
            Mode::Suspending => (self.now, caps),
            Mode::Asleep | Mode::Off => (self.now, self.next),
        }
    }

    /// The row with its requirement set.
    pub(crate) fn set_in(self, mode: Mode, caps: Caps) -> Row
        ensures { result ≡ set_in mode caps self }
    {
        let (now, next) = self.caps_in(mode, caps);
        Row { now, next, ..self }
    }

    /// The row used from now on, with these capabilities.
    pub(crate) fn requested(self, caps: Caps) -> Row
        ensures { result ≡ applied (Request caps) self }
    {
        Row {
            used: true,
            now: caps,
            next: caps,
            latency: None,
            ..self
        }
    }

    /// The row that isn't used any more.
    pub(crate) fn released(self) -> Row
        ensures { result ≡ applied Release self }
    {
        Row {
            used: false,
            now: Caps(0),
            next: Caps(0),
            latency: None,
            ..self
        }
    }

    /// The row with the greatest latency that it allows.
    pub(crate) fn limited(self, latency: u32) -> Row
        ensures { result ≡ applied (Limit latency) self }
    {
        Row {
            latency: Some(latency),
            ..self
        }
    }

    /// The row armed by a processor, or by none.
    pub(crate) fn armed_by(self, target: Option<NodeId>) -> Row
        ensures { result ≡ record self { armed = target } }
    {
        Row {
            armed: target,
            ..self
        }
    }

    /// The row after a change.
    pub(crate) fn changed(self, by: Change) -> Row
        ensures { result ≡ applied by self }
    {
        match by {
            Change::Request(caps) => self.requested(caps),
            Change::Release => self.released(),
            Change::Set(mode, caps) => self.set_in(mode, caps),
            Change::Limit(latency) => self.limited(latency),
            Change::Arm(target) => self.armed_by(target),
        }
    }
}

impl RowSeed {
    /// The pair.
    pub fn pair(self) -> Pair
        ensures { result ≡ pair_of self }
    {
        Pair {
            master: self.master,
            slave: self.slave,
            shareable: self.shareable,
            all: self.all,
            preset: self.preset,
        }
    }

    /// Whether the row of the pair is at first as one that isn't used yet, and has no preset.
    pub(crate) fn is_blank(&self) -> bool
        ensures { result ≡ is_blank self.now }
    {
        self.start.is_none() && self.preset.0 == 0 && !self.hold
    }
}

impl Entry {
    /// The row of a pair at first.
    pub fn loaded(seed: RowSeed) -> Entry
        ensures { result ≡ spec.loaded_entry seed }
    {
        let caps = seed.start.unwrap_or(Caps(0));
        Entry {
            seed: seed.pair(),
            row: Row {
                used: seed.start.is_some(),
                now: caps,
                next: caps,
                preset: seed.preset,
                hold: seed.hold,
                armed: None,
                latency: None,
            },
        }
    }

    /// Whether this is the row of the master and of the slave at these places.
    pub(crate) fn is_at(&self, master: usize, slave: usize) -> bool
        ensures { result ≡ is_at master slave self.now }
    {
        self.seed.master == master && self.seed.slave == slave
    }

    /// Whether this is a row of another master on the slave.
    pub(crate) fn is_of_other(&self, master: usize, slave: usize) -> bool
        ensures { result ≡ is_of_other master slave self.now }
    {
        self.seed.master != master && self.seed.slave == slave
    }

    /// Whether another master uses the slave by this row, and the slave can't be shared.
    pub(crate) fn is_rival(&self, master: usize, slave: usize) -> bool
        ensures { result ≡ is_rival master slave self.now }
    {
        self.is_of_other(master, slave) && self.row.used && !self.seed.shareable
    }

    /// Whether the row stays as it is while the mode of its master changes, and wants the same in both modes: it isn't armed,
    /// or what arming requires is the same in both; and nothing is scheduled.
    pub(crate) fn rests(&self, differs: bool) -> bool
        ensures { result ≡ rests differs self.now }
    {
        !(differs && self.row.armed.is_some())
            && (!self.row.used || self.row.next.0 == self.row.now.0)
    }

    /// Whether the row isn't used, held or armed, and has nothing but its preset.
    pub fn is_idle(&self) -> bool
        ensures { result ≡ is_idle self.now.row }
    {
        !self.row.used
            && self.row.now.0 == 0
            && self.row.next.0 == 0
            && !self.row.hold
            && self.row.armed.is_none()
            && self.row.latency.is_none()
    }

    /// Whether a master uses the slave by this row.
    pub(crate) fn is_user(&self, slave: usize) -> bool
        ensures { result ≡ is_user slave self.now }
    {
        self.seed.slave == slave && self.row.used
    }
}
