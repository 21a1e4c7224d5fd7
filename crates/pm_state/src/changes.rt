//! What a step touches, written down by each change, so that the later phases of the step visit nothing else.

ghost use Rattle.std.specs.Prelude.{◌≡◌, ◌≤◌, ◌<◌, ℕ, [], IfOk, Some, false, replicate, slice_get, slice_set};
ghost use Rattle.pm_rows.specs.declared.row.Entry as declared;
ghost use Rattle.pm_base.specs.declared.names.Mode.TheVariants.{Off};
ghost use Rattle.pm_rows.specs.Rows.{mode_of};
ghost use Rattle.pm_state.specs.Changes as spec;
ghost use Rattle.pm_state.specs.Changes.{all_listed, is_listed, is_of, listed, listed_from, listed_if, listed_rows, nothing_written, unlisted, unmarked, unwritten, with_line, with_master, with_masters, with_proc, with_slave, with_slaves};

use pm_base::{BoundedList, Mode, NoMemory, at_or, with};
use pm_rows::{Entry, Rows};
use std::alloc::Global;
use std::marker::Model;

/// A set of places below a fixed count. Contracts see the count, and the places in the order in which they were written
/// down. With a mark for each place no search is needed to tell whether one is in the set, and to empty it takes as long
/// as it has places.
#[derive(Drop)]
pub struct Places {
    marks: Vec<bool>,
    list: BoundedList<usize>,
}

impl Model for Places {
    ghost use Rattle.std.specs.Prelude.{length};
    ghost use Rattle.pm_state.specs.Changes.{AreMarked, Listed};

    ghost Value = { Listed };

    ghost view = { λ places. record { list = places.list.items; count = length places.marks.items } };

    ghost invariant = { λ places. AreMarked places.marks.items places.list };
}

impl Places {
    /// So many places, none of which is written down.
    fn load(alloc: Global, count: usize) -> Result<Places, NoMemory>
        ensures { IfOk result (λ places. places ≡ record { list = []; count = count }) }
    {
        let marks = unmarked_places(alloc, count)?;
        let list = BoundedList::with_room(alloc, count);
        let (marks, list) = with(marks, list)?;
        Ok(Places { marks, list })
    }

    /// The places that are written down.
    pub fn as_slice(&self) -> &[usize]
        ensures { result.now ≡ self.now.list }
    {
        self.list.as_slice()
    }

    /// Whether a place is written down, or there is no such place.
    fn has(&self, k: usize) -> bool
        ensures { result ≡ is_listed k self.now }
    {
        at_or(&self.marks, k, true)
    }

    /// Writes a place down, unless it is so already.
    fn add(&mut self, k: usize)
        ensures { self.new ≡ listed k self.old }
    {
        if !self.has(k) {
            put_mark(k, true, &mut self.marks);
            self.list.push(k);
        }
    }

    /// Writes a place down, if it is asked for.
    fn add_if(&mut self, asked: bool, k: usize)
        ensures { self.new ≡ listed_if asked k self.old }
    {
        if asked {
            self.add(k);
        }
    }

    /// Writes all places down.
    fn add_all(&mut self)
        ensures { self.new ≡ all_listed self.old }
    {
        for k in 0..self.marks.len() {
            self.add(k);
        }
    }

    /// Writes down the slaves of those rows that aren't idle, or get a preset if the master starts from off: the rows of the
    /// master at a place, or all rows if none is named.
    fn add_rows(&mut self, master: Option<usize>, starts: bool, rows: &Rows)
        ensures { self.new ≡ listed_rows (is_of master starts) rows.now.entries self.old }
    {
        let end = rows.len();
        let mut k = next_row(master, 0, rows);
        'entries: while k < end {
            let entry = rows.entry(k);
            self.add_if(is_of(master, starts, &entry), entry.seed.slave);
            k = next_row(master, k + 1, rows);
        }
    }

    /// Nothing is written down any more.
    fn clear(&mut self)
        ensures { self.new ≡ unlisted self.old }
    {
        unmark(self.list.as_slice(), &mut self.marks);
        self.list.clear();
    }
}

/// So many places, none of which is marked.
fn unmarked_places(alloc: Global, count: usize) -> Result<Vec<bool>, NoMemory>
    ensures { IfOk result (λ marks. marks.items ≡ replicate count false) }
{
    Vec::from_elem(alloc, false, count).map_err(|_| NoMemory)
}

/// Marks a place or unmarks it, if it is there.
fn put_mark(k: usize, marked: bool, marks: &mut [bool])
    ensures { marks.new ≡ slice_set marks.old k marked }
{
    if k < marks.len() {
        marks[k] = marked;
    }
}

/// None of these places is marked any more.
fn unmark(places: &[usize], marks: &mut [bool])
    ensures { marks.new ≡ unmarked places.now marks.old }
{
    for k in places {
        put_mark(*k, false, marks);
    }
}

/// Whether this is the master that is named, or none is named.
fn is_named(named: Option<usize>, master: usize) -> bool
    ensures { result ≡ spec.is_named named master }
{
    match named {
        Some(m) => master == m,
        None => true,
    }
}

/// A place from this one on before which no row stands of the master that is named, or of any if none is.
fn next_row(named: Option<usize>, from: usize, rows: &Rows) -> usize
    ensures after { from ≤ result }
    ensures none { (j : ℕ) (entry : declared.Entry) → slice_get rows.now.entries j ≡ Some entry → from ≤ j → j < result
        → spec.is_named named entry.seed.master ≡ false }
{
    match named {
        Some(m) => rows.next_of(m, from),
        None => from,
    }
}

/// Whether a row of the master that is named, or of any if none is, isn't idle, or gets its preset where the master
/// starts from off.
fn is_of(named: Option<usize>, starts: bool, entry: &Entry) -> bool
    ensures { result ≡ is_of named starts entry.now }
{
    is_named(named, entry.seed.master) && (!entry.is_idle() || (starts && entry.row.preset.0 != 0))
}

/// What a step has touched so far: slaves, processors, reset lines, and masters, each with the mode that its rows knew
/// before the first change of it.
#[derive(Drop)]
pub struct Changes {
    slaves: Places,
    procs: Places,
    lines: Places,
    masters: Places,
    modes: Vec<Mode>,
}

impl Model for Changes {
    ghost use Rattle.pm_state.specs.Changes.{Written};

    ghost Value = { Written };

    ghost view = { λ changes. record {
      slaves = changes.slaves;
      procs = changes.procs;
      lines = changes.lines;
      masters = changes.masters;
      modes = changes.modes.items;
    } };
}

impl Changes {
    /// Room for what a step touches of so many slaves, processors, reset lines and masters. Nothing is written down.
    pub fn load(
        alloc: Global,
        slaves: usize,
        procs: usize,
        lines: usize,
        masters: usize,
    ) -> Result<Changes, NoMemory>
        ensures { IfOk result (λ changes. changes ≡ nothing_written slaves procs lines masters) }
    {
        let units = units_of(alloc, slaves, procs, lines)?;
        let known = known_of(alloc, masters);
        let ((slaves, (procs, lines)), (masters, modes)) = with(units, known)?;
        Ok(Changes {
            slaves,
            procs,
            lines,
            masters,
            modes,
        })
    }

    /// Doesn't compile once a field is missing from its pattern. So whoever adds a field has to name it here, and to
    /// see that it is no second copy of the rows: no field is.
    pub fn name_fields(&self) {
        let Changes {
            slaves: _,
            procs: _,
            lines: _,
            masters: _,
            modes: _,
        } = self;
    }

    /// The slaves on which rows may have changed, or what their masters want of them.
    pub fn slaves(&self) -> &[usize]
        ensures { result.now ≡ self.now.slaves.list }
    {
        self.slaves.as_slice()
    }

    /// The processors that went to a mode.
    pub fn procs(&self) -> &[usize]
        ensures { result.now ≡ self.now.procs.list }
    {
        self.procs.as_slice()
    }

    /// The reset lines that were asserted or released.
    pub fn lines(&self) -> &[usize]
        ensures { result.now ≡ self.now.lines.list }
    {
        self.lines.as_slice()
    }

    /// The masters whose rows followed a change of their mode.
    pub fn masters(&self) -> &[usize]
        ensures { result.now ≡ self.now.masters.list }
    {
        self.masters.as_slice()
    }

    /// The mode before its first change of a master that is written down.
    pub fn mode_before(&self, m: usize) -> Mode
        ensures { result ≡ spec.mode_before m self.now }
    {
        at_or(&self.modes, m, Mode::Off)
    }

    /// Nothing is written down any more.
    pub fn clear(&mut self)
        ensures { self.new ≡ unwritten self.old }
    {
        self.slaves.clear();
        self.procs.clear();
        self.lines.clear();
        self.masters.clear();
    }

    /// The rows on the slave at a place.
    pub(crate) fn slave(&mut self, s: usize)
        ensures { self.new ≡ with_slave s self.old }
    {
        self.slaves.add(s);
    }

    /// The rows of the master at a place, or all rows if none is named, which aren't idle, or get their preset where
    /// the master starts from off.
    pub(crate) fn rows(&mut self, master: Option<usize>, starts: bool, rows: &Rows)
        ensures { self.new ≡ with_slaves (is_of master starts) rows.now.entries self.old }
    {
        self.slaves.add_rows(master, starts, rows);
    }

    /// The processor at a place.
    pub(crate) fn proc(&mut self, p: usize)
        ensures { self.new ≡ with_proc p self.old }
    {
        self.procs.add(p);
    }

    /// The reset line at a place.
    pub(crate) fn line(&mut self, l: usize)
        ensures { self.new ≡ with_line l self.old }
    {
        self.lines.add(l);
    }

    /// The master at a place, whose rows knew this mode. It is kept if that is its first change.
    pub(crate) fn master(&mut self, m: usize, mode: Mode)
        ensures { self.new ≡ with_master m mode self.old }
    {
        if !self.masters.has(m) {
            put_mode(m, mode, &mut self.modes);
            self.masters.add(m);
        }
    }

    /// All processors and reset lines, and all masters with the modes that these rows know.
    pub(crate) fn all_but_slaves(&mut self, rows: &Rows)
        ensures { self.new ≡ spec.with_all_but_slaves rows.now self.old }
    {
        self.procs.add_all();
        self.lines.add_all();
        self.all_masters(rows);
    }

    /// All masters with the modes that these rows know.
    fn all_masters(&mut self, rows: &Rows)
        ensures { self.new ≡ with_masters self.old.masters.count 0 rows.now self.old }
    {
        for m in 0..self.masters.marks.len() {
            self.master(m, rows.mode(m));
        }
    }
}

/// Writes the mode of the master at a place, if it is there.
fn put_mode(m: usize, mode: Mode, modes: &mut [Mode])
    ensures { modes.new ≡ slice_set modes.old m mode }
{
    if m < modes.len() {
        modes[m] = mode;
    }
}

/// Room for so many slaves, processors and reset lines.
fn units_of(
    alloc: Global,
    slaves: usize,
    procs: usize,
    lines: usize,
) -> Result<(Places, (Places, Places)), NoMemory>
    ensures slaves { IfOk result (λ units. units.0 ≡ record { list = []; count = slaves }) }
    ensures procs { IfOk result (λ units. units.1.0 ≡ record { list = []; count = procs }) }
    ensures lines { IfOk result (λ units. units.1.1 ≡ record { list = []; count = lines }) }
{
    let slaves = Places::load(alloc, slaves)?;
    let others = both_of(alloc, procs, lines);
    with(slaves, others)
}

/// Room for so many processors and reset lines.
fn both_of(alloc: Global, procs: usize, lines: usize) -> Result<(Places, Places), NoMemory>
    ensures procs { IfOk result (λ both. both.0 ≡ record { list = []; count = procs }) }
    ensures lines { IfOk result (λ both. both.1 ≡ record { list = []; count = lines }) }
{
    let procs = Places::load(alloc, procs)?;
    let lines = Places::load(alloc, lines);
    with(procs, lines)
}

/// Room for so many masters and their modes.
fn known_of(alloc: Global, masters: usize) -> Result<(Places, Vec<Mode>), NoMemory>
    ensures masters { IfOk result (λ known. known.0 ≡ record { list = []; count = masters }) }
    ensures modes { IfOk result (λ known. known.1.items ≡ replicate masters Off) }
{
    let places = Places::load(alloc, masters)?;
    let modes = Vec::from_elem(alloc, Mode::Off, masters).map_err(|_| NoMemory);
    with(places, modes)
}
