//! Tasks by their keys, and the time.

ghost use Rattle.std.specs.Prelude.{◌≡◌, ◌+◌, ◌≤◌, ◌<◌, ◌^◌, ◌↔◌, [], ◌∷◌, IsErr, IfOk, IfErr, OnErr, IfNone, IfSome, is_some, true};
ghost use Rattle.std.specs.Option.{option_map};
ghost use Rattle.slab.specs.Slab.{get, slab_len};

use crate::handler::Handler;
use crate::stored::Task;
use pm_base::NoMemory;
use slab::Slab;
use std::alloc::Global;

/// A call that was made: the key of the task, the time, and the answer of its handler.
#[derive(Clone, Copy, Debug, PartialEq, Eq)]
pub struct Fired {
    pub key: usize,
    pub at: u64,
    pub word: u32,
}

/// Tasks by their keys, and the time. Contracts see the tasks as they are once no call is left, and beside them
/// the calls that are left of those that are due.
#[derive(Drop)]
pub struct TasksOf<H: Drop> {
    tasks: Slab<Task<H>>,
    limit: usize,
    /// The time, and what it was before it moved last.
    time: u64,
    before: u64,
    /// The least key that wasn't looked at since then. Once `take` has found that no call is left it is past all keys.
    next: usize,
    ghost within: { slab_len tasks ≤ limit },
    ghost room: { limit ≤ tasks.capacity },
}

/// Tasks whose handlers are any that a board brings.
pub type Tasks = TasksOf<Box<dyn Handler>>;

impl<H: Handler> TasksOf<H> {
    ghost use Rattle.pm_tasks.specs.Timetable.{Adds, advanced, cancelled, can_start, empty, is_due, is_stored, slot, passing, started, stored_count};
    ghost use Rattle.pm_tasks.specs.Stored.{is_due_at, last_call, seen, stored, timetable};

    /// No tasks, at time 0, with room for this many. No later call takes memory.
    ///
    /// # Errors
    ///
    /// `NoMemory` if there is not enough memory.
    pub fn new(alloc: Global, limit: usize) -> Result<TasksOf<H>, NoMemory>
        ensures { IfOk result (λ tasks. timetable H.Handler tasks ≡ empty limit) }
    {
        match Slab::with_capacity(alloc, limit) {
            Ok(tasks) => Ok(TasksOf {
                tasks,
                limit,
                time: 0,
                before: 0,
                next: 0,
            }),
            Err(_) => Err(NoMemory),
        }
    }

    /// No tasks, at time 0, and room for none. Takes no memory.
    pub fn without_room(alloc: Global) -> TasksOf<H>
        ensures { timetable H.Handler result ≡ empty 0 }
    {
        TasksOf {
            tasks: Slab::new(alloc),
            limit: 0,
            time: 0,
            before: 0,
            next: 0,
        }
    }

    /// Stores a stopped task, and answers its key, which no stored task had.
    ///
    /// # Errors
    ///
    /// Hands the handler back where as many tasks are stored as there is room for, and nothing changes.
    pub fn add(&mut self, handler: H) -> Result<usize, H>
        requires { (timetable H.Handler self.old).left ≡ [] }
        ensures added { IfOk result (λ key. Adds (timetable H.Handler self.old)
            (timetable H.Handler self.new) key (H.calls handler)) }
        ensures full { IsErr result ↔ (stored_count (timetable H.Handler self.old)
            ≡ (timetable H.Handler self.old).limit) }
        ensures back { IfErr result (λ back. back ≡ handler) }
        ensures kept { OnErr result (self.new ≡ self.old) }
    {
        if self.tasks.len() >= self.limit {
            return Err(handler);
        }
        self.before = self.time;
        let task = Task {
            plan: None,
            handler,
        };
        Ok(self.tasks.insert_reserved(task))
    }

    /// Starts the task under a key, or starts it again, at the time now: it is due whenever one more whole
    /// interval has passed. Answers whether a task has the key and the interval isn't 0; else nothing changes.
    pub fn start(&mut self, key: usize, interval: u32) -> bool
        requires { (timetable H.Handler self.old).left ≡ [] }
        ensures answer { result ≡ can_start key interval (timetable H.Handler self.old) }
        ensures started { timetable H.Handler self.new
            ≡ started key interval (timetable H.Handler self.old) }
    {
        if interval == 0 {
            return false;
        }
        self.before = self.time;
        let now = self.time;
        match self.tasks.get_mut(key) {
            Some(task) => {
                task.run(now, interval);
                true
            }
            None => false,
        }
    }

    /// Takes the task under a key out, and hands its handler back. `None` if no task has the key, and then
    /// nothing changes.
    pub fn cancel(&mut self, key: usize) -> Option<H>
        requires { (timetable H.Handler self.old).left ≡ [] }
        ensures handler { result ≡ option_map (λ task. task.handler) (get self.old.tasks key) }
        ensures answer { is_some result ≡ is_stored key (timetable H.Handler self.old) }
        ensures cancelled { timetable H.Handler self.new
            ≡ cancelled key (timetable H.Handler self.old) }
    {
        self.before = self.time;
        match self.tasks.try_remove(key) {
            Some(task) => Some(task.handler),
            None => None,
        }
    }

    /// Takes the task under a key out, and drops its handler. Answers whether a task has the key; else nothing
    /// changes.
    pub fn drop_task(&mut self, key: usize) -> bool
        requires { (timetable H.Handler self.old).left ≡ [] }
        ensures answer { result ≡ is_stored key (timetable H.Handler self.old) }
        ensures cancelled { timetable H.Handler self.new
            ≡ cancelled key (timetable H.Handler self.old) }
    {
        self.before = self.time;
        match self.tasks.try_remove(key) {
            Some(task) => {
                drop(task);
                true
            }
            None => false,
        }
    }

    /// The time moves on. The tasks that are due then are called by `take`, each once.
    pub fn advance(&mut self, count: u32)
        requires settled { (timetable H.Handler self.old).left ≡ [] }
        requires fits { (timetable H.Handler self.old).now + count < 2 ^ 64 }
        ensures { timetable H.Handler self.new
            ≡ advanced count (timetable H.Handler self.old) }
    {
        self.before = self.time;
        self.time += count as u64;
        self.next = 0;
    }

    /// The time moves on as far as it fits 64 bits: at their end it stands still.
    pub fn pass(&mut self, count: u32)
        requires { (timetable H.Handler self.old).left ≡ [] }
        ensures { timetable H.Handler self.new
            ≡ advanced (passing count (timetable H.Handler self.old)) (timetable H.Handler self.old) }
    {
        let room = u64::MAX - self.time;
        self.advance(if (count as u64) < room {
            count
        } else {
            room as u32
        });
    }

    /// Calls the due task with the least key that wasn't called since the time moved. `None` if none is left.
    pub fn take(&mut self) -> Option<Fired>
        ensures none { IfNone result ((timetable H.Handler self.old).left ≡ []) }
        ensures done { IfNone result ((timetable H.Handler self.new).left ≡ []) }
        ensures one { IfSome result (λ fired. (timetable H.Handler self.old).left
            ≡ fired ∷ (timetable H.Handler self.new).left) }
        ensures rest { timetable H.Handler self.new
            ≡ record (timetable H.Handler self.old) {
              left = (timetable H.Handler self.new).left;
            } }
        ensures time { IfSome result (λ fired. IfSome (last_call H.Handler self.new fired.key)
            (λ time. time ≡ fired.at)) }
    {
        let Some(key) = self.first_due() else {
            // Nothing is due until the time moves again.
            self.next = self.tasks.capacity();
            return None;
        };
        let at = self.time;
        let task = self.tasks.get_mut(key)?;
        let word = task.fire(at);
        self.next = key + 1;
        Some(Fired { key, at, word })
    }

    /// The least key of a task that is due and wasn't called. The tasks below it are passed over.
    fn first_due(&self) -> Option<usize>
        ensures none { IfNone result ((timetable H.Handler self.now).left ≡ []) }
        ensures fits { IfSome result (λ key. key + 1 < 2 ^ 64) }
        ensures due { IfSome result (λ key. is_due_at self.now.before self.now.time key
            (stored H.Handler self.now.tasks) ≡ true) }
        ensures passed { IfSome result (λ key. seen self.now.before self.now.time key self.now.limit
            (stored H.Handler self.now.tasks) ≡ timetable H.Handler self.now) }
    {
        for key in self.next..self.tasks.capacity() {
            if self.is_due(key) {
                return Some(key);
            }
        }
        None
    }

    /// Whether the task under a key is due.
    fn is_due(&self, key: usize) -> bool
        ensures { result ≡ is_due_at self.now.before self.now.time key
            (stored H.Handler self.now.tasks) }
    {
        match self.tasks.get(key) {
            Some(task) => task.is_due(self.before, self.time),
            None => false,
        }
    }
}
