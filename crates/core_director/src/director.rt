//! The director of a run, which its threads share.

use crate::course::Course;
use crate::crew::{Member, Status};
use crate::gates::Gates;
use crate::log::{Log, NewWord};
use crate::plan::{Next, Plan};
use crate::turns::{Deed, Ending, Turn};
use std::alloc::{AllocError, Global};
use std::sync::atomic::Ordering::SeqCst;
use std::sync::atomic::{AtomicBool, AtomicU64};
use std::sync::{Mutex, MutexGuard, Wait};
use std::thread::yield_now;
use std::time::Duration;

/// The most threads that a director directs.
pub const MOST_THREADS: usize = 1024;

// Into how many parts a wait for the next turn is cut.
const PARTS: u32 = 4;

/// Decides which thread of a lot runs. All others wait for their turn.
pub struct Director {
    gates: Gates,
    plan: Mutex<Plan>,
    // Threads take turns.
    active: AtomicBool,
    // The thread that runs is inside a section, and keeps its turn.
    inside: AtomicBool,
    // How often threads asked for turns.
    asked: AtomicU64,
    // 1 once the run is at its end.
    ended: AtomicU64,
    // The time, in nanoseconds, by the director's clock.
    time: AtomicU64,
}

// The drop is written, and not derived, so that it is proved here alone.
impl Drop for Director {
    fn drop(self) {
        let Director {
            gates: _gates,
            plan: _plan,
            active: _active,
            inside: _inside,
            asked: _asked,
            ended: _ended,
            time: _time,
        } = self;
    }
}

impl Director {
    /// Makes the director of one run. The script says what the policies `Exhaustive` and `Replay`
    /// choose; for others it is empty.
    ///
    /// # Errors
    ///
    /// Where memory was refused.
    pub fn new(alloc: Global, course: Course, script: Vec<usize>) -> Result<Director, AllocError> {
        Ok(Director {
            gates: Gates::new(alloc, MOST_THREADS)?,
            plan: Mutex::new(Plan::new(alloc, course, script)?),
            active: AtomicBool::new(false),
            inside: AtomicBool::new(false),
            asked: AtomicU64::new(0),
            ended: AtomicU64::new(0),
            time: AtomicU64::new(0),
        })
    }

    // Nobody keeps the plan for long, and mostly nobody has it.
    fn plan(&self) -> Option<MutexGuard<'_, Plan>> {
        for _ in 0..u64::MAX {
            if let Some(plan) = self.plan.try_lock() {
                return Some(plan);
            }
            yield_now();
        }
        None
    }

    /// Expects so many threads, numbered from 0, up to `MOST_THREADS` of them. None of them goes on
    /// before all have asked for their first turns.
    pub fn begin(&self, threads: usize) {
        if let Some(mut plan) = self.plan() {
            plan.begin(threads);
        }
        self.active.store(true, SeqCst);
    }

    /// Returns whether threads take turns.
    pub fn is_active(&self) -> bool {
        self.active.load(SeqCst)
    }

    // From now on all threads run as they like, but for those that sleep for ever.
    fn end(&self, ending: Ending) {
        let mut threads = 0;
        if let Some(mut plan) = self.plan() {
            plan.end(ending);
            threads = plan.threads();
        }
        if self.active.swap(false, SeqCst) && ending != Ending::Deadlock {
            self.gates.free(threads);
        }
        self.ended.store(1, SeqCst);
        self.ended.wake_all();
    }

    // Notes what a thread is to do. Returns whether it goes on itself, and else lets another one.
    fn pass(&self, turn: Turn, status: Status) -> bool {
        self.asked.fetch_add(1, SeqCst);
        let next = match self.plan() {
            Some(mut plan) => plan.pass(turn, status),
            None => Next::Nobody,
        };
        match next {
            Next::Itself => return true,
            Next::Other(thread) => self.gates.open(thread),
            Next::Nobody => {}
            Next::Over => self.active.store(false, SeqCst),
            Next::Ended(ending) => self.end(ending),
        }
        false
    }

    /// Waits until the thread has its turn to do this. A thread inside a section has it.
    pub fn turn(&self, turn: Turn) {
        if !self.is_active() || self.inside.load(SeqCst) {
            return;
        }
        if !self.pass(turn, Status::Ready) {
            self.gates.look(turn.thread);
        }
    }

    /// Waits as `turn` does, asleep.
    pub fn turn_asleep<R: Wait>(&self, rt: &R, turn: Turn) {
        if !self.is_active() || self.inside.load(SeqCst) {
            return;
        }
        if !self.pass(turn, Status::Ready) {
            self.gates.sleep(rt, turn.thread);
        }
    }

    /// Sleeps until another thread wakes this one, and it has its turn.
    pub fn sleep<R: Wait>(&self, rt: &R, thread: usize, word: usize) {
        let turn = Turn::at(thread, Deed::Wake, word);
        if !self.pass(turn, Status::Asleep) {
            self.gates.sleep(rt, thread);
        }
    }

    /// Gives the thread's turn, which it has, another deed.
    pub fn rename(&self, thread: usize, deed: Deed) {
        if !self.is_active() {
            return;
        }
        if let Some(mut plan) = self.plan() {
            plan.rename(thread, deed);
        }
    }

    /// Notes that the thread, which has the turn, gives up a timed sleep.
    pub fn is_late(&self, thread: usize) {
        if !self.is_active() {
            return;
        }
        if let Some(mut plan) = self.plan() {
            plan.is_late(thread);
        }
    }

    /// Notes that the thread that runs enters a section.
    pub fn enter(&self) {
        self.inside.store(true, SeqCst);
    }

    /// Notes that the thread that runs leaves its section.
    pub fn leave(&self) {
        self.inside.store(false, SeqCst);
    }

    /// Lets a thread that sleeps have a turn again.
    pub fn wake(&self, thread: usize) {
        if let Some(mut plan) = self.plan() {
            plan.wake(thread);
        }
    }

    /// Notes that a thread comes to its end.
    pub fn finish(&self, thread: usize) {
        if self.is_active() {
            let turn = Turn::at(thread, Deed::End, 0);
            self.pass(turn, Status::Gone);
        }
    }

    /// Ends the run: the program came to its end.
    pub fn close(&self) {
        self.end(Ending::Fine);
    }

    /// Ends the run as a failed one, where this does not hold.
    pub fn check(&self, holds: bool, what: &str) {
        if holds {
            return;
        }
        if let Some(mut plan) = self.plan() {
            plan.fail(what);
        }
        self.end(Ending::Failed);
    }

    /// Waits for the end of the run, or until no thread has asked for a turn for so long.
    pub fn await_end<R: Wait>(&self, rt: &R, patience: Duration) -> Ending {
        let part = patience.checked_div(PARTS).unwrap_or(patience);
        let mut asked = self.asked.load(SeqCst);
        let mut same = 0u32;
        for _ in rt.forever() {
            if self.ended.load(SeqCst) != 0 {
                break;
            }
            self.ended.park_timeout(rt, 0, part);
            let now = self.asked.load(SeqCst);
            same = if now == asked {
                same.saturating_add(1)
            } else {
                0
            };
            asked = now;
            if same > PARTS && self.ended.load(SeqCst) == 0 {
                self.end(Ending::Stuck(self.running()));
            }
        }
        self.ending()
    }

    fn running(&self) -> Option<usize> {
        match self.plan() {
            Some(plan) => plan.running(),
            None => None,
        }
    }

    fn ending(&self) -> Ending {
        match self.plan() {
            Some(plan) => plan.log().ending.unwrap_or(Ending::Fine),
            None => Ending::Fine,
        }
    }

    /// Returns how many turns were taken.
    pub fn turns(&self) -> u64 {
        match self.plan() {
            Some(plan) => plan.turns(),
            None => 0,
        }
    }

    /// Returns what the run did.
    ///
    /// # Errors
    ///
    /// Where memory was refused, now or during the run.
    pub fn log(&self) -> Result<Log, AllocError> {
        match self.plan() {
            Some(plan) => plan.log().copy(),
            None => Err(AllocError),
        }
    }

    /// Returns what each thread is up to.
    ///
    /// # Errors
    ///
    /// Where memory was refused.
    pub fn members(&self) -> Result<Vec<Member>, AllocError> {
        match self.plan() {
            Some(plan) => plan.members().clone(),
            None => Err(AllocError),
        }
    }

    /// Notes that a word was drawn.
    pub fn drew(&self, word: NewWord) {
        if let Some(mut plan) = self.plan() {
            plan.add_word(word);
        }
    }

    /// Returns the time by the director's clock, in nanoseconds. It stands still while threads run.
    pub fn now(&self) -> u64 {
        self.time.load(SeqCst)
    }

    /// Lets so many nanoseconds pass by the director's clock.
    pub fn pass_time(&self, nanos: u64) {
        self.time.fetch_add(nanos, SeqCst);
    }
}
