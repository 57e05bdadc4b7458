//! How a call of a reader-writer lock begins, and what it does about the value that its first step
//! saw. The fast half of each call is made of these, so they are inlined, with what they read in a
//! word.
ghost use Rattle.std.specs.Prelude.{◌≡◌, ◌<◌, ◌*◌, ◌^◌, nat_le};
ghost use Rattle.spec_locks.specs.Codes as codes;
ghost use Rattle.steps_rwlock.specs.RwLockSteps as steps;
ghost use Rattle.run_locks.specs.Courses as courses;
ghost use Rattle.run_base.specs.RwLockCalls.{first_op};

use core_base::{Op, Want};
use spec_locks::{Access, Answer, Downgrade, Patience};
use steps_base::bits::{count_in, has_aside, has_parked};
use steps_rwlock::places::{READER, WRITER};
use steps_rwlock::purposes::{self, entered, wanted};
use steps_rwlock::{Admission, RwLockPurpose};

/// The settings of a reader-writer lock, with the least word whose count is at the limit. The fast
/// half of a call compares that word with the one that it saw, and shifts neither.
#[derive(Clone, Copy)]
pub struct Settings {
    pub admission: Admission,
    full: u64,
    ghost whole: { full ≡ admission.limit * 16 },
}

impl Settings {
    /// Makes the settings of a lock. The limit is below `2^60`.
    pub fn new(admission: Admission) -> Settings
        requires { admission.limit < 2 ^ 60 }
        ensures { result.admission ≡ admission }
    {
        let full = admission.limit * READER;
        Settings { admission, full }
    }

    // Returns whether the count in a word is at the limit.
    #[inline(always)]
    fn fill(self, seen: u64) -> bool
        ensures { result ≡ nat_le self.admission.limit (codes.count_in seen) }
    {
        self.full <= seen
    }
}

/// The rest of a call, from its first step on.
#[derive(Clone, Copy)]
pub(crate) enum Course {
    Ends(Answer),
    /// The call takes its right by an exchange.
    Takes,
    GoesOn,
}

/// Returns the want of the greater right of a downgrade.
#[inline(always)]
pub fn greater(downgrade: Downgrade) -> Want
    ensures { result ≡ steps.wanted (steps.from_of downgrade) }
{
    wanted(purposes::greater(downgrade))
}

/// Returns the want of the lesser right, which its thread keeps.
#[inline(always)]
pub fn lesser(downgrade: Downgrade) -> Want
    ensures { result ≡ steps.wanted (steps.to_of downgrade) }
{
    wanted(purposes::lesser(downgrade))
}

/// Returns the answer of a call that has its right.
#[inline(always)]
pub(crate) fn answer_with(purpose: RwLockPurpose) -> Answer
    ensures { result ≡ steps.entered (steps.patience_of purpose) }
{
    entered(purpose.patience())
}

/// Returns the operation with which a call begins.
#[inline(always)]
pub(crate) fn opening(purpose: RwLockPurpose) -> Op
    ensures { result ≡ first_op purpose }
{
    match purpose {
        RwLockPurpose::Enter {
            access: Access::Exclusive,
            ..
        } => Op::Exchange {
            from: 0,
            to: WRITER,
        },
        RwLockPurpose::Enter { .. } | RwLockPurpose::Upgrade(Patience::Try) => Op::Load,
        _ => purpose.give_op(),
    }
}

// A thread that may not come in goes on to wait, but for one that only tries.
#[inline(always)]
fn kept_out(patience: Patience) -> Course
    ensures { result ≡ courses.kept_out patience }
{
    match patience {
        Patience::Try => Course::Ends(Answer::No),
        Patience::Patient | Patience::Timed => Course::GoesOn,
    }
}

#[inline(always)]
fn writing(patience: Patience, seen: u64) -> Course
    ensures { result ≡ courses.write_course patience seen }
{
    if seen == 0 {
        return Course::Ends(entered(patience));
    }
    kept_out(patience)
}

#[inline(always)]
fn reading(settings: Settings, patience: Patience, blocked: bool, seen: u64) -> Course
    ensures { result ≡ courses.read_course settings.admission patience blocked seen }
{
    if blocked {
        return kept_out(patience);
    }
    if settings.fill(seen) {
        return Course::Ends(Answer::ReadersFull);
    }
    Course::Takes
}

#[inline(always)]
fn entering(settings: Settings, access: Access, patience: Patience, seen: u64) -> Course
    ensures { result ≡ courses.entry_course settings.admission access patience seen }
{
    match access {
        Access::Shared | Access::Upgradable => {
            let blocked = settings.admission.blocks(access, seen);
            reading(settings, patience, blocked, seen)
        }
        Access::Exclusive => writing(patience, seen),
    }
}

#[inline(always)]
fn upgrading(patience: Patience, seen: u64) -> Course
    ensures { result ≡ courses.upgrade_course patience seen }
{
    match patience {
        Patience::Try if count_in(seen) == 1 => Course::Takes,
        Patience::Try => Course::Ends(Answer::No),
        _ if count_in(seen) == 1 => Course::Ends(entered(patience)),
        _ => Course::GoesOn,
    }
}

// A thread that gives a right up goes on to wake others, where there may be some.
#[inline(always)]
fn leaving(waited_for: bool) -> Course
    ensures { result ≡ courses.release_course waited_for }
{
    if waited_for {
        Course::GoesOn
    } else {
        Course::Ends(Answer::Ok)
    }
}

/// Returns the rest of a call whose first step saw this.
#[inline(always)]
pub(crate) fn course_of(settings: Settings, purpose: RwLockPurpose, seen: u64) -> Course
    ensures { result ≡ courses.course_of settings.admission purpose seen }
{
    match purpose {
        RwLockPurpose::Enter { access, patience } => entering(settings, access, patience, seen),
        RwLockPurpose::Upgrade(patience) => upgrading(patience, seen),
        RwLockPurpose::Release(Access::Shared) => leaving(has_aside(seen) && count_in(seen) == 1),
        RwLockPurpose::Release(_) | RwLockPurpose::Downgrade(_) => leaving(has_parked(seen)),
    }
}
