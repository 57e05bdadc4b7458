//! Which lines have a meaning and which have none, how lines are read, and how outcomes are
//! printed.

use super::{check, check_eq};
use arrayvec::ArrayVec;
use lot_text::{
    Command, LINE_LEN, Name, NamedCall, NamedTurn, Page, Reading, meaning, print_turn, read_line,
};
use spec_locks::{
    Access, Answer, Downgrade, Kind, MutexCall, OnceCall, OnceState, Outcome, Patience, RwLockCall,
    SemaphoreCall,
};
use std::alloc::Global;
use std::process::Abort;

/// Outcomes, as they are printed.
const OUTCOMES: &[(Outcome, &str)] = &[
    (Outcome::NotNow, "7 not now\n"),
    (Outcome::Step, "7 step\n"),
    (Outcome::Sleep, "7 sleep\n"),
    (Outcome::Closure(OnceState::New), "7 closure New\n"),
    (
        Outcome::Closure(OnceState::Poisoned),
        "7 closure Poisoned\n",
    ),
    (
        Outcome::Closure(OnceState::InProgress),
        "7 closure InProgress\n",
    ),
    (Outcome::Closure(OnceState::Done), "7 closure Done\n"),
    (Outcome::End(Answer::Ok), "7 end ok\n"),
    (Outcome::End(Answer::Yes), "7 end yes\n"),
    (Outcome::End(Answer::No), "7 end no\n"),
    (Outcome::End(Answer::ReadersFull), "7 end readers full\n"),
    (Outcome::End(Answer::Notified), "7 end notified\n"),
    (Outcome::End(Answer::TimedOut), "7 end timed out\n"),
    (Outcome::End(Answer::TwoMutexes), "7 end two mutexes\n"),
    (Outcome::End(Answer::Poisoned), "7 end poisoned\n"),
    (Outcome::End(Answer::Failed), "7 end failed\n"),
    (Outcome::End(Answer::Number(0)), "7 end 0\n"),
    (Outcome::End(Answer::Number(1023)), "7 end 1023\n"),
];

/// Lines without a meaning.
const MALFORMED: &[&str] = &[
    // Blanks.
    "",
    " ",
    "threads  1",
    " threads 1",
    "threads 1 ",
    "threads\t1",
    "threads 1\r",
    "lock m mutex ",
    "show ",
    "0  go",
    // Threads.
    "threads",
    "threads ",
    "threads 1 1",
    "threads one",
    "Threads 1",
    // Numbers.
    "threads 01",
    "threads +1",
    "threads -1",
    "threads 1x",
    "threads 1_0",
    "threads 0x1",
    "00 go",
    "01 begin lock m",
    "12345678901234567890 go",
    "00000000000000000001 go",
    // Locks.
    "lock",
    "lock m",
    "lock m mutex 1",
    "lock m rwlock ",
    "lock m rwlock x",
    "lock m rwlock 01",
    "lock m rwlock 1 1",
    "lock m fair 1",
    "lock m Once",
    "lock m once 1",
    "lock c condvar 1",
    "lock c Condvar",
    "lock m Mutex",
    "lock M mutex",
    "lock 1m mutex",
    "lock m_m mutex",
    "lock mM mutex",
    "lock \u{e9} mutex",
    "lock m\u{e9} mutex",
    "lock m\0 mutex",
    "lock abcdefghijklmnopq mutex",
    "Lock m mutex",
    // Turns.
    "0",
    "0 lately",
    "0 Go",
    "0 Ok",
    "0 error",
    "0 ok m",
    "0 begin call_once",
    "0 begin once m",
    "m go",
    "0 go m",
    "0 spin m",
    "0 late m",
    "0 solo m",
    "0 begin m",
    "0 begin lock",
    "0 begin lock M",
    "0 begin bump_fair m",
    "0 start lock m",
    "0 do lock",
    "0 do lock m m",
    // Looks.
    "show m",
    "shown",
    "sho",
    "drain m",
];

/// Lines that begin a call, and lines that do one.
const CALLS: &[(&str, &str, MutexCall)] = &[
    ("1023 begin lock m", "1023 do lock m", MutexCall::Lock),
    (
        "1023 begin lock_timed m",
        "1023 do lock_timed m",
        MutexCall::LockTimed,
    ),
    (
        "1023 begin try_lock m",
        "1023 do try_lock m",
        MutexCall::TryLock,
    ),
    ("1023 begin unlock m", "1023 do unlock m", MutexCall::Unlock),
];

/// Calls of a reader-writer lock, by their names.
const RWLOCK_CALLS: &[(&str, RwLockCall)] = &[
    (
        "3 begin read m",
        RwLockCall::Enter {
            access: Access::Shared,
            patience: Patience::Patient,
        },
    ),
    (
        "3 begin read_timed m",
        RwLockCall::Enter {
            access: Access::Shared,
            patience: Patience::Timed,
        },
    ),
    (
        "3 begin try_read m",
        RwLockCall::Enter {
            access: Access::Shared,
            patience: Patience::Try,
        },
    ),
    (
        "3 begin upgradable m",
        RwLockCall::Enter {
            access: Access::Upgradable,
            patience: Patience::Patient,
        },
    ),
    (
        "3 begin upgradable_timed m",
        RwLockCall::Enter {
            access: Access::Upgradable,
            patience: Patience::Timed,
        },
    ),
    (
        "3 begin try_upgradable m",
        RwLockCall::Enter {
            access: Access::Upgradable,
            patience: Patience::Try,
        },
    ),
    (
        "3 begin write m",
        RwLockCall::Enter {
            access: Access::Exclusive,
            patience: Patience::Patient,
        },
    ),
    (
        "3 begin write_timed m",
        RwLockCall::Enter {
            access: Access::Exclusive,
            patience: Patience::Timed,
        },
    ),
    (
        "3 begin try_write m",
        RwLockCall::Enter {
            access: Access::Exclusive,
            patience: Patience::Try,
        },
    ),
    (
        "3 begin unlock_shared m",
        RwLockCall::Release(Access::Shared),
    ),
    (
        "3 begin unlock_upgradable m",
        RwLockCall::Release(Access::Upgradable),
    ),
    (
        "3 begin unlock_exclusive m",
        RwLockCall::Release(Access::Exclusive),
    ),
    (
        "3 begin downgrade m",
        RwLockCall::Downgrade(Downgrade::ToShared),
    ),
    (
        "3 begin downgrade_to_upgradable m",
        RwLockCall::Downgrade(Downgrade::ToUpgradable),
    ),
    (
        "3 begin downgrade_upgradable m",
        RwLockCall::Downgrade(Downgrade::UpgradableToShared),
    ),
    ("3 begin upgrade m", RwLockCall::Upgrade(Patience::Patient)),
    (
        "3 begin upgrade_timed m",
        RwLockCall::Upgrade(Patience::Timed),
    ),
    ("3 begin try_upgrade m", RwLockCall::Upgrade(Patience::Try)),
    (
        "3 begin unlock_shared_fair m",
        RwLockCall::ReleaseFair(Access::Shared),
    ),
    (
        "3 begin unlock_upgradable_fair m",
        RwLockCall::ReleaseFair(Access::Upgradable),
    ),
    (
        "3 begin unlock_exclusive_fair m",
        RwLockCall::ReleaseFair(Access::Exclusive),
    ),
    ("3 begin bump_shared m", RwLockCall::Bump(Access::Shared)),
    (
        "3 begin bump_upgradable m",
        RwLockCall::Bump(Access::Upgradable),
    ),
    (
        "3 begin bump_exclusive m",
        RwLockCall::Bump(Access::Exclusive),
    ),
];

/// Calls of a `Once`, by their names.
const ONCE_CALLS: &[(&str, OnceCall)] = &[
    ("3 begin call_once m", OnceCall::CallOnce { forced: false }),
    (
        "3 begin call_once_force m",
        OnceCall::CallOnce { forced: true },
    ),
    ("3 begin wait m", OnceCall::Wait { forced: false }),
    ("3 begin wait_force m", OnceCall::Wait { forced: true }),
    ("3 begin wait_timed m", OnceCall::WaitTimed),
];

/// Calls of a semaphore, by their names.
const SEMAPHORE_CALLS: &[(&str, SemaphoreCall)] = &[
    (
        "3 begin acquire m",
        SemaphoreCall::Acquire(Patience::Patient),
    ),
    (
        "3 begin acquire_timed m",
        SemaphoreCall::Acquire(Patience::Timed),
    ),
    (
        "3 begin try_acquire m",
        SemaphoreCall::Acquire(Patience::Try),
    ),
    ("3 begin release m", SemaphoreCall::Release),
];

/// Lines that name too many locks, or a mutex that is none: only a wait has a second name.
const MALFORMED_WAITS: &[&str] = &[
    "3 begin notify_one c m",
    "3 begin lock c m",
    "3 begin wait_force c m",
    "3 begin wait c m m",
    "3 begin wait c M",
    "3 begin wait c ",
    "3 go c m x y",
];

// A line has this meaning, or none. All tests here share this one assertion, since each is proved
// where it stands.
fn means(rt: &impl Abort, line: &str, wanted: Option<Command>) {
    let as_wanted = meaning(line.as_bytes()) == wanted;
    check_eq(rt, (line, as_wanted), (line, true));
}

fn mean_nothing(rt: &impl Abort, lines: &[&str]) {
    for line in lines {
        means(rt, line, None);
    }
}

// The lock of this name is there, of this kind.
fn is_there(lock: &str, kind: Kind) -> Option<Command> {
    let name = Name::from_word(lock.as_bytes())?;
    Some(Command::Lock { name, kind })
}

// The lock m, of this kind.
fn locks(kind: Kind) -> Option<Command> {
    is_there("m", kind)
}

// A thread takes this turn.
fn takes(rt: &impl Abort, line: &str, thread: usize, turn: NamedTurn) {
    means(rt, line, Some(Command::Turn { thread, turn }));
}

// The thread 3 begins this call of a lock.
fn begins_of(rt: &impl Abort, line: &str, call: NamedCall, lock: &str) {
    match Name::from_word(lock.as_bytes()) {
        Some(name) => takes(rt, line, 3, NamedTurn::Begin { call, name }),
        None => panic!(rt; "{lock} is no name"),
    }
}

// A line begins this call of the lock m.
fn begins(rt: &impl Abort, line: &str, call: NamedCall) {
    begins_of(rt, line, call, "m");
}

#[test]
fn malformed_lines_mean_nothing(rt: HostRuntime) {
    mean_nothing(&rt, MALFORMED);
}

#[test]
fn each_form_has_its_meaning(rt: HostRuntime) {
    check(&rt, locks(Kind::Mutex).is_some());
    means(&rt, "lock m mutex", locks(Kind::Mutex));
    means(&rt, "threads 1024", Some(Command::Threads(1024)));
    let many = Command::Threads(9_999_999_999_999_999_999);
    means(&rt, "threads 9999999999999999999", Some(many));
    means(&rt, "show", Some(Command::Show));
}

#[test]
fn turns_without_a_call_have_their_meaning(rt: HostRuntime) {
    takes(&rt, "7 go", 7, NamedTurn::Go);
    takes(&rt, "7 spin", 7, NamedTurn::Spin);
    takes(&rt, "7 late", 7, NamedTurn::Late);
    takes(&rt, "7 ok", 7, NamedTurn::Ok);
    takes(&rt, "7 err", 7, NamedTurn::Err);
    takes(&rt, "7 solo", 7, NamedTurn::Solo);
}

// The thread 1023 begins a call of the lock m, and does one alone.
fn is_called(rt: &impl Abort, begin: &str, alone: &str, call: MutexCall) {
    let Some(name) = Name::from_word(b"m") else {
        panic!(rt; "m is no name");
    };
    let begins = NamedTurn::Begin {
        call: NamedCall::Mutex(call),
        name,
    };
    takes(rt, begin, 1023, begins);
    let does = NamedTurn::Do {
        call: NamedCall::Mutex(call),
        name,
    };
    takes(rt, alone, 1023, does);
}

#[test]
fn calls_of_a_mutex_have_their_meaning(rt: HostRuntime) {
    for (begin, alone, call) in CALLS {
        is_called(&rt, begin, alone, *call);
    }
}

#[test]
fn limits_belong_to_reader_writer_locks(rt: HostRuntime) {
    let limit = 1152921504606846974;
    means(&rt, "lock m rwlock", locks(Kind::RwLock { limit }));
    means(&rt, "lock m rwlock 0", locks(Kind::RwLock { limit: 0 }));
    means(
        &rt,
        "lock m recursive 7",
        locks(Kind::Recursive { limit: 7 }),
    );
}

#[test]
fn reader_writer_calls_have_their_meaning(rt: HostRuntime) {
    for (line, call) in RWLOCK_CALLS {
        begins(&rt, line, NamedCall::RwLock(*call));
    }
}

#[test]
fn calls_of_a_once_have_their_meaning(rt: HostRuntime) {
    means(&rt, "lock m once", locks(Kind::Once));
    for (line, call) in ONCE_CALLS {
        begins(&rt, line, NamedCall::Once(*call));
    }
}

#[test]
fn calls_of_a_semaphore_have_their_meaning(rt: HostRuntime) {
    let permits = 4611686018427387904;
    means(
        &rt,
        "lock m semaphore 4611686018427387904",
        locks(Kind::Semaphore { permits }),
    );
    means(&rt, "lock m semaphore", None);
    for (line, call) in SEMAPHORE_CALLS {
        begins(&rt, line, NamedCall::Semaphore(*call));
    }
}

// A line waits on the condition variable c with the mutex m.
fn waits(rt: &impl Abort, line: &str, timed: bool) {
    match Name::from_word(b"m") {
        Some(mutex) => begins_of(rt, line, NamedCall::Wait { mutex, timed }, "c"),
        None => panic!(rt; "m is no name"),
    }
}

#[test]
fn calls_of_a_condition_variable_have_their_meaning(rt: HostRuntime) {
    let condvar = is_there("c", Kind::Condvar);
    check(&rt, condvar.is_some());
    means(&rt, "lock c condvar", condvar);
    let one = NamedCall::Notify { all: false };
    begins_of(&rt, "3 begin notify_one c", one, "c");
    let all = NamedCall::Notify { all: true };
    begins_of(&rt, "3 begin notify_all c", all, "c");
    waits(&rt, "3 begin wait c m", false);
    waits(&rt, "3 begin wait_timed c m", true);
    mean_nothing(&rt, MALFORMED_WAITS);
}

// Returns whether a name has the text of its word, and is another than that of all letters and
// digits but the last.
fn is_told_apart(word: &str) -> bool {
    let Some(name) = Name::from_word(word.as_bytes()) else {
        return false;
    };
    name.text() == word.as_bytes() && Some(name) != Name::from_word(b"abcdefghijklmno8")
}

#[test]
fn names_are_told_apart(rt: HostRuntime) {
    for word in ["a", "z9", "abcdefghijklmno9"] {
        check_eq(&rt, (word, is_told_apart(word)), (word, true));
    }
}

// Reads on, and comes to this.
fn reads(rt: &impl Abort, bytes: &mut &[u8], line: &mut ArrayVec<u8, LINE_LEN>, wanted: Reading) {
    check_eq(rt, read_line(bytes, line), wanted);
}

#[test]
fn reads_lines(rt: HostRuntime) {
    let mut line = ArrayVec::<u8, LINE_LEN>::new();
    let mut bytes = b"show\n\n0 go".as_slice();
    for want in [b"show".as_slice(), b"", b"0 go"] {
        reads(&rt, &mut bytes, &mut line, Reading::Line);
        check_eq(&rt, line.as_slice(), want);
    }
    reads(&rt, &mut bytes, &mut line, Reading::End);
}

#[test]
fn reads_no_line_that_is_too_long(rt: HostRuntime) {
    let mut line = ArrayVec::<u8, LINE_LEN>::new();
    let long = [b'x'; LINE_LEN + 1];
    let mut longest = &long[..LINE_LEN];
    reads(&rt, &mut longest, &mut line, Reading::Line);
    let mut longer = long.as_slice();
    reads(&rt, &mut longer, &mut line, Reading::TooLong);
}

fn printed(alloc: Global, outcome: Outcome) -> Vec<u8> {
    let mut page = Page::new();
    let mut text = Vec::new(alloc);
    print_turn(&mut page, &mut text, 7, outcome);
    page.finish(&mut text);
    text
}

#[test]
fn prints_outcomes(rt: HostRuntime) {
    for (outcome, want) in OUTCOMES {
        let text = printed(rt.alloc(), *outcome);
        check_eq(&rt, text.as_slice(), want.as_bytes());
    }
}
