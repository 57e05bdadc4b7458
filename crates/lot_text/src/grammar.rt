//! The meaning of a line.
ghost use Rattle.std.specs.Prelude.{ℕ, List, Some, decimal, ◌^◌, ◌≡◌, ◌≢◌, ◌<◌, ◌≤◌, [], ◌∷◌, length, take};
ghost use Rattle.std.specs.Prelude.{slice_index, All, MatchOption};
ghost use Rattle.lot_text.specs.LockNames.{name_of};
ghost use Rattle.lot_text.specs.Grammar.{words_of, number_read, digits_after, kind_of, rwlock_kind_of};
ghost use Rattle.lot_text.specs.Grammar.{limited_kind_of, mutex_call_of, entering_call_of, fair_call_of};
ghost use Rattle.lot_text.specs.Grammar.{other_call_of, once_call_of, semaphore_call_of, notification_of};
ghost use Rattle.lot_text.specs.Grammar.{wait_of, call_of, turn_of, closing_turn_of, calling_turn_of};
ghost use Rattle.lot_text.specs.Grammar.{lock_command, turn_command, calling_command_of, command_of};
ghost use Rattle.lot_text.specs.Grammar.{meaning};

use crate::names::Name;
use crate::words::is_text;
use spec_locks::kinds::MOST_READERS;
use spec_locks::{
    Access, Downgrade, Kind, MutexCall, OnceCall, Patience, RwLockCall, SemaphoreCall,
};

/// The most digits of a number. All such numbers fit.
const MOST_DIGITS: usize = 19;

/// A line's meaning.
#[derive(Clone, Copy, PartialEq, Eq)]
pub enum Command {
    /// There are this many threads.
    Threads(usize),
    /// There is a lock.
    Lock { name: Name, kind: Kind },
    /// A thread takes a turn.
    Turn { thread: usize, turn: NamedTurn },
    /// Each lock shows its state.
    Show,
    /// All end their calls, and each thread that owns the lock gives it up.
    Drain,
}

/// A call of a lock of some sort.
#[derive(Clone, Copy, PartialEq, Eq)]
pub enum NamedCall {
    Mutex(MutexCall),
    RwLock(RwLockCall),
    Once(OnceCall),
    Semaphore(SemaphoreCall),
    /// The thread notifies the first waiter of a condition variable, or all.
    Notify { all: bool },
    /// The thread waits on a condition variable with the mutex of this name.
    Wait { mutex: Name, timed: bool },
}

/// A thread's turn, with locks by their names.
#[derive(Clone, Copy, PartialEq, Eq)]
pub enum NamedTurn {
    /// The thread begins a call.
    Begin { call: NamedCall, name: Name },
    /// The thread does the next act of its call.
    Go,
    /// The thread loads a word again in place of an act that leads to sleep.
    Spin,
    /// The thread's time is up, and it gives up a timed sleep.
    Late,
    /// The closure of its call answers well, and it goes on.
    Ok,
    /// The closure of its call answers an error, and it goes on.
    Err,
    /// The thread goes on alone.
    Solo,
    /// The thread begins a call, and goes on alone.
    Do { call: NamedCall, name: Name },
}

/// Returns the meaning of a line, where it has one of the forms.
pub fn meaning(line: &[u8]) -> Option<Command>
    ensures { result ≡ meaning line.now }
{
    let (first, rest) = split_word(line);
    let Some(rest) = rest else {
        return command_of_one(first);
    };
    let (second, rest) = split_word(rest);
    let Some(rest) = rest else {
        return command_of_two(first, second);
    };
    let (third, rest) = split_word(rest);
    let Some(rest) = rest else {
        return command_of_three(first, second, third);
    };
    let (fourth, rest) = split_word(rest);
    let Some(rest) = rest else {
        return command_of_four(first, second, third, fourth);
    };
    let (fifth, rest) = split_word(rest);
    if let Some(_) = rest {
        return None;
    }
    command_of_five(first, second, third, fourth, fifth)
}

/// The first word, and what comes after its space.
fn split_word(text: &[u8]) -> (&[u8], Option<&[u8]>)
    ensures { MatchOption result.1 (words_of text.now ≡ result.0.now ∷ [])
        (λ rest. words_of text.now ≡ result.0.now ∷ words_of rest.now) }
{
    let at = len_of_word(text);
    if at == text.len() {
        return (text, None);
    }
    (&text[..at], Some(&text[at + 1..]))
}

/// Returns how many bytes come before the first space, or all.
fn len_of_word(text: &[u8]) -> usize
    ensures within { result ≤ length text.now }
    ensures before { All (λ b. b ≢ 32) (take result text.now) }
    ensures found { result < length text.now → slice_index text.now result ≡ 32 }
{
    text.iter().position(|b| *b == b' ').unwrap_or(text.len())
}

fn command_of_one(word: &[u8]) -> Option<Command>
    ensures { result ≡ command_of (word.now ∷ []) }
{
    if is_text(word, b"show") {
        Some(Command::Show)
    } else if is_text(word, b"drain") {
        Some(Command::Drain)
    } else {
        None
    }
}

fn command_of_two(first: &[u8], second: &[u8]) -> Option<Command>
    ensures { result ≡ command_of (first.now ∷ second.now ∷ []) }
{
    if is_text(first, b"threads") {
        return number(second).map(Command::Threads);
    }
    let thread = number(first)?;
    let turn = turn(second)?;
    Some(Command::Turn { thread, turn })
}

fn command_of_three(first: &[u8], second: &[u8], third: &[u8]) -> Option<Command>
    ensures { result ≡ command_of (first.now ∷ second.now ∷ third.now ∷ []) }
{
    if !is_text(first, b"lock") {
        return None;
    }
    let name = Name::from_word(second)?;
    let kind = kind(third)?;
    Some(Command::Lock { name, kind })
}

fn command_of_four(first: &[u8], second: &[u8], third: &[u8], fourth: &[u8]) -> Option<Command>
    ensures { result ≡ command_of (first.now ∷ second.now ∷ third.now ∷ fourth.now ∷ []) }
{
    if is_text(first, b"lock") {
        return limited_lock(second, third, fourth);
    }
    calling_command(first, second, call(third), fourth)
}

/// Returns a wait on a condition variable, with a mutex.
fn command_of_five(
    first: &[u8],
    second: &[u8],
    third: &[u8],
    fourth: &[u8],
    fifth: &[u8],
) -> Option<Command>
    ensures { result ≡ command_of
        (first.now ∷ second.now ∷ third.now ∷ fourth.now ∷ fifth.now ∷ []) }
{
    let call = wait(third, Name::from_word(fifth));
    calling_command(first, second, call, fourth)
}

/// Returns a lock with a reader limit, or with its permits.
fn limited_lock(name: &[u8], kind: &[u8], limit: &[u8]) -> Option<Command>
    ensures { result ≡ lock_command (name_of name.now)
        (limited_kind_of kind.now (number_read limit.now)) }
{
    let name = Name::from_word(name)?;
    let kind = limited_kind(kind, number(limit)?)?;
    Some(Command::Lock { name, kind })
}

/// Takes a turn that calls a lock.
fn calling_command(
    thread: &[u8],
    turn: &[u8],
    call: Option<NamedCall>,
    name: &[u8],
) -> Option<Command>
    ensures { result ≡ calling_command_of thread.now turn.now call name.now }
{
    let thread = number(thread)?;
    let call = call?;
    let name = Name::from_word(name)?;
    let turn = calling_turn(turn, call, name)?;
    Some(Command::Turn { thread, turn })
}

/// Returns the turn that a word names, which calls no lock.
fn turn(word: &[u8]) -> Option<NamedTurn>
    ensures { result ≡ turn_of word.now }
{
    if is_text(word, b"go") {
        Some(NamedTurn::Go)
    } else if is_text(word, b"solo") {
        Some(NamedTurn::Solo)
    } else if is_text(word, b"spin") {
        Some(NamedTurn::Spin)
    } else if is_text(word, b"late") {
        Some(NamedTurn::Late)
    } else {
        closing_turn(word)
    }
}

/// Returns the turn that a word names, by which a closure answers.
fn closing_turn(word: &[u8]) -> Option<NamedTurn>
    ensures { result ≡ closing_turn_of word.now }
{
    if is_text(word, b"ok") {
        Some(NamedTurn::Ok)
    } else if is_text(word, b"err") {
        Some(NamedTurn::Err)
    } else {
        None
    }
}

/// Returns the turn that a word names, which calls a lock.
fn calling_turn(word: &[u8], call: NamedCall, name: Name) -> Option<NamedTurn>
    ensures { result ≡ calling_turn_of word.now call name }
{
    if is_text(word, b"begin") {
        Some(NamedTurn::Begin { call, name })
    } else if is_text(word, b"do") {
        Some(NamedTurn::Do { call, name })
    } else {
        None
    }
}

/// Returns the kind of lock that a word names. Readers without a limit may be as many as fit into a
/// word.
fn kind(word: &[u8]) -> Option<Kind>
    ensures { result ≡ kind_of word.now }
{
    if is_text(word, b"mutex") {
        Some(Kind::Mutex)
    } else if is_text(word, b"fair") {
        Some(Kind::Fair)
    } else if is_text(word, b"condvar") {
        Some(Kind::Condvar)
    } else if is_text(word, b"once") {
        Some(Kind::Once)
    } else {
        rwlock_kind(word, MOST_READERS)
    }
}

/// Returns the kind of lock that a word names, with this limit of readers or so many permits.
fn limited_kind(word: &[u8], limit: usize) -> Option<Kind>
    ensures { result ≡ limited_kind_of word.now (Some limit) }
{
    let limit = limit as u64;
    if is_text(word, b"semaphore") {
        Some(Kind::Semaphore { permits: limit })
    } else {
        rwlock_kind(word, limit)
    }
}

/// Returns the kind of reader-writer lock that a word names, with this limit.
fn rwlock_kind(word: &[u8], limit: u64) -> Option<Kind>
    ensures { result ≡ rwlock_kind_of word.now limit }
{
    if is_text(word, b"rwlock") {
        Some(Kind::RwLock { limit })
    } else if is_text(word, b"recursive") {
        Some(Kind::Recursive { limit })
    } else {
        None
    }
}

/// The call that a word names, of the lock that is named after it alone.
fn call(word: &[u8]) -> Option<NamedCall>
    ensures { result ≡ call_of word.now }
{
    if let Some(call) = mutex_call(word) {
        return Some(NamedCall::Mutex(call));
    }
    if let Some(call) = entering_call(word) {
        return Some(NamedCall::RwLock(call));
    }
    if let Some(call) = other_call(word) {
        return Some(NamedCall::RwLock(call));
    }
    if let Some(call) = once_call(word) {
        return Some(NamedCall::Once(call));
    }
    if let Some(call) = semaphore_call(word) {
        return Some(NamedCall::Semaphore(call));
    }
    notification(word)
}

/// Returns the call of a mutex that a word names.
fn mutex_call(word: &[u8]) -> Option<MutexCall>
    ensures { result ≡ mutex_call_of word.now }
{
    if is_text(word, b"lock") {
        Some(MutexCall::Lock)
    } else if is_text(word, b"unlock") {
        Some(MutexCall::Unlock)
    } else if is_text(word, b"try_lock") {
        Some(MutexCall::TryLock)
    } else if is_text(word, b"lock_timed") {
        Some(MutexCall::LockTimed)
    } else if is_text(word, b"unlock_fair") {
        Some(MutexCall::UnlockFair)
    } else if is_text(word, b"bump") {
        Some(MutexCall::Bump)
    } else {
        None
    }
}

fn enters(access: Access, patience: Patience) -> Option<RwLockCall>
    ensures { result ≡ Some (RwLockCall.Enter access patience) }
{
    Some(RwLockCall::Enter { access, patience })
}

/// The call that a word names, which waits for a right to a reader-writer lock.
fn entering_call(word: &[u8]) -> Option<RwLockCall>
    ensures { result ≡ entering_call_of word.now }
{
    if is_text(word, b"read") {
        enters(Access::Shared, Patience::Patient)
    } else if is_text(word, b"read_timed") {
        enters(Access::Shared, Patience::Timed)
    } else if is_text(word, b"try_read") {
        enters(Access::Shared, Patience::Try)
    } else if is_text(word, b"upgradable") {
        enters(Access::Upgradable, Patience::Patient)
    } else if is_text(word, b"upgradable_timed") {
        enters(Access::Upgradable, Patience::Timed)
    } else if is_text(word, b"try_upgradable") {
        enters(Access::Upgradable, Patience::Try)
    } else if is_text(word, b"write") {
        enters(Access::Exclusive, Patience::Patient)
    } else if is_text(word, b"write_timed") {
        enters(Access::Exclusive, Patience::Timed)
    } else if is_text(word, b"try_write") {
        enters(Access::Exclusive, Patience::Try)
    } else {
        None
    }
}

/// The call that a word names, which gives a right to a reader-writer lock up or turns it into
/// another.
fn other_call(word: &[u8]) -> Option<RwLockCall>
    ensures { result ≡ other_call_of word.now }
{
    if is_text(word, b"unlock_shared") {
        Some(RwLockCall::Release(Access::Shared))
    } else if is_text(word, b"unlock_upgradable") {
        Some(RwLockCall::Release(Access::Upgradable))
    } else if is_text(word, b"unlock_exclusive") {
        Some(RwLockCall::Release(Access::Exclusive))
    } else if is_text(word, b"downgrade") {
        Some(RwLockCall::Downgrade(Downgrade::ToShared))
    } else if is_text(word, b"downgrade_to_upgradable") {
        Some(RwLockCall::Downgrade(Downgrade::ToUpgradable))
    } else if is_text(word, b"downgrade_upgradable") {
        Some(RwLockCall::Downgrade(Downgrade::UpgradableToShared))
    } else if is_text(word, b"upgrade") {
        Some(RwLockCall::Upgrade(Patience::Patient))
    } else if is_text(word, b"upgrade_timed") {
        Some(RwLockCall::Upgrade(Patience::Timed))
    } else if is_text(word, b"try_upgrade") {
        Some(RwLockCall::Upgrade(Patience::Try))
    } else {
        fair_call(word)
    }
}

/// The call that a word names, which gives a right to a reader-writer lock up fairly.
fn fair_call(word: &[u8]) -> Option<RwLockCall>
    ensures { result ≡ fair_call_of word.now }
{
    if is_text(word, b"unlock_shared_fair") {
        Some(RwLockCall::ReleaseFair(Access::Shared))
    } else if is_text(word, b"unlock_upgradable_fair") {
        Some(RwLockCall::ReleaseFair(Access::Upgradable))
    } else if is_text(word, b"unlock_exclusive_fair") {
        Some(RwLockCall::ReleaseFair(Access::Exclusive))
    } else if is_text(word, b"bump_shared") {
        Some(RwLockCall::Bump(Access::Shared))
    } else if is_text(word, b"bump_upgradable") {
        Some(RwLockCall::Bump(Access::Upgradable))
    } else if is_text(word, b"bump_exclusive") {
        Some(RwLockCall::Bump(Access::Exclusive))
    } else {
        None
    }
}

/// Returns the call of a `Once` that a word names.
fn once_call(word: &[u8]) -> Option<OnceCall>
    ensures { result ≡ once_call_of word.now }
{
    if is_text(word, b"call_once") {
        Some(OnceCall::CallOnce { forced: false })
    } else if is_text(word, b"call_once_force") {
        Some(OnceCall::CallOnce { forced: true })
    } else if is_text(word, b"wait") {
        Some(OnceCall::Wait { forced: false })
    } else if is_text(word, b"wait_force") {
        Some(OnceCall::Wait { forced: true })
    } else if is_text(word, b"wait_timed") {
        Some(OnceCall::WaitTimed)
    } else {
        None
    }
}

/// Returns the call of a semaphore that a word names.
fn semaphore_call(word: &[u8]) -> Option<SemaphoreCall>
    ensures { result ≡ semaphore_call_of word.now }
{
    if is_text(word, b"acquire") {
        Some(SemaphoreCall::Acquire(Patience::Patient))
    } else if is_text(word, b"acquire_timed") {
        Some(SemaphoreCall::Acquire(Patience::Timed))
    } else if is_text(word, b"try_acquire") {
        Some(SemaphoreCall::Acquire(Patience::Try))
    } else if is_text(word, b"release") {
        Some(SemaphoreCall::Release)
    } else {
        None
    }
}

/// The call that a word names, which notifies the waiters of a condition variable.
fn notification(word: &[u8]) -> Option<NamedCall>
    ensures { result ≡ notification_of word.now }
{
    if is_text(word, b"notify_one") {
        Some(NamedCall::Notify { all: false })
    } else if is_text(word, b"notify_all") {
        Some(NamedCall::Notify { all: true })
    } else {
        None
    }
}

/// The call that a word names, which waits on a condition variable with a mutex.
fn wait(word: &[u8], mutex: Option<Name>) -> Option<NamedCall>
    ensures { result ≡ wait_of word.now mutex }
{
    let mutex = mutex?;
    if is_text(word, b"wait") {
        Some(NamedCall::Wait {
            mutex,
            timed: false,
        })
    } else if is_text(word, b"wait_timed") {
        Some(NamedCall::Wait { mutex, timed: true })
    } else {
        None
    }
}

/// Returns the number that a word spells as it would be printed, in at most 19 digits.
pub(crate) fn number(word: &[u8]) -> Option<usize>
    ensures { result ≡ number_read word.now }
{
    if word.is_empty() || word.len() > MOST_DIGITS {
        return None;
    }
    if word.len() != 1 && word[0] == b'0' {
        return None;
    }
    digits(word)
}

/// Returns the number that digits spell.
fn digits(word: &[u8]) -> Option<usize>
    requires { length word.now ≤ MOST_DIGITS }
    ensures { result ≡ digits_after 0 word.now }
{
    let mut n = 0usize;
    for b in word {
        if *b < b'0' || *b > b'9' {
            return None;
        }
        n = n * 10 + (*b - b'0') as usize;
    }
    Some(n)
}

/// A number is read only as it would be printed.
pub fn numbers_are_decimal()
    ensures { (word : List ℕ) (n : ℕ) → number_read word ≡ Some n
        → (decimal n ≡ word) × (n < 10 ^ 19) }
{}
