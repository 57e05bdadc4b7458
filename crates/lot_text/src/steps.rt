//! Steps as a schedule has them, and the lines of a drain.
ghost use Rattle.std.specs.Prelude.{◌≡◌};
ghost use Rattle.lot_text.specs.Sent.{Puts};
ghost use Rattle.lot_text.specs.Steps.{mutex_word, read_word, upgradable_word, write_word, enter_word};
ghost use Rattle.lot_text.specs.Steps.{release_word, fair_release_word, bump_word, downgrade_word};
ghost use Rattle.lot_text.specs.Steps.{upgrade_word, rwlock_word, once_word, semaphore_word, condvar_word};
ghost use Rattle.lot_text.specs.Steps.{call_word, name_at, beside_text, call_text, turn_text, step_text};
ghost use Rattle.lot_text.specs.Steps.{drain_line, drain_refused_line, StepsAreReadBack};

use crate::names::Name;
use crate::output::Page;
use spec_locks::{
    Access, Call, CondvarCall, Downgrade, MutexCall, OnceCall, Patience, RwLockCall, SemaphoreCall,
    Step, Turn,
};
use std::io::Write;

/// Prints the line of a step by which a world is drained.
pub fn print_drain_step<W: Write>(page: &mut Page, writer: &mut W, names: &[Name], step: Step)
    ensures { Puts (W.contents writer.old) (W.contents writer.new) page.old page.new
        (drain_line names.now step) }
{
    page.put(writer, b"drain ");
    print_step(page, writer, names, step);
    page.put(writer, b"\n");
}

/// Prints that a world isn't one that can be drained.
pub fn print_drain_refused<W: Write>(page: &mut Page, writer: &mut W)
    ensures { Puts (W.contents writer.old) (W.contents writer.new) page.old page.new
        drain_refused_line }
{
    page.put(writer, b"drain refused\n");
}

/// Prints a step as a schedule has it, of locks with these names.
pub fn print_step<W: Write>(page: &mut Page, writer: &mut W, names: &[Name], step: Step)
    ensures { Puts (W.contents writer.old) (W.contents writer.new) page.old page.new
        (step_text names.now step) }
{
    page.put_number(writer, step.thread as u64);
    print_turn_text(page, writer, names, step.turn);
}

fn print_turn_text<W: Write>(page: &mut Page, writer: &mut W, names: &[Name], turn: Turn)
    ensures { Puts (W.contents writer.old) (W.contents writer.new) page.old page.new
        (turn_text names.now turn) }
{
    match turn {
        Turn::Begin(call) => {
            page.put(writer, b" begin ");
            print_call(page, writer, names, call);
        }
        Turn::Go => page.put(writer, b" go"),
        Turn::Spin => page.put(writer, b" spin"),
        Turn::Late => page.put(writer, b" late"),
        Turn::Ok => page.put(writer, b" ok"),
        Turn::Err => page.put(writer, b" err"),
    }
}

fn print_call<W: Write>(page: &mut Page, writer: &mut W, names: &[Name], call: Call)
    ensures { Puts (W.contents writer.old) (W.contents writer.new) page.old page.new
        (call_text names.now call) }
{
    page.put(writer, call_word(call));
    page.put(writer, b" ");
    print_name(page, writer, names, call.lock());
    print_beside(page, writer, names, call.mutex());
}

/// Prints the mutex that a wait names.
fn print_beside<W: Write>(page: &mut Page, writer: &mut W, names: &[Name], mutex: Option<usize>)
    ensures { Puts (W.contents writer.old) (W.contents writer.new) page.old page.new
        (beside_text names.now mutex) }
{
    if let Some(mutex) = mutex {
        page.put(writer, b" ");
        print_name(page, writer, names, mutex);
    }
}

/// Prints the name of a lock; one that isn't there has none.
fn print_name<W: Write>(page: &mut Page, writer: &mut W, names: &[Name], lock: usize)
    ensures { Puts (W.contents writer.old) (W.contents writer.new) page.old page.new
        (name_at names.now lock) }
{
    if lock < names.len() {
        page.put(writer, names[lock].text());
    }
}

/// Returns the word of a call.
fn call_word(call: Call) -> &'static [u8]
    ensures { result.now ≡ call_word call }
{
    match call {
        Call::Mutex { call, .. } => mutex_word(call),
        Call::RwLock { call, .. } => rwlock_word(call),
        Call::Once { call, .. } => once_word(call),
        Call::Condvar { call, .. } => condvar_word(call),
        Call::Semaphore { call, .. } => semaphore_word(call),
    }
}

fn mutex_word(call: MutexCall) -> &'static [u8]
    ensures { result.now ≡ mutex_word call }
{
    match call {
        MutexCall::Lock => b"lock",
        MutexCall::LockTimed => b"lock_timed",
        MutexCall::TryLock => b"try_lock",
        MutexCall::Unlock => b"unlock",
        MutexCall::UnlockFair => b"unlock_fair",
        MutexCall::Bump => b"bump",
    }
}

fn rwlock_word(call: RwLockCall) -> &'static [u8]
    ensures { result.now ≡ rwlock_word call }
{
    match call {
        RwLockCall::Enter { access, patience } => enter_word(access, patience),
        RwLockCall::Release(access) => release_word(access),
        RwLockCall::ReleaseFair(access) => fair_release_word(access),
        RwLockCall::Downgrade(downgrade) => downgrade_word(downgrade),
        RwLockCall::Upgrade(patience) => upgrade_word(patience),
        RwLockCall::Bump(access) => bump_word(access),
    }
}

fn enter_word(access: Access, patience: Patience) -> &'static [u8]
    ensures { result.now ≡ enter_word access patience }
{
    match access {
        Access::Shared => read_word(patience),
        Access::Upgradable => upgradable_word(patience),
        Access::Exclusive => write_word(patience),
    }
}

fn read_word(patience: Patience) -> &'static [u8]
    ensures { result.now ≡ read_word patience }
{
    match patience {
        Patience::Patient => b"read",
        Patience::Timed => b"read_timed",
        Patience::Try => b"try_read",
    }
}

fn upgradable_word(patience: Patience) -> &'static [u8]
    ensures { result.now ≡ upgradable_word patience }
{
    match patience {
        Patience::Patient => b"upgradable",
        Patience::Timed => b"upgradable_timed",
        Patience::Try => b"try_upgradable",
    }
}

fn write_word(patience: Patience) -> &'static [u8]
    ensures { result.now ≡ write_word patience }
{
    match patience {
        Patience::Patient => b"write",
        Patience::Timed => b"write_timed",
        Patience::Try => b"try_write",
    }
}

fn release_word(access: Access) -> &'static [u8]
    ensures { result.now ≡ release_word access }
{
    match access {
        Access::Shared => b"unlock_shared",
        Access::Upgradable => b"unlock_upgradable",
        Access::Exclusive => b"unlock_exclusive",
    }
}

fn fair_release_word(access: Access) -> &'static [u8]
    ensures { result.now ≡ fair_release_word access }
{
    match access {
        Access::Shared => b"unlock_shared_fair",
        Access::Upgradable => b"unlock_upgradable_fair",
        Access::Exclusive => b"unlock_exclusive_fair",
    }
}

fn bump_word(access: Access) -> &'static [u8]
    ensures { result.now ≡ bump_word access }
{
    match access {
        Access::Shared => b"bump_shared",
        Access::Upgradable => b"bump_upgradable",
        Access::Exclusive => b"bump_exclusive",
    }
}

fn downgrade_word(downgrade: Downgrade) -> &'static [u8]
    ensures { result.now ≡ downgrade_word downgrade }
{
    match downgrade {
        Downgrade::ToShared => b"downgrade",
        Downgrade::ToUpgradable => b"downgrade_to_upgradable",
        Downgrade::UpgradableToShared => b"downgrade_upgradable",
    }
}

fn upgrade_word(patience: Patience) -> &'static [u8]
    ensures { result.now ≡ upgrade_word patience }
{
    match patience {
        Patience::Patient => b"upgrade",
        Patience::Timed => b"upgrade_timed",
        Patience::Try => b"try_upgrade",
    }
}

fn once_word(call: OnceCall) -> &'static [u8]
    ensures { result.now ≡ once_word call }
{
    match call {
        OnceCall::CallOnce { forced: false } => b"call_once",
        OnceCall::CallOnce { forced: true } => b"call_once_force",
        OnceCall::Wait { forced: false } => b"wait",
        OnceCall::Wait { forced: true } => b"wait_force",
        OnceCall::WaitTimed => b"wait_timed",
    }
}

fn semaphore_word(call: SemaphoreCall) -> &'static [u8]
    ensures { result.now ≡ semaphore_word call }
{
    match call {
        SemaphoreCall::Acquire(Patience::Patient) => b"acquire",
        SemaphoreCall::Acquire(Patience::Timed) => b"acquire_timed",
        SemaphoreCall::Acquire(Patience::Try) => b"try_acquire",
        SemaphoreCall::Release => b"release",
    }
}

fn condvar_word(call: CondvarCall) -> &'static [u8]
    ensures { result.now ≡ condvar_word call }
{
    match call {
        CondvarCall::Wait { timed: false, .. } => b"wait",
        CondvarCall::Wait { timed: true, .. } => b"wait_timed",
        CondvarCall::Notify { all: false } => b"notify_one",
        CondvarCall::Notify { all: true } => b"notify_all",
    }
}

/// Shows that the line of a step means that step, so that the lines of a drain can be replayed.
pub fn steps_are_read_back()
    ensures { StepsAreReadBack }
{}
