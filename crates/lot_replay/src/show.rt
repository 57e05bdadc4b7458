//! The lines of `show`: a lock's name, its word, and each group of threads that isn't empty.
ghost use Rattle.std.specs.Prelude.{◌≡◌, ◌<◌, ◌≤◌, ◌+◌, ◌*◌, ◌++◌, ℕ, List, All, length};
ghost use Rattle.lot_machine.specs.Views.{StandUnder};
ghost use Rattle.lot_text.specs.Sent.{Puts};
ghost use Rattle.lot_replay.specs.Shows.{owner_letter, want_letter, owners_text, waiters_text, debtors_text};
ghost use Rattle.lot_replay.specs.Shows.{show_line, show_lines};

use core_base::{Queues, Waiter, Want, main_key};
use lot_text::{Name, Page};
use lot_world::{Debt, DebtBook, Debts, MOST_LOCKS, Owner, OwnersOf, QueueOf, World};
use std::io::Write;

/// Prints a line for each lock.
pub fn show_locks<Q: Queues + Drop, W: Write>(
    page: &mut Page,
    writer: &mut W,
    names: &[Name],
    world: &World<Q>,
)
    requires named { length names.now ≡ length world.now.locks }
    requires few { length names.now ≤ MOST_LOCKS }
    ensures { Puts (W.contents writer.old) (W.contents writer.new) page.old page.new
        (show_lines world.now 0 names.now) }
{
    let debts = world.debts();
    for (lock, name) in names.iter().enumerate() {
        show_lock(page, writer, *name, world, &debts, lock);
    }
}

fn show_lock<Q: Queues + Drop, W: Write>(
    page: &mut Page,
    writer: &mut W,
    name: Name,
    world: &World<Q>,
    debts: &DebtBook<'_>,
    lock: usize,
)
    requires debts { debts.now ≡ world.now.places }
    requires is_there { lock < length world.now.locks }
    requires few { lock < MOST_LOCKS }
    ensures { Puts (W.contents writer.old) (W.contents writer.new) page.old page.new
        (show_line world.now lock name) }
{
    page.put(writer, name.text());
    page.put(writer, b" ");
    page.put_number(writer, world.word(lock));
    print_owners(page, writer, world.owners(lock));
    print_waiters(page, writer, world.queue(lock), lock);
    print_debtors(page, writer, debts.on(lock));
    page.put(writer, b"\n");
}

/// Prints the owners of a lock, each with a letter for its sort.
fn print_owners<W: Write>(page: &mut Page, writer: &mut W, owners: OwnersOf<'_>)
    ensures { Puts (W.contents writer.old) (W.contents writer.new) page.old page.new
        (owners_text owners.entry) }
{
    let mut mark = b" own=".as_slice();
    for (owner, thread) in owners {
        page.put(writer, mark);
        page.put_number(writer, thread as u64);
        page.put(writer, owner_letter(owner));
        mark = b",";
    }
}

/// Prints the waiters of a lock: its main queue, each with a letter for what it wants, and the
/// waiter aside.
fn print_waiters<Q: Queues + Drop, W: Write>(
    page: &mut Page,
    writer: &mut W,
    queue: QueueOf<'_, Q>,
    lock: usize,
)
    requires { lock < MOST_LOCKS }
    ensures { (main aside : List Waiter) → queue.entry ≡ main ++ aside
        → StandUnder (2 * lock) main → StandUnder (2 * lock + 1) aside
        → Puts (W.contents writer.old) (W.contents writer.new) page.old page.new
        (waiters_text main aside) }
{
    let mut main_mark = b" queue=".as_slice();
    let mut aside_mark = b" aside=".as_slice();
    for waiter in queue {
        if waiter.key == main_key(lock) {
            page.put(writer, main_mark);
            page.put_number(writer, waiter.thread as u64);
            page.put(writer, want_letter(waiter.want));
            main_mark = b",";
        } else {
            page.put(writer, aside_mark);
            page.put_number(writer, waiter.thread as u64);
            aside_mark = b",";
        }
    }
}

/// Prints the threads that owe a wake on a lock, and those that try it again.
fn print_debtors<W: Write>(page: &mut Page, writer: &mut W, debts: Debts<'_>)
    ensures { (owing retrying : List (Debt × ℕ)) → debts.entry ≡ owing ++ retrying
        → All (λ d. d.0 ≡ Debt.Owes) owing → All (λ d. d.0 ≡ Debt.Retries) retrying
        → Puts (W.contents writer.old) (W.contents writer.new) page.old page.new
        (debtors_text owing retrying) }
{
    let mut owe_mark = b" owe=".as_slice();
    let mut retry_mark = b" retry=".as_slice();
    for (debt, thread) in debts {
        match debt {
            Debt::Owes => {
                page.put(writer, owe_mark);
                page.put_number(writer, thread as u64);
                owe_mark = b",";
            }
            Debt::Retries => {
                page.put(writer, retry_mark);
                page.put_number(writer, thread as u64);
                retry_mark = b",";
            }
        }
    }
}

fn owner_letter(owner: Owner) -> &'static [u8]
    ensures { result.now ≡ owner_letter owner }
{
    match owner {
        Owner::Exclusive => b"x",
        Owner::Pending => b"p",
        Owner::Upgradable => b"u",
        Owner::Running => b"r",
        Owner::Shared => b"s",
    }
}

fn want_letter(want: Want) -> &'static [u8]
    ensures { result.now ≡ want_letter want }
{
    match want {
        Want::Exclusive => b"x",
        Want::Upgradable => b"u",
        Want::Shared => b"s",
        Want::Wait => b"w",
        Want::CallOnce => b"c",
    }
}
