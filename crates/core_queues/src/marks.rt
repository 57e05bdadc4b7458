//! Marks of threads. By these two lists of waiters are compared in one walk of each.
ghost use Rattle.std.specs.Prelude.{◌≡◌, ◌<◌, ◌≤◌, ℕ, None, false, length, slice_index_or};
ghost use Rattle.core_base.specs.Lines.{IsSeated, line, times};

use core_base::{Key, Waiter};

/// Gives the thread of each waiter this mark. One that has none is passed over.
pub(crate) fn mark_all(marks: &mut Vec<bool>, waiters: &[Waiter], mark: bool)
    ensures marked { (thread : ℕ) → 1 ≤ times thread waiters.now
        → thread < length marks.new.items → slice_index_or marks.new.items thread false ≡ mark }
    ensures length { length marks.new.items ≡ length marks.old.items }
{
    for waiter in waiters {
        if waiter.thread < marks.len() {
            marks[waiter.thread] = mark;
        }
    }
}

/// Finds the first waiter under a key whose thread is marked.
pub(crate) fn first_marked(marks: &[bool], key: Key, waiters: &[Waiter]) -> Option<usize>
    requires { IsSeated waiters.now (length marks.now) }
    ensures { result ≡ None → (thread : ℕ) → 1 ≤ times thread (line key waiters.now)
        → slice_index_or marks.now thread false ≡ false }
{
    for waiter in waiters {
        if waiter.key == key && marks[waiter.thread] {
            return Some(waiter.thread);
        }
    }
    None
}
