//! How a thread is put into a chain, and taken out of it.
ghost use Rattle.std.specs.Prelude.{◌≡◌, ◌<◌, IfSome, length, Some};
ghost use Rattle.std.specs.Vec.{vec_capacity};
ghost use Rattle.core_queues.specs.Links.{next_of, next_in, first_in, leading, with_next, record_of};
ghost use Rattle.core_queues.specs.Links.{next_after, waiter_at, unlinked_records, ends_left};
ghost use Rattle.core_queues.specs.Links.{linked_records, linked_ends};

use crate::records::{Ends, Record};
use core_base::{Key, Waiter, Want};

/// Gives the next thread of the chain after a record.
pub(crate) fn next(standing: Option<Record>) -> Option<usize>
    ensures { result ≡ next_in standing }
{
    match standing {
        Some(record) => record.next,
        None => None,
    }
}

/// Gives the first thread of a chain.
pub(crate) fn first(ends: Option<Ends>) -> Option<usize>
    ensures { result ≡ first_in ends }
{
    match ends {
        Some(ends) => Some(ends.first),
        None => None,
    }
}

/// Makes the record with another next thread.
fn lead(standing: Option<Record>, next: Option<usize>) -> Option<Record>
    ensures { result ≡ leading standing next }
{
    match standing {
        Some(record) => Some(Record {
            key: record.key,
            want: record.want,
            next,
        }),
        None => None,
    }
}

/// Reads the record of a thread. A thread that stands nowhere has none.
pub(crate) fn standing(records: &[Option<Record>], thread: usize) -> Option<Record>
    ensures { result ≡ record_of records.now thread }
{
    if thread < records.len() {
        records[thread]
    } else {
        None
    }
}

/// Gives the next thread of a chain, or, with no thread before it, the first.
pub(crate) fn rest_after(
    records: &[Option<Record>],
    ends: Option<Ends>,
    before: Option<usize>,
) -> Option<usize>
    ensures { result ≡ next_after records.now ends before }
{
    match before {
        Some(before) => next(standing(records, before)),
        None => first(ends),
    }
}

/// Makes the waiter of a thread's record.
pub(crate) fn waiter(records: &[Option<Record>], thread: Option<usize>) -> Option<Waiter>
    ensures { result ≡ waiter_at records.now thread }
{
    let Some(thread) = thread else {
        return None;
    };
    match standing(records, thread) {
        Some(record) => Some(Waiter {
            key: record.key,
            thread,
            want: record.want,
        }),
        None => None,
    }
}

/// Takes a thread's record out of its chain. `before` is the thread in front of it; none stands in
/// front of the first.
pub(crate) fn unlink(records: &mut Vec<Option<Record>>, before: Option<usize>, thread: usize)
    requires { (thread < length records.old.items)
        × IfSome before (λ b. b < length records.old.items) }
    ensures { records.new.items ≡ unlinked_records records.old.items before thread }
{
    if let Some(before) = before {
        let next = next(records[thread]);
        records[before] = lead(records[before], next);
    }
    records[thread] = None;
}

/// Computes the ends of a chain that a thread has left, by the threads in front of it and after it.
pub(crate) fn ends_without(
    ends: Option<Ends>,
    before: Option<usize>,
    next: Option<usize>,
) -> Option<Ends>
    ensures { result ≡ ends_left ends before next }
{
    let Some(ends) = ends else {
        return None;
    };
    match (before, next) {
        (None, None) => None,
        (None, Some(first)) => Some(Ends {
            first,
            last: ends.last,
        }),
        (Some(last), None) => Some(Ends {
            first: ends.first,
            last,
        }),
        (Some(_), Some(_)) => Some(ends),
    }
}

/// Puts a thread's record after the last of a chain.
pub(crate) fn link(
    records: &mut Vec<Option<Record>>,
    ends: Option<Ends>,
    key: Key,
    thread: usize,
    want: Want,
)
    requires { (thread < length records.old.items)
        × IfSome ends (λ e. e.last < length records.old.items) }
    ensures { records.new.items ≡ linked_records records.old.items ends key thread want }
{
    records[thread] = Some(Record {
        key,
        want,
        next: None,
    });
    if let Some(ends) = ends {
        records[ends.last] = lead(records[ends.last], Some(thread));
    }
}

/// Computes the ends of a chain to whose end a thread was linked.
pub(crate) fn ends_with(ends: Option<Ends>, thread: usize) -> Ends
    ensures { result ≡ linked_ends ends thread }
{
    match ends {
        Some(ends) => Ends {
            first: ends.first,
            last: thread,
        },
        None => Ends {
            first: thread,
            last: thread,
        },
    }
}
