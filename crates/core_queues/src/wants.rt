//! The wants of the waiters that a section takes.
ghost use Rattle.std.specs.Prelude.{◌≡◌, ◌≤◌, [], take};
ghost use Rattle.std.specs.Vec.{vec_capacity};
ghost use Rattle.core_base.specs.Lines.{line};
ghost use Rattle.core_base.specs.Picks.{picked};
ghost use Rattle.core_queues.specs.Wants.{wants_of};
ghost use Rattle.core_base.specs.declared.picks.Pick.TheVariants.{Unpark};

use core_base::{Key, ListQueues, Pick, Picker, Queues, Want};

/// Picks everybody.
#[derive(Drop)]
pub(crate) struct Everybody;

impl Picker for Everybody {
    ghost answer = { λ _ _. Unpark };

    ghost next = { λ everybody _. everybody };

    fn pick(&mut self, _want: Want) -> Pick {
        Pick::Unpark
    }
}

/// Pushes the wants of the waiters that a picker picks under a key, to an empty list that has room.
pub(crate) fn note_wants<P: Picker + Drop>(
    queues: &ListQueues,
    key: Key,
    mut picker: P,
    wants: &mut Vec<Want>,
)
    requires { (wants.old.items ≡ []) × (queues.now.capacity ≤ vec_capacity wants.old) }
    ensures wants { wants.new.items
        ≡ wants_of (picked P.answer P.next picker (line key queues.now.waiters)) }
    ensures room { vec_capacity wants.new ≡ vec_capacity wants.old }
{
    let mut place = 0;
    while let Some((waiter, next)) = queues.find(key, place) {
        match picker.pick(waiter.want) {
            Pick::Unpark => wants.push_reserved(waiter.want),
            Pick::Skip => {}
            Pick::Stop => return,
        }
        place = next;
    }
}

/// Pushes the want of the first waiter under a key, if there is one, to an empty list that has
/// room.
pub(crate) fn note_first_want(queues: &ListQueues, key: Key, wants: &mut Vec<Want>)
    requires { (wants.old.items ≡ []) × (queues.now.capacity ≤ vec_capacity wants.old) }
    ensures wants { wants.new.items ≡ wants_of (take 1 (line key queues.now.waiters)) }
    ensures room { vec_capacity wants.new ≡ vec_capacity wants.old }
{
    if let Some((waiter, _)) = queues.find(key, 0) {
        wants.push_reserved(waiter.want);
    }
}
