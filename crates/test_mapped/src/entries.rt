//! An entry of a map, as a projection.
ghost use Rattle.std.specs.Prelude.{◌≡◌, Ok};
ghost use Rattle.std.specs.Option.{ok_or};
ghost use Rattle.indexmap.specs.IndexMap.{get_by, with_value_at};
ghost use Rattle.test_mapped.specs.Entries.{place_in};

use indexmap::{Equivalent, IndexMap};
use parking_lot::Project;
use std::alloc::Allocator;
use std::hash::{BuildHasher, Hash};

/// Finds the value at a key, or tells this error where the map has no such key.
#[derive(Clone, Copy)]
pub struct Entry<Q, E> {
    pub key: Q,
    pub missing: E,
}

impl<K: Eq + Hash, V, S: BuildHasher, A: Allocator, Q: Equivalent<K>, E: Copy> Project<
    IndexMap<K, V, S, A>,
> for Entry<Q, E> {
    ghost use Rattle.test_mapped.specs.EntryLaws.{found_again};

    type Target = V;

    type Error = E;

    ghost finds = { λ by entries. ok_or (get_by (Q.equivalent by.key) entries) by.missing };

    ghost written = { λ by entries next. with_value_at entries (place_in (Q.equivalent by.key) entries) next };

    ghost finds_written = { λ by entries found next at. found_again (Q.equivalent by.key) entries by.missing found next at };

    fn check(self, value: &IndexMap<K, V, S, A>) -> Result<(), E> {
        match value.get_index_of(self.key) {
            Some(_) => Ok(()),
            None => Err(self.missing),
        }
    }

    fn get<'v>(self, value: &'v IndexMap<K, V, S, A>) -> &'v V
    where
        Self: 'v,
    {
        value.get(self.key).unwrap()
    }

    fn get_mut<'v>(value: &'v mut IndexMap<K, V, S, A>, by: Entry<Q, E>) -> &'v mut V
    where
        Self: 'v,
    {
        let at = value.get_index_of(by.key).unwrap();
        &mut value[at]
    }
}
