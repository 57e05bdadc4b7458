//! A slot of a vector.
ghost use Rattle.std.specs.Prelude.{◌≡◌, Ok};
ghost use Rattle.std.specs.Vec.{with_item};
ghost use Rattle.test_mapped.specs.Slots.{slot_found, slot_found_again};

use parking_lot::Project;

/// Finds the slot of this number, or tells this error where there is none.
#[derive(Clone, Copy)]
pub struct Slot {
    pub at: usize,
    pub missing: u64,
}

impl<T> Project<Vec<T>> for Slot {
    type Target = T;

    type Error = u64;

    ghost finds = { λ by slots. slot_found slots.items by.at by.missing };

    ghost written = { λ by slots next. with_item slots by.at next };

    ghost finds_written = { λ by slots found next at. slot_found_again slots.items by.at by.missing found next at };

    fn check(self, value: &Vec<T>) -> Result<(), u64> {
        if self.at < value.len() {
            Ok(())
        } else {
            Err(self.missing)
        }
    }

    fn get<'v>(self, value: &'v Vec<T>) -> &'v T
    where
        Self: 'v,
    {
        &value[self.at]
    }

    fn get_mut<'v>(value: &'v mut Vec<T>, by: Slot) -> &'v mut T
    where
        Self: 'v,
    {
        &mut value[by.at]
    }
}
