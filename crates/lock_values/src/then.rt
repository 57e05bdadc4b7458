//! One projection after another.
ghost use Rattle.std.specs.Prelude.{◌≡◌, Result, Ok, Err};
ghost use Rattle.lock_values.specs.Then.{found_after, found_after_written, written_after};

use crate::errors::ThenError;
use crate::project::Project;

/// Finds by the second projection in the part that the first one finds.
#[derive(Clone, Copy)]
pub struct Then<P, Q> {
    pub first: P,
    pub second: Q,
}

impl<T, P: Project<T>, Q: Project<P::Target>> Project<T> for Then<P, Q> {
    type Target = Q::Target;

    type Error = ThenError<P::Error, Q::Error>;

    ghost finds = { λ by value. found_after (P.finds by.first value) (Q.finds by.second) };

    ghost written = { λ by value next. written_after (P.finds by.first value)
        (Q.written by.second) (P.written by.first value) value next };

    ghost finds_written = { λ by value found next at. found_after_written (P.finds by.first)
        (P.written by.first) (P.finds_written by.first) (Q.finds by.second)
        (Q.written by.second) (Q.finds_written by.second) value found next at };

    fn check(self, value: &T) -> Result<(), ThenError<P::Error, Q::Error>> {
        if let Err(missing) = self.first.check(value) {
            return Err(ThenError::First(missing));
        }
        match self.second.check(self.first.get(value)) {
            Ok(()) => Ok(()),
            Err(missing) => Err(ThenError::Second(missing)),
        }
    }

    fn get<'v>(self, value: &'v T) -> &'v Q::Target
    where
        Self: 'v,
    {
        self.second.get(self.first.get(value))
    }

    fn get_mut<'v>(value: &'v mut T, by: Then<P, Q>) -> &'v mut Q::Target
    where
        Self: 'v,
    {
        Q::get_mut(P::get_mut(value, by.first), by.second)
    }
}
