//! How far a thread had come, by its steps on words.
ghost use Rattle.std.specs.Borrow.{ftrue};
ghost use Rattle.std.specs.Prelude.{ℕ};

use std::marker::Model;

/// The number of steps on words that a thread had taken at some moment. It has no bytes.
pub struct StepCount {
    pub ghost number: { ℕ },
}

impl Model for StepCount {
    ghost also_owns = { λ _. ftrue };
}

// The drop is written, and not derived, so that it is proved here and not in each program.
impl Drop for StepCount {
    fn drop(self) {
        let Self {} = self;
    }
}
