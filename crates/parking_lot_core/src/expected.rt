//! The values that a thread's steps expect of a mutex's word.
//!
//! While a section is recorded in the token the two values are others: no mutex's word, so that the
//! exchange of a lock misses, and 0, so that the subtraction of an unlock takes nothing. Then the
//! section is forgotten and the step is taken. To the table the first attempt is no step
//! (`TakesExpected`). A test of the record before each step would take two instructions more.
ghost use Rattle.std.specs.Prelude.{◌≡◌, ◌≢◌, ◌<◌, ◌≤◌, ◌↔◌, true, false};

/// The word of a mutex that nobody has, and what the unlock of one takes from it. While a thread
/// tells of its last section these are numbers that no step meets: so a step forgets the section
/// without having asked for it, since it fails. A thread that is directed meets nothing either, so
/// that each of its steps asks for its turn first.
#[derive(Drop)]
pub struct Expected {
    // One store writes both: halves of a word, the one that is 0 above the one that is 1.
    pub(crate) locked: u32,
    pub(crate) unlocked: u32,
    // Whether the thread tells of its last section.
    pub(crate) recorded: bool,
    // Whether a director says when it runs.
    pub(crate) directed: bool,
    ghost kept: { (locked ≤ 1) × (unlocked ≡ 0 ↔ locked ≡ 1) × (unlocked ≢ 0 → 3 < unlocked) },
    ghost told: { unlocked ≡ 0 → recorded ≡ false },
}

impl Expected {
    #[inline]
    pub(crate) fn at_rest(directed: bool) -> Expected
        ensures { result.recorded ≡ false }
    {
        if directed {
            return Expected {
                locked: 0,
                unlocked: u32::MAX,
                recorded: false,
                directed: true,
            };
        }
        Expected {
            locked: 1,
            unlocked: 0,
            recorded: false,
            directed: false,
        }
    }

    #[inline]
    pub(crate) fn recording(directed: bool) -> Expected
        ensures { result.recorded ≡ true }
    {
        Expected {
            locked: 0,
            unlocked: u32::MAX,
            recorded: true,
            directed,
        }
    }
}
