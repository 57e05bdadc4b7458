//! How rights and deeds look, and what they mean.
//!
//! Cells have letters, those of `show` where it has one, in each run and again in each eighth column.
//! The fills differ in grey by a twelfth of the whole or more (30 parts of red, 59 of green, 11 of
//! blue); three others are hatched.

use lot_picture::Deed;
use lot_world::Owner;

/// How a right or a deed looks.
#[derive(Clone, Copy)]
pub struct Look {
    /// The class of its rectangle.
    pub class: &'static str,
    pub letter: &'static str,
    pub ground: Ground,
    pub means: &'static str,
}

/// The ground of a letter.
#[derive(Clone, Copy, PartialEq, Eq)]
pub enum Ground {
    Light,
    Dark,
    /// A hatch, on which a letter needs a light ground of its own.
    Hatched,
}

/// Returns how a right looks.
pub fn look_of_right(right: Owner) -> Look {
    match right {
        Owner::Exclusive => Look {
            class: "owns",
            letter: "x",
            ground: Ground::Dark,
            means: "owns it alone",
        },
        Owner::Pending => Look {
            class: "pending",
            letter: "p",
            ground: Ground::Hatched,
            means: "is to own it alone, once its readers have left",
        },
        Owner::Upgradable => Look {
            class: "upgradable",
            letter: "u",
            ground: Ground::Light,
            means: "reads, and may upgrade",
        },
        Owner::Shared => Look {
            class: "shares",
            letter: "s",
            ground: Ground::Light,
            means: "shares it, or has a permit",
        },
        Owner::Running => Look {
            class: "runs",
            letter: "r",
            ground: Ground::Light,
            means: "runs its closure",
        },
    }
}

/// Returns how a deed looks.
pub fn look_of_deed(deed: Deed) -> Look {
    match deed {
        Deed::Owes => Look {
            class: "owes",
            letter: "o",
            ground: Ground::Dark,
            means: "owes a wake-up",
        },
        Deed::Waits => Look {
            class: "waits",
            letter: "q",
            ground: Ground::Light,
            means: "waits in the queue",
        },
        Deed::WaitsAside => Look {
            class: "aside",
            letter: "a",
            ground: Ground::Hatched,
            means: "waits aside for readers to leave",
        },
        Deed::Retries => Look {
            class: "retries",
            letter: "t",
            ground: Ground::Light,
            means: "was woken, and tries again",
        },
        Deed::Taken => Look {
            class: "taken",
            letter: "z",
            ground: Ground::Hatched,
            means: "asleep, taken off the queue",
        },
        Deed::Calls => Look {
            class: "calls",
            letter: "",
            ground: Ground::Light,
            means: "is in a call",
        },
    }
}
