//! What is timed.

/// The call that is timed.
#[derive(Clone, Copy, PartialEq, Eq)]
pub(crate) enum Mode {
    /// A wait of a millisecond that nobody notifies: how late it ends.
    TimeOut,
    /// A wait without a limit: from its notification to its end.
    Notify,
    /// A wait up to a far deadline, likewise.
    NotifyTimed,
    /// A lock of a fair mutex: from the unlock that hands the mutex over to its end.
    HandOver,
    /// A lock up to a far deadline, likewise.
    HandOverTimed,
}

pub(crate) const MODES: &[Mode] = &[
    Mode::TimeOut,
    Mode::Notify,
    Mode::NotifyTimed,
    Mode::HandOver,
    Mode::HandOverTimed,
];

impl Mode {
    pub(crate) fn name(self) -> &'static str {
        match self {
            Mode::TimeOut => "time_out",
            Mode::Notify => "notify",
            Mode::NotifyTimed => "notify_timed",
            Mode::HandOver => "hand_over",
            Mode::HandOverTimed => "hand_over_timed",
        }
    }

    /// Returns whether the thread that is timed sleeps up to a deadline.
    pub(crate) fn is_timed(self) -> bool {
        match self {
            Mode::TimeOut | Mode::NotifyTimed | Mode::HandOverTimed => true,
            Mode::Notify | Mode::HandOver => false,
        }
    }
}

/// A mode, how many other threads sleep meanwhile, each up to another deadline, and how many samples are
/// taken.
#[derive(Clone, Copy)]
pub(crate) struct Plan {
    pub mode: Mode,
    pub sleepers: usize,
    pub samples: usize,
}

const MOST_SLEEPERS: usize = 1000;

const MOST_SAMPLES: usize = 1_000_000;

/// Reads the plan of three arguments, if they have one.
pub(crate) fn plan_of(args: &[&str]) -> Option<Plan> {
    let [name, sleepers, samples] = args else {
        return None;
    };
    let mode = MODES.iter().copied().find(|mode| mode.name() == *name)?;
    let sleepers = sleepers.parse::<usize>().ok()?;
    let samples = samples.parse::<usize>().ok()?;
    if sleepers > MOST_SLEEPERS || samples == 0 || samples > MOST_SAMPLES {
        return None;
    }
    Some(Plan {
        mode,
        sleepers,
        samples,
    })
}
