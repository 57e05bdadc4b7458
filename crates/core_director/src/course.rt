//! What a run goes by.

/// How the next thread is chosen among those that may run.
#[derive(Clone, Copy, Debug, PartialEq, Eq)]
pub enum Policy {
    /// Any of them, each as likely as the others.
    Random,
    /// The one of the highest priority (probabilistic concurrency testing). Priorities are random,
    /// and at `depth - 1` random turns the thread that runs gets the lowest.
    Priorities { depth: u64 },
    /// Each thread has so many turns, one thread after the other.
    RoundRobin { turns: u64 },
    /// The one that the script names by its place among the candidates, and after its end the first.
    /// A thread that could go on is the first candidate, and others are candidates only as long as
    /// fewer than so many threads were interrupted. A thread that gives way to others is none.
    Exhaustive { preemptions: u64 },
    /// The one that the script names by its number. After its end, the thread that could go on.
    Replay,
}

/// How often a thread asks for its turn.
#[derive(Clone, Copy, Debug, PartialEq, Eq)]
pub enum Grain {
    /// Before each call.
    Call,
    /// Before each step on a word, and before each section.
    Step,
}

/// What a run goes by.
#[derive(Clone, Copy, Debug, PartialEq, Eq)]
pub struct Course {
    pub policy: Policy,
    pub grain: Grain,
    pub seed: u64,
    /// The turns among which `Priorities` chooses: as many as a run is expected to take.
    pub length: u64,
    /// The most turns of a run.
    pub most_turns: u64,
}
