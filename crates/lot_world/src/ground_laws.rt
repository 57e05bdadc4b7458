//! The ground of a drain of one lock, told of the abstract locks alone.
ghost use Rattle.lot_world.specs.Drained.{EachDeedKeepsNow, NobodyIsLeftOut, RestingIsEmpty};
ghost use Rattle.lot_world.specs.Few.{FewBegin, FewGoOn};
ghost use Rattle.lot_world.specs.Pending.{UnpendingGoOn};

/// Shows that a lock has nobody in any line where all its threads rest and nobody owns it, but for
/// a pending writer beside which somebody stands aside.
pub fn resting_is_empty()
    ensures { RestingIsEmpty }
{}

/// Shows that what holds of a lock between steps goes on to hold as if it had never been full, where
/// nobody waits as it ceases to be.
pub fn each_deed_keeps_now()
    ensures { EachDeedKeepsNow }
{}

/// Shows that every thread owns a full lock, where each has one right at most.
pub fn nobody_is_left_out()
    ensures { NobodyIsLeftOut }
{}

/// Shows that each thread of one lock has one right at most, whatever thread goes on.
pub fn few_go_on()
    ensures { FewGoOn }
{}

/// Shows the same of a thread that begins to give its right up.
pub fn few_begin()
    ensures { FewBegin }
{}

/// Shows that a pending thread is in a call that waits for a right, whatever thread goes on.
pub fn unpending_go_on()
    ensures { UnpendingGoOn }
{}
