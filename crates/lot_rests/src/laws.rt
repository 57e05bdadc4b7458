//! No livelock.
ghost use Rattle.lot_rests.specs.Rests.{WorldsComeToRest};

/// Shows that turns which begin no call and look at no word once more are few, in whatever order
/// threads take them, and that nobody is awake in a call where none is possible.
pub fn worlds_come_to_rest()
    ensures { WorldsComeToRest }
{}
