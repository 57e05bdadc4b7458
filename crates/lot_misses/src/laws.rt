//! Looks, and the exchanges that go by them.
ghost use Rattle.lot_misses.specs.Looks.{EachExchangeIsKnown, NoMissIsNeeded};

/// Shows that each run of a new world has one without missed exchanges, in which each look is followed at once
/// by the exchange that goes by it. Both lead to the same locks, owners and queues, and tell threads the same.
pub fn no_missed_exchange_is_needed()
    ensures { NoMissIsNeeded }
{}

/// Shows that a look comes before each exchange of a word, but for those by which a thread tries a word at once.
/// A step without a missed exchange, as the other law says it, leaves no other exchange out.
pub fn each_exchange_is_known()
    ensures { EachExchangeIsKnown }
{}
