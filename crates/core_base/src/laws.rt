//! A consequence of the contracts of the queues.
ghost use Rattle.std.specs.Prelude.{ℕ, List};
ghost use Rattle.core_base.specs.Laws.{EachStandsOnce};
ghost use Rattle.core_base.specs.Lines.{IsSeated};
ghost use Rattle.core_base.specs.declared.wants.Waiter.{Waiter};

/// Where each thread stands at most once, it does so after each call of the queues.
pub fn each_thread_stands_once()
    ensures { (waiters : List Waiter) (capacity : ℕ) → IsSeated waiters capacity
        → EachStandsOnce waiters capacity }
{}
