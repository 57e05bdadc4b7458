//! What a name's steps and looks tell, and how it is split and joined.
ghost use Rattle.std.specs.Prelude.{ℕ, ◌+◌};
ghost use Rattle.core_words.specs.Views.{blank};
ghost use Rattle.core_names.specs.Shares.{named, namer_from, share_view, sees_own, looks_named, looks_own, sees_two};
ghost use Rattle.core_names.specs.Shares.{stores_less, stores_more, takes_shares, without_first_share};
ghost use Rattle.core_names.specs.Shares.{without_steps, steps_alone};

use atomic_table::{Join, Play, Split};
use core_parts::PermitSlot;
use core_words::View;
use core_words::plays::PermitTag;
use std::marker::{Brand, PhantomData};

/// Picks a count at each call: the number of the thread that it is to name, the index at which it
/// stands, and what it says.
pub trait CountTag {
    ghost thread: { ℕ };

    ghost at: { ℕ };

    ghost said: { ℕ };
}

impl CountTag for Brand {
    ghost thread = { 0 };

    ghost at = { 0 };

    ghost said = { 0 };
}

/// A load of a count, as a step. A thread that it names says it.
pub struct LooksNamed<C: CountTag, P: PermitTag> {
    pick: PhantomData<(C, P)>,
}

impl<C: CountTag, P: PermitTag> Play<PermitSlot, View> for LooksNamed<C, P> {
    ghost then = { looks_named P.family C.thread };
}

/// A load of a count of which a name has a share, which is no step.
pub struct SeesOwn<C: CountTag> {
    pick: PhantomData<C>,
}

impl<C: CountTag> Play<PermitSlot, View> for SeesOwn<C> {
    ghost then = { sees_own C.thread };
}

/// A load of a count of which a name has a share, as a step.
pub struct LooksOwn<C: CountTag, P: PermitTag> {
    pick: PhantomData<(C, P)>,
}

impl<C: CountTag, P: PermitTag> Play<PermitSlot, View> for LooksOwn<C, P> {
    ghost then = { looks_own P.family C.thread };
}

/// A load of a count by two shares, which is no step. Each thread that has one is named.
pub struct SeesTwo<C: CountTag, D: CountTag> {
    pick: PhantomData<(C, D)>,
}

impl<C: CountTag, D: CountTag> Play<PermitSlot, View> for SeesTwo<C, D> {
    ghost then = { sees_two C.thread D.thread };
}

/// A store that counts once more.
pub struct StoresMore<C: CountTag> {
    pick: PhantomData<C>,
}

impl<C: CountTag> Play<PermitSlot, View> for StoresMore<C> {
    ghost then = { stores_more C.thread C.said };
}

/// A store that counts once less.
pub struct StoresLess<C: CountTag> {
    pick: PhantomData<C>,
}

impl<C: CountTag> Play<PermitSlot, View> for StoresLess<C> {
    ghost then = { stores_less C.said };
}

/// The number of a thread goes to a name of its own.
pub struct Draws<C: CountTag> {
    pick: PhantomData<C>,
}

impl<C: CountTag> Split<View> for Draws<C> {
    ghost left = { λ _. namer_from (C.thread + 1) };

    ghost right = { λ _. named C.thread };
}

/// A share goes to a seat of its own.
pub struct GivesShare<C: CountTag> {
    pick: PhantomData<C>,
}

impl<C: CountTag> Split<View> for GivesShare<C> {
    ghost left = { without_first_share };

    ghost right = { λ _. share_view C.at C.thread };
}

/// A name takes a share in.
pub struct TakesShare;

impl Join<View> for TakesShare {
    ghost both = { takes_shares };

    ghost spent = { blank };
}

/// The steps of a name go to a seat of their own.
pub struct PassesSteps;

impl Split<View> for PassesSteps {
    ghost left = { without_steps };

    ghost right = { steps_alone };
}
