//! The rule of the lot's table, and the names of its steps.
ghost use Rattle.std.specs.Prelude.{ℕ, [], ◌∷◌, List};
ghost use Rattle.core_words.specs.Rule.{LotRule};
ghost use Rattle.core_words.specs.Views.{blank, namer, owning, with_out};
ghost use Rattle.core_words.specs.Plays.{adds, ands, draws, draws_permits, takes_mutex, exchanges};
ghost use Rattle.core_words.specs.Plays.{goes_on_with, lays_back, gives_mutex_up, leaves_alone, left_over};
ghost use Rattle.core_words.specs.Plays.{loads, looks_at_word, ors, piece, saw_set, sees_free, sees_locked};
ghost use Rattle.core_words.specs.Plays.{sees_shown, stores, subs, swaps, takes_in, takes_out, tries_seen};
ghost use Rattle.core_words.specs.declared.owners.Ownership.{Ownership};
ghost use Rattle.core_words.specs.declared.owners.Owner.TheVariants.{Exclusive};
ghost use Rattle.core_words.specs.declared.words.WordKind.{WordKind};

use crate::views::View;
use atomic_table::{Join, Play, Split, TableRule};
use core_parts::seats::Change;
use core_parts::{PermitSlot, Permits};
use std::marker::{Brand, PhantomData};

pub struct OwnershipRule;

// The key of the rule is how many words there are, and where the permits of values come from.
impl TableRule<PermitSlot, View, (usize, Permits)> for OwnershipRule {
    ghost holds = { λ key. LotRule key.0 key.1.family };

    ghost first = { λ _. namer };
}

/// Picks permits at each call: where those of a lot come from, and beside which word one lies.
pub trait PermitTag {
    ghost family: { ℕ };

    ghost at: { ℕ };
}

impl PermitTag for Brand {
    ghost family = { 0 };

    ghost at = { 0 };
}

pub struct Loads<P: PermitTag> {
    pick: PhantomData<P>,
}

impl<P: PermitTag> Play<PermitSlot, View> for Loads<P> {
    ghost then = { loads P.family };
}

pub struct Stores<P: PermitTag> {
    pick: PhantomData<P>,
}

impl<P: PermitTag> Play<PermitSlot, View> for Stores<P> {
    ghost then = { stores P.family };
}

pub struct Swaps<P: PermitTag> {
    pick: PhantomData<P>,
}

impl<P: PermitTag> Play<PermitSlot, View> for Swaps<P> {
    ghost then = { swaps P.family };
}

pub struct Adds<P: PermitTag> {
    pick: PhantomData<P>,
}

impl<P: PermitTag> Play<PermitSlot, View> for Adds<P> {
    ghost then = { adds P.family };
}

pub struct Subs<P: PermitTag> {
    pick: PhantomData<P>,
}

impl<P: PermitTag> Play<PermitSlot, View> for Subs<P> {
    ghost then = { subs P.family };
}

pub struct Ors<P: PermitTag> {
    pick: PhantomData<P>,
}

impl<P: PermitTag> Play<PermitSlot, View> for Ors<P> {
    ghost then = { ors P.family };
}

pub struct Ands<P: PermitTag> {
    pick: PhantomData<P>,
}

impl<P: PermitTag> Play<PermitSlot, View> for Ands<P> {
    ghost then = { ands P.family };
}

pub struct Exchanges<P: PermitTag> {
    pick: PhantomData<P>,
}

impl<P: PermitTag> Play<PermitSlot, View> for Exchanges<P> {
    ghost then = { exchanges P.family };
}

/// The bits that a step sets, picked at each call.
pub trait Bits {
    ghost bits: { ℕ };
}

impl Bits for Brand {
    ghost bits = { 0 };
}

/// A load in place of an or, which is that or where it finds the bits set, and else no step of a
/// call.
pub struct SawSet<B: Bits, P: PermitTag> {
    pick: PhantomData<(B, P)>,
}

impl<B: Bits, P: PermitTag> Play<PermitSlot, View> for SawSet<B, P> {
    ghost then = { saw_set P.family B.bits };
}

/// A condition variable of a lot, picked at each call: how many words the lot has, and its number.
pub trait CondvarTag {
    ghost words: { ℕ };

    ghost number: { ℕ };
}

impl CondvarTag for Brand {
    ghost words = { 0 };

    ghost number = { 0 };
}

/// A load of its word, which tells what it may show.
pub struct SeesShown<C: CondvarTag, P: PermitTag> {
    pick: PhantomData<(C, P)>,
}

impl<C: CondvarTag, P: PermitTag> Play<PermitSlot, View> for SeesShown<C, P> {
    ghost then = { sees_shown P.family C.words C.number };
}

/// A look at the counter of drawn words.
pub struct Looks;

impl<S> Play<S, View> for Looks {
    ghost then = { looks_at_word };
}

/// The kinds of the words that are drawn together, picked at each call.
pub trait Kinds {
    ghost kinds: { List WordKind };
}

impl Kinds for Brand {
    ghost kinds = { [] };
}

/// A draw of such words.
pub struct Draws<K: Kinds> {
    kinds: PhantomData<K>,
}

impl<S, K: Kinds> Play<S, View> for Draws<K> {
    ghost then = { draws K.kinds };
}

/// With how many permits a semaphore's word is drawn, picked at each call.
pub trait ManyTag {
    ghost many: { ℕ };
}

impl ManyTag for Brand {
    ghost many = { 0 };
}

/// A draw of such a word.
pub struct DrawsPermits<M: ManyTag> {
    many: PhantomData<M>,
}

impl<S, M: ManyTag> Play<S, View> for DrawsPermits<M> {
    ghost then = { draws_permits M.many };
}

/// The number of a semaphore's word, picked at each call.
pub trait NumberTag {
    ghost number: { ℕ };
}

impl NumberTag for Brand {
    ghost number = { 0 };
}

/// A load of such a word, which tells how many permits may be free.
pub struct SeesFree<N: NumberTag, P: PermitTag> {
    number: PhantomData<N>,
    pick: PhantomData<P>,
}

impl<N: NumberTag, P: PermitTag> Play<PermitSlot, View> for SeesFree<N, P> {
    ghost then = { sees_free P.family N.number };
}

/// The ownership that is split off, picked at each call.
pub trait Piece {
    ghost owned: { Ownership };
}

impl Piece for Brand {
    ghost owned = { record { at = 0; owner = Exclusive; count = 0 } };
}

pub struct SplitsOff<P: Piece> {
    piece: PhantomData<P>,
}

impl<P: Piece> Split<View> for SplitsOff<P> {
    ghost left = { λ v. with_out v.out (left_over P.owned v) };

    ghost right = { λ _. piece P.owned };
}

pub struct TakesIn;

impl Join<View> for TakesIn {
    ghost both = { λ v w. with_out v.out (takes_in v w) };

    ghost spent = { blank };
}

/// A seat that knows nothing.
pub struct SeatsAnother;

impl Split<View> for SeatsAnother {
    ghost left = { λ v. v };

    ghost right = { λ _. blank };
}

/// A load in place of a try, which is that try where it finds the mutex locked, and else no step of
/// a call.
pub struct SeesLocked<P: PermitTag> {
    pick: PhantomData<P>,
}

impl<P: PermitTag> Play<PermitSlot, View> for SeesLocked<P> {
    ghost then = { sees_locked P.family };
}

/// An exchange in place of a try, where the mutex was seen unlocked: that try where it finds the
/// same, or finds the mutex locked, and else no step of a call.
pub struct TriesSeen<P: PermitTag> {
    pick: PhantomData<P>,
}

impl<P: PermitTag> Play<PermitSlot, View> for TriesSeen<P> {
    ghost then = { tries_seen P.family };
}

/// An exchange by which a mutex is entered, where it expects an unlocked mutex, and else no step.
pub struct Enters<P: PermitTag> {
    pick: PhantomData<P>,
}

impl<P: PermitTag> Play<PermitSlot, View> for Enters<P> {
    ghost then = { takes_mutex P.family };
}

/// A subtraction by which it is given up, where that takes the locked bit, and else no step.
pub struct Leaves<P: PermitTag> {
    pick: PhantomData<P>,
}

impl<P: PermitTag> Play<PermitSlot, View> for Leaves<P> {
    ghost then = { gives_mutex_up P.family };
}

/// Leaves by an exchange, where nobody waits.
pub struct LeavesAlone<P: PermitTag> {
    pick: PhantomData<P>,
}

impl<P: PermitTag> Play<PermitSlot, View> for LeavesAlone<P> {
    ghost then = { leaves_alone P.family };
}

/// The permit of a mutex goes out with a thread that owns that.
pub struct TakesOut<P: PermitTag> {
    pick: PhantomData<P>,
}

impl<P: PermitTag> Change<PermitSlot, View> for TakesOut<P> {
    ghost then = { takes_out P.family P.at };
}

/// A seat lays back what is out with it.
pub struct PutsBack;

impl Change<PermitSlot, View> for PutsBack {
    ghost then = { lays_back };
}

/// A seat keeps the mutex whose permit is out with it, and another goes on with all else.
pub struct KeepsOwner<P: PermitTag> {
    pick: PhantomData<P>,
}

impl<P: PermitTag> Split<View> for KeepsOwner<P> {
    ghost left = { λ _. with_out (P.at ∷ []) (piece (owning P.at Exclusive)) };

    ghost right = { left_over (owning P.at Exclusive) };
}

/// A seat goes on with what another, which has no permit out, has done and owns.
pub struct GoesOn;

impl Join<View> for GoesOn {
    ghost both = { λ v w. with_out v.out (goes_on_with v w) };

    ghost spent = { blank };
}

/// A seat goes on as another, which has no permit out, and as what that has done and owns.
pub struct GoesOnAs;

impl Join<View> for GoesOnAs {
    ghost both = { λ w v. with_out w.out (goes_on_with v w) };

    ghost spent = { blank };
}
