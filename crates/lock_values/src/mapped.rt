//! Guards of a part of a value.
ghost use Rattle.std.specs.Prelude.{◌≡◌, Err, IsOk, IsOkAnd, MatchResult, Ok};
ghost use Rattle.lock_values.specs.Then.{found_after};

use crate::project::Project;
use crate::shows::{Shows, ShowsMut};
use crate::then::Then;
use crate::unlocks::{Unlocks, UnlocksFair};
use std::ops::{Deref, DerefMut};
use std::sync::Wait;

/// Guards the part of a value that a projection finds there. It holds the guard of the whole value, and
/// is spent as that is.
pub struct Mapped<G: Shows, P: Project<G::Value>> {
    pub(crate) guard: G,
    pub(crate) by: P,
    ghost fits: { IsOk (P.finds by (G.shown guard)) },
}

impl<G: Shows, P: Project<G::Value>> Deref for Mapped<G, P> {
    type Target = P::Target;

    ghost deref_gives = { λ mapped part. P.finds mapped.by (G.shown mapped.guard) ≡ Ok part };

    #[inline]
    fn deref(&self) -> &P::Target {
        self.by.get(self.guard.show())
    }
}

impl<G: ShowsMut, P: Project<G::Value>> DerefMut for Mapped<G, P> {
    ghost use Rattle.std.specs.Prelude.{◌≡◌, Ok};
    ghost use Rattle.std.specs.Borrow.{Lends, sem};
    ghost use Rattle.lock_values.specs.contracts.mapped.Mapped.{the_row};
    ghost use Rattle.lock_values.specs.Mapped.{still_fits};

    ghost deref_mut_gives = { λ mapped part. P.finds mapped.by (G.shown mapped.guard) ≡ Ok part };

    #[inline]
    fn deref_mut(&mut self) -> &mut P::Target
        ensures* writes_back { sem 𝓛
            (Lends (the_row G.row P.row G.Value.row P.Target.row P.Error.row G.Shows P.Project) P.Target.row self.entry result
            (λ part. record self.old {
              guard = G.written self.old.guard (P.written self.old.by (G.shown self.old.guard) part);
              fits = still_fits (P.finds self.old.by) (P.written self.old.by) (P.finds_written self.old.by)
                  (G.shown self.old.guard) part _ (G.shows_written self.old.guard _) self.old.fits;
            })) }
        ensures found { P.finds self.old.by (G.shown self.old.guard) ≡ Ok result.now }
    {
        let by = self.by;
        P::get_mut(self.guard.show_mut(), by)
    }
}

impl<G: Shows, P: Project<G::Value>> Mapped<G, P> {
    /// Maps a guard to a part that is there.
    #[inline]
    pub fn new(guard: G, by: P) -> Mapped<G, P>
        requires { IsOk (P.finds by (G.shown guard)) }
        ensures { (result.guard ≡ guard) × (result.by ≡ by) }
    {
        Mapped { guard, by }
    }

    /// Maps a guard where the part is there.
    ///
    /// # Errors
    ///
    /// The guard and the projection's reason, where the part is not there.
    #[inline]
    pub fn try_new(guard: G, by: P) -> Result<Mapped<G, P>, (G, P::Error)>
        ensures { MatchResult result
            (λ mapped. (mapped.guard ≡ guard) × (mapped.by ≡ by))
            (λ refused. (refused.0 ≡ guard)
            × (P.finds by (G.shown guard) ≡ Err refused.1)) }
    {
        match by.check(guard.show()) {
            Ok(()) => Ok(Mapped { guard, by }),
            Err(missing) => Err((guard, missing)),
        }
    }

    /// Maps on to a part of the part, which is there.
    #[inline]
    pub fn map<Q: Project<P::Target>>(self, by: Q) -> Mapped<G, Then<P, Q>>
        requires { IsOk (found_after (P.finds self.by (G.shown self.guard)) (Q.finds by)) }
        ensures { (result.guard ≡ self.guard)
            × (result.by ≡ record { first = self.by; second = by }) }
    {
        let Mapped { guard, by: first } = self;
        Mapped {
            guard,
            by: Then { first, second: by },
        }
    }

    /// Maps on where that part is there.
    ///
    /// # Errors
    ///
    /// The mapped guard as it was and the projection's reason, where the part is not there.
    #[inline]
    pub fn try_map_or_err<Q: Project<P::Target>>(
        self,
        by: Q,
    ) -> Result<Mapped<G, Then<P, Q>>, (Mapped<G, P>, Q::Error)>
        ensures { MatchResult result
            (λ mapped. (mapped.guard ≡ self.guard)
            × (mapped.by ≡ record { first = self.by; second = by }))
            (λ refused. (refused.0 ≡ self)
            × IsOkAnd (P.finds self.by (G.shown self.guard))
            (λ part. Q.finds by part ≡ Err refused.1)) }
    {
        match by.check(&*self) {
            Ok(()) => {
                let Mapped { guard, by: first } = self;
                Ok(Mapped {
                    guard,
                    by: Then { first, second: by },
                })
            }
            Err(missing) => Err((self, missing)),
        }
    }

    /// Gives the guard of the whole value back.
    #[inline]
    pub fn into_guard(self) -> G
        ensures { result ≡ self.guard }
    {
        let Mapped { guard, by: _ } = self;
        guard
    }
}

impl<G: Shows + Unlocks, P: Project<G::Value>> Mapped<G, P> {
    /// Unlocks, as the guard does that was mapped.
    #[inline]
    pub fn unlock<W: Wait>(self, rt: &W, token: &mut G::Token)
        requires { G.may_unlock self.guard token.old }
        ensures { G.unlocked self.guard token.old token.new }
    {
        self.into_guard().unlock(rt, token);
    }
}

impl<G: Shows + UnlocksFair, P: Project<G::Value>> Mapped<G, P> {
    /// Unlocks fairly, as the guard does that was mapped.
    #[inline]
    pub fn unlock_fair<W: Wait>(self, rt: &W, token: &mut G::Token)
        requires { G.may_unlock self.guard token.old }
        ensures { G.unlocked_fair self.guard token.old token.new }
    {
        self.into_guard().unlock_fair(rt, token);
    }
}
