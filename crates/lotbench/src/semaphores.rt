//! The operations on semaphores.
ghost use Rattle.std.specs.Prelude.{◌≡◌, IfOk};
ghost use Rattle.std.specs.Arc.{arc_value};
ghost use Rattle.parking_lot.specs.LotOf.{lot_of_semaphore};
ghost use Rattle.parking_lot_core.specs.Tokens.{IsTokenOf};

use crate::made::both;
use parking_lot::{Fault, ParkingLot, Semaphore, Token};
use std::sync::{Arc, Wait};

/// A semaphore of one permit and one of two, of one lot.
#[derive(Drop)]
pub(crate) struct Semaphores {
    pub(crate) one: Semaphore,
    pub(crate) two: Semaphore,
    ghost together: { lot_of_semaphore two ≡ lot_of_semaphore one },
}

/// How many words they take of their lot.
pub(crate) const SEMAPHORES: usize = 2;

/// The semaphores, drawn from the lot.
pub(crate) fn semaphores_of(lot: &Arc<ParkingLot>, token: &mut Token) -> Result<Semaphores, Fault>
    requires { IsTokenOf (arc_value lot.now) token.old }
    ensures token { IsTokenOf (arc_value lot.now) token.new }
    ensures made { IfOk result (λ semaphores. lot_of_semaphore semaphores.one ≡ arc_value lot.now) }
{
    let one = Semaphore::new(lot, token, 1);
    let two = Semaphore::new(lot, token, 2);
    let (one, two) = both(one, two)?;
    Ok(Semaphores { one, two })
}

#[inline(never)]
pub(crate) fn hold_permit<const SECOND: bool, R: Wait>(
    rt: &R,
    semaphore: &Semaphore,
    token: &mut Token,
    times: u64,
)
    requires { IsTokenOf (lot_of_semaphore semaphore.now) token.old }
    ensures { IsTokenOf (lot_of_semaphore semaphore.now) token.new }
{
    for _ in 0..times {
        semaphore.acquire(rt, token).release(rt, token);
    }
}
