//! The locks that the threads share.
ghost use Rattle.std.specs.Prelude.{◌≡◌, IfOk};
ghost use Rattle.std.specs.Arc.{arc_value};
ghost use Rattle.parking_lot.specs.LotOf.{IsTokenOf, lot_of, lot_of_condvar};

use parking_lot::{Condvar, FairMutex, Fault, Mutex, ParkingLot, Token};
use std::sync::Arc;

/// How far two threads are that wake each other.
#[derive(Drop)]
pub(crate) struct Ball {
    /// The thread that is timed is about to sleep.
    pub waits: bool,
    /// The other thread has the fair mutex.
    pub holds: bool,
    /// When the notification was given, in nanoseconds of the clock.
    pub sent_at: Option<u64>,
    /// All samples are taken.
    pub over: bool,
}

/// What a thread waits for, looking now and then.
#[derive(Clone, Copy)]
pub(crate) enum Sign {
    Waits,
    Holds,
}

impl Ball {
    /// Gives a sign.
    pub(crate) fn give(&mut self, sign: Sign) {
        match sign {
            Sign::Waits => self.waits = true,
            Sign::Holds => self.holds = true,
        }
    }

    /// Takes a sign away. Returns whether it was there.
    pub(crate) fn take(&mut self, sign: Sign) -> bool {
        let flag = match sign {
            Sign::Waits => &mut self.waits,
            Sign::Holds => &mut self.holds,
        };
        std::mem::replace(flag, false)
    }
}

/// The locks that the threads share.
#[derive(Drop)]
pub(crate) struct Room {
    pub ball: Mutex<Ball>,
    pub told: Condvar,
    pub idle: Condvar,
    /// Has the time at which the fair mutex was handed over.
    pub stick: FairMutex<u64>,
    pub ghost together: { (lot_of_condvar told ≡ lot_of ball) × (lot_of_condvar idle ≡ lot_of ball)
        × (lot_of stick ≡ lot_of ball) },
}

// Returns the lock that was made, or why not. A value that was given back is dropped.
fn unless_refused<A: Drop, V: Drop>(made: Result<A, (Fault, V)>) -> Result<A, Fault>
    ensures { IfOk result (λ one. made ≡ Rattle.std.specs.Prelude.Ok one) }
{
    match made {
        Ok(one) => Ok(one),
        Err((fault, _)) => Err(fault),
    }
}

/// Makes the room in a lot.
///
/// # Errors
///
/// The lot's fault, where it has too few words, or memory was refused.
pub(crate) fn room_in(lot: &Arc<ParkingLot>, token: &mut Token) -> Result<Room, Fault>
    requires { IsTokenOf (arc_value lot.now) token.old }
    ensures made { IfOk result (λ room. lot_of room.ball ≡ arc_value lot.now) }
{
    let ball = Ball {
        waits: false,
        holds: false,
        sent_at: None,
        over: false,
    };
    let ball = unless_refused(Mutex::new(lot, token, ball))?;
    let stick = unless_refused(FairMutex::new(lot, token, 0))?;
    let told = Condvar::new(lot, token)?;
    let idle = Condvar::new(lot, token)?;
    Ok(Room {
        ball,
        told,
        idle,
        stick,
    })
}
