//! A primitive of one's own over a section: a door, at which threads wait until it is opened.
ghost use Rattle.std.specs.Prelude.{◌≡◌, IfOk, IfSome};
ghost use Rattle.std.specs.Arc.{arc_value};
ghost use Rattle.parking_lot.specs.LotOf.{IsPlaceOf, IsTokenOf};

use super::{all_are, check};
use parking_lot::{
    Fault, Key, Keys, Note, ParkingLot, QueuePlace, Slept, Team, TickClock, Token, Want, Word,
    WordKind,
};
use std::sync::atomic::AtomicBool;
use std::sync::atomic::Ordering::SeqCst;
use std::sync::{Arc, Wait};
use std::test::Fail;

/// The word is drawn for its number alone, so that no lock waits under the door's key.
#[derive(Drop)]
struct Door {
    lot: Arc<ParkingLot>,
    word: Word,
    key: Key,
    open: AtomicBool,
}

impl Door {
    fn new(lot: &Arc<ParkingLot>, token: &mut Token) -> Result<Door, Fault>
        requires { IsTokenOf (arc_value lot.now) token.old }
        ensures token { IsTokenOf (arc_value lot.now) token.new }
        ensures made { IfOk result (λ door. arc_value door.lot ≡ arc_value lot.now) }
    {
        let word = lot.new_word(token, WordKind::Condvar)?;
        Ok(Door {
            lot: Arc::try_clone(lot)?,
            word,
            key: word.number().wrapping_mul(2),
            open: AtomicBool::new(false),
        })
    }

    // Looks at the door inside the section, so that nobody opens it between the look and the line.
    // None where it is open.
    fn line_up<'a, R: Wait>(&'a self, rt: &R, token: &mut Token) -> Option<QueuePlace<'a>>
        requires { IsTokenOf (arc_value self.now.lot) token.old }
        ensures token { IsTokenOf (arc_value self.now.lot) token.new }
        ensures place { IfSome result (IsPlaceOf (arc_value self.now.lot) token.new.number) }
    {
        let mut section = self.lot.enter(rt, token, Keys::One(self.key));
        if self.open.load(SeqCst) {
            section.leave(rt, token, Note::Normal).unwrap();
            return None;
        }
        let place = section.append(self.key, token.number(), Want::Wait);
        section.leave(rt, token, Note::Normal).unwrap();
        Some(place)
    }

    // Waits until the door is open.
    fn pass<R: Wait>(&self, rt: &R, token: &mut Token)
        requires { IsTokenOf (arc_value self.now.lot) token.old }
        ensures { IsTokenOf (arc_value self.now.lot) token.new }
    {
        let Some(place) = self.line_up(rt, token) else {
            return;
        };
        let no_limit = None::<(&TickClock, u64)>;
        match self
            .lot
            .sleep(rt, token, place, self.word, Want::Wait, no_limit)
        {
            Slept::Woken(_) => {}
            Slept::Handed(right) => right.forget(),
            Slept::Late(_section, _, _) => unreachable!(),
        }
    }

    // Opens the door, and wakes all that wait.
    fn open<R: Wait>(&self, rt: &R, token: &mut Token)
        requires { IsTokenOf (arc_value self.now.lot) token.old }
        ensures { IsTokenOf (arc_value self.now.lot) token.new }
    {
        let mut section = self.lot.enter(rt, token, Keys::One(self.key));
        self.open.store(true, SeqCst);
        section.take_all(self.key);
        section.leave(rt, token, Note::Normal).unwrap();
    }
}

// Thread 0 opens the door, and the others pass. Whether it was open then.
fn open_or_pass<R: Wait>(rt: &R, door: &Door, token: &mut Token) -> bool
    requires { IsTokenOf (arc_value door.now.lot) token.old }
{
    if token.number() == 0 {
        door.open(rt, token);
    } else {
        door.pass(rt, token);
    }
    door.open.load(SeqCst)
}

#[test]
fn a_door_that_is_opened_once(rt: HostRuntime) -> Result<(), Fail> {
    let (team, mut token) = Team::new(rt.alloc(), 4)?;
    let door = Door::new(team.lot(), &mut token)?;
    let passed = team.run(&rt, &|token: &mut Token| open_or_pass(&rt, &door, token))?;
    check(&rt, all_are(&passed, &true));
    Ok(())
}
