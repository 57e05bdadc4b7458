//! A lot with a ticket for each of its threads.
//!
//! The lot of a team is known by its type's ghost field, and a closure's contract is inferred.
//! `run_times` has the loop, since a loop of a user's own needs an invariant. `run` spends the team and
//! asks nothing of the tokens that closures leave; `run_times` gives the team back, and asks that they
//! are of the lot still.
ghost use Rattle.std.specs.Prelude.{◌≡◌, ◌⊎◌, ◌↔◌, ◌+◌, All, IfErr, IfOk, IsErrOf, length};
ghost use Rattle.std.specs.Arc.{arc_value};
ghost use Rattle.parking_lot_core.specs.Team.{AreSizes};
ghost use Rattle.parking_lot_core.specs.Tokens.{IsTicketOf, IsTokenOf};
ghost use Rattle.lock_monitor.specs.Calls.{EachHasRun, GivesTokenBack, HasRun, MayAnswer, MayRun};

use parking_lot_core::{DEFAULT_WORDS, Director, Fault, ParkingLot, Ticket, Token};
use std::alloc::Global;
use std::marker::Model;
use std::sync::Arc;
use std::thread::{Threads, map_vec};

/// A lot, and the tickets of all its threads but the caller's. Each of them runs what the team is
/// given, in a thread of its own. Where the system makes no more threads, calls run one after
/// another: then those that wait for one another never end.
pub struct Team {
    lot: Arc<ParkingLot>,
    tickets: Vec<Ticket>,
    ghost members: { All (IsTicketOf (arc_value lot)) tickets.items },
    ghost number: { length tickets.items + 1 ≡ (arc_value lot).records.count },
}

// The drop is written, and not derived, so that it is proved here and not in each program.
impl Drop for Team {
    fn drop(self) {
        let Team {
            lot: _lot,
            tickets: _tickets,
        } = self;
    }
}

// In a clause a team is its lot.
impl Model for Team {
    ghost use Rattle.std.specs.Prelude.{◌≡◌};
    ghost use Rattle.std.specs.Arc.{arc_value};
    ghost use Rattle.parking_lot_core.specs.declared.lot.ParkingLot.{ParkingLot};

    ghost Value = { ParkingLot };

    ghost view = { λ team. arc_value team.lot };
}

// Enters the lot by a ticket, calls the closure, and leaves.
fn run_one<U, F: Fn(&mut Token) -> U>(lot: &ParkingLot, ticket: Ticket, f: &F) -> U
    requires { IsTicketOf lot.now ticket × MayRun F.Fn f.now lot.now }
    ensures { MayAnswer F.Fn f.now lot.now result }
{
    let mut token = ticket.enter();
    lot.start(&token);
    let answer = f(&mut token);
    lot.finish(&token);
    drop(token.leave());
    answer
}

// Calls the closure so many times in between.
fn run_times<F: Fn(&mut Token)>(lot: &ParkingLot, ticket: Ticket, times: u64, f: &F) -> Ticket
    requires { IsTicketOf lot.now ticket × MayRun F.Fn f.now lot.now × GivesTokenBack F.Fn f.now lot.now }
    ensures ticket { IsTicketOf lot.now result }
    ensures ran { HasRun F.Fn f.now lot.now times result }
{
    let mut token = ticket.enter();
    lot.start(&token);
    for _ in 0..times {
        f(&mut token);
    }
    lot.finish(&token);
    token.leave()
}

impl Team {
    /// Makes a lot of 64 words for so many threads and the caller's, and enters it.
    ///
    /// # Errors
    ///
    /// `SizesOutOfRange`, but for up to 1023 threads, and `NoMemory`, where memory was refused.
    pub fn new(alloc: Global, threads: usize) -> Result<(Team, Token), Fault>
        ensures made { IfOk result (λ made. IsTokenOf made.0 made.1
            × (made.0.words.count ≡ 64) × (made.0.records.count ≡ threads + 1)) }
        ensures sizes { IsErrOf result Fault.SizesOutOfRange ↔ (AreSizes 64 (threads + 1) → ⊥) }
        ensures err { IfErr result (λ fault. (fault ≡ Fault.NoMemory)
            ⊎ (fault ≡ Fault.SizesOutOfRange)) }
    {
        Team::with_words(alloc, DEFAULT_WORDS, threads)
    }

    /// Makes a lot of so many words for so many threads and the caller's, and enters it.
    ///
    /// # Errors
    ///
    /// `SizesOutOfRange`, but for 1 to 2^20 words and up to 1023 threads, and `NoMemory`, where
    /// memory was refused.
    pub fn with_words(alloc: Global, words: usize, threads: usize) -> Result<(Team, Token), Fault>
        ensures made { IfOk result (λ made. IsTokenOf made.0 made.1
            × (made.0.words.count ≡ words) × (made.0.records.count ≡ threads + 1)) }
        ensures sizes { IsErrOf result Fault.SizesOutOfRange ↔ (AreSizes words (threads + 1) → ⊥) }
        ensures err { IfErr result (λ fault. (fault ≡ Fault.NoMemory)
            ⊎ (fault ≡ Fault.SizesOutOfRange)) }
    {
        if threads > 1023 {
            return Err(Fault::SizesOutOfRange);
        }
        let (lot, mut tickets) = ParkingLot::try_new(alloc, words, threads + 1)?;
        match tickets.pop() {
            Some(ticket) => Ok((Team { lot, tickets }, ticket.enter())),
            None => unreachable!(),
        }
    }

    /// Makes a lot as `new` does, whose threads run when a director says so.
    ///
    /// # Errors
    ///
    /// As of `new`.
    pub fn directed(
        alloc: Global,
        threads: usize,
        director: &Arc<Director>,
    ) -> Result<(Team, Token), Fault>
        ensures made { IfOk result (λ made. IsTokenOf made.0 made.1
            × (made.0.words.count ≡ 64) × (made.0.records.count ≡ threads + 1)) }
        ensures sizes { IsErrOf result Fault.SizesOutOfRange ↔ (AreSizes 64 (threads + 1) → ⊥) }
        ensures err { IfErr result (λ fault. (fault ≡ Fault.NoMemory)
            ⊎ (fault ≡ Fault.SizesOutOfRange)) }
    {
        if threads > 1023 {
            return Err(Fault::SizesOutOfRange);
        }
        let (lot, mut tickets) = ParkingLot::try_directed(
            alloc,
            DEFAULT_WORDS,
            threads + 1,
            director,
        )?;
        match tickets.pop() {
            Some(ticket) => Ok((Team { lot, tickets }, ticket.enter())),
            None => unreachable!(),
        }
    }

    /// Returns the lot, in which locks are made.
    pub fn lot(&self) -> &Arc<ParkingLot>
        ensures { arc_value result.now ≡ self.now }
    {
        &self.lot
    }

    /// Runs a closure in a thread of each ticket, and waits for all. Returns what they answered.
    ///
    /// # Errors
    ///
    /// `NoMemory`, where memory was refused. Some threads may have run the closure then.
    pub fn run<R: Threads + Sync, U: Send + Drop, F: Fn(&mut Token) -> U + Sync>(
        self,
        rt: &R,
        f: &F,
    ) -> Result<Vec<U>, Fault>
        requires { MayRun F.Fn f.now self }
        ensures number { IfOk result (λ answers. length answers.items + 1 ≡ self.records.count) }
        ensures each { IfOk result (λ answers. All (MayAnswer F.Fn f.now self) answers.items) }
        ensures err { IfErr result (λ fault. fault ≡ Fault.NoMemory) }
    {
        let Team { lot, tickets } = self;
        let shared: &ParkingLot = &lot;
        shared.begin(tickets.len());
        let answers = map_vec(
            rt,
            tickets,
            &|ticket: Ticket| -> U
                requires { IsTicketOf shared.now ticket × MayRun F.Fn f.now shared.now }
                ensures { MayAnswer F.Fn f.entry.now shared.entry.now result }
            { run_one(shared, ticket, f) },
        )?;
        Ok(answers)
    }

    /// Runs a closure so many times in a thread of each ticket, waits for all, and returns the team.
    ///
    /// # Errors
    ///
    /// `NoMemory`, where memory was refused. Some threads may have run the closure then.
    pub fn run_times<R: Threads + Sync, F: Fn(&mut Token) + Sync>(
        self,
        rt: &R,
        times: u64,
        f: &F,
    ) -> Result<Team, Fault>
        requires may { MayRun F.Fn f.now self }
        requires keeps_rights { GivesTokenBack F.Fn f.now self }
        ensures team { IfOk result (λ team. team ≡ self) }
        ensures calls { IfOk result (λ _. EachHasRun F.Fn f.now self times) }
        ensures err { IfErr result (λ fault. fault ≡ Fault.NoMemory) }
    {
        let Team { lot, tickets } = self;
        let shared: &ParkingLot = &lot;
        shared.begin(tickets.len());
        let tickets = map_vec(
            rt,
            tickets,
            &|ticket: Ticket| -> Ticket
                requires { IsTicketOf shared.now ticket × MayRun F.Fn f.now shared.now
                    × GivesTokenBack F.Fn f.now shared.now }
                ensures { IsTicketOf shared.entry.now result
                    × HasRun F.Fn f.entry.now shared.entry.now times result }
            { run_times(shared, ticket, times, f) },
        )?;
        Ok(Team { lot, tickets })
    }
}
