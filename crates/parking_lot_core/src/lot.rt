//! The lot: its words, its queues, and how its threads are woken.
ghost use Rattle.std.specs.Prelude.{◌≡◌, ◌<◌, ◌≤◌, IfOk, IfErr, IsTrue, ◌↔◌, All, length, map, ◌^◌};
ghost use Rattle.std.specs.List.{range_with_len};
ghost use Rattle.std.specs.Arc.{arc_value};
ghost use Rattle.core_queues.specs.Chains.{IsLeast};
ghost use Rattle.core_words.specs.Indices.{most_words};

use crate::same::Probes;
use crate::tokens::Ticket;
use crate::waiters::WakeRecord;
use crate::wakes::Wakers;
use core_base::Fault;
use core_director::Director;
use core_names::Name;
use core_parts::KeyedLocks;
use core_queues::{SectionQueues, Stands, bits_for, bucket_among};
use core_words::{LotWords, Seat};
use crossbeam_utils::sync::{Parker, Unparker};
use std::alloc::{AllocError, Global};
use std::sync::atomic::AtomicUsize;
use std::sync::{Arc, Mutex};

/// The words that threads step on, the queues in which they stand, and the records by which they
/// are woken.
pub struct ParkingLot {
    pub(crate) words: LotWords,
    // The queues of each bucket of keys: 2 ^ bits of them.
    pub(crate) buckets: Vec<Mutex<SectionQueues>>,
    pub(crate) bits: u32,
    pub(crate) records: KeyedLocks<LotWords, WakeRecord>,
    pub(crate) wakers: Wakers,
    // For each thread that was taken, the one that was taken next with it.
    pub(crate) next_taken: Vec<AtomicUsize>,
    pub(crate) stands: Stands,
    pub(crate) probes: Probes,
    // Says when threads run, where they are directed.
    pub(crate) director: Option<Arc<Director>>,
    ghost hashed: { (length buckets.items ≡ 2 ^ bits) × (bits < 64) },
    ghost keyed: { records.table.shared.key ≡ words },
    ghost for_each_seat: { length next_taken.items ≡ records.count },
    ghost enough: { IsLeast records.count bits },
    ghost few: { records.count ≤ 1024 },
}

// The drop is written, and not derived, so that it is proved here and not in each program.
impl Drop for ParkingLot {
    fn drop(self) {
        let ParkingLot {
            words: _words,
            buckets: _buckets,
            bits: _bits,
            records: _records,
            wakers: _wakers,
            next_taken: _next_taken,
            stands: _stands,
            probes: _probes,
            director: _director,
        } = self;
    }
}

// Returns the queues of each bucket, with nobody in them.
fn empty_buckets(alloc: Global, seats: usize, bits: u32) -> Result<Vec<Mutex<SectionQueues>>, Fault>
    requires { bits < 64 }
    ensures ok { IfOk result (λ buckets. length buckets.items ≡ 2 ^ bits) }
    ensures err { IfErr result (λ fault. fault ≡ Fault.NoMemory) }
{
    let number = 1 << bits;
    let Ok(mut buckets) = Vec::with_capacity(alloc, number) else {
        return Err(Fault::NoMemory);
    };
    for bucket in 0..number {
        let section_queues = SectionQueues::with_capacity(alloc, seats, bucket, bits)?;
        buckets.push_reserved(Mutex::new(section_queues));
    }
    Ok(buckets)
}

fn empty_records(
    alloc: Global,
    words: &LotWords,
    seats: usize,
) -> Result<KeyedLocks<LotWords, WakeRecord>, AllocError>
    ensures { IfOk result (λ records. (records.table.shared.key ≡ words.now)
        × (records.count ≡ seats)) }
{
    let mut records = Vec::with_capacity(alloc, seats)?;
    for _ in 0..seats {
        records.push(Some(WakeRecord::empty()))?;
    }
    KeyedLocks::new(alloc, records, words)
}

fn no_links(alloc: Global, seats: usize) -> Result<Vec<AtomicUsize>, AllocError>
    ensures { IfOk result (λ links. length links.items ≡ seats) }
{
    let mut links = Vec::with_capacity(alloc, seats)?;
    for _ in 0..seats {
        links.push(AtomicUsize::new(0))?;
    }
    Ok(links)
}

impl ParkingLot {
    ghost use Rattle.core_names.specs.Names.{IsNamer};
    ghost use Rattle.parking_lot_core.specs.Tokens.{IsNewTicket, IsNewTicketOf, number_of};

    // Returns a ticket for each seat, numbered from 0, and what wakes its thread.
    fn tickets(
        alloc: Global,
        words: &LotWords,
        mut first: Seat,
        seats: usize,
        directed: bool,
    ) -> Result<(Vec<Ticket>, Vec<Unparker>), AllocError>
        requires { IsNamer words.now 0 first }
        ensures tickets { IfOk result (λ made. (map number_of made.0.items ≡ range_with_len 0 seats)
            × All (IsNewTicket words.now seats) made.0.items) }
        ensures unparkers { IfOk result (λ made. length made.1.items ≡ seats) }
    {
        let mut tickets = Vec::with_capacity(alloc, seats)?;
        let mut unparkers = Vec::with_capacity(alloc, seats)?;
        for number in 0..seats {
            let parker = Parker::new(alloc)?;
            unparkers.push(parker.unparker().clone()?)?;
            let seat = words.another(&mut first);
            let name = Name::draw(words, &mut first, number);
            tickets.push(Ticket::new(seat, name, number, directed, parker))?;
        }
        Ok((tickets, unparkers))
    }

    fn build(
        alloc: Global,
        words: usize,
        seats: usize,
        buckets: Vec<Mutex<SectionQueues>>,
        bits: u32,
        director: Option<Arc<Director>>,
    ) -> Result<(Arc<ParkingLot>, Vec<Ticket>), AllocError>
        requires sizes { (0 < words) × (words ≤ most_words) × (seats ≤ 1024) }
        requires hashed { (length buckets.items ≡ 2 ^ bits) × (bits < 64) × IsLeast seats bits }
        ensures lot { IfOk result (λ made. ((arc_value made.0).words.count ≡ words)
            × ((arc_value made.0).records.count ≡ seats)) }
        ensures tickets { IfOk result (λ made. (map number_of made.1.items ≡ range_with_len 0 seats)
            × All (IsNewTicketOf (arc_value made.0)) made.1.items) }
    {
        let count = words;
        let (words, first) = LotWords::new(alloc, count)?;
        let records = empty_records(alloc, &words, seats)?;
        let stands = Stands::new(alloc, seats)?;
        let probes = Probes::new(alloc, bucket_among(63, count) + seats)?;
        let (tickets, unparkers) = ParkingLot::tickets(
            alloc,
            &words,
            first,
            seats,
            director.is_some(),
        )?;
        let lot = ParkingLot {
            words,
            buckets,
            bits,
            records,
            wakers: Wakers::new(unparkers),
            next_taken: no_links(alloc, seats)?,
            stands,
            probes,
            director,
        };
        Ok((Arc::new(alloc, lot)?, tickets))
    }

    /// Returns the words of the lot.
    #[inline]
    pub fn words(&self) -> &LotWords
        ensures { result.now ≡ self.now.words }
    {
        &self.words
    }

    /// Returns whether a lot may have so many words and threads: 1 to 2^20, and 1 to 1024.
    pub fn fits(words: usize, seats: usize) -> bool
        ensures { IsTrue result
            ↔ ((0 < words) × (words ≤ most_words) × (0 < seats) × (seats ≤ 1024)) }
    {
        0 < words && words <= 1 << 20 && 0 < seats && seats <= 1024
    }

    /// Makes a lot of 1 to 2^20 words for 1 to 1024 threads, and a ticket for each of these,
    /// numbered from 0.
    ///
    /// The call takes all memory that the lot ever needs.
    ///
    /// # Errors
    ///
    /// `NoMemory`, where memory was refused.
    pub fn new(
        alloc: Global,
        words: usize,
        seats: usize,
    ) -> Result<(Arc<ParkingLot>, Vec<Ticket>), Fault>
        requires words { (0 < words) × (words ≤ most_words) }
        requires seats { (0 < seats) × (seats ≤ 1024) }
        ensures lot { IfOk result (λ made. ((arc_value made.0).words.count ≡ words)
            × ((arc_value made.0).records.count ≡ seats)) }
        ensures tickets { IfOk result (λ made. (map number_of made.1.items ≡ range_with_len 0 seats)
            × All (IsNewTicketOf (arc_value made.0)) made.1.items) }
        ensures err { IfErr result (λ fault. fault ≡ Fault.NoMemory) }
    {
        ParkingLot::with_director(alloc, words, seats, None)
    }

    /// Makes a lot as `new` does, whose threads run when a director says so.
    ///
    /// # Errors
    ///
    /// `NoMemory`, where memory was refused.
    pub fn with_director(
        alloc: Global,
        words: usize,
        seats: usize,
        director: Option<Arc<Director>>,
    ) -> Result<(Arc<ParkingLot>, Vec<Ticket>), Fault>
        requires words { (0 < words) × (words ≤ most_words) }
        requires seats { (0 < seats) × (seats ≤ 1024) }
        ensures lot { IfOk result (λ made. ((arc_value made.0).words.count ≡ words)
            × ((arc_value made.0).records.count ≡ seats)) }
        ensures tickets { IfOk result (λ made. (map number_of made.1.items ≡ range_with_len 0 seats)
            × All (IsNewTicketOf (arc_value made.0)) made.1.items) }
        ensures err { IfErr result (λ fault. fault ≡ Fault.NoMemory) }
    {
        let bits = bits_for(seats);
        let buckets = empty_buckets(alloc, seats, bits)?;
        match ParkingLot::build(alloc, words, seats, buckets, bits, director) {
            Ok(made) => Ok(made),
            Err(_) => Err(Fault::NoMemory),
        }
    }
}
