//! The debts on a lock: which threads owe a wake, and which try again.
//!
//! `show` asks each place once for the lock on which it has a debt, and links the place before the
//! later ones of that lock, so that a lock goes through its own chain alone. The links lie in the book,
//! for the 1,024 threads and 256 locks of the greatest world, so that it takes no memory.
ghost use Rattle.std.specs.Prelude.{◌≡◌, ◌<◌, ◌≤◌, ◌+◌, ◌++◌, ◌∷◌, [], MatchOption, length, drop};
ghost use Rattle.std.specs.Iterator.{YieldsFirst, item_count};
ghost use Rattle.lot_machine.specs.Views.{debtors, has_debt};
ghost use Rattle.lot_machine.specs.Debts.{AreLinked, AreLinkedFrom, HasDebtsOnlyOn, TagCovers, Skips};

use lot_steps::Place;
use std::marker::Model;

/// Names a task that a thread still has for a lock's waiters.
#[derive(Clone, Copy, Debug, PartialEq, Eq)]
pub enum Debt {
    /// The thread owes a wake.
    Owes,
    /// The thread was woken, and tries again.
    Retries,
}

/// On which locks a thread may have debts.
#[derive(Clone, Copy)]
pub enum Tag {
    Nowhere,
    On(usize),
    Anywhere,
}

/// How many threads a book links at most. In a book of more it goes through all places.
const LINKED: usize = 1024;

/// For how many locks a book knows the first thread that may have debts.
const LOCKS: usize = 256;

/// Leads from a thread that has debts on one lock to the next that may have some there.
#[derive(Clone, Copy)]
pub struct Link {
    lock: Option<u8>,
    next: u16,
}

/// Leads on to the next thread, whatever the lock is.
const UNLINKED: Link = Link {
    lock: None,
    next: 0,
};

/// Lists debts: it has all places, and for each lock a chain of the threads that may have debts there,
/// so that a look goes over these alone.
#[derive(Drop)]
pub struct DebtBook<'a> {
    places: &'a [Place],
    links: [Link; LINKED],
    first: [u16; LOCKS],
}

impl<'a> Model for DebtBook<'a> {
    ghost use Rattle.std.specs.Prelude.{List};
    ghost use Rattle.lot_steps.specs.declared.places.Place.{Place};
    ghost use Rattle.lot_machine.specs.Debts.{AreLinkedFrom};

    ghost Value = { List Place };

    ghost view = { λ b. b.places.now };

    ghost invariant = { λ b. AreLinkedFrom b.links b.first b.places.now 0 };
}

impl<'a> DebtBook<'a> {
    pub fn new(places: &'a [Place]) -> DebtBook<'a>
        ensures { result ≡ places.now }
    {
        let linked = linked_of(places.len());
        let mut links = [UNLINKED; LINKED];
        let mut first = [linked as u16; LOCKS];
        for afterwards in 0..linked {
            put_before(places, &mut links, &mut first, linked - afterwards - 1);
        }
        DebtBook {
            places,
            links,
            first,
        }
    }

    // Returns the first thread that may have debts on a lock.
    #[inline]
    fn first_on(&self, lock: usize) -> usize
        ensures { Skips self.now lock 0 result }
    {
        if lock < LOCKS {
            return self.first[lock] as usize;
        }
        0
    }

    /// Returns the threads that owe a wake on a lock, then those that try again, each by their
    /// numbers.
    pub fn on(&self, lock: usize) -> Debts<'_>
        ensures { result
            ≡ debtors Debt.Owes lock 0 self.now ++ debtors Debt.Retries lock 0 self.now }
    {
        let first = self.first_on(lock);
        Debts {
            places: self.places,
            links: &self.links,
            lock,
            owes: first,
            retries: first,
        }
    }
}

/// Returns how many of so many threads a book links: all, or none.
fn linked_of(threads: usize) -> usize
    ensures { (result ≤ threads) × (0 < result → (result ≡ threads) × (threads ≤ 1024)) }
{
    if threads > LINKED { 0 } else { threads }
}

/// Puts a thread before those that are linked already, which are all after it.
fn put_before(places: &[Place], links: &mut [Link; LINKED], first: &mut [u16; LOCKS], thread: usize)
    requires there { (thread < length places.now) × (length places.now ≤ 1024) }
    requires linked { AreLinkedFrom links.old first.old places.now (thread + 1) }
    ensures { AreLinkedFrom links.new first.new places.now thread }
{
    match tag_of(&places[thread]) {
        Tag::Nowhere => {}
        Tag::On(lock) => {
            if lock < LOCKS {
                links[thread] = Link {
                    lock: Some(lock as u8),
                    next: first[lock],
                };
                first[lock] = thread as u16;
            }
        }
        Tag::Anywhere => first.fill(thread as u16),
    }
}

/// Returns the tag of a thread at this place.
fn tag_of(place: &Place) -> Tag
    ensures { TagCovers result place.now }
{
    match place {
        Place::Idle => Tag::Nowhere,
        Place::Condvar { .. } => Tag::Anywhere,
        Place::Mutex { lock, .. }
        | Place::RwLock { lock, .. }
        | Place::Once { lock, .. }
        | Place::Semaphore { lock, .. } => tag_at(place, *lock),
    }
}

/// Returns the tag of a thread that has no debts but on this lock.
fn tag_at(place: &Place, lock: usize) -> Tag
    requires { HasDebtsOnlyOn lock place.now }
    ensures { TagCovers result place.now }
{
    if has_debt(place, Debt::Owes, lock) || has_debt(place, Debt::Retries, lock) {
        Tag::On(lock)
    } else {
        Tag::Nowhere
    }
}

/// The threads that owe a wake on a lock, then those that try again, each by their numbers.
#[derive(Drop)]
pub struct Debts<'a> {
    places: &'a [Place],
    links: &'a [Link],
    lock: usize,
    owes: usize,
    retries: usize,
}

impl<'a> Model for Debts<'a> {
    ghost use Rattle.std.specs.Prelude.{List, ℕ, ◌++◌, drop};
    ghost use Rattle.lot_machine.specs.declared.debts.Debt.{Debt};
    ghost use Rattle.lot_machine.specs.declared.debts.Debt.TheVariants.{Owes, Retries};
    ghost use Rattle.lot_machine.specs.Debts.{AreLinked};
    ghost use Rattle.lot_machine.specs.Views.{debtors};

    ghost Value = { List (Debt × ℕ) };

    ghost view = { λ s. debtors Owes s.lock s.owes (drop s.owes s.places.now)
        ++ debtors Retries s.lock s.retries (drop s.retries s.places.now) };

    ghost invariant = { λ s. AreLinked s.links.now s.places.now };
}

impl<'a> Debts<'a> {
    pub fn new(places: &'a [Place], lock: usize) -> Debts<'a>
        ensures { result
            ≡ debtors Debt.Owes lock 0 places.now ++ debtors Debt.Retries lock 0 places.now }
    {
        Debts {
            places,
            links: &[],
            lock,
            owes: 0,
            retries: 0,
        }
    }
}

/// Returns whether a thread at this place has the debt. A place is looked at where it stands, and
/// not copied.
#[inline]
fn has_debt(place: &Place, debt: Debt, lock: usize) -> bool
    ensures { result ≡ has_debt place.now debt lock }
{
    match debt {
        Debt::Owes => place.owes_on(lock),
        Debt::Retries => place.retries_on(lock),
    }
}

/// Returns the next thread that may have a debt on the lock.
#[inline]
fn next_on(places: &[Place], links: &[Link], thread: usize, lock: usize) -> usize
    requires there { thread < length places.now }
    requires linked { AreLinked links.now places.now }
    ensures later { (thread < result) × (result ≤ length places.now) }
    ensures skips { Skips places.now lock (thread + 1) result }
{
    let _all = places;
    if thread < links.len() {
        let link = links[thread];
        if let Some(own) = link.lock {
            if usize::from(own) == lock {
                return link.next as usize;
            }
        }
    }
    thread + 1
}

/// Returns the first thread from one on that has the debt, and from where to look for the next one.
fn find_debtor(
    places: &[Place],
    links: &[Link],
    from: usize,
    debt: Debt,
    lock: usize,
) -> Option<(usize, usize)>
    requires { AreLinked links.now places.now }
    ensures { MatchOption result (debtors debt lock from (drop from places.now) ≡ [])
        (λ found. debtors debt lock from (drop from places.now)
        ≡ (debt, found.0) ∷ debtors debt lock found.1 (drop found.1 places.now)) }
{
    let mut thread = from;
    while thread < places.len() {
        let next = next_on(places, links, thread, lock);
        if has_debt(&places[thread], debt, lock) {
            return Some((thread, next));
        }
        thread = next;
    }
    None
}

impl Iterator for Debts<'_> {
    type Item = (Debt, usize);

    ghost next_gives = { YieldsFirst (λ debts. debts) };

    ghost remaining = { item_count (λ debts. debts) };

    fn next(&mut self) -> Option<(Debt, usize)> {
        let (places, links, lock) = (self.places, self.links, self.lock);
        if let Some((thread, next)) = find_debtor(places, links, self.owes, Debt::Owes, lock) {
            self.owes = next;
            return Some((Debt::Owes, thread));
        }
        self.owes = places.len();
        match find_debtor(places, links, self.retries, Debt::Retries, lock) {
            Some((thread, next)) => {
                self.retries = next;
                Some((Debt::Retries, thread))
            }
            None => None,
        }
    }
}
