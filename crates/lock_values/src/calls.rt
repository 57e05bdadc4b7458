//! Values by the rights to words of a lot.
ghost use Rattle.std.specs.Prelude.{◌≡◌};
ghost use Rattle.lock_values.specs.Places.{place_of};
ghost use Rattle.core_words.specs.Lots.{IsWordOf};
ghost use Rattle.core_words.specs.Rights.{piece_of};
ghost use Rattle.core_words.specs.RightsOf.{IsHeldOf};
ghost use Rattle.core_words.specs.declared.owners.Owner.TheVariants.{Exclusive, Shared, Upgradable};
ghost use Rattle.core_words.specs.declared.words.WordKind.TheVariants.{RwLock};

use crate::place::{Open, Place, Seen};
use core_words::{Held, LotWords, Word};

/// Opens a value to read, by the right to read.
#[inline]
pub fn open_shared<'a, T>(
    words: &LotWords,
    place: &'a Place<T>,
    word: Word,
    held: Held,
) -> Seen<'a, T>
    requires own { IsWordOf words.now word × (word.kind ≡ RwLock) × IsHeldOf words.now word Shared held }
    requires place { place.now ≡ place_of words.now word }
    ensures { (result.of ≡ place_of words.now word) × (result.view ≡ piece_of word Shared) }
{
    let _word = word;
    place.read(words.seats(), held.into_seat().into_badge())
}

/// Opens a value to read, by the upgradable right.
#[inline]
pub fn open_upgradable<'a, T>(
    words: &LotWords,
    place: &'a Place<T>,
    word: Word,
    held: Held,
) -> Seen<'a, T>
    requires own { IsWordOf words.now word × (word.kind ≡ RwLock) × IsHeldOf words.now word Upgradable held }
    requires place { place.now ≡ place_of words.now word }
    ensures { (result.of ≡ place_of words.now word) × (result.view ≡ piece_of word Upgradable) }
{
    let _word = word;
    place.read(words.seats(), held.into_seat().into_badge())
}

/// Opens a value to write, by the right to own it alone.
#[inline]
pub fn open_alone<'a, T>(
    words: &LotWords,
    place: &'a Place<T>,
    word: Word,
    held: Held,
) -> Open<'a, T>
    requires own { IsWordOf words.now word × (word.kind ≡ RwLock) × IsHeldOf words.now word Exclusive held }
    requires place { place.now ≡ place_of words.now word }
    ensures { (result.of ≡ place_of words.now word) × (result.view ≡ piece_of word Exclusive) }
{
    let _word = word;
    place.write(words.seats(), held.into_seat().into_badge())
}

/// Shuts it, and gives the right back.
#[inline]
pub fn shut_shared<T>(words: &LotWords, word: Word, seen: Seen<'_, T>) -> Held
    requires own { IsWordOf words.now word × (word.kind ≡ RwLock) }
    requires open { (seen.of ≡ place_of words.now word) × (seen.view ≡ piece_of word Shared) }
    ensures { IsHeldOf words.now word Shared result }
{
    let _word = word;
    Held::of_seat(seen.close(words.seats()).into_seat())
}

/// Shuts it, and gives the upgradable right back.
#[inline]
pub fn shut_upgradable<T>(words: &LotWords, word: Word, seen: Seen<'_, T>) -> Held
    requires own { IsWordOf words.now word × (word.kind ≡ RwLock) }
    requires open { (seen.of ≡ place_of words.now word) × (seen.view ≡ piece_of word Upgradable) }
    ensures { IsHeldOf words.now word Upgradable result }
{
    let _word = word;
    Held::of_seat(seen.close(words.seats()).into_seat())
}

/// Shuts it, and gives the right to own it alone back.
#[inline]
pub fn shut_alone<T>(words: &LotWords, word: Word, lent: Open<'_, T>) -> Held
    requires own { IsWordOf words.now word × (word.kind ≡ RwLock) }
    requires open { (lent.of ≡ place_of words.now word) × (lent.view ≡ piece_of word Exclusive) }
    ensures { IsHeldOf words.now word Exclusive result }
{
    let _word = word;
    Held::of_seat(lent.close(words.seats()).into_seat())
}
