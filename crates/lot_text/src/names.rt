//! The names of locks.
//!
//! A name is found by a hint: a table by the hash of a name says where it may be, and a look there
//! decides. Where another name of that hash came since, all are looked through. The table has no
//! invariant.
ghost use Rattle.std.specs.Prelude.{◌≡◌, ◌≢◌, ◌<◌, ◌≤◌, ◌||◌, ◌++◌, ◌∷◌, [], ℕ, Some, None, IfErr, IfOk};
ghost use Rattle.std.specs.Prelude.{if◌then◌else◌, length, slice_index};
ghost use Rattle.std.specs.Str.{bytes_eq};
ghost use Rattle.lot_text.specs.LockNames.{is_letter, is_digit, are_name_bytes, name_of, lock_named, padded};

use std::alloc::{AllocError, Global};
use std::marker::Model;

/// The multiplier of a name's hash: 2 to the 128 divided by the golden ratio, made odd.
const GOLDEN: u128 = 0x9E3779B97F4A7C15F39CC0605CEDC835;

/// How many bits a hash has, and how many hints there are.
const HASH_BITS: u32 = 12;

const HINTS: usize = 1 << 12;

/// The longest name.
pub const NAME_LEN: usize = 16;

/// A lock's name: a lower-case letter, and then lower-case letters or digits. Zeros stand after
/// it.
#[derive(Clone, Copy, PartialEq, Eq)]
pub struct Name {
    bytes: [u8; NAME_LEN],
}

impl Model for Name {
    ghost use Rattle.std.specs.Prelude.{ℕ, List, ◌≡◌};
    ghost use Rattle.std.proofs.Common.{sym, ap};
    ghost use Rattle.lot_text.specs.LockNames.{padded, spelled};

    ghost Value = { List ℕ };

    ghost view = { λ n. spelled n.bytes };

    ghost invariant = { λ n. n.bytes ≡ padded (spelled n.bytes) };

    ghost inverse = { λ name. record { bytes = padded name } };

    ghost inverse_ok = { λ n h. ap (λ b. record { bytes = b }) (sym h) };
}

impl Name {
    /// Returns the name that a word spells.
    pub fn from_word(word: &[u8]) -> Option<Name>
        ensures { result ≡ name_of word.now }
    {
        let Some((first, _)) = word.split_first() else {
            return None;
        };
        if word.len() > NAME_LEN || !is_letter(*first) {
            return None;
        }
        let bytes = padded(word)?;
        Some(Name { bytes })
    }

    /// Returns whether the names are the same, by a loop of a fixed length, which is quicker than
    /// `==`.
    fn is_same(&self, other: &Name) -> bool
        ensures { result ≡ bytes_eq self.now other.now }
    {
        let mut same = true;
        for at in 0..NAME_LEN {
            same &= self.bytes[at] == other.bytes[at];
        }
        same
    }

    /// Returns a hash of `HASH_BITS` bits.
    fn hash(&self) -> usize {
        let bytes = u128::from_le_bytes(self.bytes);
        (bytes.wrapping_mul(GOLDEN) >> (128 - HASH_BITS)) as usize
    }

    /// Returns the name as it is written.
    pub fn text(&self) -> &[u8]
        ensures { result.now ≡ self.now }
    {
        &self.bytes[..len_of_name(&self.bytes)]
    }
}

/// Returns the word with zeros after it, where it is of lower-case letters and digits.
fn padded(word: &[u8]) -> Option<[u8; NAME_LEN]>
    requires { length word.now ≤ NAME_LEN }
    ensures { result ≡ if are_name_bytes word.now then Some (padded word.now) else None }
{
    let mut bytes = [0; NAME_LEN];
    for (at, b) in word.iter().enumerate() {
        if !is_name_byte(*b) {
            return None;
        }
        bytes[at] = *b;
    }
    Some(bytes)
}

/// Returns how many bytes come before the first 0, or all.
fn len_of_name(bytes: &[u8]) -> usize
    ensures within { result ≤ length bytes.now }
    ensures before { (k : ℕ) → k < result → slice_index bytes.now k ≢ 0 }
    ensures found { result < length bytes.now → slice_index bytes.now result ≡ 0 }
{
    bytes.iter().position(|b| *b == 0).unwrap_or(bytes.len())
}

fn is_letter(byte: u8) -> bool
    ensures { result ≡ is_letter byte }
{
    byte.is_ascii_lowercase()
}

fn is_name_byte(byte: u8) -> bool
    ensures { result ≡ (is_letter byte || is_digit byte) }
{
    byte.is_ascii_lowercase() || byte.is_ascii_digit()
}

/// The names of locks, each once, in the order in which they came.
#[derive(Drop)]
pub struct Names {
    names: Vec<Name>,
    // By the hash of a name, at which place it may stand. Another of this hash may have come since.
    hints: Vec<usize>,
}

impl Model for Names {
    ghost use Rattle.std.specs.Prelude.{ℕ, List};
    ghost use Rattle.lot_text.specs.LockNames.{NamesAreDistinct};

    ghost Value = { List (List ℕ) };

    ghost view = { λ n. n.names.items };

    ghost invariant = { λ n. NamesAreDistinct n.names.items };
}

impl Names {
    /// No names.
    pub fn new(alloc: Global) -> Names
        ensures { result ≡ [] }
    {
        Names {
            names: Vec::new(alloc),
            hints: Vec::new(alloc),
        }
    }

    /// Returns how many there are.
    pub fn len(&self) -> usize
        ensures { result ≡ length self.now }
    {
        self.names.len()
    }

    /// All of them, in their order.
    pub fn as_slice(&self) -> &[Name]
        ensures { result.now ≡ self.now }
    {
        self.names.as_slice()
    }

    /// At which place a name stands. Almost always a hint tells it at once.
    pub fn find(&self, name: Name) -> Option<usize>
        ensures { result ≡ lock_named self.now name }
    {
        if let Some(hint) = self.hints.get(name.hash()) {
            if *hint < self.names.len() && self.names[*hint].is_same(&name) {
                return Some(*hint);
            }
        }
        self.names.iter().position(|other| other.is_same(&name))
    }

    /// Adds a name that isn't there yet. Where memory is refused, nothing changes.
    pub fn push(&mut self, alloc: Global, name: Name) -> Result<(), AllocError>
        requires { lock_named self.old name ≡ None }
        ensures ok { IfOk result (λ _. self.new ≡ self.old ++ name ∷ []) }
        ensures err { IfErr result (λ _. self.new ≡ self.old) }
    {
        make_room(alloc, &mut self.hints)?;
        self.names.reserve(1)?;
        set_hint(&mut self.hints, name.hash(), self.names.len());
        self.names.push_reserved(name);
        Ok(())
    }
}

/// Makes room for all hints, where there is none yet.
fn make_room(alloc: Global, hints: &mut Vec<usize>) -> Result<(), AllocError> {
    if hints.is_empty() {
        *hints = Vec::from_elem(alloc, 0, HINTS)?;
    }
    Ok(())
}

fn set_hint(hints: &mut [usize], hash: usize, place: usize) {
    if let Some(hint) = hints.get_mut(hash) {
        *hint = place;
    }
}
