//! Count words: which thread has locked a mutex, and how often.
ghost use Rattle.std.specs.Prelude.{◌≡◌, ◌⊎◌, ◌<◌};
ghost use Rattle.lock_raw.specs.Counts.{Names, advanced};

use core_base::Fault;

// The count is the low half of the word, one more than the thread's number the high one.
const ONE_THREAD: u64 = 4294967296;

const MOST: u64 = 4294967295;

/// Counts once more on the count word of a mutex that the thread of this number locks. The word was
/// 0, or names this thread.
///
/// # Errors
///
/// `LockCountFull`, where the count is 4294967295.
#[inline]
pub fn advance_count(word: u64, number: usize) -> Result<u64, Fault>
    requires number { number < 4294967295 }
    requires names { (word ≡ 0) ⊎ Names number word }
    ensures { result ≡ advanced word number }
{
    if word == 0 {
        return Ok((number as u64 + 1) * ONE_THREAD + 1);
    }
    if word % ONE_THREAD == MOST {
        return Err(Fault::LockCountFull);
    }
    Ok(word + 1)
}
