//! The bucket of a key.
ghost use Rattle.std.specs.Prelude.{◌≡◌, ◌<◌, ◌^◌};
ghost use Rattle.core_queues.specs.Chains.{bucket_of, IsLeast};

use core_base::Key;

/// 2 to the 64 divided by the golden ratio.
const GOLDEN: usize = 11400714819323198485;

/// Hashes a key to the number of its bucket, where there are 2 to a power of buckets.
///
/// `bits` is that power, below 64.
pub fn bucket_among(bits: u32, key: Key) -> usize
    requires few { bits < 64 }
    ensures bucket { result ≡ bucket_of bits key }
    ensures within { result < 2 ^ bits }
{
    if bits == 0 {
        return 0;
    }
    key.wrapping_mul(GOLDEN) >> (64 - bits)
}

/// Computes the power of two that gives each of so many threads a bucket.
pub fn bits_for(threads: usize) -> u32
    requires { threads < 2 ^ 63 }
    ensures least { IsLeast threads result }
    ensures few { result < 64 }
{
    let mut bits = 0;
    while bits < 63 && (1 << bits) < threads {
        bits += 1;
    }
    bits
}
