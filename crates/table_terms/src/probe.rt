//! The buckets that a probe reads, and the bits of a hash that a bucket carries.
ghost use Rattle.std.specs.Prelude.{◌≡◌, ◌+◌, ◌<◌, ◌%◌, ℕ};
ghost use Rattle.std.specs.Int.{IsPowerOfTwo};
ghost use Rattle.table_terms.specs.Hashes.{bits_of};
ghost use Rattle.table_terms.specs.Probes.{bucket_at};

/// Returns the eight bits of a hash that a bucket carries: bits 32 to 39.
#[inline(always)]
pub fn bits_of_hash(hash: u64) -> u8
    ensures { result ≡ bits_of hash }
{
    (hash >> 32 & 0xff) as u8
}

/// Returns the remainder of a hash divided by a number of buckets. If that is a power of two, as in every table, it does no
/// division.
#[inline(always)]
pub fn remainder(hash: u64, count: u64) -> u64
    requires { 0 < count }
    ensures { result ≡ hash % count }
{
    if count.is_power_of_two() {
        hash & (count - 1)
    } else {
        hash % count
    }
}

/// Returns the index of the first bucket that a probe for this hash reads, of `capacity` buckets.
#[inline(always)]
pub fn first_bucket(hash: u64, capacity: usize) -> usize
    requires { IsPowerOfTwo capacity }
    ensures within { result < capacity }
    ensures first { result ≡ bucket_at capacity hash 0 }
{
    hash as usize & (capacity - 1)
}

/// Returns the index of the bucket that a probe reads after this one. Wraps around at the end.
#[inline(always)]
pub fn next_bucket(bucket: usize, capacity: usize) -> usize
    requires within { bucket < capacity }
    requires power { IsPowerOfTwo capacity }
    ensures within { result < capacity }
    ensures next { (hash k : ℕ) → bucket ≡ bucket_at capacity hash k
        → result ≡ bucket_at capacity hash (k + 1) }
{
    (bucket + 1) & (capacity - 1)
}
