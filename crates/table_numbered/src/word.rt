//! What a bucket's word says, and where a probe begins.
ghost use Rattle.std.specs.Prelude.{◌≡◌, ℕ, ◌+◌, ◌*◌, ◌/◌, ◌%◌, ◌^◌, ◌<◌, ◌≤◌};
ghost use Rattle.table_numbered.specs.Words.{IsNumber, spreading, mark_of};
ghost use Rattle.table_numbered.specs.Probing.{bucket_at};

/// An odd number of 64 bits, whose multiples spread over all of them.
const SPREADING: u64 = 0xD134_2543_DE82_EF95;

/// Two to the power of 32.
pub(crate) const HALF: u64 = 4294967296;

/// Returns the mark of the hash: the upper half of the product of the hash and `SPREADING` modulo 2^64.
pub(crate) fn mark_of_hash(hash: u64) -> u64
    ensures mark { result ≡ mark_of hash }
    ensures small { result < 2 ^ 32 }
{
    hash.wrapping_mul(SPREADING) / HALF
}

/// Returns the word of an entry.
pub(crate) fn word_of_entry(mark: u64, number: u64) -> u64
    requires mark { mark < 2 ^ 32 }
    requires number { IsNumber number }
    ensures { result ≡ mark * 2 ^ 32 + (number + 2) }
{
    mark * HALF + (number + 2)
}

/// Returns the bucket that a probe for this mark begins at, among `buckets` buckets.
pub(crate) fn first_bucket(mark: u64, buckets: usize) -> usize
    requires mark { mark < 2 ^ 32 }
    requires some { 0 < buckets }
    requires few { buckets ≤ 2 ^ 32 }
    ensures within { result < buckets }
    ensures first { result ≡ bucket_at buckets mark 0 }
{
    (mark * buckets as u64 / HALF) as usize
}

/// Returns the mark that a word has.
pub(crate) fn mark_of_word(word: u64) -> u64
    ensures { result ≡ word / 2 ^ 32 }
{
    word / HALF
}

/// Returns the number that the word of an entry has.
pub(crate) fn number_of_word(word: u64) -> u64
    requires { 2 ≤ word % 2 ^ 32 }
    ensures { result + 2 ≡ word % 2 ^ 32 }
{
    word % HALF - 2
}
