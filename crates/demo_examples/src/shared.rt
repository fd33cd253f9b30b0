//! Tables of any kind that one owner filled and then shares with threads: no entry is lost.
ghost use Rattle.std.specs.Prelude.{◌≡◌};
ghost use Rattle.table_shards.specs.SharedTables.{entries_in, buckets_in};

use lock_free_hashtable::Share;

/// Shares two tables of one kind, raw or over shards. Each shared table has the entries of its single-owner one, in the same
/// order, and as many buckets.
pub fn share_both<S: Share>(one: S, other: S) -> (S::Shared, S::Shared)
    ensures entries { entries_in (S.shared_rows result.0) ≡ entries_in (S.rows one) }
    ensures other_entries { entries_in (S.shared_rows result.1) ≡ entries_in (S.rows other) }
    ensures buckets { buckets_in (S.shared_rows result.0) ≡ buckets_in (S.rows one) }
    ensures other_buckets { buckets_in (S.shared_rows result.1) ≡ buckets_in (S.rows other) }
{
    let one = one.share();
    (one, other.share())
}
