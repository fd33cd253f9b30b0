//! A test of `shard_of`, which returns the shard of a hash.
use lock_free_hashtable::sharded::HeldShardedTable;
use std::process::Abort;

/// Hashes, and the shard of each if there are one, two, eight or sixteen shards.
const SHARDS_OF: [(u64, [usize; 4]); 6] = [
    (0, [0, 0, 0, 0]),
    (0x7FFF_FFFF_FFFF_FFFF, [0, 0, 3, 7]),
    (0x8000_0000_0000_0000, [0, 1, 4, 8]),
    (0xE000_0000_0000_0000, [0, 1, 7, 14]),
    (0xFFFF_FFFF_FFFF_FFFF, [0, 1, 7, 15]),
    (0x1000_0000_0000_0000, [0, 0, 0, 1]),
];

fn assert_shards(rt: &impl Abort, hash: u64, expected: [usize; 4]) {
    let shards = [
        HeldShardedTable::<Box<u64>, 1>::shard_of(hash),
        HeldShardedTable::<Box<u64>, 2>::shard_of(hash),
        HeldShardedTable::<Box<u64>, 8>::shard_of(hash),
        HeldShardedTable::<Box<u64>, 16>::shard_of(hash),
    ];
    assert_eq!(rt; shards, expected, "hash {hash}");
}

#[test]
fn a_shard_is_the_top_bits_of_the_hash(rt: HostRuntime) {
    for (hash, expected) in &SHARDS_OF {
        assert_shards(&rt, *hash, *expected);
    }
}
