//! The same calls on one table and on a table over four shards.

use super::assert_same;
use demo_examples::alike::{Ask, Both, ask_both};
use lock_free_hashtable::InPlace;
use lock_free_hashtable::alone::Reply;
use std::process::Abort;
use std::test::Fail;
use testkit::reply::{PlainReply, plain_reply};

/// The words `LOW`, `SECOND`, `THIRD` and `HIGH` belong to the shards 0, 1, 2 and 3.
const LOW: u64 = 7;

const SECOND: u64 = 1 << 62;

const THIRD: u64 = 1 << 63;

const HIGH: u64 = u64::MAX;

const ASKS: [Ask; 10] = [
    Ask::Count,
    Ask::Find(LOW),
    Ask::Insert(LOW),
    Ask::Insert(HIGH),
    Ask::Insert(LOW),
    Ask::Find(LOW),
    Ask::Insert(SECOND),
    Ask::Insert(THIRD),
    Ask::Find(HIGH),
    Ask::Count,
];

const REPLIES: [PlainReply; 10] = [
    PlainReply::Len(0),
    PlainReply::None,
    PlainReply::Placed(LOW),
    PlainReply::Placed(HIGH),
    PlainReply::Found(LOW, LOW),
    PlainReply::Some(LOW),
    PlainReply::Placed(SECOND),
    PlainReply::Placed(THIRD),
    PlainReply::Some(HIGH),
    PlainReply::Len(4),
];

fn assert_replies(rt: &impl Abort, replies: &[Reply<InPlace<u64>>]) {
    assert_same(rt, replies.len(), REPLIES.len());
    for (reply, expected) in replies.iter().zip(REPLIES) {
        assert_same(rt, plain_reply(reply), expected);
    }
}

#[test]
fn four_shards_tell_what_one_table_tells(rt: HostRuntime) -> Result<(), Fail> {
    let both: Both = ask_both(rt.alloc(), ASKS.as_slice())?;
    assert_replies(&rt, both.told.one.as_slice());
    assert_replies(&rt, both.told.other.as_slice());
    assert_same(&rt, both.raw.len_alone(), 4);
    assert_same(&rt, both.shards.len_alone(), 4);
    Ok(())
}
