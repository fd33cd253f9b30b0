//! Short schedules, with what they print. [`crate::schedules::script`] defines how their events are spelled.
use crate::schedules::script::{NoLines, push_events};
use std::alloc::{AllocError, Global};

/// Events, and what they print: a line for each call that finishes, and for each line `b` the number of buckets.
pub type Part = (&'static str, &'static str);

/// A schedule: the first capacity, the parts that it begins with, the events that follow, and what those print.
pub type Row = (u64, &'static [Part], &'static str, &'static str);

/// Call 2 loses the exchange of an empty bucket to an equal value.
pub const LOST_TO_AN_EQUAL: Part = (
    "first 1 10 0; read 1 n; insert 2 11 0; share 2; load 2; read 2 n; \
    put 1 n ok; put 2 y ok; add 1; free 1; free 2; size 1; size 2",
    "1 placed 10\n2 found 10 back 11\n",
);

/// One value is placed, in the first generation.
const ONE: Part = (
    "first 1 10 0; read 1 n; put 1 n ok; add 1; free 1; size 1",
    "1 placed 10\n",
);

/// Six more values are placed, and no call wants growth.
const SIX: Part = (
    "go 2 11 1; go 3 12 2; go 4 13 3; go 5 14 4; go 6 15 5; go 7 16 6",
    "2 placed 11\n3 placed 12\n4 placed 13\n5 placed 14\n6 placed 15\n7 placed 16\n",
);

/// Nine more values are placed, and each of their calls is refused the growth that it wants. Two calls then find all 16 buckets set.
const TWO_AT_A_FULL_GENERATION: Part = (
    "go 8 17 7; own 8; check 8 no; free 8; \
    go 9 18 8; own 9; check 9 no; free 9; go 10 19 9; own 10; check 10 no; free 10; \
    go 11 20 10; own 11; check 11 no; free 11; go 12 21 11; own 12; check 12 no; free 12; \
    go 13 22 12; own 13; check 13 no; free 13; go 14 23 13; own 14; check 14 no; free 14; \
    go 15 24 14; own 15; check 15 no; free 15; go 16 25 15; own 16; check 16 no; free 16; \
    insert 17 26 0; share 17; load 17; 16 times read 17 n; free 17; \
    insert 18 27 0; share 18; load 18; 16 times read 18 n; free 18",
    "8 placed 17\n9 placed 18\n10 placed 19\n11 placed 20\n12 placed 21\n13 placed 22\n14 placed 23\n\
    15 placed 24\n16 placed 25\n",
);

/// Call 17 makes the generation of 32 buckets.
const GROWTH_TO_32: Part = ("own 17; check 17 ok; copies 17 16; show 17; free 17", "");

/// Seven values in 16 buckets.
const SEVEN: &[Part] = &[ONE, SIX];

/// Sixteen values in 16 buckets, and two calls that want growth.
const FULL: &[Part] = &[ONE, SIX, TWO_AT_A_FULL_GENERATION];

/// The parts of `FULL`, and a growth to 32 buckets by one of the two calls.
const GROWN: &[Part] = &[ONE, SIX, TWO_AT_A_FULL_GENERATION, GROWTH_TO_32];

/// An insert of hash 31, whose first bucket is the last of 16 and of 32.
const AT_THE_LAST_BUCKET: Part = (
    "first 1 10 31; read 1 n; put 1 n ok; add 1; free 1; size 1",
    "1 placed 10\n",
);

/// A second insert of hash 31, whose probe goes on at bucket 0.
const PAST_THE_LAST_BUCKET: Part = (
    "insert 2 11 31; share 2; load 2; 2 times read 2 n; put 2 n ok; add 2; free 2; size 2",
    "2 placed 11\n",
);

/// A walk, which reads the second value first.
const WALK_OF_TWO: Part = ("walk 20; load 20; 16 times read 20 n", "20 walk [11, 10]\n");

/// Six more inserts of hash 31, the last of which wants growth.
const SIX_BEHIND_THEM: Part = (
    "insert 3 12 31; share 3; load 3; 3 times read 3 n; put 3 n ok; add 3; free 3; size 3; \
    insert 4 13 31; share 4; load 4; 4 times read 4 n; put 4 n ok; add 4; free 4; size 4; \
    insert 5 14 31; share 5; load 5; 5 times read 5 n; put 5 n ok; add 5; free 5; size 5; \
    insert 6 15 31; share 6; load 6; 6 times read 6 n; put 6 n ok; add 6; free 6; size 6; \
    insert 7 16 31; share 7; load 7; 7 times read 7 n; put 7 n ok; add 7; free 7; size 7; \
    insert 8 17 31; share 8; load 8; 8 times read 8 n; put 8 n ok; add 8; free 8; size 8",
    "3 placed 12\n4 placed 13\n5 placed 14\n6 placed 15\n7 placed 16\n",
);

/// The schedules that tests run.
pub const SCHEDULES: [Row; 21] = [
    // An exchange that is lost to an equal value.
    (16, &[LOST_TO_AN_EQUAL], "b", "16\n"),
    (32, &[LOST_TO_AN_EQUAL], "b", "32\n"),
    // An event that begins a call with a used number changes nothing.
    (
        16,
        &[LOST_TO_AN_EQUAL],
        "insert 1 13 0; insert 3 12 1; share 3; load 3; read 3 n; put 3 n no; free 3; \
        lookup 4 0; load 4; read 4 y; lookup 5 3; load 5; read 5 n; b",
        "3 refused 12\n4 some 10\n5 none\n16\n",
    ),
    // An exchange that is lost to another value.
    (
        16,
        &[],
        "first 1 10 0; read 1 n; insert 2 11 0; share 2; load 2; read 2 n; put 1 n ok; put 2 n ok; \
        read 2 n; put 2 n ok; add 1; add 2; free 1; free 2; size 1; size 2; b",
        "1 placed 10\n2 placed 11\n16\n",
    ),
    // A length, read before an entry is counted.
    (
        16,
        &[],
        "first 1 10 0; read 1 n; put 1 n ok; len 3; load 3; size 3; add 1; free 1; size 1; b",
        "3 len 0\n1 placed 10\n16\n",
    ),
    // A look-up in an earlier generation misses what is placed in a later one.
    (
        16,
        SEVEN,
        "go 8 17 7; lookup 20 8; load 20; own 8; check 8 ok; copies 8 8; show 8; free 8; \
        go 9 18 8; read 20 n; lookup 21 8; load 21; read 21 y; b",
        "8 placed 17\n9 placed 18\n20 none\n21 some 18\n48\n",
    ),
    // A hash with the same first bucket, and with another mark.
    (
        16,
        &[ONE],
        "lookup 2 0x100000000; load 2; read 2 y; read 2 n; b",
        "2 none\n16\n",
    ),
    (16, &[], "walk 1; load 1; b", "1 walk []\n0\n"),
    (
        16,
        &[LOST_TO_AN_EQUAL],
        "walk 3; load 3; 16 times read 3 n; b",
        "3 walk [10]\n16\n",
    ),
    // A walk over seven entries.
    (
        16,
        SEVEN,
        "walk 20; load 20; 16 times read 20 y",
        "20 walk [10, 11, 12, 13, 14, 15, 16]\n",
    ),
    // No call takes the lock exclusively while another one holds it shared.
    (
        16,
        &[],
        "insert 1 10 0; insert 2 11 0; share 1; share 2; load 1; load 2; free 2; own 2; check 2 ok; \
        free 1; own 1; check 1 ok; show 1; free 1; share 1; load 1; read 1 n; put 1 n ok; add 1; \
        free 1; size 1; b",
        "1 placed 10\n16\n",
    ),
    // Memory for the first generation is refused.
    (
        16,
        &[],
        "b; insert 1 10 0; share 1; load 1; free 1; own 1; check 1 no; free 1; len 2; load 2; b",
        "0\n1 refused 10\n2 len 0\n0\n",
    ),
    // Two calls want growth at eight entries: one grows the table, and the other one finds it grown.
    (
        16,
        &[ONE],
        "go 2 11 1; go 3 12 2; go 4 13 3; go 5 14 4; go 6 15 5; \
        insert 7 16 6; share 7; load 7; read 7 n; put 7 n ok; add 7; \
        insert 8 17 7; share 8; load 8; read 8 n; put 8 n ok; add 8; \
        free 7; free 8; size 7; size 8; own 7; check 7 ok; copies 7 8; show 7; free 7; \
        own 8; check 8 ok; free 8; b",
        "2 placed 11\n3 placed 12\n4 placed 13\n5 placed 14\n6 placed 15\n7 placed 16\n8 placed 17\n48\n",
    ),
    // Two calls grow a full generation: the second one doubles the capacity again at once.
    (
        16,
        GROWN,
        "own 18; check 18 ok; copies 18 16; show 18; free 18; b; \
        share 17; load 17; 17 times read 17 n; put 17 n ok; add 17; free 17; size 17; \
        share 18; load 18; 18 times read 18 n; put 18 n ok; add 18; free 18; size 18; b",
        "112\n17 placed 26\n18 placed 27\n112\n",
    ),
    // A call whose growth is refused while there is a newer generation starts again in that one.
    (
        16,
        GROWN,
        "own 18; check 18 no; free 18; share 18; load 18; 17 times read 18 n; put 18 n ok; add 18; \
        free 18; size 18; own 18; check 18 no; free 18; b",
        "18 placed 27\n48\n",
    ),
    // A look-up and a walk of a full generation end at their sixteenth reads, after a call that returns the length.
    (
        16,
        FULL,
        "lookup 19 0; load 19; 15 times read 19 n; walk 20; load 20; 15 times read 20 n; \
        len 21; load 21; size 21; read 19 n; read 20 n; b",
        "21 len 16\n19 none\n\
        20 walk [10, 11, 12, 13, 14, 15, 16, 17, 18, 19, 20, 21, 22, 23, 24, 25]\n16\n",
    ),
    // Inserts, copies and a look-up go on at bucket 0. The value 10, in the last bucket, is copied last.
    (
        16,
        &[
            AT_THE_LAST_BUCKET,
            PAST_THE_LAST_BUCKET,
            WALK_OF_TWO,
            SIX_BEHIND_THEM,
        ],
        "own 8; check 8 ok; 8 times copy 8 31; show 8; free 8; \
        lookup 21 31; load 21; 7 times read 21 n; read 21 y; \
        walk 22; load 22; 32 times read 22 n; b",
        "8 placed 17\n21 some 10\n22 walk [12, 13, 14, 15, 16, 17, 10, 11]\n48\n",
    ),
    // An insert of a used value number changes nothing, and its call number can still be used.
    (
        16,
        &[],
        "insert 1 10 0; insert 2 10 0; lookup 2 0; load 2",
        "2 none\n",
    ),
    (
        16,
        &[],
        "insert 1 10 0; insert 1 11 0; insert 2 11 0; lookup 2 0; load 2; len 3; load 3",
        "3 len 0\n",
    ),
    (
        16,
        &[],
        "load 1; show 2; copy 2 0; read 3 y; free 4; b",
        "0\n",
    ),
    // A call that has finished takes no more events.
    (
        16,
        &[],
        "len 1; load 1; load 1; size 1; len 1; load 1; free 1",
        "1 len 0\n",
    ),
];

/// Returns the lines of a schedule. `Err`: memory was refused, or a number is missing or wrong.
pub fn lines_of(alloc: Global, row: &Row) -> Result<String, NoLines> {
    let (_first, begin, rest, _printed) = *row;
    let mut lines = String::new(alloc);
    for (events, _printed) in begin {
        push_events(&mut lines, events)?;
    }
    push_events(&mut lines, rest)?;
    Ok(lines)
}

/// Returns what a schedule prints. `Err`: memory was refused.
pub fn printed_by(alloc: Global, row: &Row) -> Result<String, AllocError> {
    let (_first, begin, _rest, last) = *row;
    let mut all = String::new(alloc);
    for (_events, printed) in begin {
        all.push_str(printed)?;
    }
    all.push_str(last)?;
    Ok(all)
}
