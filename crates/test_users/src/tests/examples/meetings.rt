//! Two seats of a number table, which insert a number each and then meet.
use demo_examples::seats::insert_and_meet;
use seated::{NumberAnswer, NumberTable};
use std::alloc::Global;
use std::num::NonZeroU64;
use std::process::Abort;
use std::test::Fail;

/// The words of a table, the number that each of two seats inserts, what their inserts return, and whether each finds the other's number.
type Case = (
    usize,
    (NonZeroU64, NonZeroU64),
    (NumberAnswer, NumberAnswer),
    (bool, bool),
);

/// Runs `insert_and_meet` on a new table, and asserts what its calls return. `Err`: no memory.
fn check(rt: &impl Abort, alloc: Global, case: &Case) -> Result<(), Fail> {
    let (words, (firsts, seconds), inserts, finds) = *case;
    assert!(rt; words.is_power_of_two());
    let (table, seat) = NumberTable::new(alloc, words)?;
    let Ok((mut first, mut second)) = table.split(seat) else {
        unreachable!()
    };
    let met = insert_and_meet(&table, &mut first, &mut second, firsts, seconds);
    assert!(rt; (met.first_insert, met.second_insert) == inserts);
    assert!(rt; (met.first_finds, met.second_finds) == finds);
    Ok(())
}

#[test]
fn seats_find_what_the_other_placed(rt: HostRuntime) -> Result<(), Fail> {
    let (one, greatest) = (NonZeroU64::MIN, NonZeroU64::MAX);
    let (placed, found, full) = (
        NumberAnswer::Placed,
        NumberAnswer::Found,
        NumberAnswer::Full,
    );
    for case in [
        (16, (one, greatest), (placed, placed), (true, true)),
        (16, (one, one), (placed, found), (true, true)),
        (1, (one, greatest), (placed, full), (false, true)),
    ] {
        check(&rt, rt.alloc(), &case)?;
    }
    Ok(())
}
