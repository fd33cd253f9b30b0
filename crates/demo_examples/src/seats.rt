//! Two seats of a number table: after they have met, each finds what the other placed.
ghost use Rattle.std.specs.Prelude.{◌≡◌, ◌≢◌, IsTrue};
ghost use Rattle.std.specs.Int.NonZero.{non_zero_u64_get};
ghost use Rattle.seated.specs.Tables.{IsSeatOf};

use seated::{NumberAnswer, NumberTable, Seat};
use std::alloc::Allocator;
use std::num::NonZeroU64;

/// The results of two seats: those of their inserts, and after they had met those of a look-up of the other's number.
#[derive(Clone, Copy, Debug)]
pub struct Met {
    pub first_insert: NumberAnswer,
    pub second_insert: NumberAnswer,
    pub first_finds: bool,
    pub second_finds: bool,
}

/// Inserts a number through each of two seats, lets them meet, and looks up the number of each through the other seat. It is
/// found unless the table was full when it was inserted. The two seats never both place one number.
///
/// Other threads may use the table with seats of their own at the same time. No call waits or allocates.
pub fn insert_and_meet<A: Allocator + Copy>(
    table: &NumberTable<A>,
    first: &mut Seat,
    second: &mut Seat,
    firsts: NonZeroU64,
    seconds: NonZeroU64,
) -> Met
    requires first { IsSeatOf table.now first.old }
    requires second { IsSeatOf table.now second.old }
    ensures seats { IsSeatOf table.now first.new × IsSeatOf table.now second.new }
    ensures first_finds { result.second_insert ≢ NumberAnswer.Full → IsTrue result.first_finds }
    ensures second_finds { result.first_insert ≢ NumberAnswer.Full → IsTrue result.second_finds }
    ensures placed_once { non_zero_u64_get firsts ≡ non_zero_u64_get seconds →
        result.first_insert ≡ NumberAnswer.Placed → result.second_insert ≢ NumberAnswer.Placed }
{
    let first_insert = table.insert(first, firsts);
    let second_insert = table.insert(second, seconds);
    let _always_ok = table.meet(first, second);
    Met {
        first_insert,
        second_insert,
        first_finds: table.contains(first, seconds),
        second_finds: table.contains(second, firsts),
    }
}
