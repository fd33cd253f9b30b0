//! The number table and its calls.
ghost use Rattle.std.specs.Prelude.{◌≡◌, ◌<◌, true, length};
ghost use Rattle.std.specs.Int.{is_power_of_two};

use crate::rule::{
    Claim, Cut, Gift, Newcomer, Note, NumberRule, Read, ReadAndForget, ReadAndRaise, TakeIn,
};
use crate::seat::{NumberAnswer, Seat, View};
use atomic_table::Table;
use std::alloc::{AllocError, Allocator, Global};
use std::num::NonZeroU64;
use table_terms::probe::{first_bucket, next_bucket};

/// A set of numbers other than 0, which threads share by reference.
///
/// It has a fixed number of words. Each word is empty, or holds one number that never changes. The first bucket of a number is
/// the number modulo the number of words; a probe goes on to the next bucket and wraps around. No call takes a lock or waits, and
/// only `new` allocates.
#[derive(Drop)]
pub struct NumberTable<A: Allocator + Copy = Global> {
    table: Table<(), View, u64, NumberRule, A>,
    /// Memory of the table's length, for `close`.
    room: Vec<u64, A>,
    ghost some_words: { 0 < table.shared.table_id.words },
    ghost power: { is_power_of_two table.shared.table_id.words ≡ true },
    ghost key: { table.shared.key ≡ table.shared.table_id.words },
    ghost no_slots: { table.shared.table_id.slots ≡ 0 },
    ghost room_fits: { length room.items ≡ table.shared.table_id.words },
}

impl<A: Allocator + Copy> NumberTable<A> {
    ghost use Rattle.std.specs.Prelude.{◌++◌, [], IfOk, IsOk, IsTrue, ◌↔◌, All, Contains};
    ghost use Rattle.std.specs.Int.{IsPowerOfTwo};
    ghost use Rattle.std.specs.Int.NonZero.{non_zero_u64_get};
    ghost use mathlib.Core.Option.{none};
    ghost use Rattle.atomic_table.specs.Table.{step};
    ghost use Rattle.seated.specs.Rule.{IsLaidOut};
    ghost use Rattle.seated.specs.Steps.{IsNext, Claims, Learns};
    ghost use Rattle.seated.specs.Numbers.{known_pairs, own_numbers, Knows, Within, Disjoint, StandIn, Inserts};
    ghost use Rattle.seated.specs.Tables.{word_count, IsSeatOf};
    ghost use Rattle.seated.specs.Views.{join_of};

    /// Makes an empty table of `count` words, and its first seat. The caller shows that `count` is a power of two.
    ///
    /// It allocates the words, and the memory into which `close` will copy them. If a request is refused, it frees what was
    /// allocated.
    pub fn new(alloc: A, count: usize) -> Result<(NumberTable<A>, Seat), AllocError>
        requires { IsTrue (is_power_of_two count) }
        ensures table { IfOk result (λ r. (word_count r.0 ≡ count) × IsSeatOf r.0 r.1) }
        ensures seat { IfOk result (λ r. (known_pairs r.1 ≡ []) × (own_numbers r.1 ≡ [])) }
    {
        let room = Vec::from_elem(alloc, 0u64, count)?;
        let (table, seat) = Table::of_words(alloc, room.as_slice(), &(count as u64))?;
        Ok((NumberTable { table, room }, Seat { inner: seat }))
    }

    /// Returns the number of words, a power of two, which is also the greatest number of entries.
    pub fn word_count(&self) -> usize
        ensures count { result ≡ word_count self.now }
        ensures power { IsPowerOfTwo result }
    {
        self.table.word_count()
    }

    /// Tries to place `x` in this bucket. Returns 0 if it was placed, and otherwise the number that the bucket holds.
    fn claim(&self, seat: &mut Seat, bucket: usize, x: u64) -> u64
        requires table { seat.old.inner.table_id ≡ self.now.table.shared.table_id }
        requires size { seat.old.inner.me.0.size ≡ seat.old.inner.table_id.words }
        requires next { (0 < x) × IsNext seat.old.inner.me.0 x bucket }
        ensures table { seat.new.inner.table_id ≡ seat.old.inner.table_id }
        ensures told { Claims (step 0 bucket 0 x none) seat.old.inner.me result seat.new.inner.me }
    {
        let found = self.table.shared.load::<Read>(&mut seat.inner, bucket);
        if found != 0 {
            return found;
        }
        self.table
            .shared
            .compare_exchange::<Claim>(&mut seat.inner, bucket, 0, x)
    }

    /// Inserts `v`, unless it is in the table or each word holds another number.
    ///
    /// It tries each bucket of the table at most once, with at most one exchange. Takes no lock and does not allocate.
    pub fn insert(&self, seat: &mut Seat, v: NonZeroU64) -> NumberAnswer
        requires { IsSeatOf self.now seat.old }
        ensures seat { IsSeatOf self.now seat.new }
        ensures known { Within (known_pairs seat.old) (known_pairs seat.new) }
        ensures answer { Inserts (word_count self.now) (non_zero_u64_get v)
            (known_pairs seat.old) (own_numbers seat.old) result
            (known_pairs seat.new) (own_numbers seat.new) }
        ensures again { Knows (known_pairs seat.old) (non_zero_u64_get v)
            → result ≡ NumberAnswer.Found }
    {
        let x = v.get();
        let count = self.word_count();
        let mut bucket = first_bucket(x, count);
        for _tried in 0..count {
            let found = self.claim(seat, bucket, x);
            if found == 0 {
                return NumberAnswer::Placed;
            }
            if found == x {
                return NumberAnswer::Found;
            }
            bucket = next_bucket(bucket, count);
        }
        NumberAnswer::Full
    }

    /// Returns whether `v` is in the table. The result is true if and only if the seat knows `v` after the call. A seat that knew
    /// `v` before gets true.
    ///
    /// False promises nothing about numbers that other seats placed: no clause says when a seat finds them. Tested, not proved: a
    /// seat that has learned nothing finds what other seats placed before. The code reads each bucket at most once. Takes no lock
    /// and does not allocate.
    pub fn contains(&self, seat: &mut Seat, v: NonZeroU64) -> bool
        requires { IsSeatOf self.now seat.old }
        ensures seat { IsSeatOf self.now seat.new }
        ensures known { Within (known_pairs seat.old) (known_pairs seat.new) }
        ensures own { own_numbers seat.new ≡ own_numbers seat.old }
        ensures answer { IsTrue result ↔ Knows (known_pairs seat.new) (non_zero_u64_get v) }
        ensures again { Knows (known_pairs seat.old) (non_zero_u64_get v) → IsTrue result }
    {
        let x = v.get();
        let count = self.word_count();
        let mut bucket = first_bucket(x, count);
        for _tried in 0..count {
            let found = self.table.shared.load::<Read>(&mut seat.inner, bucket);
            if found == 0 {
                return false;
            }
            if found == x {
                return true;
            }
            bucket = next_bucket(bucket, count);
        }
        false
    }

    /// Returns the seat and a second one, which knows nothing and has placed nothing.
    ///
    /// A seat takes no bytes, so nothing is allocated and the result is always `Ok`.
    pub fn split(&self, seat: Seat) -> Result<(Seat, Seat), Seat>
        requires { IsSeatOf self.now seat }
        ensures ok { IsOk result }
        ensures seats { IfOk result (λ r. IsSeatOf self.now r.0 × IsSeatOf self.now r.1) }
        ensures first_known { IfOk result (λ r. known_pairs r.0 ≡ known_pairs seat) }
        ensures first_own { IfOk result (λ r. own_numbers r.0 ≡ own_numbers seat) }
        ensures second { IfOk result (λ r. (known_pairs r.1 ≡ []) × (own_numbers r.1 ≡ [])) }
    {
        let mut first = seat;
        let second = self
            .table
            .shared
            .split_seat::<Cut<Newcomer>>(&mut first.inner);
        Ok((first, Seat { inner: second }))
    }

    /// Joins two seats into one, which knows what both knew and owns the numbers that both placed. These have no number in
    /// common.
    pub fn join(&self, first: Seat, second: Seat) -> Seat
        requires first { IsSeatOf self.now first }
        requires second { IsSeatOf self.now second }
        ensures seat { IsSeatOf self.now result }
        ensures known { Within (known_pairs first ++ known_pairs second) (known_pairs result) }
        ensures own { own_numbers result ≡ own_numbers first ++ own_numbers second }
        ensures apart { Disjoint (own_numbers first) (own_numbers second) }
    {
        let Seat { inner: second } = second;
        let mut seat = first;
        self.take_in(&mut seat, second);
        self.table.shared.load::<Read>(&mut seat.inner, 0);
        seat
    }

    /// Joins another seat to this one.
    fn take_in(&self, seat: &mut Seat, other: atomic_table::Seat<(), View>)
        requires table { (seat.old.inner.table_id ≡ self.now.table.shared.table_id)
            × (other.table_id ≡ self.now.table.shared.table_id) }
        requires slots { other.me.1 ≡ [] }
        ensures table { seat.new.inner.table_id ≡ seat.old.inner.table_id }
        ensures me { seat.new.inner.me ≡ (
          join_of seat.old.inner.me.0 other.me.0,
          seat.old.inner.me.1,
        ) }
    {
        self.table
            .shared
            .join_seat::<TakeIn>(&mut seat.inner, other);
    }

    /// Reads each bucket but the first.
    fn read_rest(&self, seat: &mut Seat)
        requires table { seat.old.inner.table_id ≡ self.now.table.shared.table_id }
        requires size { seat.old.inner.me.0.size ≡ seat.old.inner.table_id.words }
        ensures table { seat.new.inner.table_id ≡ seat.old.inner.table_id }
        ensures slots { seat.new.inner.me.1 ≡ seat.old.inner.me.1 }
        ensures view { Learns seat.old.inner.me.0 seat.new.inner.me.0 }
    {
        for bucket in 1..self.word_count() {
            self.table.shared.load::<Read>(&mut seat.inner, bucket);
        }
    }

    /// Lets each of two seats learn what the other knew. Each reads every word of the table once.
    ///
    /// The seats keep their own numbers, of which none is common to both. Nothing is allocated, and the result is always `Ok`.
    pub fn meet(&self, first: &mut Seat, second: &mut Seat) -> Result<(), AllocError>
        requires first { IsSeatOf self.now first.old }
        requires second { IsSeatOf self.now second.old }
        ensures ok { IsOk result }
        ensures seats { IsSeatOf self.now first.new × IsSeatOf self.now second.new }
        ensures first { Within (known_pairs first.old ++ known_pairs second.old)
            (known_pairs first.new) }
        ensures second { Within (known_pairs first.old ++ known_pairs second.old)
            (known_pairs second.new) }
        ensures first_own { own_numbers first.new ≡ own_numbers first.old }
        ensures second_own { own_numbers second.new ≡ own_numbers second.old }
        ensures apart { Disjoint (own_numbers first.new) (own_numbers second.new) }
    {
        let shared = &self.table.shared;
        // With the second seat's turn in its note, the first seat's turn rises above it, so that the gift of the first can be
        // told from the numbers of the second.
        let note = shared.split_seat::<Cut<Note>>(&mut second.inner);
        self.take_in(first, note);
        shared.load::<ReadAndRaise>(&mut first.inner, 0);
        self.read_rest(first);
        let gift = shared.split_seat::<Cut<Gift>>(&mut first.inner);
        self.take_in(second, gift);
        shared.load::<ReadAndForget>(&mut second.inner, 0);
        self.read_rest(second);
        Ok(())
    }

    /// Closes the table and returns its words, 0 for an empty one. Does not allocate.
    pub fn close(self, seat: Seat) -> Vec<u64, A>
        requires { IsSeatOf self seat }
        ensures laid_out { IsLaidOut (word_count self) result.items }
        ensures known { StandIn (known_pairs seat) result.items }
        ensures own { All (Contains result.items) (own_numbers seat) }
    {
        let NumberTable { table, mut room } = self;
        let count = room.len();
        let Seat { inner } = seat;
        let closed = table.close_with(inner);
        for bucket in 0..count {
            room[bucket] = closed.word(bucket);
        }
        closed.free();
        room
    }
}
