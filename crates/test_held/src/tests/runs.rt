//! Generated runs of calls, in which each answer is compared with that of a plain list.
use super::assert_same;
use super::pairs::{Pair, PairAnswer, Pairs};
use rand_core::{Rng, SeedableRng};
use rand_xoshiro::SplitMix64;
use std::alloc::{AllocError, Allocator, Global};
use std::process::Abort;
use std::test::Fail;
use table_held::AtomicValue;
use table_held::runs::AloneTable;
use table_terms::law::PairLaw;
use testkit::refusing::{Heap, Refusing, Rule, counted};

/// Hashes. Some have the same first bucket, and some have the same bits 32 to 39, which an entry keeps.
const HASHES: [u64; 7] = [0, 1, 15, 16, 1 << 32, 1 << 40, u64::MAX];

/// How many different numbers a run with refused memory inserts.
const NUMBERS: u64 = 40;

/// Draws a number below `bound`. Returns 0 if `bound` is 0.
fn draw(numbers: &mut SplitMix64, bound: u64) -> u64 {
    numbers.next_u64().checked_rem(bound).unwrap_or(0)
}

/// Draws a pair whose hash is one of `HASHES`.
fn draw_pair(numbers: &mut SplitMix64) -> Pair {
    let index = draw(numbers, 7) as usize;
    (HASHES.get(index).copied().unwrap_or(0), draw(numbers, 12))
}

/// Returns whether the pairs are equal.
fn same(a: &Pair, b: &Pair) -> bool {
    a == b
}

/// Returns the hash of a pair.
fn hash(pair: &Pair) -> u64 {
    pair.0
}

/// Inserts the value by `place_alone`, and returns the answer.
fn place<T: AtomicValue<Target = Pair>, B: AloneTable<T, PairLaw>>(
    table: &mut B,
    value: T,
) -> PairAnswer {
    let pair = *value.deref();
    let (place, back) = match table.place_alone(pair.0, value, &same, &hash) {
        Ok(placed) => placed,
        Err(back) => return PairAnswer::Refused(*back.deref()),
    };
    let shown = *table.target_at(place);
    match back {
        None => PairAnswer::Placed(shown),
        Some(back) => PairAnswer::Found(shown, *back.deref()),
    }
}

/// Appends the pair to the list unless the list has it, and returns the answer. `Err`: no memory.
fn list_answer(list: &mut Vec<Pair>, pair: Pair) -> Result<PairAnswer, AllocError> {
    if list.contains(&pair) {
        return Ok(PairAnswer::Found(pair, pair));
    }
    list.push(pair)?;
    Ok(PairAnswer::Placed(pair))
}

/// Inserts the pair into the list too, unless the table refused it, and returns whether the table's answer is right. The table may
/// refuse the pair if a request was refused and the list doesn't have it. `Err`: no memory.
fn agrees(
    list: &mut Vec<Pair>,
    pair: Pair,
    answer: PairAnswer,
    refused: bool,
) -> Result<bool, AllocError> {
    match answer {
        PairAnswer::Refused(back) => Ok(refused && back == pair && !list.contains(&pair)),
        _ => Ok(answer == list_answer(list, pair)?),
    }
}

/// Asserts that two iterators yielded the same pairs in the same order.
fn assert_same_pairs(rt: &impl Abort, one: &[Pair], other: &[Pair]) {
    assert!(rt; one == other);
}

/// A table, and the list that it is compared with.
#[derive(Drop)]
struct Both<A: Allocator + Copy> {
    pairs: Pairs<A>,
    list: Vec<Pair>,
    alloc: Global,
}

impl<A: Allocator + Copy> Both<A> {
    fn new(table_alloc: A, alloc: Global) -> Self {
        Both {
            pairs: Pairs::of(table_alloc, alloc),
            list: Vec::new(alloc),
            alloc,
        }
    }

    /// Inserts the pair into both, and asserts that the answers agree and the table has grown if it must. `Err`: no memory.
    fn insert(&mut self, rt: &impl Abort, heap: &Heap, pair: Pair) -> Result<(), Fail> {
        let before = heap.refusals_left();
        let capacity = self.pairs.table.capacity_alone();
        let answer = self.pairs.insert(pair)?;
        let refused = heap.refusals_left() < before;
        assert!(rt; agrees(&mut self.list, pair, answer, refused)?);
        self.assert_grown(rt, capacity, refused);
        Ok(())
    }

    /// Asserts that the table has grown beyond `capacity` if at least half of that many buckets are set and no request was refused.
    fn assert_grown(&self, rt: &impl Abort, capacity: usize, refused: bool) {
        let wanted = 2 * (self.list.len() as u128) >= capacity as u128;
        assert!(rt; refused || !wanted || self.pairs.table.capacity_alone() > capacity);
    }

    fn lookup(&self, rt: &impl Abort, pair: Pair) {
        self.pairs.assert_shown(rt, pair, self.list.contains(&pair));
    }

    fn count(&self, rt: &impl Abort) {
        let counted = (
            self.pairs.table.len_alone(),
            self.pairs.table.is_empty_alone(),
        );
        assert_same(rt, counted, (self.list.len(), self.list.is_empty()));
    }

    fn walk(&self, rt: &impl Abort) -> Result<(), Fail> {
        let mut walked = walk(&self.pairs, self.alloc)?;
        walked.sort_unstable();
        let mut expected = Vec::new(self.alloc);
        expected.extend_from_slice(&self.list)?;
        expected.sort_unstable();
        assert_same_pairs(rt, walked.as_slice(), expected.as_slice());
        Ok(())
    }

    /// Inserts the pair until it is an entry, `tries` times at most, and asserts that it is one then. `Err`: no memory.
    fn insert_at_last(
        &mut self,
        rt: &impl Abort,
        heap: &Heap,
        pair: Pair,
        tries: u64,
    ) -> Result<(), Fail> {
        for _tried in 0..tries {
            if !self.list.contains(&pair) {
                self.insert(rt, heap, pair)?;
            }
        }
        self.pairs.assert_shown(rt, pair, true);
        self.lookup(rt, pair);
        Ok(())
    }

    /// Inserts the pairs of the numbers below `NUMBERS`, each `tries` times at most. Asserts that each is an entry at last. `Err`: no memory.
    fn insert_rest(&mut self, rt: &impl Abort, heap: &Heap, tries: u64) -> Result<(), Fail> {
        for number in 0..NUMBERS {
            self.insert_at_last(rt, heap, (number % 5, number), tries)?;
        }
        Ok(())
    }
}

/// Returns the pairs of a table, in the order of its iterator. `Err`: no memory.
fn walk<A: Allocator + Copy>(pairs: &Pairs<A>, alloc: Global) -> Result<Vec<Pair>, AllocError> {
    let mut walked = Vec::new(alloc);
    for pair in &pairs.table {
        walked.push(*pair)?;
    }
    Ok(walked)
}

/// Makes `calls` calls that the seed draws, and asserts that the table and the list agree. `Err`: no memory.
fn run_drawn<A: Allocator + Copy>(
    rt: &impl Abort,
    heap: &Heap,
    memory: A,
    alloc: Global,
    seed: u64,
    calls: u64,
) -> Result<(), Fail> {
    let mut numbers = SplitMix64::seed_from_u64(seed);
    let mut both = Both::new(memory, alloc);
    for _call in 0..calls {
        match draw(&mut numbers, 8) {
            0..=4 => both.insert(rt, heap, draw_pair(&mut numbers))?,
            5 | 6 => both.lookup(rt, draw_pair(&mut numbers)),
            _ => both.count(rt),
        }
    }
    both.walk(rt)
}

#[test]
fn generated_runs_answer_as_the_list(rt: HostRuntime) -> Result<(), Fail> {
    for seed in 0..40 {
        let heap = counted(rt.alloc());
        run_drawn(&rt, &heap, &heap, rt.alloc(), seed, 300)?;
    }
    Ok(())
}

/// Makes a run of inserts in which the heap refuses at most `refused` requests, and then inserts what is missing until it is an entry.
/// Asserts that the table and the list agree. `Err`: no memory for the test itself.
fn insert_all<A: Allocator + Copy>(
    rt: &impl Abort,
    alloc: Global,
    heap: &Heap,
    memory: A,
    refused: u64,
) -> Result<(), Fail> {
    let mut both = Both::new(memory, alloc);
    for number in 0..NUMBERS {
        both.insert(rt, heap, (number % 5, number))?;
        both.insert(rt, heap, (number / 2 % 5, number / 2))?;
        both.count(rt);
    }
    both.insert_rest(rt, heap, refused.saturating_add(1))?;
    both.count(rt);
    both.walk(rt)
}

/// Makes a run of inserts in which the first `granted` requests are granted and the next `refused` are refused. Returns whether all
/// `refused` refusals took place. `Err`: no memory for the test itself.
fn run_refused(rt: &impl Abort, alloc: Global, granted: u64, refused: u64) -> Result<bool, Fail> {
    let heap = Refusing::new(alloc, Rule::new(0, usize::MAX, granted, refused));
    insert_all(rt, alloc, &heap, &heap, refused)?;
    Ok(heap.refusals_left() == 0)
}

/// Makes a run for each number of granted requests from 0 on. Returns the first number for which fewer than `refused` requests were
/// refused, or 1000 if there is none below. `Err`: no memory for the test itself.
fn run_each(rt: &impl Abort, alloc: Global, refused: u64) -> Result<u64, Fail> {
    for granted in 0..1000 {
        if !run_refused(rt, alloc, granted, refused)? {
            return Ok(granted);
        }
    }
    Ok(1000)
}

/// Checks that each request of a run can be refused. There are more than 40: a block of each of the 40 entries, and a generation.
#[test]
fn each_request_of_memory_refused_in_turn(rt: HostRuntime) -> Result<(), Fail> {
    for refused in [1, 2, 8, 30] {
        let turns = run_each(&rt, rt.alloc(), refused)?;
        assert!(rt; NUMBERS < turns && turns < 1000, "{turns} turns");
    }
    Ok(())
}

/// Returns the number of entries, of buckets of the current generation, and of buckets of all generations.
fn sizes(pairs: &Pairs) -> [usize; 3] {
    let table = &pairs.table;
    [
        table.len_alone(),
        table.capacity_alone(),
        table.buckets_alone(),
    ]
}

/// Asserts that the tables have the same entries in the same order, and equally many buckets. `Err`: no memory.
fn assert_alike(
    rt: &impl Abort,
    alloc: Global,
    one: &Pairs,
    other: &Pairs,
) -> Result<(), AllocError> {
    assert_same(rt, sizes(one), sizes(other));
    assert_same_pairs(
        rt,
        walk(one, alloc)?.as_slice(),
        walk(other, alloc)?.as_slice(),
    );
    Ok(())
}

/// Inserts the pair into two tables, by `insert_alone` and by `place_alone`, and asserts equal answers and tables. `Err`: no memory.
fn assert_inserts_alike(
    rt: &impl Abort,
    alloc: Global,
    shown: &mut Pairs,
    placed: &mut Pairs,
    pair: Pair,
) -> Result<(), AllocError> {
    let value = Box::new(alloc, pair)?;
    assert!(rt; shown.insert(pair)? == place(&mut placed.table, value));
    assert_alike(rt, alloc, shown, placed)
}

/// Asserts that a look-up finds each of the pairs.
fn assert_all_shown(rt: &impl Abort, table: &Pairs, pairs: &[Pair]) {
    for pair in pairs {
        table.assert_shown(rt, *pair, true);
    }
}

#[test]
fn both_forms_of_insert_leave_the_same_table(rt: HostRuntime) -> Result<(), Fail> {
    let mut numbers = SplitMix64::seed_from_u64(1);
    let (mut shown, mut placed) = (Pairs::new(rt.alloc()), Pairs::new(rt.alloc()));
    let mut pairs = Vec::new(rt.alloc());
    for number in 0..128 {
        let pair = (draw_pair(&mut numbers).0, number);
        pairs.push(pair)?;
        let earlier = draw(&mut numbers, number) as usize;
        let repeated = pairs.get(earlier).copied().unwrap_or(pair);
        for pair in [pair, repeated] {
            assert_inserts_alike(&rt, rt.alloc(), &mut shown, &mut placed, pair)?;
        }
        assert_all_shown(&rt, &shown, pairs.as_slice());
    }
    shown.assert_size(&rt, 128, 512);
    Ok(())
}
