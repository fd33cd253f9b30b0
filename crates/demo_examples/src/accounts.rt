//! Threads insert lists of values into one set. Each value comes out of it at its end, is found or is refused.
ghost use Rattle.std.specs.Prelude.{◌≡◌, ◌++◌, [], ◌∷◌, ◌≤◌, ◌+◌, All, IfOk, OnOk, length, vec_capacity};
ghost use Rattle.std.specs.List.{flat_map};
ghost use Rattle.std.specs.List.Sorted.{IsPermutation};
ghost use Rattle.table_terms.specs.Laws.{same_number};
ghost use Rattle.demo_examples.specs.Accounts.{AreAccounted, IsWork, HasRoom, handed_in, worked};

use crate::tell::Numbers;
use shared_set::{Account, Handle, Inserted, IntoValues, Settled, SharedSet};
use std::alloc::{AllocError, Global};
use std::convert::From;
use std::marker::{Send, Sync};
use std::thread;
use std::thread::Threads;
use table_cell::Low;
use table_terms::law::{NumberLaw, SetLaw};

/// What became of a thread's values: an account of those that were placed, those for which an equal one was found, and those that were
/// refused.
#[derive(Drop)]
pub struct Work<V: Drop, L: SetLaw<V>, A: Low + Copy> {
    account: Account<V, L, A>,
    found: Vec<V>,
    refused: Vec<V>,
}

/// What became of all values: those that came out of the set at its end, those for which an equal one was found, and those that were refused.
#[derive(Drop)]
pub struct Outcome<V: Drop> {
    pub out: Vec<V>,
    pub found: Vec<V>,
    pub refused: Vec<V>,
}

/// Why there is no outcome. The values are dropped.
#[derive(Debug, Drop)]
pub enum NoOutcome {
    /// Memory for the set itself or for a list was refused.
    Memory,
    /// Values came out of which there is no account.
    Others,
}

impl From<AllocError> for NoOutcome {
    fn from(_error: AllocError) -> NoOutcome {
        NoOutcome::Memory
    }
}

/// Returns work of no value. Each list has room for `count` values. `Err`: memory was refused.
fn no_work<V: Drop, L: SetLaw<V>, A: Low + Copy>(
    set: &SharedSet<V, L, A>,
    heap: Global,
    count: usize,
) -> Result<Work<V, L, A>, AllocError>
    ensures of { IfOk result (λ w. IsWork L.same set.now.of w) }
    ensures none { IfOk result (λ w. worked w ≡ []) }
    ensures room { IfOk result (λ w. HasRoom count w) }
{
    Ok(Work {
        account: set.account(),
        found: Vec::with_capacity(heap, count)?,
        refused: Vec::with_capacity(heap, count)?,
    })
}

/// Inserts a value. Its receipt goes into the account if it is placed, and what the handle knows if an equal one is found.
fn insert_one<V: Drop, L: SetLaw<V>, A: Low + Copy>(
    mine: &mut Handle<'_, V, L, A>,
    work: &mut Work<V, L, A>,
    value: V,
)
    requires of { IsWork L.same mine.old.of work.old }
    requires room { HasRoom 1 work.old }
    ensures handle { mine.new.of ≡ mine.old.of }
    ensures of { IsWork L.same mine.old.of work.new }
    ensures room { (n : _) → HasRoom (1 + n) work.old → HasRoom n work.new }
    ensures moved { IsPermutation (value ∷ worked work.old) (worked work.new) }
{
    match mine.insert(value) {
        Inserted::Placed(_, _, receipt) => work.account.add(receipt, mine),
        Inserted::Found(_, _, found) => {
            work.account.learn(mine);
            work.found.push_reserved(found);
        }
        Inserted::Refused(refused) => work.refused.push_reserved(refused),
    }
}

/// Inserts the values by a handle of its own. If memory for the lists is refused, all values are refused.
fn insert_all<V: Drop, L: SetLaw<V>, A: Low + Copy>(
    set: &SharedSet<V, L, A>,
    heap: Global,
    values: Vec<V>,
) -> Work<V, L, A>
    ensures of { IsWork L.same set.now.of result }
    ensures moved { IsPermutation values.items (worked result) }
{
    let Ok(mut work) = no_work(set, heap, values.len()) else {
        return Work {
            account: set.account(),
            found: Vec::new(heap),
            refused: values,
        };
    };
    let mut mine = set.handle();
    for value in values {
        insert_one(&mut mine, &mut work, value);
    }
    work
}

/// Adds work to other work. `Err`: memory was refused.
fn add_work<V: Drop, L: SetLaw<V>, A: Low + Copy>(
    set: &SharedSet<V, L, A>,
    all: &mut Work<V, L, A>,
    work: Work<V, L, A>,
) -> Result<(), AllocError>
    requires all { IsWork L.same set.now.of all.old }
    requires more { IsWork L.same set.now.of work }
    ensures of { OnOk result (IsWork L.same set.now.of all.new) }
    ensures moved { OnOk result (IsPermutation (worked all.old ++ worked work) (worked all.new)) }
{
    let Work {
        account,
        mut found,
        mut refused,
    } = work;
    all.found.append(&mut found)?;
    all.refused.append(&mut refused)?;
    all.account.join(set, account);
    Ok(())
}

/// Makes the work of all threads one. `Err`: memory was refused.
fn put_together<V: Drop, L: SetLaw<V>, A: Low + Copy>(
    set: &SharedSet<V, L, A>,
    heap: Global,
    works: Vec<Work<V, L, A>>,
) -> Result<Work<V, L, A>, AllocError>
    requires of { All (λ w. IsWork L.same set.now.of w) works.items }
    ensures of { IfOk result (λ w. IsWork L.same set.now.of w) }
    ensures moved { IfOk result (λ w. IsPermutation (flat_map worked works.items) (worked w)) }
{
    let mut all = no_work(set, heap, 0)?;
    for work in works {
        add_work(set, &mut all, work)?;
    }
    Ok(all)
}

/// Takes the values out. `Err`: memory was refused.
fn take_all<V: Drop, L: SetLaw<V>, A: Low + Copy>(
    values: IntoValues<V, L, A>,
    heap: Global,
) -> Result<Vec<V>, AllocError>
    ensures { IfOk result (λ out. out.items ≡ values.left) }
{
    values.collect(heap)
}

/// Inserts each list into one set, by a thread of its own where one can be made, and then ends the set. The set's memory is from `alloc`, that of
/// the lists from `heap`.
pub fn insert_lists<A: Low + Copy + Send + Sync, R: Threads + Sync>(
    rt: &R,
    heap: Global,
    alloc: A,
    lists: Vec<Vec<u64>>,
) -> Result<Outcome<u64>, NoOutcome>
    ensures { IfOk result
        (λ o. AreAccounted same_number (handed_in lists.items) o.out.items o.found.items o.refused.items) }
{
    let set: Numbers<A> = SharedSet::new(alloc)?;
    let shared = &set;
    let works = thread::map_vec(
        rt,
        lists,
        &|values: Vec<u64>| -> Work<u64, NumberLaw, A>
            ensures of { IsWork same_number shared.entry.now.of result }
            ensures moved { IsPermutation values.items (worked result) }
        { insert_all(shared, heap, values) },
    )?;
    let all = put_together(&set, heap, works)?;
    let Work {
        account,
        found,
        refused,
    } = all;
    match set.settle(account) {
        Settled::All(values) => {
            let out = take_all(values, heap)?;
            Ok(Outcome {
                out,
                found,
                refused,
            })
        }
        Settled::More(_) => Err(NoOutcome::Others),
    }
}
