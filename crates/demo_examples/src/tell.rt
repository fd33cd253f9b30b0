//! Two threads place a number each while a set grows, and who was told of both finds both.
ghost use Rattle.std.specs.Prelude.{◌≡◌, true, IfSome};
ghost use Rattle.table_terms.specs.Laws.{same_number};
ghost use Rattle.table_numbered.specs.History.{IsEntry};
ghost use Rattle.shared_set.specs.Known.{KnowsMore, SomePasses};

use shared_set::{Handle, Inserted, Known, SharedSet};
use std::marker::{Send, Sync};
use std::thread::{Threads, join};
use table_cell::Low;
use table_terms::law::{NumberLaw, SetLaw};

/// Sees to it that the value or an equal one is an entry. `None`: memory was refused.
pub fn put<V: Drop, L: SetLaw<V>, A: Low + Copy>(
    mine: &mut Handle<'_, V, L, A>,
    value: V,
) -> Option<()>
    ensures more { KnowsMore mine.old mine.new }
    ensures there { IfSome result (λ _. SomePasses (L.same value) (IsEntry mine.new.history)) }
{
    match mine.insert(value) {
        Inserted::Placed(_, _, _) => Some(()),
        Inserted::Found(_, _, _) => Some(()),
        Inserted::Refused(_) => None,
    }
}

/// Looks up a value of which the handle knows that it, or an equal one, is an entry.
pub fn find<V, L: SetLaw<V>, A: Low + Copy>(mine: &mut Handle<'_, V, L, A>, value: &V) -> bool
    requires there { SomePasses (L.same value.now) (IsEntry mine.old.history) }
    ensures more { KnowsMore mine.old mine.new }
    ensures found { result ≡ true }
{
    mine.get(value).is_some()
}

/// A set of numbers.
pub type Numbers<A> = SharedSet<u64, NumberLaw, A>;

/// What a thread knows of it.
pub type KnownNumbers<A> = Known<u64, NumberLaw, A>;

/// Inserts the numbers below `count`. `None`: memory was refused.
pub fn put_below<A: Low + Copy>(mine: &mut Handle<'_, u64, NumberLaw, A>, count: u64) -> Option<()>
    ensures more { KnowsMore mine.old mine.new }
{
    for number in 0..count {
        put(mine, number)?;
    }
    Some(())
}

/// Places a number, and then the numbers below `more`, by a handle of its own. Returns what the handle knows then. `None`: memory was
/// refused.
pub fn place<A: Low + Copy>(set: &Numbers<A>, number: u64, more: u64) -> Option<KnownNumbers<A>>
    ensures of { IfSome result (λ k. k.of ≡ set.now.of) }
    ensures there { IfSome result (λ k. SomePasses (same_number number) (IsEntry k.history)) }
{
    let mut mine = set.handle();
    put(&mut mine, number)?;
    put_below(&mut mine, more)?;
    Some(mine.tell())
}

/// Lets two threads place a number each, and the numbers below `more`. Who was told of both finds both. `None`: memory was refused.
pub fn tell<A: Low + Copy + Send + Sync, R: Threads>(
    rt: &R,
    set: &Numbers<A>,
    a: u64,
    b: u64,
    more: u64,
) -> Option<(bool, bool)>
    ensures { IfSome result (λ r. (r.0 ≡ true) × (r.1 ≡ true)) }
{
    let (one, two) = join(
        rt,
        || -> Option<KnownNumbers<A>>
            ensures of { IfSome result (λ k. k.of ≡ set.entry.now.of) }
            ensures there { IfSome result (λ k. SomePasses (same_number a) (IsEntry k.history)) }
        { place(set, a, more) },
        || -> Option<KnownNumbers<A>>
            ensures of { IfSome result (λ k. k.of ≡ set.entry.now.of) }
            ensures there { IfSome result (λ k. SomePasses (same_number b) (IsEntry k.history)) }
        { place(set, b, more) },
    );
    let mut mine = set.handle();
    mine.hear(&one?);
    mine.hear(&two?);
    let first = find(&mut mine, &a);
    let second = find(&mut mine, &b);
    Some((first, second))
}
