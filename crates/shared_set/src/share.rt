//! A set of one owner becomes one that threads share.
ghost use Rattle.std.specs.Prelude.{IfOk, IfErr};
ghost use Rattle.shared_set.specs.Known.{KnowsMore};
ghost use Rattle.shared_set.specs.Sharing.{Leaves, KnowsEach, HasPart, KeepsEach};

use crate::handle::Handle;
use crate::insert::Inserted;
use crate::known::Known;
use crate::set::SharedSet;
use std::alloc::Global;
use table_cell::Low;
use table_numbered::SetLaw;
use table_sets::{AtomicValue, HeldSet, IntoIter, OfTarget};

/// A set that threads share, and what is known of it.
#[derive(Drop)]
pub struct Shared<V, L: SetLaw<V>, A: Low + Copy = Global> {
    pub set: SharedSet<V, L, A>,
    /// What each new handle of the set knows: the entries.
    pub known: Known<V, L, A>,
}

/// A shared set that has some of the values, and the others.
#[derive(Drop)]
pub struct Partly<T: AtomicValue, L: SetLaw<T>, A: Low + Copy = Global> {
    pub shared: Shared<T, L, A>,
    /// The value that the insert returned.
    pub refused: T,
    /// The values that were not inserted yet.
    pub rest: IntoIter<T, A>,
}

/// What is left if memory is refused to a call of `share`. `L` is the law of the set of one owner, and `M` that of the shared set.
#[derive(Drop)]
pub enum Unshared<T: AtomicValue, L: SetLaw<T::Target>, M: SetLaw<T>, A: Low + Copy = Global> {
    /// No shared set could be made. The set of one owner is returned.
    Held(HeldSet<T, L, A>),
    /// An insert returned its value. The shared set has the values before it.
    Partly(Partly<T, M, A>),
}

/// A set of one owner that can become one that threads share.
pub trait Share<T: AtomicValue, L: SetLaw<T::Target>, A: Low + Copy>
where
    OfTarget<L>: SetLaw<T>,
{
    ghost use Rattle.std.specs.Prelude.{List};

    ghost entries: { Self → List T };

    /// Moves each value into a set that threads share, and returns that set with what is known of it: each value is an entry that each new
    /// handle knows. Two values are the same there if their targets are the same here. A refusal returns each value, in the shared set or
    /// beside it. The owner of the set calls it.
    fn share(self, alloc: A) -> Result<Shared<T, OfTarget<L>, A>, Unshared<T, L, OfTarget<L>, A>>
        ensures known { IfOk result (KnowsEach (entries self)) }
        ensures kept { IfErr result (KeepsEach (entries self)) };
}

impl<'a, T: AtomicValue, L: SetLaw<T>, A: Low + Copy> Handle<'a, T, L, A> {
    /// Inserts the values in their order. If an insert returns its value, this returns it and leaves the values after it.
    fn insert_each(&mut self, values: &mut IntoIter<T, A>) -> Option<T>
        ensures known { KnowsMore self.old self.new }
        ensures leaves { Leaves values.old self.new.history result values.new }
    {
        while let Some(value) = values.next() {
            match self.insert(value) {
                Inserted::Placed(_, _, _) => {}
                Inserted::Found(_, _, back) => return Some(back),
                Inserted::Refused(back) => return Some(back),
            }
        }
        None
    }
}

/// Moves the values into the set. If an insert returns its value, this returns it with the values after it.
fn move_into<T: AtomicValue, L: SetLaw<T>, A: Low + Copy>(
    set: SharedSet<T, L, A>,
    values: IntoIter<T, A>,
) -> Result<Shared<T, L, A>, Partly<T, L, A>>
    ensures known { IfOk result (KnowsEach values) }
    ensures kept { IfErr result (HasPart values) }
{
    let mut set = set;
    let mut rest = values;
    let mut handle = set.handle();
    let left = handle.insert_each(&mut rest);
    let known = handle.tell();
    drop(handle);
    set.begin_with(known.again());
    let shared = Shared { set, known };
    match left {
        None => Ok(shared),
        Some(refused) => Err(Partly {
            shared,
            refused,
            rest,
        }),
    }
}

impl<T: AtomicValue, L: SetLaw<T::Target>, A: Low + Copy> Share<T, L, A> for HeldSet<T, L, A>
where
    OfTarget<L>: SetLaw<T>,
{
    ghost entries = { λ s. s };

    /// Moves each value into a set that threads share, and returns that set with what is known of it: each value is an entry that each new
    /// handle knows. The set has buckets for all values from the first. A refusal returns each value: the held set as it is, or a shared set
    /// that has some of the values, the one that was refused, and the others. The owner of the held set calls it.
    fn share(self, alloc: A) -> Result<Shared<T, OfTarget<L>, A>, Unshared<T, L, OfTarget<L>, A>>
        ensures known { IfOk result (KnowsEach self) }
        ensures kept { IfErr result (KeepsEach self) }
    {
        match SharedSet::with_capacity(alloc, self.len()) {
            Ok(set) => match move_into(set, self.into_iter()) {
                Ok(shared) => Ok(shared),
                Err(partly) => Err(Unshared::Partly(partly)),
            },
            Err(_) => Err(Unshared::Held(self)),
        }
    }
}
