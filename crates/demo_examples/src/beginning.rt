//! A set that begins with an entry: each new handle knows it, so the set's own calls find it.
ghost use Rattle.std.specs.Prelude.{◌≡◌, true, IfOk};
ghost use Rattle.table_terms.specs.Laws.{same_number};
ghost use Rattle.table_numbered.specs.History.{IsEntry};
ghost use Rattle.shared_set.specs.Known.{SomePasses};

use crate::tell::put;
use shared_set::SharedSet;
use std::alloc::AllocError;
use table_cell::Low;
use table_terms::law::{NumberLaw, SetLaw};

/// Sees to it that the number is an entry, and that each new handle knows it. Returns false if memory was refused.
pub fn begin_with_number<A: Low + Copy>(set: &mut SharedSet<u64, NumberLaw, A>, number: u64) -> bool
    ensures there { result ≡ true → SomePasses (same_number number) (IsEntry set.new.known) }
{
    let mut mine = set.handle();
    let told = put(&mut mine, number);
    let known = mine.tell();
    drop(mine);
    set.begin_with(known);
    told.is_some()
}

/// Looks up a value of which each new handle knows that it, or an equal one, is an entry.
pub fn has_known<V, L: SetLaw<V>, A: Low + Copy>(set: &SharedSet<V, L, A>, value: &V) -> bool
    requires there { SomePasses (L.same value.now) (IsEntry set.now.known) }
    ensures found { result ≡ true }
{
    set.contains(value)
}

/// Makes a set that begins with this number, and asks the set for it. `Err`: memory was refused.
pub fn begin_and_ask<A: Low + Copy>(alloc: A, number: u64) -> Result<bool, AllocError>
    ensures found { IfOk result (λ has. has ≡ true) }
{
    let mut set: SharedSet<u64, NumberLaw, A> = SharedSet::new(alloc)?;
    if !begin_with_number(&mut set, number) {
        return Err(AllocError);
    }
    Ok(has_known(&set, &number))
}
