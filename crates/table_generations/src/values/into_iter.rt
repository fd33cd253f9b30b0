//! The values of a table, handed out.
ghost use Rattle.std.specs.Prelude.{◌≡◌, ◌++◌, All, length, Some, IfSome};
ghost use Rattle.std.specs.Iterator.{YieldsFirst, item_count, at_most, UpTo};
ghost use Rattle.std.specs.Iterator.SizeHint.{IsWithinCount};
ghost use Rattle.table_generations.specs.Buckets.{owned_values};
ghost use Rattle.table_generations.specs.Values.{all_owned, with_later};

use crate::atomic_value::AtomicValue;
use crate::fixed::Generation;
use crate::fixed::owning::OwnValues;
use crate::values::rest::Rest;
use std::alloc::{Allocator, Global};
use std::iter::FusedIterator;
use std::marker::Model;
use table_cell::Closed;

/// The values of a table, by value and each once, seen as the list of those that are left. Dropped early, it drops them.
pub struct IntoIter<T: AtomicValue, A: Allocator + Copy = Global> {
    closed: Closed,
    values: OwnValues<T, A>,
    rest: Rest<T, A>,
    left: usize,
}

impl<T: AtomicValue, A: Allocator + Copy> Model for IntoIter<T, A> {
    ghost use Rattle.std.specs.Prelude.{List};
    ghost use Rattle.table_generations.specs.Values.{all_left, AreCounted};

    ghost Value = { List T };

    ghost view = { λ it. all_left it.values it.rest };

    ghost invariant = { λ it. AreCounted it.closed.id it.values it.rest it.left };
}

impl<T: AtomicValue, A: Allocator + Copy> IntoIter<T, A> {
    /// Returns an iterator over the values that buckets of these generations own: first the current one, then those in the vector, then
    /// those in blocks. `left` is the number of these values. Allocates nothing.
    pub fn of_generations(
        closed: Closed,
        current: Generation<T, A>,
        earlier: Vec<Generation<T, A>, A>,
        later: Vec<Box<Generation<T, A>, A>, A>,
        left: usize,
    ) -> Self
        requires current { current.home ≡ closed.id }
        requires others { All (λ g. g.home ≡ closed.id) (with_later earlier.items later.items) }
        requires counted { left ≡ length (owned_values current.contents ++ all_owned
            (with_later earlier.items later.items)) }
        ensures { result ≡ owned_values current.contents ++ all_owned
            (with_later earlier.items later.items) }
    {
        IntoIter {
            closed,
            values: current.into_own_values(),
            rest: Rest::new(earlier, later),
            left,
        }
    }
}

impl<T: AtomicValue, A: Allocator + Copy> Iterator for IntoIter<T, A> {
    type Item = T;

    ghost next_gives = { YieldsFirst (λ rest. rest) };

    ghost remaining = { item_count (λ rest. rest) };

    fn next(&mut self) -> Option<T> {
        loop {
            if let Some(value) = self.values.next_value(&self.closed) {
                self.left -= 1;
                return Some(value);
            }
            self.values = self.rest.next_generation()?.into_own_values();
        }
    }

    fn size_hint(&self) -> (usize, Option<usize>)
        ensures lower { IsWithinCount result.0 (at_most (length self.now)) }
        ensures upper { IfSome result.1 (UpTo (at_most (length self.now))) }
        ensures exact { result ≡ (length self.now, Some (length self.now)) }
    {
        (self.left, Some(self.left))
    }
}

impl<T: AtomicValue, A: Allocator + Copy> ExactSizeIterator for IntoIter<T, A> {
    fn len(&self) -> usize {
        self.left
    }
}

impl<T: AtomicValue, A: Allocator + Copy> FusedIterator for IntoIter<T, A> {}

impl<T: AtomicValue, A: Allocator + Copy> Drop for IntoIter<T, A> {
    /// Drops the values that are left, and frees their blocks.
    fn drop(self) {
        let IntoIter {
            closed,
            mut values,
            mut rest,
            left: _,
        } = self;
        values.drop_rest(&closed);
        rest.drop_rest(&closed);
    }
}
