//! Generations whose values are still to be handed out.
ghost use Rattle.std.specs.Prelude.{◌≡◌, ◌++◌, All, [], map};
ghost use Rattle.std.specs.Iterator.{YieldsFirst};

use crate::atomic_value::AtomicValue;
use crate::fixed::Generation;
use std::alloc::Allocator;
use std::marker::Model;
use std::vec;
use table_cell::Closed;

/// Generations that are left, seen as their list: those of one vector, and then those that lie in blocks.
#[derive(Drop)]
pub struct Rest<T: AtomicValue, A: Allocator + Copy> {
    earlier: vec::IntoIter<Generation<T, A>, A>,
    later: vec::IntoIter<Box<Generation<T, A>, A>, A>,
}

impl<T: AtomicValue, A: Allocator + Copy> Model for Rest<T, A> {
    ghost use Rattle.std.specs.Prelude.{List};
    ghost use Rattle.std.specs.Vec.Iter.{into_iter_items};
    ghost use Rattle.table_generations.specs.Generations.{GenerationView};
    ghost use Rattle.table_generations.specs.Values.{with_later};

    ghost Value = { List (GenerationView A T) };

    ghost view = { λ r. with_later (into_iter_items r.earlier) (into_iter_items r.later) };
}

impl<T: AtomicValue, A: Allocator + Copy> Rest<T, A> {
    ghost use Rattle.table_generations.specs.Values.{with_later};

    /// Returns the list of the generations of the vector, and then of those in blocks. Allocates nothing.
    pub fn new(earlier: Vec<Generation<T, A>, A>, later: Vec<Box<Generation<T, A>, A>, A>) -> Self
        ensures { result ≡ with_later earlier.items later.items }
    {
        Rest {
            earlier: earlier.into_iter(),
            later: later.into_iter(),
        }
    }

    /// Removes the first generation that is left, and returns it. `None` means that none is left.
    pub fn next_generation(&mut self) -> Option<Generation<T, A>>
        ensures { YieldsFirst (λ rest. rest) self.old result self.new }
    {
        if let Some(generation) = self.earlier.next() {
            return Some(generation);
        }
        Some(Box::into_inner(self.later.next()?))
    }

    /// Drops the values that the generations own, and frees their blocks: none is left.
    pub fn drop_rest(&mut self, closed: &Closed)
        requires { All (λ g. g.home ≡ closed.now.id) self.old }
        ensures { self.new ≡ [] }
    {
        while let Some(generation) = self.next_generation() {
            generation.into_own_values().drop_rest(closed);
        }
    }
}
