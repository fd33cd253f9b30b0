//! The address of a block.
ghost use Rattle.std.specs.Prelude.{◌≡◌, ℕ};
ghost use Rattle.table_cell.specs.Words.{named};

use crate::home::Home;
use std::marker::Model;

/// A name of a block: its address, by which the block can be read as long as its home is borrowed. A block has any number of
/// names, and none owns it.
///
/// `value` is what the block holds, which never changes.
#[derive(Drop)]
pub struct Name<T> {
    pub(crate) at: *mut T,
    pub ghost home: { ℕ },
    pub ghost value: { T },
}

impl<T> Model for Name<T> {
    ghost also_owns = { λ n. named T.row n.home n.at n.value };
}

impl<T> Name<T> {
    /// Returns the content of the block.
    pub fn get<'a>(self, home: &'a Home) -> &'a T
        requires { home.now.id ≡ self.home }
        ensures { result.now ≡ self.value }
    {
        let Name { at } = self;
        unsafe { &*at }
    }
}
