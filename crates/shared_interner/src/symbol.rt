//! Symbols.
ghost use Rattle.std.specs.Prelude.{◌≡◌, ◌+◌, ◌<◌, ◌≤◌, ◌^◌, IfSome, IfNone};
ghost use Rattle.std.specs.Int.NonZero.{non_zero_u32_get};
ghost use Rattle.shared_interner.specs.Symbols.{number_of};

use std::num::NonZeroU32;
use table_held::Law;
use table_sets::{NumberLaw, SetLaw, hash_number};

/// What stands for a text of one `SharedInterner`. It has four bytes. Symbols are ordered by their numbers.
#[derive(Clone, Copy, PartialEq, Eq, PartialOrd, Ord, Hash, Debug, Drop)]
pub struct Symbol {
    number: NonZeroU32,
}

impl Symbol {
    /// Returns the symbol of the entry with this number.
    pub(crate) fn of_number(number: u64) -> Symbol
        requires { number + 2 < 2 ^ 32 }
        ensures { number_of result ≡ number }
    {
        let next = number as u32 + 1;
        Symbol {
            number: NonZeroU32::new(next).unwrap(),
        }
    }

    /// Returns the number of the entry that the symbol is of.
    pub(crate) fn number(self) -> u64
        ensures { result ≡ number_of self }
    {
        u64::from(self.to_u32() - 1)
    }

    /// Returns the symbol as a number that isn't zero.
    pub(crate) fn to_non_zero(self) -> NonZeroU32
        ensures { non_zero_u32_get result ≡ number_of self + 1 }
    {
        self.number
    }

    /// Returns the symbol as a number above zero.
    pub fn to_u32(self) -> u32
        ensures { result ≡ number_of self + 1 }
    {
        self.number.get()
    }

    /// Returns the symbol that `to_u32` turns into this number. `None`: the number is zero.
    pub fn from_u32(number: u32) -> Option<Symbol>
        ensures some { IfSome result (λ s. number_of s + 1 ≡ number) }
        ensures none { IfNone result (number ≡ 0) }
    {
        match NonZeroU32::new(number) {
            Some(number) => Some(Symbol { number }),
            None => None,
        }
    }
}

impl Law<Symbol> for NumberLaw {
    ghost use Rattle.table_terms.specs.Laws.{same_by_number, hash_by_number, number_lawful};
    ghost use Rattle.shared_interner.specs.Symbols.{number_of};

    ghost same = { same_by_number number_of };

    ghost hash_of = { hash_by_number number_of };

    ghost lawful = { number_lawful number_of };
}

impl SetLaw<Symbol> for NumberLaw {
    fn is_same(one: &Symbol, other: &Symbol) -> bool {
        one.number() == other.number()
    }

    fn hash(target: &Symbol) -> u64 {
        hash_number(target.number())
    }
}
