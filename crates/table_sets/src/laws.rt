//! Theorems about sets, each the contract of a function that does nothing: calling it makes its clauses known.
ghost use Rattle.table_sets.specs.Again.{InsertsLater, FindsAgain};

use table_held::AtomicValue;
use table_terms::law::SetLaw;

/// States that an inserted value is found again.
///
/// - `later`: an insert leaves a later set, in which each entry of the earlier one is an entry.
/// - `found`: after an insert that wasn't refused, a `get` of the value's target in any later set returns an equal entry.
pub fn inserted_is_found_again<T: AtomicValue, L: SetLaw<T::Target>>()
    ensures later { InsertsLater T.target L.same }
    ensures found { FindsAgain T.target L.same }
{}
