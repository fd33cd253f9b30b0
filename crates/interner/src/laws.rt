//! Theorems about interners, each the contract of a function that does nothing.
ghost use Rattle.interner.specs.Again.{LaterIsReflexive, LaterIsTransitive, InternsLater, NumbersStay, FindsAgain, OneText, OneNumber};

/// States that an interner only grows. Every `intern_alone` leaves a later interner, the relation "later" is reflexive and
/// transitive, and a text keeps its number in every later one.
pub fn numbers_stay()
    ensures reflexive { LaterIsReflexive }
    ensures transitive { LaterIsTransitive }
    ensures interns { InternsLater }
    ensures stay { NumbersStay }
{}

/// States that an interned text is found again in every later interner, and that its number leads back to it.
pub fn interned_is_found_again()
    ensures { FindsAgain }
{}

/// States that two texts with one number are equal, and that equal texts have one number.
pub fn numbers_name_texts()
    ensures text { OneText }
    ensures number { OneNumber }
{}
