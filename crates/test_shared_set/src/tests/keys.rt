//! Sets of texts, which are also looked up by keys of another type.
use super::caller::{InsertEnd, assert_same};
use shared_set::{Handle, Inserted, SharedSet};
use std::alloc::{AllocError, Global};
use std::process::Abort;
use std::test::Fail;
use table_sets::TextLaw;

/// How many texts there are.
const TEXTS: u64 = 300;

/// Keys that no text meets.
const OTHERS: [&str; 5] = ["", "a", "300", "00", "1 "];

/// A handle of a set of texts.
type Texting<'s> = Handle<'s, String, TextLaw>;

/// Returns whether the text is found by its letters.
fn has(handle: &mut Texting<'_>, letters: &str) -> bool {
    match handle.get_by_key(&letters) {
        Some(entry) => entry.as_str() == letters,
        None => false,
    }
}

/// Returns how an insert of a text of these letters ended.
fn end_of(ended: &Inserted<'_, String>, letters: &str) -> InsertEnd {
    match ended {
        Inserted::Placed(_, entry, _) if entry.as_str() == letters => InsertEnd::Placed,
        Inserted::Found(_, entry, back) if entry.as_str() == letters && back.as_str() == letters =>
            InsertEnd::Found,
        Inserted::Refused(back) if back.as_str() == letters => InsertEnd::Refused,
        _ => InsertEnd::Wrong,
    }
}

/// Inserts the decimal digits of each number. Asserts that each insert ends as expected, and that the text is found afterwards, but before
/// only if it was in the set. `Err`: no memory.
fn insert_each(
    rt: &impl Abort,
    alloc: Global,
    handle: &mut Texting<'_>,
    expected: InsertEnd,
) -> Result<(), AllocError> {
    for number in 0..TEXTS {
        let letters = format!(in alloc; "{number}")?;
        let text = letters.as_str();
        assert_same(rt, has(handle, text), expected == InsertEnd::Found);
        let answer = end_of(&handle.insert(String::from_str(alloc, text)?), text);
        assert_same(rt, (answer, has(handle, text)), (expected, true));
    }
    Ok(())
}

#[test]
fn texts_are_found_by_their_letters(rt: HostRuntime) -> Result<(), Fail> {
    let set: SharedSet<String, TextLaw> = SharedSet::new(rt.alloc())?;
    insert_each(&rt, rt.alloc(), &mut set.handle(), InsertEnd::Placed)?;
    insert_each(&rt, rt.alloc(), &mut set.handle(), InsertEnd::Found)?;
    assert_same(&rt, set.len(), TEXTS);
    for letters in &OTHERS {
        assert!(rt; !has(&mut set.handle(), *letters));
    }
    Ok(())
}
