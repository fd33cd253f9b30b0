//! A `Latest`, which names one word after another.
ghost use Rattle.std.specs.Prelude.{◌≡◌, true, None};

use std::alloc::Global;
use table_cell::{Closed, Entry, Home, Latest, LooseBlock, Word};

/// Returns a word that holds this number, or an unset word if memory is refused.
fn word_of(alloc: Global, home: &Home, number: u64) -> Word<Entry<u64>, Global>
    ensures home { result.home ≡ home.now.id }
    ensures unset { (result.value ≡ None) × (result.owning ≡ true) }
{
    let word = Word::new(&alloc, home);
    let mut note = word.note();
    if let Ok(block) = Box::new(
        alloc,
        Entry {
            value: number,
            bits: 1,
        },
    )
        && let (_, Some(back)) = word.offer(home, LooseBlock::of(block), &mut note)
    {
        drop(back.into_box(alloc));
    }
    word
}

/// Returns the number of the word that `latest` names. `None` means that it names no word.
fn number_of(home: &Home, latest: &Latest<Entry<u64>, Global>) -> Option<u64>
    requires { latest.now.home ≡ home.now.id }
{
    let mut note = latest.note();
    Some(latest.name(&mut note)?.get(home).value)
}

/// Makes `latest` name the word, if that is set. Returns the number that `latest` then names. `None` means that the word isn't set.
fn shown_of(
    home: &Home,
    latest: &Latest<Entry<u64>, Global>,
    word: &Word<Entry<u64>, Global>,
) -> Option<u64>
    requires home { (latest.now.home ≡ home.now.id) × (word.now.home ≡ home.now.id) }
    requires unset { word.now.value ≡ None }
{
    let mut seen = word.note();
    let _name = word.name_if_set(&mut seen)?;
    let mut note = latest.show(word, &seen);
    let Some(name) = latest.name(&mut note) else {
        unreachable!()
    };
    Some(name.get(home).value)
}

/// Ends the word, and frees its block if it has one.
fn end(word: Word<Entry<u64>, Global>, closed: &Closed, alloc: Global)
    requires { (word.home ≡ closed.now.id) × (word.value ≡ None) × (word.owning ≡ true) }
{
    let note = word.note();
    if let Some(block) = word.into_block_if_set(closed, note) {
        drop(block.into_box(alloc));
    }
}

/// Returns the number that `latest` names at first, after each of the words 1, 2 and 1 again, and after a word that isn't set.
fn life(alloc: Global) -> [Option<u64>; 5] {
    let home = Home::new();
    let latest = Latest::new(&alloc, &home);
    let first = word_of(alloc, &home, 1);
    let second = word_of(alloc, &home, 2);
    let unset = Word::new(&alloc, &home);
    let before = number_of(&home, &latest);
    let one = shown_of(&home, &latest, &first);
    let two = shown_of(&home, &latest, &second);
    let again = shown_of(&home, &latest, &first);
    let none = shown_of(&home, &latest, &unset);
    let after = none.or(number_of(&home, &latest));
    let closed = home.close();
    end(first, &closed, alloc);
    end(second, &closed, alloc);
    [before, one, two, again, after]
}

#[test]
fn a_latest_word_names_what_was_shown_last(rt: HostRuntime) {
    assert_eq!(rt;
        life(rt.alloc()),
        [None, Some(1), Some(2), Some(1), Some(1)]
    );
}
