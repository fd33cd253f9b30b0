//! A word that is settled before its home ends.
ghost use Rattle.std.specs.Prelude.{◌≡◌};

use std::alloc::Global;
use table_cell::{Entry, Home, LooseBlock, Word};

/// Sets a word to the number, if one is given, and settles it. Returns the number that the word then shows, and the number of the block
/// that it returns at the end.
fn settle(alloc: Global, number: Option<u64>) -> [Option<u64>; 2] {
    let home = Home::new();
    let word = Word::new(&alloc, &home);
    let mut note = word.note();
    if let Some(value) = number
        && let Ok(block) = Box::new(alloc, Entry { value, bits: 1 })
        && let (_, Some(back)) = word.offer(&home, LooseBlock::of(block), &mut note)
    {
        drop(back.into_box(alloc));
    }
    let (word, shown) = word.settled(note);
    match shown {
        None => {
            let _closed = home.close();
            [None, None]
        }
        Some(name) => {
            let shown = name.get(&home).value;
            let closed = home.close();
            let block = word.into_block(&closed).into_box(alloc);
            [Some(shown), Some(Box::into_inner(block).value)]
        }
    }
}

#[test]
fn a_settled_word_shows_and_hands_out_what_it_was_set_to(rt: HostRuntime) {
    assert_eq!(rt; settle(rt.alloc(), None), [None, None]);
    assert_eq!(rt; settle(rt.alloc(), Some(9)), [Some(9), Some(9)]);
}
