//! Hints of which numbers are taken, by which most look-ups of a number read one word in place of the buckets.
ghost use Rattle.std.specs.Prelude.{◌≡◌, ◌⊎◌, ℕ, ◌/◌, ◌^◌, ◌<◌, ◌≤◌, true, false, [], vec_capacity, IfSome};
ghost use mathlib.Core.List.{IsPrefix};
ghost use Rattle.logbook.specs.Pages.{Book};
ghost use Rattle.table_numbered.specs.Words.{IsNumber, alike, marked};
ghost use Rattle.table_numbered.specs.History.{IsReached};
ghost use Rattle.table_numbered.specs.Generations.{IsOf};
ghost use Rattle.table_numbered.specs.Walking.{IsTaken};
ghost use Rattle.table_numbered.specs.Hints.{Names, NamesTaken, IsHint, AreHints};

use crate::generation::NumberedGeneration;
use crate::rule::{Bucket, Token};
use crate::word::HALF;
use logbook::Word;
use std::alloc::Allocator;
use std::marker::Model;
use std::sync::atomic::AtomicBool;
use std::sync::atomic::Ordering::SeqCst;
use table_cell::Low;
use table_terms::law::SetLaw;

/// How many numbers one word has a bit for.
const NUMBERS: u64 = 32;

/// How often a thread tries to add a number to a word. A try fails only if another number was added meanwhile, so one of them succeeds.
const TRIES: usize = 33;

/// Words that name numbers that are taken. They say nothing of the other numbers.
#[derive(Drop)]
pub(crate) struct Hints<V, L: SetLaw<V>, A: Allocator> {
    words: Vec<Bucket<V, L>, A>,
    /// True once a number was sought that no hint names, here or in the generation before: from then on threads add the numbers that they
    /// place.
    wanted: AtomicBool,
    /// True once a thread has added the number of each entry that it found in the buckets.
    complete: AtomicBool,
}

impl<V, L: SetLaw<V>, A: Allocator> Model for Hints<V, L, A> {
    ghost use Rattle.std.specs.Prelude.{List};
    ghost use Rattle.logbook.specs.Pages.{Named};

    ghost Value = { List Named };

    ghost view = { λ h. h.words.items };
}

/// Returns the number of words for this many buckets: one for each 32 buckets, and one more.
pub(crate) fn words_for(buckets: usize) -> usize {
    buckets / NUMBERS as usize + 1
}

/// Returns true if the word names the number.
fn names(word: u64, number: u64) -> bool
    ensures { result ≡ true → Names word number }
{
    word / HALF == number / NUMBERS && (word >> (number % NUMBERS)) & 1 == 1
}

/// Returns the word if it is about this group of 32 numbers, and otherwise a word of the group that names no number.
fn of_group(word: u64, group: u64) -> u64
    requires small { group < 2 ^ 32 }
    ensures group { result / 2 ^ 32 ≡ group }
    ensures names { (k : ℕ) → Names result k → Names word k }
{
    if word / HALF == group {
        return word;
    }
    group * HALF
}

/// Returns the word with the number added. Numbers of another group give way.
fn with_number(word: u64, number: u64) -> u64
    requires number { IsNumber number }
    ensures named { Names result number }
    ensures others { (k : ℕ) → Names result k → (k ≡ number) ⊎ Names word k }
{
    let bits = of_group(word, number / NUMBERS);
    bits | (1 << (number % NUMBERS))
}

/// Loads the word. Each number that it names is taken by then.
fn load<V, L: SetLaw<V>>(hint: &Bucket<V, L>, seen: &mut Token<V, L>) -> u64
    requires hint { IsHint seen.old.book hint.now }
    ensures same { (seen.new.book ≡ seen.old.book) × (seen.new.names ≡ seen.old.names) }
    ensures longer { IsPrefix seen.old.log seen.new.log }
    ensures reached { IsReached (alike L.same) (marked L.hash_of) seen.new.log }
    ensures taken { NamesTaken result seen.new.log }
{
    let word = hint.load_hint(seen);
    // Learning from a copy of itself changes nothing. The contract of `learn` gives `reached`.
    let known = seen.again();
    seen.learn(&known);
    word
}

/// Adds the number, which is taken, to the word.
fn add<V, L: SetLaw<V>>(hint: &Bucket<V, L>, seen: &Token<V, L>, number: u64)
    requires hint { IsHint seen.now.book hint.now }
    requires number { IsNumber number }
    requires taken { IsTaken seen.now.log number }
{
    let mut later = seen.again();
    for _tried in 0..TRIES {
        let word = load(hint, &mut later);
        if names(word, number) {
            return;
        }
        let more = with_number(word, number);
        if hint.compare_exchange_hint(word, more, &later) == word {
            return;
        }
    }
}

impl<V, L: SetLaw<V>, A: Allocator> Hints<V, L, A> {
    /// Makes `words` words that name no number, in a vector that has room for them.
    pub(crate) fn new(
        room: Vec<Bucket<V, L>, A>,
        seen: &Token<V, L>,
        words: usize,
        wanted: bool,
    ) -> Self
        requires none { room.items ≡ [] }
        requires room { words ≤ vec_capacity room }
        ensures hints { AreHints seen.now.book result }
    {
        let mut row = room;
        for _made in 0..words {
            row.push_reserved(Word::hint(seen));
        }
        Hints {
            words: row,
            wanted: AtomicBool::new(wanted),
            complete: AtomicBool::new(false),
        }
    }

    /// Returns true if threads are to add the numbers that they place.
    pub(crate) fn are_wanted(&self) -> bool {
        self.wanted.load(SeqCst)
    }

    /// Returns the word for this number. `None` means that there is none.
    fn word(&self, number: u64) -> Option<&Bucket<V, L>>
        ensures hint { (b : Book) → AreHints b self.now → IfSome result (λ w. IsHint b w.now) }
    {
        self.words.get((number / NUMBERS) as usize)
    }
}

impl<V, L: SetLaw<V>, A: Low + Copy> NumberedGeneration<V, L, A> {
    /// Returns true if a hint names the number: then an entry has it by now. It reads one word.
    pub(crate) fn is_hinted(&self, seen: &mut Token<V, L>, number: u64) -> bool
        requires of { IsOf L.same L.hash_of self.now.of seen.old.book seen.old.names seen.old.log }
        ensures of { IsOf L.same L.hash_of self.now.of seen.new.book seen.new.names seen.new.log }
        ensures longer { IsPrefix seen.old.log seen.new.log }
        ensures there { result ≡ true → IsTaken seen.new.log number }
    {
        let Some(hint) = self.hints.word(number) else {
            return false;
        };
        let word = load(hint, seen);
        names(word, number)
    }

    /// Hints that the number is taken. A number that has no word gets no hint.
    fn hint(&self, seen: &Token<V, L>, number: u64)
        requires of { IsOf L.same L.hash_of self.now.of seen.now.book seen.now.names seen.now.log }
        requires taken { IsTaken seen.now.log number }
    {
        if let Some(hint) = self.hints.word(number) {
            add(hint, seen, number);
        }
    }

    /// Hints that the number, which was placed just now, is taken, if hints are wanted.
    pub(crate) fn hint_placed(&self, seen: &Token<V, L>, number: u64)
        requires of { IsOf L.same L.hash_of self.now.of seen.now.book seen.now.names seen.now.log }
        requires taken { IsTaken seen.now.log number }
    {
        if self.hints.are_wanted() {
            self.hint(seen, number);
        }
    }

    /// Hints the number of the bucket's entry, if it has one.
    fn hint_at(&self, seen: &mut Token<V, L>, index: usize)
        requires of { IsOf L.same L.hash_of self.now.of seen.old.book seen.old.names seen.old.log }
        requires inside { index < self.now.of.size }
        ensures of { IsOf L.same L.hash_of self.now.of seen.new.book seen.new.names seen.new.log }
        ensures longer { IsPrefix seen.old.log seen.new.log }
    {
        if let Some(number) = self.number_at(seen, index) {
            self.hint(seen, number);
        }
    }

    /// Hints the number of each entry, unless a thread has done so. From then on threads hint the numbers that they place.
    pub(crate) fn hint_all(&self, seen: &mut Token<V, L>)
        requires of { IsOf L.same L.hash_of self.now.of seen.old.book seen.old.names seen.old.log }
        ensures of { IsOf L.same L.hash_of self.now.of seen.new.book seen.new.names seen.new.log }
        ensures longer { IsPrefix seen.old.log seen.new.log }
    {
        if self.hints.complete.load(SeqCst) {
            return;
        }
        self.hints.wanted.store(true, SeqCst);
        for index in 0..self.buckets() {
            self.hint_at(seen, index);
        }
        self.hints.complete.store(true, SeqCst);
    }
}
