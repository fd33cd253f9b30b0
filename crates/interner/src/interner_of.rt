//! The interner of texts that the caller makes.
ghost use Rattle.std.specs.Prelude.{◌≡◌, ◌+◌, ◌-◌, ◌<◌, ◌≤◌, ◌++◌, [], ◌∷◌, length, map, OnOk, OnErr, Contains};
ghost use Rattle.std.specs.Prelude.{option_copied, option_map, slice_get};
ghost use Rattle.std.specs.Int.NonZero.{non_zero_u32_get};
ghost use Rattle.interner.specs.Texts.{greatest_number, AllDifferent, FindsNumber};
ghost use Rattle.interner.specs.Interns.{Interns, GivesNext};
ghost use Rattle.interner.specs.Kept.{TellsText, HashesText};

use crate::hash::{TextHash, Times31};
use crate::numbered::{Numbered, TextLaw};
use crate::refused::Refused;
use std::alloc::{AllocError, Allocator, Global};
use std::convert::AsStr;
use std::marker::{Model, PhantomData};
use std::num::NonZeroU32;
use std::snapshot::Snapshot;
use table_held::{HeldRawTable, InPlace};

/// A single-owner interner of texts of type `S`, which the caller makes. Different texts are numbered from 1 on, in the order of
/// first appearance. `H` hashes the texts: choose `Mixed` if others choose the texts. The texts lie in one vector, in memory of
/// an `A`. The table has a heap block for each number, from a `B`.
///
/// A contract sees the list of the texts, each as its bytes.
#[derive(Drop)]
pub struct InternerOf<
    S: AsStr + Drop,
    H: TextHash = Times31,
    A: Allocator + Copy = Global,
    B: Allocator + Copy = A,
> {
    by_text: HeldRawTable<InPlace<Numbered<S>>, B>,
    by_number: Vec<S, A>,
    hash: PhantomData<H>,
}

impl<S: AsStr + Drop, H: TextHash, A: Allocator + Copy, B: Allocator + Copy> Model
    for InternerOf<S, H, A, B> {
    ghost use Rattle.std.specs.Prelude.{ℕ, List, map};
    ghost use Rattle.std.specs.Int.NonZero.{non_zero_u32_get};
    ghost use Rattle.interner.specs.Kept.{IsKept};

    ghost Value = { List (List ℕ) };

    ghost view = { λ t. map S.text t.by_number.items };

    ghost invariant = { λ t. IsKept (λ v. v.0) (λ n. S.text n.text.value) (λ n. non_zero_u32_get n.number) H.hash_of
        (map S.text t.by_number.items) t.by_text };
}

impl<S: AsStr + Drop, H: TextHash, A: Allocator + Copy, B: Allocator + Copy> InternerOf<
    S,
    H,
    A,
    B,
> {
    /// Makes an empty interner. Does not allocate. `alloc` is the allocator of the texts' vector, and `blocks` that of the table.
    pub fn new(alloc: A, blocks: B) -> Self
        ensures { result ≡ [] }
    {
        InternerOf {
            by_text: HeldRawTable::new(blocks),
            by_number: Vec::new(alloc),
            hash: PhantomData,
        }
    }

    /// Returns the number of the text, or `None` if it has none. Does not allocate and does not change the interner.
    pub fn number_alone(&self, text: &str) -> Option<NonZeroU32>
        ensures finds { FindsNumber self.now text.now result }
        ensures different { AllDifferent self.now }
    {
        self.number_by_hash(H::hash(text.as_bytes()), text)
    }

    /// Returns the text of the number, or `None` if no text has it. Does not allocate and does not change the interner.
    pub fn text_alone(&self, number: NonZeroU32) -> Option<&str>
        ensures { option_copied result ≡ slice_get self.now (non_zero_u32_get number - 1) }
    {
        let text = self.by_number.get(number.get() as usize - 1)?;
        Some(text.as_str())
    }

    /// Returns the number of texts.
    pub fn len_alone(&self) -> usize
        ensures length { result ≡ length self.now }
        ensures few { result ≤ greatest_number }
        ensures different { AllDifferent self.now }
    {
        self.by_number.len()
    }

    /// Adds a text, gives it the next number, and returns that number. The caller shows that the text has no number yet.
    ///
    /// - `Refused::Numbers`: all 2^32 - 1 numbers are taken. Nothing was allocated.
    /// - `Refused::NoMemory`: memory was refused.
    ///
    /// A refused call leaves the texts and their numbers unchanged, and drops the text.
    pub fn add_alone(&mut self, text: S) -> Result<NonZeroU32, Refused>
        requires new { ¬ Contains self.old (S.text text) }
        ensures interns { Interns self.old (S.text text) result self.new }
        ensures different { AllDifferent self.new }
    {
        let number = self.next_number(u32::MAX)?;
        let hash = H::hash(text.as_str().as_bytes());
        match self.add(hash, text, number) {
            Ok(()) => Ok(number),
            Err(_) => Err(Refused::NoMemory),
        }
    }

    /// Returns the number of the text, whose hash is `hash`, or `None` if it has none.
    pub(crate) fn number_by_hash(&self, hash: u64, text: &str) -> Option<NonZeroU32>
        requires { hash ≡ H.hash_of text.now }
        ensures finds { FindsNumber self.now text.now result }
        ensures different { AllDifferent self.now }
    {
        let texts = self.by_number.as_slice();
        let found = self
            .by_text
            .lookup_alone::<TextLaw<H>, _>(hash, |entry: &Numbered<S>| {
                is_text_of(texts, entry.number, text)
            })?;
        Some(found.number)
    }

    /// Returns the number that a new text gets, or `Refused::Numbers` if that is above `greatest`.
    pub(crate) fn next_number(&self, greatest: u32) -> Result<NonZeroU32, Refused>
        ensures next { GivesNext greatest self.now result }
        ensures different { AllDifferent self.now }
    {
        let given = self.len_alone();
        if given >= greatest as usize {
            return Err(Refused::Numbers);
        }
        match NonZeroU32::new(given as u32 + 1) {
            Some(number) => Ok(number),
            None => unreachable!(),
        }
    }

    /// Reserves room for one more text, unless there is room.
    pub(crate) fn reserve_one(&mut self) -> Result<(), AllocError>
        ensures { self.new ≡ self.old }
    {
        self.by_number.reserve(1)
    }

    /// Adds a text that has no number, and gives it this one, which is the next. An `Err` leaves the texts and their numbers
    /// unchanged.
    pub(crate) fn add(&mut self, hash: u64, text: S, number: NonZeroU32) -> Result<(), AllocError>
        requires hash { hash ≡ H.hash_of (S.text text) }
        requires new { ¬ Contains self.old (S.text text) }
        requires few { length self.old < greatest_number }
        requires next { non_zero_u32_get number ≡ length self.old + 1 }
        ensures added { OnOk result (self.new ≡ self.old ++ S.text text ∷ []) }
        ensures unchanged { OnErr result (self.new ≡ self.old) }
    {
        self.by_number.reserve(1)?;
        let entry = InPlace(Numbered {
            number,
            text: Snapshot::of(&text),
        });
        let (texts, new) = (self.by_number.as_slice(), text.as_str());
        match self.by_text.place_alone::<TextLaw<H>, _, _>(
            hash,
            entry,
            &|_new: &Numbered<S>, entry: &Numbered<S>| is_text_of(texts, entry.number, new),
            &|entry: &Numbered<S>| hash_in::<S, H>(texts, entry.number, hash),
        ) {
            Ok((_, None)) => {}
            Ok((_, Some(_))) => unreachable!(),
            Err(_) => return Err(AllocError),
        }
        match self.by_number.push(text) {
            Ok(()) => Ok(()),
            Err(_) => unreachable!(),
        }
    }
}

/// Returns whether the text of the number is this one. Returns false if no text has the number.
fn is_text_of<S: AsStr>(texts: &[S], number: NonZeroU32, text: &str) -> bool
    ensures { TellsText (map S.text texts.now) (non_zero_u32_get number) text.now result }
{
    match texts.get(number.get() as usize - 1) {
        Some(kept) => kept.as_str() == text,
        None => false,
    }
}

/// Returns the hash of the text of the number, or `new` if no text has the number yet.
fn hash_in<S: AsStr, H: TextHash>(texts: &[S], number: NonZeroU32, new: u64) -> u64
    ensures { HashesText H.hash_of (map S.text texts.now) (non_zero_u32_get number) new result }
{
    match texts.get(number.get() as usize - 1) {
        Some(kept) => H::hash(kept.as_str().as_bytes()),
        None => new,
    }
}
