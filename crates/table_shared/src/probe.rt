//! The probe: what is read or exchanged at a bucket, and the state of the call after it.
//!
//! A call stands at the bucket of its state's index, in the generation that it probes. An empty bucket ends the probe. An entry
//! whose eight hash bits differ from those of the call's hash is passed. For any other entry the caller's closure is called. Each
//! function returns the state after the step. Its contract ties the step to what the bucket shows: the closure is called only for
//! entries with the bits of the hash, and the answer is what the closure returned.
ghost use Rattle.std.specs.Prelude.{◌≡◌, Bool, length, slice_index_or, true};
ghost use Rattle.std.specs.Fn.{FnReturnsAt, FnReturnsAtPair};
ghost use Rattle.table_generations.specs.Buckets.{content_at};
ghost use Rattle.table_generations.specs.Looks.{Tells, IsSeen};
ghost use Rattle.table_terms.specs.Hashes.{bits_of};
ghost use Rattle.table_core.specs.Calls.{stands_at_bucket};
ghost use Rattle.table_core.specs.declared.call.Outcome.TheVariants.{Pending};
ghost use Rattle.table_core.specs.declared.call.Phase.TheVariants.{AtEmpty};
ghost use Rattle.table_core.specs.RunningPhases.{ReadsBucket, MeetsEntry};
ghost use Rattle.table_shared.specs.Reads.{ShowsAlike, ShowsMarked, MeetsTarget, StepsAt, InsertPuts, ReadTells, LossTells, PutTells};

use crate::table::LockFreeRawTable;
use std::alloc::Allocator;
use table_cell::{Entry, Low, Missed, Note};
use table_core::steps::{passed, step};
use table_core::{Answer, CallState};
use table_generations::atomic_value::AtomicValue;
use table_generations::fixed::Generation;
use table_generations::fixed::shared::Look;
use table_terms::probe::bits_of_hash;

/// The closure that a probe calls with the target of an entry that has the bits of its hash.
pub(crate) trait Probing<X> {
    ghost callable: { Self → Type 0 };

    ghost says: { Self → X → Bool → Type 0 };

    /// Returns whether the closure accepts the target.
    fn accepts(&self, target: &X) -> bool
        requires { callable self.now }
        ensures { says self.now target.now result };
}

/// The test of a look-up.
#[derive(Drop)]
pub(crate) struct Tested<'a, F> {
    pub(crate) test: &'a F,
}

impl<X, F: Fn(&X) -> bool> Probing<X> for Tested<'_, F> {
    ghost callable = { λ p. F.IsAlwaysCallable p.test.now };

    ghost says = { λ p x b. FnReturnsAt F.Fn p.test.now x b };

    #[inline(always)]
    fn accepts(&self, target: &X) -> bool {
        (self.test)(target)
    }
}

/// The `eq` of an insert, with the value whose target is its first argument.
#[derive(Drop)]
pub(crate) struct Matched<'a, T, E> {
    pub(crate) value: &'a T,
    pub(crate) eq: &'a E,
}

impl<T: AtomicValue, E: Fn(&T::Target, &T::Target) -> bool> Probing<T::Target>
    for Matched<'_, T, E> {
    ghost callable = { λ p. E.IsAlwaysCallable p.eq.now };

    ghost says = { λ p x b. FnReturnsAtPair E.Fn p.eq.now (T.target p.value.now) x b };

    #[inline(always)]
    fn accepts(&self, target: &T::Target) -> bool {
        (self.eq)(self.value.deref(), target)
    }
}

/// A caller of a step. It has no value: it is a type parameter, by which each caller gets its own copy of the step, which the
/// compiler inlines. A copy shared by several callers is not inlined, and copies the whole state of the call in and out.
pub(crate) trait Caller {}

/// A call that runs to its end and reads a bucket.
pub(crate) enum Reading {}

/// An insert that runs to its end and offers its value.
pub(crate) enum Putting {}

/// A call that runs one step at a time.
pub(crate) enum Stepping {}

impl Caller for Reading {}

impl Caller for Putting {}

impl Caller for Stepping {}

/// The result of reading a bucket, with the state after it.
#[derive(Drop)]
pub(crate) enum Read<R> {
    /// The bucket was empty.
    Empty(CallState),
    /// The entry was passed. The flag tells whether the closure was called; if so it returned false.
    Passed(CallState, bool),
    /// The entry was accepted.
    Met(CallState, R),
}

/// The result of an exchange at an empty bucket, with the state after it.
#[derive(Drop)]
pub(crate) enum Put<'a, T, X> {
    /// The value is in the bucket, and isn't counted yet.
    Won(CallState, &'a X),
    /// Memory for the value was refused.
    Refused(CallState, T),
    /// Another entry came first, and was passed. The flag tells whether the closure was called; if so it returned false.
    Passed(CallState, bool, T),
    /// Another entry came first, and was accepted.
    Met(CallState, &'a X, T),
}

/// Returns the target of the entry that a look shows, if it has the bits that were sought.
#[inline(always)]
fn alike<T: AtomicValue>(look: Look<'_, T>) -> Option<&T::Target>
    ensures { ShowsAlike T.target look.entry result }
{
    match look {
        Look::Alike(entry) => Some(entry.value.deref()),
        _ => None,
    }
}

/// Returns the target of an entry, if it has the bits of this hash.
fn alike_entry<T: AtomicValue>(entry: &Entry<T>, hash: u64) -> Option<&T::Target>
    ensures { ShowsMarked T.target (bits_of hash) entry.now result }
{
    if entry.bits == bits_of_hash(hash) {
        Some(entry.value.deref())
    } else {
        None
    }
}

/// Handles an entry in the call's bucket: calls the closure if the entry has the bits of the call's hash.
#[inline(always)]
fn meet<'a, C: Caller, T: AtomicValue, P: Probing<T::Target>>(
    state: CallState,
    alike: Option<&'a T::Target>,
    probing: &P,
) -> Read<&'a T::Target>
    requires meets { MeetsEntry state.phase }
    requires stands { stands_at_bucket state ≡ true }
    requires callable { P.callable probing.now }
    ensures { MeetsTarget (P.says probing.now) alike.entry state result }
{
    if let Some(target) = alike
        && probing.accepts(target)
    {
        return Read::Met(step(state, Answer::Holds { accepted: true }), target);
    }
    let asked = alike.is_some();
    Read::Passed(step(state, passed(asked)), asked)
}

/// Handles the entry that came first, for an insert that lost its exchange.
#[inline(always)]
fn meet_first<'a, T: AtomicValue, E: Fn(&T::Target, &T::Target) -> bool>(
    state: CallState,
    first: &'a Entry<T>,
    value: T,
    eq: &E,
) -> Put<'a, T, T::Target>
    requires phase { state.phase ≡ AtEmpty }
    requires stands { stands_at_bucket state ≡ true }
    requires pending { state.outcome ≡ Pending }
    requires callable { E.IsAlwaysCallable eq.now }
    ensures puts { InsertPuts T.target
        (FnReturnsAtPair E.Fn eq.now (T.target value)) value state result }
    ensures tells { LossTells T.target (FnReturnsAtPair E.Fn eq.now (T.target value))
        (bits_of state.hash) result first.now }
{
    let target = alike_entry(first, state.hash);
    match meet::<Putting, T, _>(state, target, &Matched { value: &value, eq }) {
        Read::Empty(_) => unreachable!(),
        Read::Passed(next, asked) => Put::Passed(next, asked, value),
        Read::Met(next, target) => Put::Met(next, target, value),
    }
}

impl<T: AtomicValue, A: Allocator + Copy> LockFreeRawTable<T, A> {
    /// Returns what the bucket at which the call stands shows, compared by the bits of the call's hash.
    #[inline(always)]
    fn look<'a>(
        &'a self,
        generation: &'a Generation<T, A>,
        state: CallState,
        note: &mut Note<Entry<T>>,
    ) -> Look<'a, T>
        requires stands { stands_at_bucket state ≡ true }
        requires home { generation.now.home ≡ self.now.home }
        requires walked { length generation.now.contents ≡ state.capacity }
        requires of { note.old.of ≡ slice_index_or generation.now.ids state.index 0 }
        ensures of { note.new.of ≡ note.old.of }
        ensures seen { IsSeen (content_at generation.now.contents state.index) note.old.known
            note.new.known (λ o. Tells (bits_of state.hash) o result) }
    {
        let sought = bits_of_hash(state.hash);
        generation.look_at(self.home(), state.index as usize, sought, note)
    }

    /// Reads the bucket at which the call stands.
    #[inline(always)]
    pub(crate) fn read_bucket<'a, C: Caller, P: Probing<T::Target>>(
        &'a self,
        generation: &'a Generation<T, A>,
        state: CallState,
        probing: &P,
        note: &mut Note<Entry<T>>,
    ) -> Read<&'a T::Target>
        requires phase { ReadsBucket state.phase }
        requires stands { stands_at_bucket state ≡ true }
        requires home { generation.now.home ≡ self.now.home }
        requires walked { length generation.now.contents ≡ state.capacity }
        requires callable { P.callable probing.now }
        requires of { note.old.of ≡ slice_index_or generation.now.ids state.index 0 }
        ensures of { note.new.of ≡ note.old.of }
        ensures reads { StepsAt (P.says probing.now) state result }
        ensures seen { IsSeen (content_at generation.now.contents state.index) note.old.known
            note.new.known
            (λ o. ReadTells T.target (P.says probing.now) (bits_of state.hash) o result) }
    {
        let look = self.look(generation, state, note);
        if matches!(look, Look::Vacant) {
            return Read::Empty(step(state, Answer::Empty));
        }
        meet::<C, T, P>(state, alike::<T>(look), probing)
    }
}

impl<T: AtomicValue, A: Low + Copy> LockFreeRawTable<T, A> {
    /// Offers the insert's value to its bucket by one exchange. If another entry came first, handles that entry. Allocates a
    /// block for the value first.
    #[inline(always)]
    pub(crate) fn put_value<'a, C: Caller, E: Fn(&T::Target, &T::Target) -> bool>(
        &'a self,
        generation: &'a Generation<T, A>,
        state: CallState,
        value: T,
        eq: &E,
        note: &mut Note<Entry<T>>,
    ) -> Put<'a, T, T::Target>
        requires phase { state.phase ≡ AtEmpty }
        requires stands { stands_at_bucket state ≡ true }
        requires pending { state.outcome ≡ Pending }
        requires home { generation.now.home ≡ self.now.home }
        requires walked { length generation.now.contents ≡ state.capacity }
        requires callable { E.IsAlwaysCallable eq.now }
        requires of { note.old.of ≡ slice_index_or generation.now.ids state.index 0 }
        ensures of { note.new.of ≡ note.old.of }
        ensures puts { InsertPuts T.target
            (FnReturnsAtPair E.Fn eq.now (T.target value)) value state result }
        ensures tells { PutTells T.target
            (FnReturnsAtPair E.Fn eq.now (T.target value)) value state.hash
            (content_at generation.now.contents state.index) note.old.known note.new.known result }
    {
        let bits = bits_of_hash(state.hash);
        match generation.place_at(self.home(), state.index as usize, value, bits, note) {
            Ok(entry) => Put::Won(step(state, Answer::Won), entry.value.deref()),
            Err(Missed::Taken(value, first)) => meet_first::<T, E>(state, first, value, eq),
            Err(Missed::NoMemory(value)) => Put::Refused(step(state, Answer::MemoryRefused), value),
        }
    }
}
