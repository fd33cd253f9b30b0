//! Threads that send each other what they know of a set while both run.
ghost use Rattle.std.specs.Prelude.{◌≡◌};

use super::caller::{
    NumberSet, Tally, assert_has, assert_none_out, assert_same, counted, fill, first_missed,
    set_with,
};
use shared_set::Known;
use std::alloc::{AllocError, Global};
use std::process::Abort;
use std::sync::{OnceLock, Wait};
use std::test::Fail;
use std::thread::{Threads, yield_now};
use table_cell::Low;
use table_terms::law::NumberLaw;
use testkit::counting::tally::{Work, at_once};

/// How many messages a thread sends.
const MESSAGES: u64 = 64;

/// How many numbers a thread places before each message.
const NUMBERS: u64 = 20;

/// How often the other thread looks for each message. It yields after each look.
const LOOKS: u32 = 1 << 26;

/// What is known of a set, as one thread sends it to another.
#[derive(Drop)]
struct Message<'s, A: Low + Copy> {
    set: &'s NumberSet<A>,
    known: Known<u64, NumberLaw, A>,
    ghost of: { known.of ≡ set.now.of },
}

/// The place for a message.
type Place<'s, A> = OnceLock<Message<'s, A>>;

/// Places the numbers of message `at`, and returns the message. `None` means that a number wasn't placed.
fn message_of<'s, A: Low + Copy>(set: &'s NumberSet<A>, at: u64) -> Option<Message<'s, A>> {
    let mut handle = set.handle();
    let first = at.wrapping_mul(NUMBERS);
    let tally = fill(&mut handle, first, first.wrapping_add(NUMBERS), 1);
    if tally != Tally::of(NUMBERS, 0) {
        return None;
    }
    let known = handle.tell();
    Some(Message { set, known })
}

/// Sends each message once its numbers are placed. Returns how many were sent.
fn send<'s, A: Low + Copy>(set: &'s NumberSet<A>, places: &[Place<'s, A>]) -> u64 {
    let mut sent = 0u64;
    for (at, room) in places.iter().enumerate() {
        if let Some(message) = message_of(set, at as u64)
            && room.try_set(message).is_ok()
        {
            sent = sent.wrapping_add(1);
        }
    }
    sent
}

/// Returns whether a handle that hears the message finds its numbers.
fn finds<A: Low + Copy>(message: &Message<'_, A>, at: u64) -> bool {
    let mut handle = message.set.handle();
    handle.hear(&message.known.again());
    let first = at.wrapping_mul(NUMBERS);
    let end = first.wrapping_add(NUMBERS);
    first_missed(&mut handle, first, end) == end
}

/// Waits for the message. `None` means that it didn't come.
fn wait<'p, 's, A: Low + Copy>(room: &'p Place<'s, A>) -> Option<&'p Message<'s, A>> {
    for _look in 0..LOOKS {
        if let Some(message) = room.get() {
            return Some(message);
        }
        yield_now();
    }
    None
}

/// Waits for each message and hears it, until one doesn't come. Returns how many messages came and had all their numbers found.
fn hear<A: Low + Copy>(places: &[Place<'_, A>]) -> u64 {
    let mut found = 0u64;
    for (at, room) in places.iter().enumerate() {
        let Some(message) = wait(room) else {
            break;
        };
        if finds(message, at as u64) {
            found = found.wrapping_add(1);
        }
    }
    found
}

/// A talk of two threads: the first one sends messages while the second one hears them.
#[derive(Drop)]
struct Talk<'p, 's, A: Low + Copy> {
    set: &'s NumberSet<A>,
    places: &'p [Place<'s, A>],
}

/// Each message that is sent counts as placed, and each that is heard as found.
impl<A: Low + Copy> Work for Talk<'_, '_, A> {
    fn work<R: Wait>(&self, _rt: &R, thread: u64) -> Tally {
        if thread == 0 {
            Tally::of(send(self.set, self.places), 0)
        } else {
            Tally::of(0, hear(self.places))
        }
    }
}

/// Returns the places for the messages. `Err`: no memory.
fn places_for<'s, A: Low + Copy>(alloc: Global) -> Result<Vec<Place<'s, A>>, AllocError> {
    let mut places: Vec<Place<'s, A>> = Vec::new(alloc);
    for _message in 0..MESSAGES {
        places.push(OnceLock::new())?;
    }
    Ok(places)
}

/// Lets two threads talk. Returns how many messages were sent, and how many came and had all their numbers found. `Err`: no memory.
fn let_talk<'s, R: Threads + Wait + Sync, A: Low + Copy + Send + Sync>(
    rt: &R,
    alloc: Global,
    set: &'s NumberSet<A>,
) -> Result<Tally, AllocError> {
    let places: Vec<Place<'s, A>> = places_for(alloc)?;
    let talk = Talk {
        set,
        places: places.as_slice(),
    };
    Ok(at_once(rt, alloc, 2, &talk))
}

/// Lets two threads talk about a set over this memory. Asserts that each message came and had all its numbers found. `Err`: no memory.
fn assert_heard<R: Threads + Wait + Abort + Sync, A: Low + Copy + Send + Sync>(
    rt: &R,
    alloc: Global,
    memory: A,
) -> Result<(), AllocError> {
    let set = set_with(rt, memory, 0);
    let tally = let_talk(rt, alloc, &set)?;
    assert_same(rt, tally, Tally::of(MESSAGES, MESSAGES));
    assert_has(rt, &mut set.handle(), MESSAGES.wrapping_mul(NUMBERS));
    Ok(())
}

#[test]
fn a_thread_hears_what_another_knows_while_both_run(rt: HostRuntime) -> Result<(), Fail> {
    let heap = counted(rt.alloc());
    assert_heard(&rt, rt.alloc(), &heap)?;
    assert_none_out(&rt, &heap);
    Ok(())
}
