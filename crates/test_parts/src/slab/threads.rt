//! Slots that two threads share.
ghost use Rattle.std.specs.Prelude.{◌≡◌, ◌<◌, length, get_or, None};

use std::alloc::Global;
use std::sync::OnceLock;
use std::test::Fail;
use std::thread::{Threads, join};
use table_slab::{Room, Slots, Written};

/// How often a thread looks for what the other writes.
const LOOKS: u32 = 100_000;

/// A number that lies in a slot for good.
#[derive(Drop)]
struct Shown<'a> {
    slots: &'a Slots<u64, Global>,
    offset: usize,
    written: Written<u64>,
    ghost inside: { offset < length slots.now },
    ghost of: { written.of ≡ get_or slots.now offset 0 },
}

impl<'a> Shown<'a> {
    fn number(&self) -> u64 {
        *self.slots.get(self.offset, &self.written)
    }
}

/// Writes a number for good.
fn write<'a>(
    slots: &'a Slots<u64, Global>,
    offset: usize,
    room: Room<u64>,
    number: u64,
) -> Shown<'a>
    requires inside { offset < length slots.now }
    requires of { room.of ≡ get_or slots.now offset 0 }
    requires empty { room.value ≡ None }
{
    let written = slots.put(offset, room, number).publish();
    Shown {
        slots,
        offset,
        written,
    }
}

/// Looks for the number, and returns it once it is there. `None` means that it isn't there after `LOOKS` looks.
fn look(place: &OnceLock<Shown<'_>>) -> Option<u64> {
    for _look in 0..LOOKS {
        if let Some(shown) = place.get() {
            return Some(shown.number());
        }
    }
    None
}

#[test]
fn each_of_two_threads_writes_a_slot(rt: HostRuntime) -> Result<(), Fail> {
    let (slots, rooms) = Slots::new(rt.alloc(), 2)?;
    let (first, rooms) = rooms.first();
    let (second, _none) = rooms.first();
    let shared = &slots;
    let (one, other) = join(
        &rt,
        move ||
            requires { (0 < length shared.now) × (first.of ≡ get_or shared.now 0 0) × (first.value ≡ None) }
        { write(shared, 0, first, 7) },
        move ||
            requires { (1 < length shared.now) × (second.of ≡ get_or shared.now 1 0) × (second.value ≡ None) }
        { write(shared, 1, second, 9) },
    );
    assert_eq!(rt; [one.number(), other.number()], [7, 9]);
    Ok(())
}

#[test]
fn a_thread_reads_what_the_other_writes(rt: HostRuntime) -> Result<(), Fail> {
    let (slots, rooms) = Slots::new(rt.alloc(), 1)?;
    let (room, _none) = rooms.first();
    let (shared, place) = (&slots, OnceLock::new());
    let shown = &place;
    let (is_set, seen) = join(
        &rt,
        move ||
            requires { (0 < length shared.now) × (room.of ≡ get_or shared.now 0 0) × (room.value ≡ None) }
        { shown.try_set(write(shared, 0, room, 7)).is_ok() },
        move || look(shown),
    );
    assert!(rt; is_set && (seen == None || seen == Some(7)));
    assert_eq!(rt; look(&place), Some(7));
    Ok(())
}
