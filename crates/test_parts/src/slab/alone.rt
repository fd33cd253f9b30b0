//! Slots that one thread holds.
ghost use Rattle.std.specs.Prelude.{◌≡◌, length, get_or};

use super::counting::Counting;
use std::alloc::Global;
use std::sync::atomic::AtomicU64;
use std::sync::atomic::Ordering::SeqCst;
use std::test::Fail;
use table_slab::{Rooms, Slots, Written};

/// The number of the value that was taken back, and the `Written` of the value that stays in the slot.
type Seen<'d> = (u64, Written<Counting<'d>>);

/// Writes a value and takes it back, and then writes another one for good.
fn write_twice<'d>(
    slots: &Slots<Counting<'d>, Global>,
    rooms: Rooms<Counting<'d>>,
    drops: &'d AtomicU64,
) -> Seen<'d>
    requires one { length slots.now ≡ 1 }
    requires rights { rooms.names ≡ slots.now }
    ensures { result.1.of ≡ get_or slots.now 0 0 }
{
    let (room, _none) = rooms.first();
    let room = slots.put(0, room, Counting::new(5, drops));
    let (back, room) = slots.take(0, room);
    let number = back.number;
    let room = slots.put(0, room, Counting::new(6, drops));
    (number, room.publish())
}

#[test]
fn a_value_is_taken_back_and_one_is_taken_out(rt: HostRuntime) -> Result<(), Fail> {
    let drops = AtomicU64::new(0);
    let (mut slots, rooms) = Slots::new(rt.alloc(), 1)?;
    let (back, written) = write_twice(&slots, rooms, &drops);
    let shown = slots.get(0, &written).number;
    let (value, _room) = slots.take_out(0, &written);
    let out = value.number;
    drop(value);
    drop(slots);
    assert_eq!(rt; [back, shown, out, drops.load(SeqCst)], [5, 6, 6, 2]);
    Ok(())
}

#[test]
fn a_value_that_lies_in_a_slot_is_not_dropped(rt: HostRuntime) -> Result<(), Fail> {
    let drops = AtomicU64::new(0);
    let (slots, rooms) = Slots::new(rt.alloc(), 1)?;
    let (_back, _written) = write_twice(&slots, rooms, &drops);
    drop(slots);
    assert_eq!(rt; drops.load(SeqCst), 1);
    Ok(())
}

#[test]
fn a_value_of_no_bytes_has_a_slot(rt: HostRuntime) -> Result<(), Fail> {
    let (slots, rooms) = Slots::new(rt.alloc(), 3)?;
    let (room, _others) = rooms.first();
    let room = slots.put(0, room, ());
    let ((), _room) = slots.take(0, room);
    assert_eq!(rt; slots.count(), 3);
    Ok(())
}
