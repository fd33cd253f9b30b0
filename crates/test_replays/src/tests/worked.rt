//! The worked schedules, on a table and on the machine.
ghost use Rattle.table_terms.specs.Capacities.{IsFirstCapacity};

use std::alloc::Global;
use std::process::Abort;
use std::test::Fail;
use table_core::event::Event;
use table_terms::capacity::is_first_capacity;
use testkit::schedules::worked::{Row, SCHEDULES, lines_of};
use testkit_replay::schedules::{Leg, run_legs};
use testkit_replay::script::{Manner, Script};
use tool_commands::events::{ScheduleLine, parse_schedule_line};

/// The calls whose value is equal to another one, or that look for such a value: the place of the worked schedule, the number of the call,
/// and the class of the value. A class is the number of the first of its values. All other values are different.
const CLASSES: [(usize, u64, u64); 9] = [
    (0, 2, 10),
    (1, 2, 10),
    (2, 2, 10),
    (2, 4, 10),
    (5, 20, 18),
    (5, 21, 18),
    // It looks for an equal value under another hash: no closure is called.
    (6, 2, 10),
    (8, 2, 10),
    (16, 21, 10),
];

/// Returns the class of the call of this event in the schedule at this place. Without a row it is the number of the value of an insert, or 0.
fn class_of(place: usize, event: Event) -> u64 {
    for (schedule, call, class) in &CLASSES {
        if *schedule == place && *call == event.call() {
            return *class;
        }
    }
    match event {
        Event::Insert { value, .. } => value,
        _ => 0,
    }
}

/// Parses the lines of the schedule at this place. `Err`: a line is no event, or no memory.
fn legs_of(alloc: Global, place: usize, lines: &str) -> Result<Vec<Leg>, Fail> {
    let mut legs = Vec::new(alloc);
    for line in lines.lines() {
        let leg = match parse_schedule_line(line.as_bytes()) {
            Some(ScheduleLine::Step(event)) => Leg::Event(event, class_of(place, event)),
            Some(ScheduleLine::Buckets) => Leg::Buckets,
            None => return Err("no event")?,
        };
        legs.push(leg)?;
    }
    Ok(legs)
}

/// Asserts that the worked schedule at this place does the same on a table as on the machine, with closures that answer in this manner.
/// `Err`: a line is no event, or no memory.
fn assert_followed(
    rt: &impl Abort,
    alloc: Global,
    place: usize,
    row: &Row,
    manner: Manner,
) -> Result<(), Fail> {
    let (first, ..) = *row;
    assert!(rt; is_first_capacity(first));
    let lines = lines_of(alloc, row)?;
    let legs = legs_of(alloc, place, lines.as_str())?;
    let fault = run_legs(alloc, first, &Script::new(manner, 0), legs.as_slice()).err();
    assert!(rt; fault.is_none(), "{fault:?} {row:?}");
    Ok(())
}

#[test]
fn worked_schedules_on_a_table(rt: HostRuntime) -> Result<(), Fail> {
    for (place, row) in SCHEDULES.iter().enumerate() {
        assert_followed(&rt, rt.alloc(), place, row, Manner::Given)?;
        assert_followed(&rt, rt.alloc(), place, row, Manner::Lawful)?;
    }
    Ok(())
}
