//! Events are compared and printed.
use std::process::Abort;
use std::test::Fail;
use table_core::event::Event;

/// Different events, and the text that each prints.
const PRINTED: [(Event, &str); 5] = [
    (
        Event::Insert {
            call: 1,
            value: 10,
            hash: 0,
        },
        "Insert { call: 1, value: 10, hash: 0 }",
    ),
    (
        Event::Insert {
            call: 1,
            value: 11,
            hash: 0,
        },
        "Insert { call: 1, value: 11, hash: 0 }",
    ),
    (Event::Len { call: 1 }, "Len { call: 1 }"),
    (Event::Walk { call: 1 }, "Walk { call: 1 }"),
    (
        Event::Put {
            call: 2,
            accepted: false,
            granted: true,
        },
        "Put { call: 2, accepted: false, granted: true }",
    ),
];

/// Asserts that this event is equal to the one at its place, and to no other.
fn assert_equal_at(rt: &impl Abort, event: Event, place: usize) {
    for (index, (other, _text)) in PRINTED.iter().enumerate() {
        assert_eq!(rt; event == *other, index == place, "{event:?} {other:?}");
    }
}

#[test]
fn events_are_compared_and_printed(rt: HostRuntime) -> Result<(), Fail> {
    for (place, (event, text)) in PRINTED.iter().enumerate() {
        let printed = format!(in rt.alloc(); "{event:?}")?;
        assert_eq!(rt; printed.as_str(), *text);
        assert_equal_at(&rt, *event, place);
    }
    Ok(())
}
