//! The events that calls take in their phases.
use table_core::call::Phase;
use table_core::event::Event;

/// The answers of the closures and of the memory during an event.
#[derive(Clone, Copy)]
pub struct Answers {
    pub accepted: bool,
    pub hash: u64,
    pub granted: bool,
}

/// Returns the answers that an event names. The others are no, 0 and granted.
pub fn answers_of(event: Event) -> Answers {
    let none = Answers {
        accepted: false,
        hash: 0,
        granted: true,
    };
    match event {
        Event::Read { accepted, .. } => Answers { accepted, ..none },
        Event::Put {
            accepted,
            granted,
            ..
        } => Answers {
            accepted,
            granted,
            ..none
        },
        Event::Check { granted, .. } => Answers { granted, ..none },
        Event::Copy { hash, .. } => Answers { hash, ..none },
        _ => none,
    }
}

/// Returns the event that an insert or a look-up in this phase takes next, with these answers. A growth that is being built copies an entry
/// if `copies`. Returns `None` if the call has ended.
pub fn event_of(call: u64, phase: Phase, copies: bool, answers: Answers) -> Option<Event> {
    let Answers {
        accepted,
        hash,
        granted,
    } = answers;
    match phase {
        Phase::WantShared => Some(Event::Share { call }),
        Phase::Shared | Phase::LookLoad => Some(Event::Load { call }),
        Phase::Probe | Phase::LookProbe => Some(Event::Read { call, accepted }),
        Phase::AtEmpty => Some(Event::Put {
            call,
            accepted,
            granted,
        }),
        Phase::Placed => Some(Event::Add { call }),
        Phase::AskSize => Some(Event::Size { call }),
        Phase::WantOwned => Some(Event::Own { call }),
        Phase::Owned => Some(Event::Check { call, granted }),
        Phase::Building if copies => Some(Event::Copy { call, hash }),
        Phase::Building => Some(Event::Show { call }),
        Phase::LeaveOk
        | Phase::LeaveGrow
        | Phase::LeaveRefused
        | Phase::LeaveOwned
        | Phase::LeaveFailed => Some(Event::Free { call }),
        _ => None,
    }
}

/// Returns whether an insert or a look-up in this phase can take the event if the lock is free for it.
pub fn takes(phase: Phase, event: Event) -> bool {
    let copies = matches!(event, Event::Copy { .. });
    event_of(event.call(), phase, copies, answers_of(event)) == Some(event)
}
