//! The reply of the program to an event that finishes a call.
ghost use Rattle.std.specs.Prelude.{Some};

use std::alloc::Allocator;
use std::fmt;
use table_core::reply::{Finished, Reply};

/// The line of a call that has finished.
#[derive(Clone, Copy)]
pub struct Answer<'a, A: Allocator + Copy> {
    pub finished: &'a Finished<A>,
}

impl<A: Allocator + Copy> fmt::Display for Answer<'_, A> {
    ghost use Rattle.tool_commands.specs.Answers.{answer_text};

    ghost output = { λ a. Some (answer_text a.finished.now) };

    fn fmt<W: fmt::Write>(&self, f: &mut fmt::Formatter<W>) -> fmt::Result {
        let finished = self.finished;
        let call = finished.call;
        match &finished.reply {
            Reply::Placed(value) => write!(f, "{call} placed {value}"),
            Reply::Found(entry, value) => write!(f, "{call} found {entry} back {value}"),
            Reply::Refused(value) => write!(f, "{call} refused {value}"),
            Reply::Some(entry) => write!(f, "{call} some {entry}"),
            Reply::None => write!(f, "{call} none"),
            Reply::Len(count) => write!(f, "{call} len {count}"),
            Reply::Walk(entries) => write!(f, "{call} walk {entries:?}"),
        }
    }
}
