//! Calls on a shared table that take one step at a time, for replays of schedules.

pub use table_shared::{InsertCall, LookupCall, Progress};
