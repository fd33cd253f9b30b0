//! Tests of the machine of all schedules, of running tables that are compared with it, and of calls that are dropped before their end.
#![tactic(auto)]

#[cfg(test)]
mod tests;
