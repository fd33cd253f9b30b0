//! Schedules for tests of the machine. `load` makes a long one, which tests run and measurements time. `worked` has short ones:
//! `test_programs` runs them by the program and by the machine, and `test_replays` on a table and on the machine.
pub mod load;
pub mod script;
pub mod worked;
