//! Tests of the machine of all schedules, and of stepped and whole calls.
mod cuts;
mod decisions;
mod drops;
mod events;
mod interleaved;
mod lanes;
mod load;
mod meetings;
mod whole;
mod worked;
