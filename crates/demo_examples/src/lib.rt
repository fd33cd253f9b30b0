//! Small examples, proved: what follows from the contracts of tables, and threads that tell each other and account for every value.
//!
//! Threads tell each other what they placed while a set grows ([`tell`]), own a set together ([`owned`]), and account for every value at
//! its end ([`accounts`]). A set begins with what each new handle knows ([`beginning`]). The other modules have functions whose contracts follow from those of the tables that they call.
#![tactic(auto)]

pub mod accounts;
pub mod alike;
pub mod apart;
pub mod beginning;
pub mod held;
pub mod owned;
pub mod schedules;
pub mod seats;
pub mod shared;
pub mod tell;
pub mod unshown;
