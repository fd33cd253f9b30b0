//! Tests of the parts that tables are made of: buckets that name their blocks, slots, chains, numbered buckets, and the numbers of seats.
#![tactic(auto)]

#[cfg(test)]
mod cell;
#[cfg(test)]
mod chain;
#[cfg(test)]
mod numbered;
#[cfg(test)]
mod same;
#[cfg(test)]
mod seats;
#[cfg(test)]
mod slab;
