//! Tests of the raw table that threads share.
mod alone;
mod careless;
mod countings;
mod counts;
mod ends;
mod fates;
mod growth;
mod lost;
mod numbers;
mod racing;
mod refusals;
mod rounds;
mod rules;
mod share;
mod values;
mod waits;
