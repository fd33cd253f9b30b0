//! The fate of each value.
ghost use Rattle.std.specs.Prelude.{◌≡◌, ◌≢◌, ◌↔◌, All, IfOk, IsOk, OnErr, OnOk, Some, replicate, slice_get, slice_set};
ghost use Rattle.testkit_rounds.specs.declared.fates.Fate.TheVariants.{Open};

use crate::RoundFault;
use std::alloc::{AllocError, Global};
use std::marker::Model;

/// The fate of a value.
#[derive(Clone, Copy, PartialEq)]
pub enum Fate {
    /// Nothing is known of it yet.
    Open,
    /// It was returned with an entry.
    Found,
    /// It was returned without an entry.
    Refused,
    /// It is an entry.
    Entry,
}

/// The fate of each value, by its number.
#[derive(Drop)]
pub struct Fates {
    each: Vec<Fate>,
}

impl Model for Fates {
    ghost use Rattle.std.specs.Prelude.{List};
    ghost use Rattle.testkit_rounds.specs.declared.fates.Fate.{Fate};

    ghost Value = { List Fate };

    ghost view = { λ f. f.each.items };
}

impl Fates {
    /// Makes fates for this number of values, each of which is open. `Err`: memory was refused.
    pub fn new(alloc: Global, values: u64) -> Result<Fates, AllocError>
        ensures { IfOk result (λ f. f ≡ replicate values Open) }
    {
        Ok(Fates {
            each: vec![in alloc; Fate::Open; values as usize]?,
        })
    }

    /// Returns the fate of the value. `None`: no value has this number.
    pub fn of(&self, number: u64) -> Option<Fate>
        ensures { result ≡ slice_get self.now number }
    {
        self.each.get(number as usize).copied()
    }

    /// Sets the fate of a value whose fate is open. `Err`: the value has a fate, or no value has this number. Then nothing changes.
    pub fn settle(&mut self, number: u64, fate: Fate) -> Result<(), RoundFault>
        ensures ok { OnOk result ((slice_get self.old number ≡ Some Open)
            × (self.new ≡ slice_set self.old number fate)) }
        ensures err { OnErr result ((slice_get self.old number ≢ Some Open)
            × (self.new ≡ self.old)) }
    {
        match self.of(number) {
            Some(Fate::Open) => {
                self.each[number as usize] = fate;
                Ok(())
            }
            Some(_) => Err(RoundFault::Doubled(number)),
            None => Err(RoundFault::Unknown(number)),
        }
    }

    /// Sets this fate for each of these values. `Err` is the first fault, and the values before it keep their new fate.
    pub fn settle_all(&mut self, numbers: &[u64], fate: Fate) -> Result<(), RoundFault> {
        for number in numbers {
            self.settle(*number, fate)?;
        }
        Ok(())
    }

    /// Checks that no fate is open. `Err` names the first value whose fate is.
    pub fn check_settled(&self) -> Result<(), RoundFault>
        ensures { IsOk result ↔ All (λ fate. fate ≢ Open) self.now }
    {
        match self.each.iter().position(|fate: &Fate| *fate == Fate::Open) {
            Some(number) => Err(RoundFault::Lost(number as u64)),
            None => Ok(()),
        }
    }

    /// Checks that the same values are entries in both. `Err` names the first value that is an entry in only one of them.
    pub fn check_same_entries(&self, other: &Fates) -> Result<(), RoundFault> {
        for (number, fate) in (0u64..).zip(self.each.as_slice()) {
            let there = other.of(number) == Some(Fate::Entry);
            if there != (*fate == Fate::Entry) {
                return Err(RoundFault::Walk(number));
            }
        }
        Ok(())
    }
}
