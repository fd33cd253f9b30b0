//! Chains of numbers that count their drops.
ghost use Rattle.std.specs.Prelude.{◌≡◌, ◌<◌, IfSome};
ghost use Rattle.table_chain.specs.History.{Stands};
ghost use Rattle.test_parts.specs.Known.{Knows};

use std::sync::Arc;
use std::sync::atomic::AtomicU64;
use table_cell::Low;
use table_chain::{Chain, Follows, Showing, Token};
use testkit::counting::Counting;

/// The rule of a chain in which any value may follow any other.
pub struct Any;

impl<G> Follows<G> for Any {
    ghost begins = { λ g. Unit {0} };

    ghost follows = { λ f g. Unit {0} };
}

pub type Numbers<A> = Chain<Counting, Any, A>;

pub type Seen = Token<Counting, Any>;

/// What became of a value. `Shown` has the number that the slot shows. `Other` has that number, and then the number that was returned.
#[derive(PartialEq, Debug, Clone, Copy)]
pub enum Fared {
    Shown(u64),
    Other(u64, u64),
    Refused,
    Full,
}

impl Fared {
    /// Returns what became of a value, by the result of `show`.
    pub fn of(showing: Showing<'_, Counting>) -> Fared {
        match showing {
            Showing::Shown(value) => Fared::Shown(value.number),
            Showing::Other(value, back) => Fared::Other(value.number, back.number),
            Showing::Refused(_) => Fared::Refused,
        }
    }
}

/// Makes a chain of four slots that begins with the number 7. `None` means that memory was refused.
pub fn made<A: Low + Copy>(alloc: A, drops: Arc<AtomicU64>) -> Option<Numbers<A>>
    ensures slots { IfSome result (λ c. c.slots ≡ 4) }
    ensures first { IfSome result (λ c. (g : _) × Stands c.start 0 g) }
{
    Chain::new(alloc, 4, Counting::new(7, drops)).ok()
}

/// Offers the number to the second slot by `show`. Returns what became of it.
pub fn show<A: Low + Copy>(chain: &Numbers<A>, number: u64, drops: Arc<AtomicU64>) -> Fared
    requires slots { 1 < chain.now.slots }
    requires first { (g : _) × Stands chain.now.start 0 g }
{
    let mut seen = chain.start();
    Fared::of(chain.show(&mut seen, 1, Counting::new(number, drops)))
}

/// Offers the number to the slot after the newest value. Returns what became of it, or `Full` if there is no such slot.
pub fn push<A: Low + Copy>(
    chain: &Numbers<A>,
    seen: &mut Seen,
    number: u64,
    drops: Arc<AtomicU64>,
) -> Fared
    requires known { Knows chain.now seen.old.book seen.old.names seen.old.log }
    ensures known { Knows chain.now seen.new.book seen.new.names seen.new.log }
{
    let slots = chain.slots();
    let (newest, _value) = chain.newest(seen, 0);
    if newest + 1 < slots {
        Fared::of(chain.show(seen, newest + 1, Counting::new(number, drops)))
    } else {
        Fared::Full
    }
}
