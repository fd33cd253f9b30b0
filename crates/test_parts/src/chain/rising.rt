//! A chain in which each number is greater than the one before it, and a walk along it that makes one load a step.
ghost use Rattle.std.specs.Prelude.{◌≡◌, ◌<◌, suc, IfSome, IfOk};
ghost use mathlib.Core.List.{IsPrefix};
ghost use Rattle.table_chain.specs.History.{Stands};
ghost use Rattle.test_parts.specs.Rising.{Sees};

use crate::same::assert_same;
use std::alloc::Global;
use std::test::Fail;
use table_chain::{Chain, Follows, Showing, Token};

/// Each number is greater than the one before it.
struct Rises;

impl Follows<u64> for Rises {
    ghost use Rattle.std.specs.Prelude.{◌<◌};

    ghost begins = { λ n. Unit {0} };

    ghost follows = { λ m n. m < n };
}

type Rising = Chain<u64, Rises, Global>;

type Seen = Token<u64, Rises>;

/// Returns the number in the slot after `slot`, whose number is `here`. It is greater than `here`. `None` means that this slot was empty.
fn climb<'a>(
    chain: &'a Rising,
    seen: &mut Seen,
    slot: usize,
    next: usize,
    here: u64,
) -> Option<&'a u64>
    requires sees { Sees chain.now seen.old.book seen.old.names seen.old.log }
    requires next { next ≡ suc slot }
    requires inside { next < chain.now.slots }
    requires here { Stands seen.old.log slot here }
    ensures sees { Sees chain.now seen.new.book seen.new.names seen.new.log }
    ensures longer { IsPrefix seen.old.log seen.new.log }
    ensures there { IfSome result (λ n. Stands seen.new.log next n.now) }
    ensures greater { IfSome result (λ n. here < n.now) }
{
    match chain.look(seen, next) {
        Some(found) => {
            chain.each_follows(seen);
            Some(found)
        }
        None => None,
    }
}

/// Offers a greater number to the slot after `slot`, whose number is `here`. Returns whether the slot then has this number.
fn rise(chain: &Rising, seen: &mut Seen, slot: usize, next: usize, here: u64, number: u64) -> bool
    requires sees { Sees chain.now seen.old.book seen.old.names seen.old.log }
    requires next { next ≡ suc slot }
    requires inside { next < chain.now.slots }
    requires here { Stands seen.old.log slot here }
    requires greater { here < number }
{
    match chain.show(seen, next, number) {
        Showing::Shown(shown) => *shown == number,
        Showing::Other(_, _) | Showing::Refused(_) => false,
    }
}

/// Makes a chain of three slots that begins with 3. `Err`: no memory.
fn made(alloc: Global) -> Result<Rising, Fail>
    ensures slots { IfOk result (λ c. c.slots ≡ 3) }
    ensures first { IfOk result (λ c. Stands c.start 0 3) }
{
    match Chain::new(alloc, 3, 3) {
        Ok(chain) => Ok(chain),
        Err(_) => Err(Fail::from("a chain")),
    }
}

#[test]
fn a_walk_meets_each_number(rt: HostRuntime) -> Result<(), Fail> {
    let chain = made(rt.alloc())?;
    let mut seen = chain.start();
    assert_same(&rt, climb(&chain, &mut seen, 0, 1, 3), None);
    let mut shower = chain.start();
    assert_same(&rt, rise(&chain, &mut shower, 0, 1, 3, 5), true);
    let mut walker = chain.start();
    assert_same(&rt, climb(&chain, &mut walker, 0, 1, 3), Some(&5));
    Ok(())
}
