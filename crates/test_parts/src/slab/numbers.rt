//! Numbers of a slab, by one thread.
ghost use Rattle.table_slab.specs.Runs.{IsRunOf};

use std::alloc::Global;
use std::test::Fail;
use table_slab::{Refused, Run, Slab};

/// Takes `count` numbers, one at a time, or fewer if memory is refused.
pub(crate) fn numbers(slab: &Slab<u64, Global>, alloc: Global, count: usize) -> Vec<u64> {
    let mut run = Run::new();
    let mut found = Vec::new(alloc);
    for _taken in 0..count {
        let Ok((number, _right)) = slab.number(&mut run, 1) else {
            return found;
        };
        if found.push(number).is_err() {
            return found;
        }
    }
    found
}

/// Writes the value at a new number, for good. Returns the number, and what is read there. `None` means that memory was refused.
fn write_and_read(
    slab: &Slab<u64, Global>,
    run: &mut Run<u64, Global>,
    value: u64,
) -> Option<(u64, u64)>
    requires { IsRunOf slab.now run.old }
    ensures { IsRunOf slab.now run.new }
{
    let (number, right) = slab.number(run, 3).ok()?;
    let standing = slab.put(number, right, value).publish();
    Some((number, *slab.get(number, &standing)))
}

/// Writes the value at a new number, and takes it back. `None` means that memory was refused.
fn write_and_take_back(slab: &Slab<u64, Global>, value: u64) -> Option<u64> {
    let mut run = Run::new();
    let (number, right) = slab.number(&mut run, 3).ok()?;
    let (value, _right) = slab.take(number, slab.put(number, right, value));
    Some(value)
}

/// Writes the value at a new number, for good, ends the slab, and takes the value out. `None` means that memory was refused.
fn write_and_end(slab: Slab<u64, Global>, value: u64) -> Option<u64> {
    let mut run = Run::new();
    let (number, right) = slab.number(&mut run, 3).ok()?;
    let standing = slab.put(number, right, value).publish();
    let mut ending = slab.end();
    Some(ending.take_out(number, &standing))
}

/// Takes the next number of a slab, and with it up to `2 ^ 31 - 2` numbers that follow it in its chunk. `Err`: no memory,
/// or no number is left.
fn next_with_others(slab: &Slab<(), Global>) -> Result<u64, Refused> {
    let mut run = Run::new();
    let (number, _right) = slab.number(&mut run, (1 << 31) - 1)?;
    Ok(number)
}

/// Takes all numbers of each chunk, and returns the first number of the last chunk. `None` means that memory was refused.
fn last_first(slab: &Slab<(), Global>) -> Option<u64> {
    let mut last = None;
    for _chunk in 0..32u32 {
        last = Some(next_with_others(slab).ok()?);
    }
    last
}

/// Takes a number of a run, and gives the others back to the slab. Then takes a number of another run. Returns both numbers. `None` means
/// that memory was refused.
fn give_back_and_take(slab: &Slab<u64, Global>) -> Option<(u64, u64)> {
    let mut run = Run::new();
    let (first, _right) = slab.number(&mut run, 4).ok()?;
    slab.give_back(run);
    let mut other = Run::new();
    let (second, _right) = slab.number(&mut other, 4).ok()?;
    Some((first, second))
}

#[test]
fn numbers_follow_each_other(rt: HostRuntime) -> Result<(), Fail> {
    let slab = Slab::new(rt.alloc(), 1)?;
    let taken = numbers(&slab, rt.alloc(), 7);
    assert_eq!(rt; taken.as_slice(), [0, 1, 2, 3, 4, 5, 6].as_slice());
    Ok(())
}

#[test]
fn a_value_stands_at_its_number(rt: HostRuntime) -> Result<(), Fail> {
    let slab = Slab::new(rt.alloc(), 0)?;
    let mut run = Run::new();
    let read = [
        write_and_read(&slab, &mut run, 7),
        write_and_read(&slab, &mut run, 8),
        write_and_read(&slab, &mut run, 9),
    ];
    assert_eq!(rt; read, [Some((0, 7)), Some((1, 8)), Some((2, 9))]);
    Ok(())
}

#[test]
fn a_value_is_taken_back_and_one_is_taken_out(rt: HostRuntime) -> Result<(), Fail> {
    let slab = Slab::new(rt.alloc(), 2)?;
    assert_eq!(rt; write_and_take_back(&slab, 7), Some(7));
    assert_eq!(rt; write_and_end(slab, 8), Some(8));
    Ok(())
}

#[test]
fn the_last_number_is_two_to_the_thirty_two_less_three(rt: HostRuntime) -> Result<(), Fail> {
    let slab = Slab::new(rt.alloc(), 0)?;
    assert_eq!(rt; last_first(&slab), Some((1 << 31) - 1));
    assert!(rt; matches!(next_with_others(&slab), Err(Refused::Numbers)));
    Ok(())
}

#[test]
fn a_returned_number_is_handed_out_again(rt: HostRuntime) -> Result<(), Fail> {
    let slab = Slab::new(rt.alloc(), 3)?;
    assert_eq!(rt; give_back_and_take(&slab), Some((0, 1)));
    Ok(())
}
