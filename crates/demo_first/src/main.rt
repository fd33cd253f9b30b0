//! Inserts three numbers, two of which are equal, and looks one up.
#![tactic(auto)]

use std::io;
use table_sets::{HeldSet, InPlace, NumberLaw, Shown};

fn main(rt: HostRuntime) -> io::Result<()> {
    let mut numbers: HeldSet<InPlace<u64>, NumberLaw> = HeldSet::new(rt.alloc());
    for number in [7, 9, 7] {
        match numbers.insert_and_show(InPlace(number)) {
            Shown::Placed(entry) => println!(rt; "{entry}: placed")?,
            Shown::Found(entry, _) => println!(rt; "{number}: found {entry}")?,
            Shown::Refused(_) => println!(rt; "{number}: no memory")?,
        }
    }
    println!(rt; "look-up of 9: {:?}", numbers.get(&9))?;
    Ok(())
}
