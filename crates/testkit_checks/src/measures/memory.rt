//! The memory that a set takes.

use crate::measures::report::Report;
use std::num::nearest_u64_to_f64;
use std::rt::Files;
use std::{fs, io};

/// The bytes of a page of memory.
const PAGE: u64 = 4096;

/// Returns the resident bytes of this process, as Linux counts them. `Err`: the file of these counts can't be read.
pub(crate) fn resident_bytes<R: Files + AllocGlobal>(rt: &R) -> io::Result<u64> {
    let text = fs::read_to_string(rt, "/proc/self/statm")?;
    let pages = match text.split_whitespace().nth(1) {
        Some(pages) => pages.parse::<u64>().unwrap_or(0),
        None => 0,
    };
    Ok(pages.saturating_mul(PAGE))
}

/// Prints by how many bytes per entry this process has grown since it had `before` bytes. `Err`: an I/O error.
pub(crate) fn print_bytes<R: Print + Files + AllocGlobal>(
    rt: &R,
    report: &Report<'_>,
    measurement: &str,
    before: u64,
    entries: u64,
) -> io::Result<()> {
    let name = report.name;
    let bytes = nearest_u64_to_f64(resident_bytes(rt)?.saturating_sub(before))
        / nearest_u64_to_f64(entries);
    println!(rt; "{name} {measurement} {bytes:.2}")
}
