//! The number of buckets with which a table may begin.
ghost use Rattle.std.specs.Prelude.{◌↔◌, IsTrue};
ghost use Rattle.table_terms.specs.Capacities.{IsFirstCapacity};

/// The capacity of the first generation of a table made by `new`.
pub const FIRST_CAPACITY: usize = 16;

/// Returns whether the first generation of a table may have `first` buckets: `first` is a power of two from 16 to 2^30.
pub fn is_first_capacity(first: u64) -> bool
    ensures { IsTrue result ↔ IsFirstCapacity first }
{
    if first < 16 || first > 1 << 30 {
        return false;
    }
    first.is_power_of_two()
}
