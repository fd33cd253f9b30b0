//! Sums of the counts of several shards.
ghost use Rattle.std.specs.Iterator.{IsFinite};
ghost use Rattle.table_shards.specs.SharedShards.{AddsUp};

/// Returns the sum of these counts, or `usize::MAX` if it is more.
pub(super) fn capped_total<I: Iterator<Item = usize>>(counts: I) -> usize
    requires can { I.can_next counts }
    requires ends { IsFinite (I.remaining counts) }
    ensures { AddsUp I.next_gives counts result }
{
    let mut total: usize = 0;
    for count in counts {
        total = total.saturating_add(count);
    }
    total
}
