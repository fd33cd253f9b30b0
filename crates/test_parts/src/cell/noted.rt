//! One note over several looks at a bucket that is set through `&`.
ghost use Rattle.std.specs.Prelude.{◌≡◌, Option, Some, None, IfSome, option_copied};
ghost use Rattle.table_cell.specs.Contents.{vacant, Lies};

use std::alloc::Global;
use table_cell::{Bucket, Entry, Home, Missed};

/// What two looks at a bucket show.
#[derive(Clone, Copy)]
struct Looks<'a> {
    first: Option<&'a Entry<u64>>,
    second: Option<&'a Entry<u64>>,
}

/// Looks at the bucket twice with one note. The second look shows each entry that the first shows.
fn look_twice<'a>(home: &'a Home, bucket: &'a Bucket<u64, Global>) -> Looks<'a>
    requires home { bucket.now.home ≡ home.now.id }
    requires vacant { bucket.now.content ≡ vacant }
    ensures { IfSome (option_copied result.first) (λ e. option_copied result.second ≡ Some e) }
{
    let mut note = bucket.as_ref().note();
    Looks {
        first: bucket.as_ref().get(home, &mut note),
        second: bucket.as_ref().get(home, &mut note),
    }
}

/// Offers a value to the bucket, and looks at it with the same note. The look shows the entry that was placed or that came first.
fn place_and_look<'a>(
    home: &'a Home,
    bucket: &'a Bucket<u64, Global>,
    alloc: Global,
    value: u64,
) -> Looks<'a>
    requires lies { Lies home.now.id alloc bucket.now }
    requires vacant { bucket.now.content ≡ vacant }
    ensures { IfSome (option_copied result.first) (λ e. option_copied result.second ≡ Some e) }
{
    let mut note = bucket.as_ref().note();
    let first = match bucket.as_ref().place(home, alloc, value, 7, &mut note) {
        Ok(entry) => Some(entry),
        Err(Missed::Taken(_, entry)) => Some(entry),
        Err(Missed::NoMemory(_)) => None,
    };
    Looks {
        first,
        second: bucket.as_ref().get(home, &mut note),
    }
}

fn values(looks: Looks) -> [Option<u64>; 2] {
    let value = |entry: Option<&Entry<u64>>| Some(entry?.value);
    [value(looks.first), value(looks.second)]
}

/// Returns what two looks show before two exchanges, what each exchange and a look after it show, what two looks show at last, and the
/// value that the bucket returns at the end.
fn life(alloc: Global) -> ([[Option<u64>; 2]; 4], Option<u64>) {
    let home = Home::new();
    let bucket = Bucket::new(&alloc, &home);
    let before = values(look_twice(&home, &bucket));
    let won = values(place_and_look(&home, &bucket, alloc, 5));
    let lost = values(place_and_look(&home, &bucket, alloc, 6));
    let after = values(look_twice(&home, &bucket));
    let mut note = bucket.as_ref().note();
    let _entry = bucket.as_ref().get(&home, &mut note);
    let closed = home.close();
    (
        [before, won, lost, after],
        bucket.take(&closed, alloc, note),
    )
}

#[test]
fn what_a_note_knows_is_shown_again_and_handed_out(rt: HostRuntime) {
    let (seen, taken) = life(rt.alloc());
    assert_eq!(rt;
        seen,
        [
            [None, None],
            [Some(5), Some(5)],
            [Some(5), Some(5)],
            [Some(5), Some(5)]
        ]
    );
    assert_eq!(rt; taken, Some(5));
}
