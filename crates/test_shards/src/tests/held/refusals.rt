//! Tests of refused memory, for tables over shards and for lists of calls.
use super::makers::two_shards_of;
use super::numbers::{Numbers, holds, insert, show};
use super::runs::{Step, calls, list_reply, plain_replies, run_numbers};
use crate::tests::assert_same;
use lock_free_hashtable::raw::HeldRawTable;
use std::alloc::{AllocError, Global};
use std::process::Abort;
use std::test::Fail;
use testkit::counting::numbers::{InsertEnd, refused_in_turn};
use testkit::refusing::{Refusing, Rule};
use testkit::reply::PlainReply;

/// How many runs are made. Each grants one request more than the run before, and refuses the next one.
const RUNS: u64 = 100;

/// Asserts that a request was refused in more than 17 of the runs, and not in all.
fn assert_requests(rt: &impl Abort, refused: Option<u64>) {
    let refused = refused.unwrap_or(0);
    assert!(rt;
        17 < refused && refused < RUNS,
        "{refused} requests were made"
    );
}

/// The call by which a number is inserted.
#[derive(Clone, Copy)]
enum Form {
    /// A call of `place_alone`.
    Places,
    /// A call of `insert_alone`, which returns the entry.
    Shows,
}

/// Inserts the number by a call of this form, and returns the answer.
fn insert_by(
    form: Form,
    table: &mut Numbers<2, &Refusing<Global>>,
    alloc: Global,
    number: u64,
) -> InsertEnd {
    match form {
        Form::Places => insert(table, alloc, number),
        Form::Shows => show(table, alloc, number),
    }
}

/// Inserts the number, and once more if it is refused. Returns whether it was placed and the entries were right after each try.
fn is_placed(
    form: Form,
    table: &mut Numbers<2, &Refusing<Global>>,
    alloc: Global,
    number: u64,
) -> bool {
    let mut answer = insert_by(form, table, alloc, number);
    if answer == InsertEnd::Refused && holds(table, number) {
        answer = insert_by(form, table, alloc, number);
    }
    answer == InsertEnd::Placed && holds(table, number.wrapping_add(1))
}

/// Inserts 17 numbers and then the fifth again, while the request after the first `passing` ones is refused. Asserts that each is placed,
/// and that the fifth is found then. Returns whether a request was refused.
fn assert_all_placed(rt: &impl Abort, alloc: Global, form: Form, passing: u64) -> bool {
    let heap = Refusing::new(alloc, Rule::new(0, usize::MAX, passing, 1));
    let mut table = two_shards_of(&heap);
    for number in 0..17u64 {
        assert!(rt; is_placed(form, &mut table, alloc, number), "{number}");
    }
    let is_found = insert_by(form, &mut table, alloc, 4) == InsertEnd::Found;
    assert!(rt; is_found && holds(&table, 17));
    heap.refusals_left() == 0
}

#[test]
fn each_request_of_two_shards_refused(rt: HostRuntime) {
    for form in [Form::Places, Form::Shows] {
        let refused = |rt: &HostRuntime, passing: u64| -> Option<u64> {
            Some(u64::from(assert_all_placed(rt, rt.alloc(), form, passing)))
        };
        assert_requests(&rt, refused_in_turn(&rt, RUNS, refused));
    }
}

const STEPS: [Step; 4] = [Step::Insert(1), Step::Insert(1), Step::Lookup(1), Step::Len];

/// Checks that `run_calls` returns the calls and leaves the table empty if the memory for the replies is refused.
#[test]
fn no_room_for_replies(rt: HostRuntime) -> Result<(), Fail> {
    let heap = Refusing::new(rt.alloc(), Rule::new(0, usize::MAX, 1, 1));
    let mut table: HeldRawTable<Box<u64>> = HeldRawTable::new(rt.alloc());
    let calls = calls(&heap, rt.alloc(), STEPS.as_slice())?;
    let back = match run_numbers(&heap, &mut table, calls) {
        Ok(_) => 0,
        Err(back) => back.len(),
    };
    assert_same(&rt, (back, table.len_alone()), (4, 0));
    Ok(())
}

/// Returns the inserts of 17 numbers, and of the fifth of them again. `Err`: no memory.
fn inserts(alloc: Global) -> Result<Vec<Step>, AllocError> {
    let mut steps = Vec::new(alloc);
    for number in 0..17u64 {
        steps.push(Step::Insert(number))?;
    }
    steps.push(Step::Insert(4))?;
    Ok(steps)
}

/// Returns whether the step is an insert whose value was refused and returned.
fn is_refused(step: Step, reply: PlainReply) -> bool {
    matches!((step, reply), (Step::Insert(number), PlainReply::Refused(back)) if number == back)
}

/// Asserts that the answers are those of a list without the refused inserts. Returns the length of the list then. `Err`: no memory.
fn assert_replies_or_refused(
    rt: &impl Abort,
    alloc: Global,
    steps: &[Step],
    replies: &[PlainReply],
) -> Result<usize, AllocError> {
    let mut list = Vec::new(alloc);
    for (step, reply) in steps.iter().zip(replies) {
        if !is_refused(*step, *reply) {
            assert!(rt; *reply == list_reply(&mut list, *step)?);
        }
    }
    Ok(list.len())
}

/// Makes the inserts by one list of calls while the request after the first `passing` ones is refused, and asserts that the answers are
/// right. The first request is the one for the replies: if it is refused, asserts that all calls are returned and the table is empty.
/// `Err`: no memory for the test itself.
fn assert_run(
    rt: &impl Abort,
    alloc: Global,
    heap: &Refusing<Global>,
    table: &mut Numbers<2, &Refusing<Global>>,
    passing: u64,
) -> Result<(), AllocError> {
    let steps = inserts(alloc)?;
    let calls = calls(heap, alloc, steps.as_slice())?;
    heap.refuse(passing, 1);
    match run_numbers(heap, table, calls) {
        Ok(replies) => {
            let replies = plain_replies(alloc, replies.as_slice())?;
            let placed = assert_replies_or_refused(
                rt,
                alloc,
                steps.as_slice(),
                replies.as_slice(),
            )?;
            assert!(rt; passing != 0 && table.len_alone() == placed);
        }
        Err(back) => assert!(rt; passing == 0 && back.len() == 18 && table.len_alone() == 0),
    }
    Ok(())
}

/// Makes the inserts while the request after the first `passing` ones is refused, and then again without refusals. Asserts that all 17
/// numbers are entries then, and returns whether a request was refused. `Err`: no memory for the test itself.
fn assert_run_refused(rt: &impl Abort, alloc: Global, passing: u64) -> Result<bool, AllocError> {
    let heap = Refusing::new(alloc, Rule::new(0, usize::MAX, 0, 0));
    let mut table = two_shards_of(&heap);
    assert_run(rt, alloc, &heap, &mut table, passing)?;
    let was_refused = heap.refusals_left() == 0;
    heap.refuse(0, 0);
    let again = calls(&heap, alloc, inserts(alloc)?.as_slice())?;
    let is_run = run_numbers(&heap, &mut table, again).is_ok();
    assert!(rt; is_run && table.len_alone() == 17);
    Ok(was_refused)
}

#[test]
fn each_request_of_a_list_of_calls_refused(rt: HostRuntime) {
    let refused = |rt: &HostRuntime, passing: u64| -> Option<u64> {
        Some(u64::from(assert_run_refused(rt, rt.alloc(), passing).ok()?))
    };
    assert_requests(&rt, refused_in_turn(&rt, RUNS, refused));
}
