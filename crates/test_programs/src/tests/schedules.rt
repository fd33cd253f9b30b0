//! Schedules, run by the program and by the machine, with ample memory and with refused requests.
ghost use Rattle.std.specs.Prelude.{◌<◌};

use super::streams::Asking;
use super::{Ended, Host, Script, assert_same, first_lines, line_ends, run_under};
use lock_free_hashtable::raw::Low;
use std::alloc::{Allocator, Global};
use std::cell::Cell;
use std::process::Abort;
use std::test::Fail;
use table_core::event::Event;
use table_core::reply::Finished;
use table_core::state::{State, run, run_with};
use table_terms::capacity::is_first_capacity;
use testkit::refusing::{Refusing, Rule};
use testkit::schedules::script::push_events;
use testkit::schedules::worked::{LOST_TO_AN_EQUAL, Row, SCHEDULES, lines_of, printed_by};
use tool_commands::answers::Answer;
use tool_commands::events::{ScheduleLine, parse_schedule_line};
use tool_commands::gate::ProgramGates;

/// A schedule.
#[derive(Drop)]
struct Schedule {
    /// The first capacity.
    first: u64,
    /// The lines of its events.
    input: String,
    /// The lines of the calls that finish, and the number of buckets for each line `b`.
    printed: String,
}

impl Schedule {
    /// Returns a schedule that requests memory wherever a call can, over a first generation of `first` buckets. `Err`: no memory.
    ///
    /// Two inserts of equal values race for a bucket. Others fill the first generation while its growth is refused. Two more
    /// find it full, and each of them makes the next generation. Look-ups, a walk, an insert that is refused and a length
    /// follow.
    fn asking(alloc: Global, first: u64) -> Result<Schedule, Fail>
        requires { first < 64 }
    {
        let (events, replies) = LOST_TO_AN_EQUAL;
        let mut input = String::new(alloc);
        push_events(&mut input, events)?;
        push_fills(&mut input, alloc, first)?;
        push_growths(&mut input, alloc, first)?;
        let printed = printed_after(alloc, replies, first)?;
        Ok(Schedule {
            first,
            input,
            printed,
        })
    }
}

/// Adds the events of a text in which each of these names stands for its number. `Err`: no memory.
fn push_named(
    input: &mut String,
    alloc: Global,
    events: &str,
    names: &[(&str, u64)],
) -> Result<(), Fail> {
    let mut events = format!(in alloc; "{events}")?;
    for (name, number) in names {
        let digits = format!(in alloc; "{number}")?;
        events = events.replace(alloc, *name, digits.as_str())?;
    }
    push_events(input, events.as_str())?;
    Ok(())
}

/// An insert that places its value. If it wants a growth, that is refused.
const FILL: &str = "go $call $value $hash; own $call; check $call no; free $call";

/// Adds the inserts that fill the first generation. `Err`: no memory.
fn push_fills(input: &mut String, alloc: Global, first: u64) -> Result<(), Fail>
    requires { first < 64 }
{
    for call in 3..first + 2 {
        let names = [("$call", call), ("$value", 9 + call), ("$hash", call - 2)];
        push_named(input, alloc, FILL, names.as_slice())?;
    }
    Ok(())
}

/// The events of the calls `$c` and `$d`, which find the first generation full and place `$v` and `$w` in later ones, and of the calls after
/// them.
const GROWTHS: &str = "insert $c $v 0; share $c; load $c; $first times read $c n; free $c; \
    insert $d $w 0; share $d; load $d; $first times read $d n; free $d; \
    own $c; check $c ok; copies $c $first; show $c; free $c; \
    own $d; check $d ok; copies $d $first; show $d; free $d; \
    share $c; load $c; $b times read $c n; put $c n ok; add $c; free $c; size $c; \
    share $d; load $d; $c times read $d n; put $d n ok; add $d; free $d; size $d; \
    lookup 100 3; load 100; read 100 y; lookup 101 $b; load 101; read 101 n; read 101 n; \
    walk 102; load 102; $all times read 102 n; \
    insert 103 200 $c; share 103; load 103; read 103 n; put 103 n no; free 103; len 104; load 104; size 104; b";

/// Adds the end of the schedule, which begins with the two calls that find the first generation full. `Err`: no memory.
fn push_growths(input: &mut String, alloc: Global, first: u64) -> Result<(), Fail>
    requires { first < 64 }
{
    let names = [
        ("$first", first),
        ("$b", first + 1),
        ("$c", first + 2),
        ("$d", first + 3),
        ("$v", first + 11),
        ("$w", first + 12),
        ("$all", 4 * first),
    ];
    push_named(input, alloc, GROWTHS, names.as_slice())
}

/// Returns these replies, and what the schedule prints after them. `Err`: no memory.
fn printed_after(alloc: Global, replies: &str, first: u64) -> Result<String, Fail>
    requires { first < 64 }
{
    let mut printed = format!(in alloc; "{replies}")?;
    let mut entries = format!(in alloc; "10")?;
    for call in 3..first + 4 {
        let value = 9 + call;
        writeln!(printed, "{call} placed {value}")?;
        write!(entries, ", {value}")?;
    }
    writeln!(printed, "100 some 14\n101 none\n102 walk [{entries}]")?;
    let (length, buckets) = (first + 2, 7 * first);
    writeln!(printed, "103 refused 200\n104 len {length}\n{buckets}")?;
    Ok(printed)
}

/// How a schedule is run.
#[derive(Clone, Copy)]
enum Way {
    /// By `run` or `run_with`.
    Run,
    /// By `State::step`, one event at a time. A refused step is taken again.
    Steps,
    /// By the program.
    Command,
    /// By the program, which reads `ASKING` one line at a time.
    Lines,
}

impl Way {
    /// Runs the schedule, and asserts what it prints. `None` means that no refusal ended the run or a step of it. Otherwise returns how
    /// many lines were printed before the refusal, which only `Command` and `Lines` count: the others return 0. `Err`: no memory for
    /// the test itself.
    fn take<A: Low + Copy + Send + Sync>(
        self,
        rt: &impl Host,
        alloc: A,
        schedule: &Schedule,
    ) -> Result<Option<usize>, Fail> {
        match self {
            Way::Run => run_events(rt, alloc, schedule),
            Way::Steps => take_steps(rt, alloc, schedule),
            Way::Command => run_command(rt, alloc, schedule),
            Way::Lines => run_lines(rt, alloc),
        }
    }
}

/// Runs all events at once, and asserts the replies. Returns 0 if memory was refused. `Err`: no memory for the test itself.
fn run_events<A: Allocator + Copy>(
    rt: &(impl AllocGlobal + Abort),
    alloc: A,
    schedule: &Schedule,
) -> Result<Option<usize>, Fail> {
    let events = events_of(rt.alloc(), schedule)?;
    assert!(rt; is_first_capacity(schedule.first));
    let replies = match schedule.first {
        16 => run(alloc, events.as_slice()),
        first => run_with(alloc, first, events.as_slice()),
    };
    let Ok(replies) = replies else {
        return Ok(Some(0));
    };
    let lines = replies_as_lines(rt.alloc(), replies.as_slice())?;
    let wanted = replies_among(rt.alloc(), schedule.printed.as_str())?;
    assert_same(rt, lines.as_str(), wanted.as_str());
    Ok(None)
}

/// Returns the events of a schedule. `Err`: no memory, or a line that is no event.
fn events_of(alloc: Global, schedule: &Schedule) -> Result<Vec<Event>, Fail> {
    let mut events = Vec::new(alloc);
    for line in schedule.input.lines() {
        match parse_schedule_line(line.as_bytes()) {
            Some(ScheduleLine::Step(event)) => events.push(event)?,
            Some(ScheduleLine::Buckets) => (),
            None => return Err(Fail::from("no line")),
        }
    }
    Ok(events)
}

/// Returns the lines of these replies. `Err`: no memory.
fn replies_as_lines<A: Allocator + Copy>(
    alloc: Global,
    replies: &[Finished<A>],
) -> Result<String, Fail> {
    let mut lines = String::new(alloc);
    for finished in replies {
        writeln!(lines, "{}", Answer { finished })?;
    }
    Ok(lines)
}

/// Returns the lines of finished calls among these lines, which are those with a space. `Err`: no memory.
fn replies_among(alloc: Global, printed: &str) -> Result<String, Fail> {
    let mut replies = String::new(alloc);
    for line in printed.lines() {
        if line.contains(' ') {
            writeln!(replies, "{line}")?;
        }
    }
    Ok(replies)
}

/// Takes the lines one by one, and asserts what they print. Returns 0 if a step was refused. `Err`: no memory for the test itself.
fn take_steps<A: Allocator + Copy>(
    rt: &(impl AllocGlobal + Abort),
    alloc: A,
    schedule: &Schedule,
) -> Result<Option<usize>, Fail> {
    assert!(rt; is_first_capacity(schedule.first));
    let mut ample = State::with_first_capacity(rt.alloc(), schedule.first);
    let mut state = State::with_first_capacity(alloc, schedule.first);
    let mut printed = String::new(rt.alloc());
    let mut refused = None;
    for line in schedule.input.lines() {
        if take_line(rt, &mut ample, &mut state, line, &mut printed)? {
            refused = Some(0);
        }
    }
    assert_same(rt, printed.as_str(), schedule.printed.as_str());
    Ok(refused)
}

/// Takes a line. Asserts that there are then as many buckets as with ample memory. Returns whether a step was refused. `Err`: no memory for
/// the test itself.
fn take_line<A: Allocator + Copy>(
    rt: &impl Abort,
    ample: &mut State,
    state: &mut State<A>,
    line: &str,
    printed: &mut String,
) -> Result<bool, Fail> {
    let is_refused = match parse_schedule_line(line.as_bytes()) {
        Some(ScheduleLine::Step(event)) => {
            ample.step(event)?;
            take_event(rt, state, event, printed)?
        }
        Some(ScheduleLine::Buckets) => {
            writeln!(printed, "{}", state.buckets())?;
            false
        }
        None => return Err(Fail::from("no line")),
    };
    assert_same(rt, state.buckets(), ample.buckets());
    Ok(is_refused)
}

/// Takes the step of an event, and takes it again if it is refused. Asserts that a refused step keeps the number of buckets. Returns
/// whether the step was refused. `Err`: no memory for the test itself.
fn take_event<A: Allocator + Copy>(
    rt: &impl Abort,
    state: &mut State<A>,
    event: Event,
    printed: &mut String,
) -> Result<bool, Fail> {
    let buckets = state.buckets();
    let (finished, is_refused) = match state.step(event) {
        Ok(finished) => (finished, false),
        Err(_) => {
            assert_same(rt, state.buckets(), buckets);
            (state.step(event)?, true)
        }
    };
    if let Some(finished) = &finished {
        writeln!(printed, "{}", Answer { finished })?;
    }
    Ok(is_refused)
}

/// Runs `core` over the schedule. If a refusal ends it, asserts that it printed the first lines, each whole, and returns how many.
/// Otherwise asserts that it printed all. `Err`: no memory for the test itself.
fn run_command<A: Low + Copy + Send + Sync>(
    rt: &impl Host,
    alloc: A,
    schedule: &Schedule,
) -> Result<Option<usize>, Fail> {
    let word = format!(in rt.alloc(); "{}", schedule.first)?;
    let count = if schedule.first == 16 { 1 } else { 2 };
    let words = &["core", word.as_str()][..count];
    let input = schedule.input.as_bytes();
    let ended = run_under(rt, alloc, &ProgramGates, words, input);
    let lines = line_ends(ended.output.as_slice());
    assert_begun(rt, &ended, schedule.printed.as_str(), lines)
}

/// Asserts that a run printed all of these lines. If a refusal ended it, asserts that it printed the first `lines`, and returns that
/// number. `Err`: no memory for the test itself.
fn assert_begun(
    rt: &(impl AllocGlobal + Abort),
    ended: &Ended,
    printed: &str,
    lines: usize,
) -> Result<Option<usize>, Fail> {
    if ended.status == 0 {
        ended.assert(rt, printed, "", 0);
        return Ok(None);
    }
    let begun = first_lines(rt.alloc(), printed, lines)?;
    ended.assert(rt, begun.as_str(), "no memory\n", 1);
    Ok(Some(lines))
}

/// A schedule that requests memory in each way, as a script.
const ASKING: &str =
    "insert 1 10 0; share 1; load 1; free 1; own 1; check 1 ok; show 1; free 1; b = 16; \
    share 1; load 1; read 1 n; put 1 n ok; add 1; free 1; size 1 = 1 placed 10; lookup 2 0; load 2; read 2 y = 2 some 10; \
    walk 3; load 3; read 3 n; len 4; load 4";

/// Runs `core` over `ASKING`, which it reads one line at a time. Asserts that before a refusal it prints the replies to all lines that came
/// before. `Err`: no memory for the test itself.
fn run_lines<A: Low + Copy + Send + Sync>(rt: &impl Host, alloc: A) -> Result<Option<usize>, Fail> {
    let script = Script::new(rt.alloc(), ASKING)?;
    let (sent, mut seen) = (Cell::new(0), Vec::new(rt.alloc()));
    let reader = Asking::new(script.input.as_bytes(), &sent, &mut seen);
    let ended = run_under(rt, alloc, &ProgramGates, &["core"], reader);
    let lines = replies_to(seen.len().saturating_sub(1));
    assert_begun(rt, &ended, script.replies.as_str(), lines)
}

/// Returns how many of the first `count` lines of `ASKING` have a reply.
fn replies_to(count: usize) -> usize {
    let taken = ASKING.split("; ").take(count);
    taken.filter(|part| part.contains(" = ")).count()
}

/// Asserts what a schedule prints, in each way that can run it. `Err`: no memory.
fn assert_worked(rt: &impl Host, row: &Row) -> Result<(), Fail> {
    let schedule = Schedule {
        first: row.0,
        input: lines_of(rt.alloc(), row)?,
        printed: printed_by(rt.alloc(), row)?,
    };
    for way in [Way::Run, Way::Steps, Way::Command] {
        assert!(rt; way.take(rt, rt.alloc(), &schedule)?.is_none());
    }
    Ok(())
}

#[test]
fn worked_schedules(rt: HostRuntime) -> Result<(), Fail> {
    for row in &SCHEDULES {
        assert_worked(&rt, row)?;
    }
    Ok(())
}

/// More requests than any schedule here makes.
const REQUESTS: u64 = 10_000;

/// Refuses `refused` requests of the schedule in a row, from each request on in turn, until a run makes no request that is refused.
/// `Err`: each run did, or no memory for the test itself.
fn refuse_each(rt: &impl Host, way: Way, refused: u64, schedule: &Schedule) -> Result<(), Fail> {
    let mut refusals = 0u64;
    for granted in 0..REQUESTS {
        let memory = Refusing::new(rt.alloc(), Rule::new(0, usize::MAX, granted, refused));
        let ended = way.take(rt, &memory, schedule)?;
        if memory.refusals_left() == refused {
            assert!(rt; ended.is_none() && refusals > 0);
            return Ok(());
        }
        // Nothing is printed before the first request.
        assert!(rt; granted > 0 || ended == Some(0));
        refusals = refusals.saturating_add(u64::from(ended.is_some()));
    }
    Err(Fail::from("no run with ample memory"))
}

/// Refuses the requests of the schedule in turn, in each way. `Err`: a request was refused in each run, or no memory for the test itself.
fn refuse_in_each_way(rt: &impl Host, schedule: &Schedule) -> Result<(), Fail> {
    refuse_each(rt, Way::Run, u64::MAX, schedule)?;
    for way in [Way::Run, Way::Steps, Way::Command, Way::Lines] {
        refuse_each(rt, way, 1, schedule)?;
    }
    Ok(())
}

#[test]
fn each_request_of_a_schedule_is_refused_in_turn(rt: HostRuntime) -> Result<(), Fail> {
    refuse_in_each_way(&rt, &Schedule::asking(rt.alloc(), 16)?)?;
    refuse_in_each_way(&rt, &Schedule::asking(rt.alloc(), 32)?)
}
