//! Commands whose requests for memory are refused.
use super::{Host, Script, run_refusing};
use std::alloc::Global;
use std::test::Fail;
use testkit::refusing::Rule;

/// Asserts what `calls` prints for a script under the rule of these numbers. `Err`: no memory.
fn assert_refusing(
    rt: &impl Host,
    rule: (usize, usize, u64, u64),
    text: &str,
    message: &str,
) -> Result<(), Fail> {
    let script = Script::new(rt.alloc(), text)?;
    let rule = Rule::new(rule.0, rule.1, rule.2, rule.3);
    let ended = run_refusing(rt, rule, &[], script.input.as_bytes());
    let status = u8::from(!message.is_empty());
    ended.assert(rt, script.replies.as_str(), message, status);
    Ok(())
}

/// Requests of this many bytes or more are for generations. The words of the first generation take 128 bytes.
const GENERATION: usize = 128;

#[test]
fn generations_are_refused(rt: HostRuntime) -> Result<(), Fail> {
    let first = "i 0 1 = refused; n = 0; c = 0; b = 0; l 0 1 = none; i 0 1 = placed; c = 16";
    assert_refusing(&rt, (GENERATION, usize::MAX, 0, 1), first, "")?;
    let all_but_first =
        "0..16 = placed; i 16 16 = refused; i 4 4 = found; c = 16; n = 16; l 15 15 = some 15; l 16 16 = none";
    assert_refusing(
        &rt,
        (GENERATION, usize::MAX, 1, u64::MAX),
        all_but_first,
        "",
    )?;
    let second = "0..8 = placed; c = 16; i 8 8 = placed; c = 32";
    assert_refusing(&rt, (GENERATION, usize::MAX, 1, 1), second, "")
}

#[test]
fn the_first_block_is_refused(rt: HostRuntime) -> Result<(), Fail> {
    // A pair takes 16 bytes. Its block takes more, since the allocator's handle lies in it.
    let block = "i 0 1 = refused; n = 0; c = 16; b = 16; i 0 1 = placed";
    assert_refusing(&rt, (17, 31, 0, 1), block, "")?;
    let pair = "i 0 1 = refused; n = 0; c = 0; i 0 1 = placed";
    assert_refusing(&rt, (16, 16, 0, 1), pair, "")
}

#[test]
fn a_walk_without_memory(rt: HostRuntime) -> Result<(), Fail> {
    // The third request for 16 bytes is for the two numbers of the walk.
    let walk = "i 0 7 = placed; i 0 9 = placed; w; n";
    assert_refusing(&rt, (16, 16, 2, 1), walk, "no memory\n")
}

/// Inserts 17 pairs and the fifth again, then all of these once more, and asks for the length.
const INSERTS: &str = "0..17; i 4 4; 0..17; i 4 4; n";

/// The replies if no insert is refused.
const NONE_REFUSED: &str = "0..17 = placed; x = found; 0..17 = found; x = found; n = 17";

/// The replies if the fifth insert is refused. The next insert of its pair follows before the others come again.
const FIFTH_REFUSED: &str =
    "0..4 = placed; x = refused; 5..17 = placed; x = placed; 0..17 = found; x = found; n = 17";

/// Returns the script of the replies if the first insert of this pair is refused, or no insert for `None`. The next insert of the pair places
/// it. `Err`: no memory.
fn replies_if(alloc: Global, refused: Option<usize>) -> Result<Script, Fail> {
    let pair = match refused {
        None => return Script::new(alloc, NONE_REFUSED),
        Some(4) => return Script::new(alloc, FIFTH_REFUSED),
        Some(pair) => pair,
    };
    let next = pair.saturating_add(1);
    let text = format!(in alloc;
        "0..{pair} = placed; x = refused; {next}..17 = placed; x = found; \
        0..{pair} = found; x = placed; {next}..17 = found; x = found; n = 17"
    )?;
    Script::new(alloc, text.as_str())
}

/// Refuses one request of a run of `INSERTS`, and asserts its replies. Returns whether an insert was refused. `Err`: no memory.
fn refuse_one(rt: &impl Host, first: &str, granted: u64) -> Result<bool, Fail> {
    let lines = Script::new(rt.alloc(), INSERTS)?;
    let rule = Rule::new(0, usize::MAX, granted, 1);
    let ended = run_refusing(rt, rule, &["calls", first], lines.input.as_bytes());
    let refused = ended.text().lines().position(|reply| reply == "refused");
    let wanted = replies_if(rt.alloc(), refused)?;
    ended.assert(rt, wanted.replies.as_str(), "", 0);
    Ok(refused.is_some())
}

#[test]
fn each_request_is_refused_in_turn(rt: HostRuntime) -> Result<(), Fail> {
    for first in ["16", "32"] {
        let mut refusals = 0u64;
        for granted in 0..100 {
            let is_refused = refuse_one(&rt, first, granted)?;
            refusals = refusals.saturating_add(u64::from(is_refused));
        }
        // Each of the 17 pairs makes two requests, for the pair and for its block. The first also makes two for the marks and words of its
        // generation.
        assert_eq!(rt; refusals, 36, "{first}");
    }
    Ok(())
}
