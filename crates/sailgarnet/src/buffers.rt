// Plans and lists as bytes, four a word, lowest first. The stages are asked one after the other, so that what is no table is refused before
// anything else is called.
ghost use Rattle.std.specs.Prelude.{◌≡◌, ◌≤◌, ◌*◌, length};
ghost use Rattle.std.specs.Fn.{FnOnceReturnsAt};
ghost use Rattle.words.specs.Words.{byte_words};
ghost use Rattle.rules.specs.Station.{station};
ghost use Rattle.rules.specs.Status.{status};
ghost use Rattle.rules.specs.Check.{conforming_to};
ghost use Rattle.request.specs.Permitted.{PermittedRequest};
ghost use Rattle.rules.specs.Outcomes.{of_bytes, plan_bytes, check_bytes};
ghost use Rattle.rules.specs.BringUp.{bring_up_bytes, conforming_to_bring_up, check_bring_up_bytes};
ghost use Rattle.laws.specs.Demand3.{Demand3Bytes};
ghost use Rattle.laws.specs.BringUp.{BringUpCheckedBytes};
ghost use Rattle.bringup.specs.Passed.{BringUpState};
ghost use Rattle.sailgarnet.specs.Lists.{words_in_bytes, OnWords};

use planner::element::Element;
use rules::{Reason, Refusal, Request, Verdict};

// Plans one request on a plan of bytes.
#[tactic(auto, using(planner::proofs::Whole::elements_bytes))]
pub fn plan_bytes(table: &[u8], state: &mut [u8], q: Request, plan: &mut [u8]) -> Verdict
    ensures { (result ≡ (plan_bytes table.now state.old q plan.old).verdict)
        × (state.new ≡ (plan_bytes table.now state.old q plan.old).state)
        × (plan.new ≡ (plan_bytes table.now state.old q plan.old).plan) }
{
    planner::plan::plan_elements(table, state, q, plan)
}

// The words of so many bytes: a list that conforms has whole words, and no more than a plan.
fn words_in(bytes: usize) -> Option<usize>
    ensures { result ≡ words_in_bytes bytes }
{
    (bytes % 4 == 0 && bytes / 4 <= 65).then_some(bytes / 4)
}

// What the test says of the first n words of the bytes, read into a buffer of N. How many there are has been asked (`words_in`), and is not
// asked again of the bytes.
fn test_words<const N: usize, F: FnOnce(&[u32]) -> bool>(list: &[u8], n: usize, test: F) -> bool
    requires fits { (4 * n ≤ length list.now) × (n ≤ N) × (N ≤ 65) }
    requires callable { F.IsAlwaysCallable test }
    ensures { FnOnceReturnsAt F.FnOnce test (byte_words n list.now) result }
{
    let mut buffer = [0u32; N];
    let words = &mut buffer[..n];
    words::read_words(list, words);
    test(words)
}

// What the test says of a list of bytes as words. A list of at most 33, which is the longest of version 1, is read into a buffer of 33,
// since to make one sets all its words to zero.
fn on_words<F: FnOnce(&[u32]) -> bool>(list: &[u8], test: F) -> bool
    requires { F.IsAlwaysCallable test }
    ensures { OnWords (FnOnceReturnsAt F.FnOnce test) list.now result }
{
    let Some(n) = words_in(list.len()) else {
        return false;
    };
    if n > 33 {
        return test_words::<65, F>(list, n, test);
    }
    test_words::<33, F>(list, n, test)
}

// Whether a list of bytes is that of a request which has passed every check.
fn conforming(table: &[u8], state: &[u8], q: Request, list: &[u8]) -> bool
    requires { PermittedRequest table.now state.now q }
    ensures { result ≡ of_bytes (conforming_to (station table.now) (status table.now state.now) q)
        list.now }
{
    on_words(
        list,
        |words| checker::check::conforming(table, state, q, words),
    )
}

// The checker on a list of bytes. What it passes keeps demand 3.
pub fn check_bytes(table: &[u8], state: &[u8], q: Request, list: &[u8]) -> Verdict
    ensures answer { result ≡ check_bytes table.now state.now q list.now }
    ensures demand { Demand3Bytes table.now state.now q list.now }
{
    table::check_table(table)?;
    request::stages::past_table(table, state, true, q)?;
    if !conforming(table, state, q, list) {
        return Err(Refusal(Reason::NotConforming, 0));
    }
    Ok(0)
}

// Bring-up on a plan of bytes. That on a plan of words stands in a function of its own, since bringup is below the planner, which has the
// trait of elements.
pub fn bring_up_bytes(table: &[u8], state: &mut [u8], plan: &mut [u8]) -> Verdict
    ensures { (result ≡ (bring_up_bytes table.now state.old plan.old).verdict)
        × (state.new ≡ (bring_up_bytes table.now state.old plan.old).state)
        × (plan.new ≡ (bring_up_bytes table.now state.old plan.old).plan) }
{
    table::check_table(table)?;
    let room = plan.len() >= 4 * switching::write::room(table);
    bringup::stages::past_table(table, state, room)?;
    Ok(u8::write_bring_up(table, state, plan))
}

// Whether a list of bytes conforms to the bring-up of a state that has passed every check.
fn conforming_to_bring_up(table: &[u8], state: &[u8], list: &[u8]) -> bool
    requires { BringUpState table.now state.now }
    ensures { result ≡ of_bytes (conforming_to_bring_up (station table.now) (status table.now state.now))
        list.now }
{
    on_words(
        list,
        |words| bringup::check::conforming(table, state, words),
    )
}

// The checker of bring-up on a list of bytes.
pub fn check_bring_up_bytes(table: &[u8], state: &[u8], list: &[u8]) -> Verdict
    ensures answer { result ≡ check_bring_up_bytes table.now state.now list.now }
    ensures checked { BringUpCheckedBytes table.now state.now list.now }
{
    table::check_table(table)?;
    bringup::stages::past_table(table, state, true)?;
    if !conforming_to_bring_up(table, state, list) {
        return Err(Refusal(Reason::NotConforming, 0));
    }
    Ok(0)
}
