// All calls of a switching, written into the plan in their order. The plan goes with the word to write at, and no rest of it is handed on:
// a rest that is lent would have to be put back together for what the contracts say of the whole plan.
ghost use Rattle.std.specs.Prelude.{◌≡◌, map, false, ◌+◌, ◌^◌, ◌<◌, ◌≤◌, length};
ghost use Rattle.words.specs.Words.{put};
ghost use Rattle.rules.specs.Station.{width, count_r, station};
ghost use Rattle.rules.specs.Calls.{word_of, list_of, switching_words};
ghost use Rattle.rules.specs.Outcomes.{list_room};
ghost use Rattle.table.specs.Layout.{WellSized};
ghost use Rattle.calls.specs.Ranges.{OptionalInRange};
ghost use Rattle.calls.specs.Phases.{phase_words};
ghost use Rattle.switching.specs.Switching.{GoodSwitching};

use calls::order::emit;
use calls::word_of;
use rules::{Call, Switching};

// The words that a list has room for in a plan.
pub fn room(table: &[u8]) -> usize
    requires { WellSized table.now }
    ensures { (result ≡ list_room (width table.now)) × (result ≤ 65) }
{
    table::fields::limit(table) + 1
}

// The own call's word, if there is one. The answer is the place after it.
fn write_own(own: Option<Call>, plan: &mut [u32], at: usize) -> usize
    requires { OptionalInRange own × (at + length (list_of own) ≤ length plan.old) }
    ensures { (result ≡ at + length (map word_of (list_of own)))
        × (plan.new ≡ put plan.old at (map word_of (list_of own))) }
{
    match own {
        Some(call) => {
            plan[at] = word_of(call);
            at + 1
        }
        None => at,
    }
}

// The words that turn one set on, then those that turn another off. The answer is the place after the last.
pub fn write_switches(table: &[u8], added: u64, removed: u64, plan: &mut [u32], at: usize) -> usize
    requires { WellSized table.now × (added < 2 ^ count_r table.now) × (removed < 2 ^ count_r table.now)
        × (at + length (phase_words (station table.now) added removed) ≤ length plan.old) }
    ensures { (result ≡ at + length (phase_words (station table.now) added removed))
        × (plan.new ≡ put plan.old at (phase_words (station table.now) added removed)) }
{
    let p = emit(table, false, added, plan, at);
    emit(table, true, removed, plan, p)
}

// The words of all calls where the own call comes first, from the start of the plan. The answer is their count. Small enough for the
// compiler to put it into both its callers.
pub fn write_own_first(table: &[u8], c: Switching, plan: &mut [u32]) -> usize
    requires { WellSized table.now × GoodSwitching table.now c × (list_room (width table.now) ≤ length plan.old)
        × (c.last ≡ false) }
    ensures { (result ≡ length (switching_words (station table.now) c))
        × (plan.new ≡ put plan.old 0 (switching_words (station table.now) c)) }
{
    let own = c.own;
    let p = write_own(own, plan, 0);
    write_switches(table, c.added, c.removed, plan, p)
}

// The words of all calls, from the start of the plan. The answer is their count.
pub fn write_calls(table: &[u8], c: Switching, plan: &mut [u32]) -> usize
    requires { WellSized table.now × GoodSwitching table.now c × (list_room (width table.now) ≤ length plan.old) }
    ensures { (result ≡ length (switching_words (station table.now) c))
        × (plan.new ≡ put plan.old 0 (switching_words (station table.now) c)) }
{
    if c.last {
        let own = c.own;
        let p = write_switches(table, c.added, c.removed, plan, 0);
        write_own(own, plan, p)
    } else {
        write_own_first(table, c, plan)
    }
}
