// A whole list: the ONs, then the OFFs, the own call before or after them, and nothing else.
ghost use Rattle.std.specs.Prelude.{◌≡◌, [], ◌∷◌, ◌^◌, ◌<◌};
ghost use Rattle.rules.specs.Station.{count_r, station};
ghost use Rattle.rules.specs.Calls.{word_of};
ghost use Rattle.rules.specs.Check.{take_words, is_end};
ghost use Rattle.table.specs.Layout.{WellSized};
ghost use Rattle.calls.specs.Ranges.{InRange, OptionalInRange};
ghost use Rattle.switching.specs.Switching.{GoodSwitching};
ghost use Rattle.switching.specs.Phases.{Leaves, own_words, take_phases, take_switching, walked};

use crate::take::take_phase;
use rules::{Call, Switching};

// What is left of the list after a call's word. Words are compared: a word is this call's exactly if it decodes to the call (`says_call` of
// crates/calls).
fn take_call(call: Call, list: &[u32]) -> Option<&[u32]>
    requires { InRange call }
    ensures { Leaves result (take_words (word_of call ∷ []) list.now) }
{
    let (word, rest) = list.split_first()?;
    if !calls::says(*word, call) {
        return None;
    }
    Some(rest)
}

// What is left after the own call, where it is due here and there is one.
fn take_own(own: Option<Call>, here: bool, list: &[u32]) -> Option<&[u32]>
    requires { OptionalInRange own }
    ensures { Leaves result (take_words (own_words here own) list.now) }
{
    match own {
        Some(call) if here => take_call(call, list),
        _ => Some(list),
    }
}

// What is left after the words that turn one set on, then those that turn another off.
fn take_phases<'a>(table: &[u8], added: u64, removed: u64, list: &'a [u32]) -> Option<&'a [u32]>
    requires { WellSized table.now × (added < 2 ^ count_r table.now) × (removed < 2 ^ count_r table.now) }
    ensures { Leaves result (take_phases (station table.now) added removed list.now) }
{
    let offs = take_phase(table, false, added, list)?;
    take_phase(table, true, removed, offs)
}

// Whether the list turns one set on, then another off, and nothing else.
pub fn walk_phases(table: &[u8], added: u64, removed: u64, list: &[u32]) -> bool
    requires { WellSized table.now × (added < 2 ^ count_r table.now) × (removed < 2 ^ count_r table.now) }
    ensures { result ≡ is_end (take_phases (station table.now) added removed list.now) }
{
    matches!(take_phases(table, added, removed, list), Some([]))
}

// What is left after all calls of a switching.
fn take_switching<'a>(table: &[u8], c: Switching, list: &'a [u32]) -> Option<&'a [u32]>
    requires { WellSized table.now × GoodSwitching table.now c }
    ensures { Leaves result (take_switching (station table.now) c list.now) }
{
    let own = c.own;
    let switches = take_own(own, !c.last, list)?;
    let end = take_phases(table, c.added, c.removed, switches)?;
    take_own(own, c.last, end)
}

// Whether the list is the calls of a switching and nothing else.
pub fn walk(table: &[u8], c: Switching, list: &[u32]) -> bool
    requires { WellSized table.now × GoodSwitching table.now c }
    ensures { result ≡ walked (station table.now) c list.now }
{
    matches!(take_switching(table, c, list), Some([]))
}
