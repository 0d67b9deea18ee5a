// A call as a word of the plan, and back; and the words that switch a resource.
#![tactic(auto)]

pub mod order;
pub mod own;

ghost use Rattle.std.specs.Prelude.{◌≡◌, eqb};
ghost use Rattle.rules.specs.Calls.{word_of, wake_word, call_of, call_of_bytes, wake_of};
ghost use Rattle.calls.specs.Ranges.{WakeInRange, InRange};
ghost use Rattle.calls.specs.Switch.{switch_word};

use rules::{Call, Wake};

// The word of a `_DSW` call.
fn wake_word(device: u8, wake: Wake) -> u32
    requires { WakeInRange wake }
    ensures { result ≡ wake_word device wake }
{
    match wake {
        Wake::Enable { sleep, state } => u32::from_le_bytes([4, device, sleep, 128 + state]),
        Wake::Disable => u32::from_le_bytes([4, device, 0, 0]),
    }
}

// The word of a call of RULES.md 2.9. No `From`, which may ask nothing of the call. Of another, with a high wake state, it might not fit.
pub fn word_of(call: Call) -> u32
    requires { InRange call }
    ensures { result ≡ word_of call }
{
    match call {
        Call::ResourceOn(r) => u32::from_le_bytes([1, r, 0, 0]),
        Call::ResourceOff(r) => u32::from_le_bytes([2, r, 0, 0]),
        Call::SetState { device, method } => u32::from_le_bytes([3, device, method, 0]),
        Call::SetWake { device, wake } => wake_word(device, wake),
    }
}

// Whether a word says this call.
pub fn says(word: u32, call: Call) -> bool
    requires { InRange call }
    ensures { result ≡ eqb word (word_of call) }
{
    word == word_of(call)
}

// What `_DSW`'s last two bytes say: two zeros, or S and 128 + D.
#[tactic(auto, unfolding(rules::specs::Calls::wake_of))]
fn wake_of(device: u8, x: u8, y: u8) -> Option<Call>
    ensures { result ≡ wake_of device x y }
{
    let wake = match (x, y) {
        (0, 0) => Wake::Disable,
        (0..=4, 128..=132) => Wake::Enable {
            sleep: x,
            state: y - 128,
        },
        _ => return None,
    };
    Some(Call::SetWake { device, wake })
}

// What a word says: a call, or none. No `TryFrom`, whose error would say no more than `None`.
#[tactic(auto, unfolding(rules::specs::Calls::call_of, rules::specs::Calls::call_of_bytes))]
pub fn call_of(word: u32) -> Option<Call>
    ensures { result ≡ call_of word }
{
    match word.to_le_bytes() {
        [1, r, 0, 0] => Some(Call::ResourceOn(r)),
        [2, r, 0, 0] => Some(Call::ResourceOff(r)),
        [3, device, method @ 0..=3, 0] => Some(Call::SetState { device, method }),
        [4, device, x, y] => wake_of(device, x, y),
        _ => None,
    }
}

// The word that turns a resource off, or on.
#[tactic(auto, unfolding(crate::specs::Switch::switch_word))]
pub fn switch_word(off: bool, r: u8) -> u32
    ensures { result ≡ switch_word off r }
{
    if off {
        word_of(Call::ResourceOff(r))
    } else {
        word_of(Call::ResourceOn(r))
    }
}
