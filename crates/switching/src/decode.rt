// What a word of a list says: it is decoded to a call, and matched on that.
ghost use Rattle.std.specs.Prelude.{◌≡◌};
ghost use Rattle.rules.specs.Calls.{call_of};
ghost use Rattle.switching.specs.Decode.{switched_by, switched};

use rules::Call;

// The resource that a call turns off, or on.
#[tactic(auto, unfolding(crate::specs::Decode::switched_by))]
fn switched_by(off: bool, call: Call) -> Option<u8>
    ensures { result ≡ switched_by off call }
{
    match call {
        Call::ResourceOn(r) if !off => Some(r),
        Call::ResourceOff(r) if off => Some(r),
        _ => None,
    }
}

// The resource that a word turns off, or on.
#[tactic(auto, unfolding(crate::specs::Decode::switched))]
pub fn switched(off: bool, word: u32) -> Option<u8>
    ensures { result ≡ switched off (call_of word) }
{
    switched_by(off, calls::call_of(word)?)
}
