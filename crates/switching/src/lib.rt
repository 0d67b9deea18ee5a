// Switching: the calls from an on-set to a target set, before or after a device's own call, or without one. They are written into a plan,
// and looked for in a list.
#![tactic(auto)]

pub mod decode;
pub mod take;
pub mod walk;
pub mod write;

ghost use Rattle.std.specs.Prelude.{◌≡◌, ◌^◌, ◌<◌};
ghost use Rattle.rules.specs.Station.{count_r};
ghost use Rattle.rules.specs.Calls.{switching_of};
ghost use Rattle.table.specs.Layout.{WellSized};

use rules::{Call, Switching};

// The calls from an on-set to a target set by value; the own call and its place are taken as they are.
#[tactic(auto, unfolding(rules::specs::Calls::to_turn_on, rules::specs::Calls::to_turn_off))]
pub fn switching(table: &[u8], own: Option<Call>, last: bool, on: u64, target: u64) -> Switching
    requires { WellSized table.now × (on < 2 ^ count_r table.now) × (target < 2 ^ count_r table.now) }
    ensures { result ≡ switching_of own last on target }
{
    Switching {
        added: sets::minus(target, on),
        removed: sets::minus(on, target),
        own,
        last,
    }
}
