// The device's own call of a request: which it is, and whether it comes last.
ghost use Rattle.std.specs.Prelude.{◌≡◌, ◌<◌, ◌≤◌};
ghost use Rattle.rules.specs.Station.{count_d, station};
ghost use Rattle.rules.specs.Calls.{method_for, calls_method, move_call, wake_call, own_call, own_last};
ghost use Rattle.table.specs.Layout.{WellSized};

use rules::{Call, Entry, Kind, Request, Wake};

// Whether a move to state x calls a method, if it exists: the state changes, and not from D3hot to D3cold.
#[tactic(auto, unfolding(rules::specs::Calls::calls_method))]
fn calls_method(state: u8, x: u32) -> bool
    ensures { result ≡ calls_method state x }
{
    x != u32::from(state) && !(state == 3 && x == 4)
}

// The x of the `_PSx` that brings a device to a state: `_PS3` also for D3cold.
#[tactic(auto, unfolding(rules::specs::Calls::method_for))]
fn method_for(x: u32) -> u32
    requires { x ≤ 4 }
    ensures { (result ≡ method_for x) × (result ≤ 3) }
{
    if x == 4 { 3 } else { x }
}

// `_PSx`, for a move of device d to state x.
#[tactic(auto, unfolding(rules::specs::Calls::move_call, rules::specs::Calls::only))]
fn move_call(table: &[u8], e: Entry, d: u32, x: u32) -> Option<Call>
    requires { WellSized table.now × (d < count_d table.now) × (x ≤ 4) }
    ensures { result ≡ move_call (station table.now) e d x }
{
    if !calls_method(e.state, x) {
        return None;
    }
    let m = method_for(x);
    let there = sets::has(u64::from(table::fields::ps(table, d as usize)), m);
    there.then_some(Call::SetState {
        device: d as u8,
        method: m as u8,
    })
}

// `_DSW`, for arming and disarming.
#[tactic(auto, unfolding(rules::specs::Calls::wake_call, rules::specs::Kinds::kind_of, rules::specs::Calls::only))]
fn wake_call(table: &[u8], e: Entry, q: Request) -> Option<Call>
    requires { WellSized table.now × (q.device < count_d table.now) × (q.a ≤ 4) × (q.b ≤ 4) }
    ensures { result ≡ wake_call (station table.now) e q }
{
    let wake = match (q.asks(), e.armed) {
        (Some(Kind::Arm), _) => Wake::Enable {
            sleep: q.a as u8,
            state: q.b as u8,
        },
        (_, 1) => Wake::Disable,
        _ => return None,
    };
    let there = sets::has(u64::from(table::fields::flags(table, q.device as usize)), 1);
    there.then_some(Call::SetWake {
        device: q.device as u8,
        wake,
    })
}

// The own call of a request in range, for a device whose entry is e.
#[tactic(auto, unfolding(rules::specs::Calls::own_call, rules::specs::Kinds::kind_of))]
pub fn own_call(table: &[u8], e: Entry, q: Request) -> Option<Call>
    requires { WellSized table.now × (q.device < count_d table.now) × (q.a ≤ 4) × (q.b ≤ 4) }
    ensures { result ≡ own_call (station table.now) e q }
{
    match q.asks() {
        Some(Kind::Move) => move_call(table, e, q.device, q.a),
        _ => wake_call(table, e, q),
    }
}

// Whether the own call comes last: moving to D0, or arming.
#[tactic(auto, unfolding(rules::specs::Calls::own_last, rules::specs::Kinds::kind_of))]
pub fn own_last(q: Request) -> bool
    ensures { result ≡ own_last q }
{
    match q.asks() {
        Some(Kind::Move) => q.a == 0,
        Some(Kind::Arm) => true,
        _ => false,
    }
}
