// Requests: answers 10 to 18, and the entry that an accepted request gives its device. No rule here looks at the on-set.
#![tactic(auto)]

pub mod change;
pub mod stages;

ghost use Rattle.std.specs.Prelude.{◌≡◌, true, ◌<◌, ◌≤◌};
ghost use Rattle.rules.specs.Index.{least_option};
ghost use Rattle.rules.specs.Station.{count_d, station};
ghost use Rattle.rules.specs.Status.{entries};
ghost use Rattle.rules.specs.Request.{form_good, not_shallower_or_d0, child_bars, wake_allows, move_verdict, arm_verdict, request_verdict};
ghost use Rattle.rules.specs.Request.{new_entry, numbers_good};
ghost use Rattle.table.specs.Layout.{WellSized};
ghost use Rattle.status.specs.Ready.{Ready};

use rules::{Entry, Kind, Reason, Refusal, Request, Verdict};

// 10: whether kind and numbers are in range and unused ones zero.
#[tactic(auto, unfolding(rules::specs::Request::numbers_good, rules::specs::Kinds::kind_of))]
fn numbers_good(q: Request) -> bool
    ensures { result ≡ numbers_good q }
{
    match q.asks() {
        Some(Kind::Move) => q.a <= 4 && q.b == 0,
        Some(Kind::Arm) => q.a <= 4 && q.b <= 4,
        Some(Kind::Disarm) => q.a == 0 && q.b == 0,
        _ => false,
    }
}

// 10: whether the whole request is in form.
#[tactic(auto, unfolding(rules::specs::Request::form_good, rules::specs::Station::station_of))]
pub fn form_good(table: &[u8], q: Request) -> bool
    requires { WellSized table.now }
    ensures { result ≡ form_good (station table.now) q }
{
    (q.device as usize) < table::fields::devices(table) && numbers_good(q)
}

// 14: whether c is a child of d and shallower than the target.
#[tactic(auto, using(status::proofs::Keeps::entry_ready), unfolding(rules::specs::Request::child_bars))]
fn child_bars(table: &[u8], devices: &[u8], d: usize, x: u8, c: usize) -> bool
    requires { Ready table.now devices.now × (d < count_d table.now) × (c < count_d table.now) }
    ensures { result ≡ child_bars (station table.now) (entries table.now devices.now) d x c }
{
    table::fields::parent(table, c) as usize == d && status::image::entry(devices, c).state < x
}

// 14: the lowest such child.
fn lowest_child(table: &[u8], devices: &[u8], d: usize, x: u8) -> Option<usize>
    requires { Ready table.now devices.now × (d < count_d table.now) }
    ensures { result ≡ least_option (child_bars (station table.now) (entries table.now devices.now) d x)
        (count_d table.now) }
{
    let n = table::fields::devices(table);
    (0..n).find(|&c| child_bars(table, devices, d, x, c))
}

// 11 to 15: a move of device d to state x.
fn move_verdict(table: &[u8], devices: &[u8], d: usize, x: u8) -> Verdict
    requires { Ready table.now devices.now × (d < count_d table.now) }
    ensures { result ≡ move_verdict (station table.now) (entries table.now devices.now) d x }
{
    let e = status::image::entry(devices, d);
    let device = table::fields::device(table, d);
    if !power::supported(&device, x) {
        return Err(Refusal(Reason::Unsupported, 0));
    }
    if !not_shallower_or_d0(e, x) {
        return Err(Refusal(Reason::Shallower, 0));
    }
    if !status::consistency::parent_allows(&device, devices, x) {
        return Err(Refusal(Reason::ParentDeeper, usize::from(device.record.parent())));
    }
    if let Some(c) = lowest_child(table, devices, d, x) {
        return Err(Refusal(Reason::ChildShallower, c));
    }
    if !wake_allows(e, x) {
        return Err(Refusal(Reason::TooDeepToWake, 0));
    }
    Ok(0)
}

// 12: whether the target is not shallower than the present state, or D0.
#[tactic(auto, unfolding(rules::specs::Request::not_shallower_or_d0))]
fn not_shallower_or_d0(e: Entry, x: u8) -> bool
    ensures { result ≡ not_shallower_or_d0 e x }
{
    x == 0 || e.state <= x
}

// 15: whether the device is not armed, or the target not deeper than wake D.
#[tactic(auto, unfolding(rules::specs::Request::wake_allows))]
fn wake_allows(e: Entry, x: u8) -> bool
    ensures { result ≡ wake_allows e x }
{
    e.armed != 1 || x <= e.wake
}

// 16 to 18: device d armed for sleep state x and wake state y.
fn arm_verdict(table: &[u8], devices: &[u8], d: usize, x: u8, y: u8) -> Verdict
    requires { Ready table.now devices.now × (d < count_d table.now) × (x < 5) }
    ensures { result ≡ arm_verdict (station table.now) (entries table.now devices.now) d x y }
{
    let device = table::fields::device(table, d);
    if !power::wake::wake_from(&device, x) {
        return Err(Refusal(Reason::NoWake, 0));
    }
    if !power::wake::wake_powered(&device, x) {
        return Err(Refusal(Reason::WakeUnpowered, 0));
    }
    if !power::wake::wake_state(&device, x, y) || status::image::entry(devices, d).state > y {
        return Err(Refusal(Reason::BadWakeState, 0));
    }
    Ok(0)
}

// 10 to 18.
pub fn request_verdict(table: &[u8], devices: &[u8], q: Request) -> Verdict
    requires { Ready table.now devices.now }
    ensures { result ≡ request_verdict (station table.now) (entries table.now devices.now) q }
{
    if !form_good(table, q) {
        return Err(Refusal(Reason::BadRequest, 0));
    }
    let d = q.device as usize;
    match q.asks() {
        Some(Kind::Move) => move_verdict(table, devices, d, q.a as u8),
        Some(Kind::Arm) => arm_verdict(table, devices, d, q.a as u8, q.b as u8),
        _ => Ok(0),
    }
}

// The entry after an accepted request.
#[tactic(auto, unfolding(rules::specs::Request::new_entry, rules::specs::Kinds::kind_of))]
pub fn new_entry(e: Entry, q: Request) -> Entry
    requires { (q.a ≤ 4) × (q.b ≤ 4) }
    ensures { result ≡ new_entry e q }
{
    match q.asks() {
        Some(Kind::Move) => Entry {
            state: q.a as u8,
            ..e
        },
        Some(Kind::Arm) => Entry {
            armed: 1,
            sleep: q.a as u8,
            wake: q.b as u8,
            ..e
        },
        _ => Entry {
            armed: 0,
            sleep: 0,
            wake: 0,
            ..e
        },
    }
}
