// Which states the devices may take for sleep state x, and the least choice of them. The choice stands in lent bytes, a state a device.
ghost use Rattle.std.specs.Prelude.{◌≡◌, true, ◌&&◌, ℕ, ◌<◌, ◌≤◌, leb, ltb, length};
ghost use Rattle.rules.specs.Index.{every};
ghost use Rattle.rules.specs.Station.{count_d, station};
ghost use Rattle.rules.specs.Table.{parent_good};
ghost use Rattle.rules.specs.Status.{entries, under_parent};
ghost use Rattle.rules.specs.Sleep.{sxd_allows, wake_d_if_armed, least_state, stays};
ghost use Rattle.table.specs.Layout.{WellSized};
ghost use Rattle.table.specs.Device.{table_in, station_in, device_in};
ghost use Rattle.status.specs.Ready.{Ready};
ghost use Rattle.sleep.specs.Chosen.{states_in, deep_enough, other_rules, least_each};

use rules::Entry;
use table::fields::DeviceRecord;

// The shallowest state that `_SxD` allows: D0 without it.
fn shallowest_of_sxd(device: &DeviceRecord<'_>, x: u8) -> u8
    requires { x < 5 }
    ensures { (y : ℕ) → leb result y ≡ sxd_allows (station_in device.now) x device.now.number y }
{
    let least = device.record.sxd(usize::from(x));
    if least == 255 { 0 } else { least }
}

// The shallowest state that device d's parent in `chosen` allows: D0 without a parent.
fn shallowest_of_parent(device: &DeviceRecord<'_>, chosen: &[u8]) -> u8
    requires { (count_d (table_in device.now) ≤ length chosen.now)
        × (parent_good device.now.number (device_in device.now) ≡ true) }
    ensures { (y : ℕ) → leb result y ≡ under_parent (station_in device.now) (states_in chosen.now) device.now.number y }
{
    let p = device.record.parent();
    if p == 255 { 0 } else { chosen[usize::from(p)] }
}

// The shallowest state that is left to device d by its present one, `_SxD` and its parent's in `chosen`.
fn shallowest(device: &DeviceRecord<'_>, chosen: &[u8], x: u8, state: u8) -> u8
    requires { (count_d (table_in device.now) ≤ length chosen.now)
        × (parent_good device.now.number (device_in device.now) ≡ true) × (x < 5) }
    ensures { (y : ℕ) → leb result y ≡ deep_enough (station_in device.now) (states_in chosen.now) x device.now.number state y }
{
    let sxd = shallowest_of_sxd(device, x);
    let parent = shallowest_of_parent(device, chosen);
    state.max(sxd).max(parent)
}

// State y is wake D, if the device is armed.
#[tactic(auto, unfolding(rules::specs::Sleep::wake_d_if_armed))]
fn wake_d_if_armed(e: Entry, y: u8) -> bool
    ensures { result ≡ wake_d_if_armed e y }
{
    e.armed != 1 || y == e.wake
}

// Whether device d, whose entry is e, may take state y by the rules that `shallowest` leaves: support, power and wake D. What takes least
// time is tested first.
fn other_rules_allow(device: &DeviceRecord<'_>, x: u8, e: Entry, y: u8) -> bool
    ensures { result ≡ other_rules (station_in device.now) x device.now.number e y }
{
    wake_d_if_armed(e, y)
        && power::supported(device, y)
        && power::wake::powered_in(
            device.record.bytes,
            power::needs(device, Entry { state: y, ..e }),
            x,
        )
}

// The least state that device d may take under its parent's in `chosen`; 5 if there is none, and no `Option`: so the definitions have it, and
// `least_each` says every byte of `chosen` by it. The search starts at the shallowest one that is left, which is worked out once, so that no
// turn asks again for the present state, `_SxD` and the parent's.
fn least_state(table: &[u8], devices: &[u8], chosen: &[u8], x: u8, d: usize) -> u8
    requires { Ready table.now devices.now × (d < count_d table.now) × (count_d table.now ≤ length chosen.now) × (x < 5) }
    ensures { result ≡ least_state (station table.now) (entries table.now devices.now) x
        (states_in chosen.now) d }
{
    let device = table::fields::device(table, d);
    let e = status::image::entry(devices, d);
    let least = shallowest(&device, chosen, x, e.state);
    (least..5)
        .find(|&y| other_rules_allow(&device, x, e, y))
        .unwrap_or(5)
}

// The least choice, from the lowest device on: a parent's state is there before its children's.
pub fn choose(table: &[u8], devices: &[u8], x: u8, chosen: &mut [u8])
    requires { Ready table.now devices.now × (count_d table.now ≤ length chosen.old) × (x < 5) }
    ensures { chosen.new ≡ least_each table.now devices.now x chosen.old }
{
    let n = table::fields::devices(table);
    for i in 0..n {
        chosen[i] = least_state(table, devices, chosen, x, i);
    }
}

// Every device has a state in `chosen`, none having 5.
pub fn has_choice(table: &[u8], chosen: &[u8]) -> bool
    requires { WellSized table.now × (count_d table.now ≤ length chosen.now) }
    ensures { result ≡ every (λ d. ltb (states_in chosen.now d) 5) (count_d table.now) }
{
    let n = table::fields::devices(table);
    chosen[..n].iter().all(|&y| y < 5)
}

// Device d stays: its state in `chosen` is its present one.
#[tactic(auto, using(status::proofs::Keeps::entry_ready))]
pub fn stays(table: &[u8], devices: &[u8], chosen: &[u8], d: usize) -> bool
    requires { Ready table.now devices.now × (d < count_d table.now) × (count_d table.now ≤ length chosen.now) }
    ensures { result ≡ stays (entries table.now devices.now) (states_in chosen.now) d }
{
    let e = status::image::entry(devices, d);
    chosen[d] == e.state
}

// All devices stay.
pub fn none_moves(table: &[u8], devices: &[u8], chosen: &[u8]) -> bool
    requires { Ready table.now devices.now × (count_d table.now ≤ length chosen.now) }
    ensures { result ≡ every (stays (entries table.now devices.now) (states_in chosen.now))
        (count_d table.now) }
{
    let n = table::fields::devices(table);
    (0..n).all(|d| stays(table, devices, chosen, d))
}
