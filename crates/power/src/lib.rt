// The states that a device supports, and the resources that it needs in each. A device comes as its record and number, so that a loop over
// the devices looks neither up.
#![tactic(auto)]

pub mod wake;

ghost use Rattle.std.specs.Prelude.{◌≡◌, ◌<◌};
ghost use Rattle.rules.specs.Station.{has_ps, has_pr, has_prw};
ghost use Rattle.rules.specs.Power.{supported, own_set, listed_set, state_needs, wake_needs, needs};
ghost use Rattle.table.specs.Device.{station_in, device_in};

use table::fields::DeviceRecord;

// Whether `_PSx` exists.
pub fn has_ps(device: &DeviceRecord<'_>, x: u8) -> bool
    ensures { result ≡ has_ps (device_in device.now) x }
{
    record::good::bit(device.record.ps(), u32::from(x))
}

// Whether `_PRx` exists.
pub fn has_pr(device: &DeviceRecord<'_>, x: u8) -> bool
    ensures { result ≡ has_pr (device_in device.now) x }
{
    record::good::bit(device.record.pr(), u32::from(x))
}

// Whether `_PRW` exists.
pub fn has_prw(device: &DeviceRecord<'_>) -> bool
    ensures { result ≡ has_prw (device_in device.now) }
{
    record::good::bit(device.record.flags(), 0)
}

// D0 and D3hot always; D1 or D2 with either object for it; D3cold with `_PR3`, whose bit is asked before the state: like this the code is
// small enough for the compiler to put it, and what it is in, into its callers.
pub fn supported(device: &DeviceRecord<'_>, x: u8) -> bool
    ensures { result ≡ supported (station_in device.now) device.now.number x }
{
    match x {
        0 | 3 => true,
        1 | 2 => has_ps(device, x) || has_pr(device, x),
        _ => has_pr(device, 3) && x == 4,
    }
}

// The set of `_PRx`, empty without it, by the device's `_PR` mask.
pub fn own_set(device: &DeviceRecord<'_>, mask: u8, x: u8) -> u64
    requires { (mask ≡ (device_in device.now).pr) × (x < 5) }
    ensures { result ≡ own_set (device_in device.now) x }
{
    if record::good::bit(mask, u32::from(x)) {
        return device.record.set(x as usize);
    }
    0
}

// The set of `_PRx`, or of the next shallower state that has one; empty if none has.
pub fn listed_set(device: &DeviceRecord<'_>, x: u8) -> u64
    requires { x < 5 }
    ensures { result ≡ listed_set (device_in device.now) x }
{
    let mask = device.record.pr();
    for k in (1..=x).rev() {
        if record::good::bit(mask, u32::from(k)) {
            return device.record.set(usize::from(k));
        }
    }
    own_set(device, mask, 0)
}

// What a device needs in state x. As a match it was tried: the compiler then asks for D3hot first, two instructions more for each device.
pub fn state_needs(device: &DeviceRecord<'_>, x: u8) -> u64
    ensures { result ≡ state_needs (device_in device.now) x }
{
    let present = device.record.pr();
    if x < 3 {
        return own_set(device, present, x);
    }
    if x > 3 {
        return 0;
    }
    listed_set(device, 3)
}

// What a device needs to wake the system: its `_PRW` set while it is armed.
pub fn wake_needs(device: &DeviceRecord<'_>, e: rules::Entry) -> u64
    ensures { result ≡ wake_needs (device_in device.now) e }
{
    if e.armed != 1 {
        return 0;
    }
    if has_prw(device) {
        return device.record.set(4);
    }
    0
}

// All that a device needs with an entry.
pub fn needs(device: &DeviceRecord<'_>, e: rules::Entry) -> u64
    ensures { result ≡ needs (station_in device.now) device.now.number e }
{
    sets::union(state_needs(device, e.state), wake_needs(device, e))
}
