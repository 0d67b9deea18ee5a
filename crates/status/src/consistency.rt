// Whether each device is consistent (RULES.md 4.3): answer 8.
ghost use Rattle.std.specs.Prelude.{◌≡◌};
ghost use Rattle.rules.specs.Station.{station};
ghost use Rattle.rules.specs.Status.{entries, parent_allows, wake_consistent, consistent_but_power, powered};
ghost use Rattle.table.specs.Device.{table_in, station_in};
ghost use Rattle.status.specs.Ready.{Ready, status_with, consistent_with, consistency_verdict_with};

use record::Record;
use rules::{Reason, Refusal, Verdict};
use table::fields::DeviceRecord;

// Device d's parent, if there is one, is not deeper than state x.
pub fn parent_allows(device: &DeviceRecord<'_>, devices: &[u8], x: u8) -> bool
    requires { Ready (table_in device.now) devices.now }
    ensures { result ≡ parent_allows (station_in device.now) (entries (table_in device.now) devices.now) device.now.number x }
{
    let p = device.record.parent();
    p == 255 || crate::image::entry(devices, usize::from(p)).state <= x
}

// If armed, its pair is legal and its state is not deeper than wake D. The pair is read only then.
pub fn wake_consistent(device: &DeviceRecord<'_>, devices: &[u8]) -> bool
    requires { Ready (table_in device.now) devices.now }
    ensures { result ≡ wake_consistent (station_in device.now) device.now.number
        (entries (table_in device.now) devices.now device.now.number) }
{
    let armed = 4 * device.number + 1;
    if devices[armed] != 1 {
        return true;
    }
    let e = crate::image::entry(devices, device.number);
    power::wake::wake_pair(device, e.sleep, e.wake) && e.state <= e.wake
}

// A supported state, not shallower than the parent, and the wake rules.
pub fn consistent_but_power(device: &DeviceRecord<'_>, devices: &[u8]) -> bool
    requires { Ready (table_in device.now) devices.now }
    ensures { result ≡ consistent_but_power (station_in device.now) (entries (table_in device.now) devices.now) device.now.number }
{
    let e = crate::image::entry(devices, device.number);
    power::supported(device, e.state)
        && parent_allows(device, devices, e.state)
        && wake_consistent(device, devices)
}

// Everything that device d needs is on.
pub fn powered(device: &DeviceRecord<'_>, devices: &[u8], on: u64) -> bool
    requires { Ready (table_in device.now) devices.now }
    ensures { result ≡ powered (station_in device.now) (status_with (table_in device.now) devices.now on) device.now.number }
{
    let e = crate::image::entry(devices, device.number);
    sets::within(power::needs(device, e), on)
}

// Device d keeps every rule with these resources on, or every one but that on power if none are given.
pub fn consistent(device: &DeviceRecord<'_>, devices: &[u8], on: Option<u64>) -> bool
    requires { Ready (table_in device.now) devices.now }
    ensures { result ≡ consistent_with on (station_in device.now) (entries (table_in device.now) devices.now) device.now.number }
{
    if !consistent_but_power(device, devices) {
        return false;
    }
    match on {
        Some(on) => powered(device, devices, on),
        None => true,
    }
}

// The lowest device that does not. One loop for both, so that the compiler puts the rules into it; the byte at which a record starts is
// carried on, so that no turn has a product.
pub fn consistency(table: &[u8], devices: &[u8], on: Option<u64>) -> Verdict
    requires { Ready table.now devices.now }
    ensures { result ≡ consistency_verdict_with on (station table.now) (entries table.now devices.now) }
{
    let n = table::fields::devices(table);
    let width = table::fields::width(table);
    let size = record::read::size(width);
    let mut at = table::fields::start_at(table, 0);
    for d in 0..n {
        let record = Record {
            bytes: table,
            at,
            width,
        };
        if !consistent(&DeviceRecord { record, number: d }, devices, on) {
            return Err(Refusal(Reason::Inconsistent, d));
        }
        at += size;
    }
    Ok(0)
}
