// For which sleep state and from which device state a device may wake the system.
ghost use Rattle.std.specs.Prelude.{◌≡◌, ◌||◌, not, ◌<◌, leb, ltb};
ghost use Rattle.rules.specs.Station.{count_r, station};
ghost use Rattle.rules.specs.Power.{powered_in, wake_from, wake_powered, wake_range, wake_state, wake_pair};
ghost use Rattle.table.specs.Layout.{WellSized};
ghost use Rattle.table.specs.Device.{station_in, device_in};

use table::fields::DeviceRecord;

// `_PRW` exists, and x is not above its deepest state.
pub fn wake_from(device: &DeviceRecord<'_>, x: u8) -> bool
    ensures { result ≡ wake_from (station_in device.now) device.now.number x }
{
    crate::has_prw(device) && x <= device.record.deepest()
}

// Resource r, if the table has it, has systemlevel x or more.
pub fn powered(table: &[u8], r: usize, x: u8) -> bool
    requires { WellSized table.now }
    ensures { result ≡ (not (ltb r (count_r table.now)) || leb x ((station table.now).resource r).level) }
{
    r >= table::fields::resources(table) || x <= table::fields::level(table, r)
}

// Every resource of a set has systemlevel x or more: from one member to the next, so that a small set takes few turns.
pub fn powered_in(table: &[u8], set: u64, x: u8) -> bool
    requires { WellSized table.now }
    ensures { result ≡ powered_in (station table.now) x set }
{
    let mut rest = set;
    while 0 < rest {
        let r = sets::lowest(rest);
        rest = sets::without(rest, r);
        if !powered(table, r as usize, x) {
            return false;
        }
    }
    true
}

// Every `_PRW` resource has systemlevel x or more.
pub fn wake_powered(device: &DeviceRecord<'_>, x: u8) -> bool
    ensures { result ≡ wake_powered (station_in device.now) device.now.number x }
{
    powered_in(device.record.bytes, device.record.set(4), x)
}

// The wake range of each `_SxD` and `_SxW`: a row for each pair, and in it a digit for each state, from D3cold down to D0; 150 verdicts in
// all. The six rows of an `_SxD` are one number. A pair with `_SxD` above `_SxW`, which no accepted table has, has no 1. Written by
// tests/wake_verdicts.py.
const VERDICTS: [u32; 5] = [
    0b00000 // no `_SxD`, no `_SxW`
        | 0b00001 << 5 // no `_SxD`, `_SxW` 0
        | 0b00011 << 10 // no `_SxD`, `_SxW` 1
        | 0b00111 << 15 // no `_SxD`, `_SxW` 2
        | 0b01111 << 20 // no `_SxD`, `_SxW` 3
        | 0b11111 << 25, // no `_SxD`, `_SxW` 4
    0b00001 // `_SxD` 0, no `_SxW`
        | 0b00001 << 5 // `_SxD` 0, `_SxW` 0
        | 0b00011 << 10 // `_SxD` 0, `_SxW` 1
        | 0b00111 << 15 // `_SxD` 0, `_SxW` 2
        | 0b01111 << 20 // `_SxD` 0, `_SxW` 3
        | 0b11111 << 25, // `_SxD` 0, `_SxW` 4
    0b00010 // `_SxD` 1, no `_SxW`
        | 0b00000 << 5 // `_SxD` 1, `_SxW` 0
        | 0b00010 << 10 // `_SxD` 1, `_SxW` 1
        | 0b00110 << 15 // `_SxD` 1, `_SxW` 2
        | 0b01110 << 20 // `_SxD` 1, `_SxW` 3
        | 0b11110 << 25, // `_SxD` 1, `_SxW` 4
    0b00100 // `_SxD` 2, no `_SxW`
        | 0b00000 << 5 // `_SxD` 2, `_SxW` 0
        | 0b00000 << 10 // `_SxD` 2, `_SxW` 1
        | 0b00100 << 15 // `_SxD` 2, `_SxW` 2
        | 0b01100 << 20 // `_SxD` 2, `_SxW` 3
        | 0b11100 << 25, // `_SxD` 2, `_SxW` 4
    0b01000 // `_SxD` 3, no `_SxW`
        | 0b00000 << 5 // `_SxD` 3, `_SxW` 0
        | 0b00000 << 10 // `_SxD` 3, `_SxW` 1
        | 0b00000 << 15 // `_SxD` 3, `_SxW` 2
        | 0b01000 << 20 // `_SxD` 3, `_SxW` 3
        | 0b11000 << 25, // `_SxD` 3, `_SxW` 4
];

// Whether x is in the range that `_SxD` and `_SxW` give, 255 for an absent one. An absent one has index 0, and then come 0, 1, ..: in
// `VERDICTS` for an `_SxD`, among its six rows for an `_SxW`. Values that no accepted table holds give no range.
pub fn wake_range(sxd: u8, sxw: u8, x: u8) -> bool
    ensures { result ≡ wake_range sxd sxw x }
{
    let from = words::next8(sxd);
    let to = words::next8(sxw);
    if from > 4 || to > 5 || x > 4 {
        return false;
    }
    sets::has(u64::from(VERDICTS[from as usize]), to * 5 + u32::from(x))
}

// State y is supported and in the wake range for x.
pub fn wake_state(device: &DeviceRecord<'_>, x: u8, y: u8) -> bool
    requires { x < 5 }
    ensures { result ≡ wake_state (station_in device.now) device.now.number x y }
{
    if !crate::supported(device, y) {
        return false;
    }
    let sxd = device.record.sxd(usize::from(x));
    let sxw = device.record.sxw(usize::from(x));
    wake_range(sxd, sxw, y)
}

// The wake pair (x, y) is legal.
pub fn wake_pair(device: &DeviceRecord<'_>, x: u8, y: u8) -> bool
    requires { x < 5 }
    ensures { result ≡ wake_pair (station_in device.now) device.now.number x y }
{
    wake_from(device, x) && wake_powered(device, x) && wake_state(device, x, y)
}
