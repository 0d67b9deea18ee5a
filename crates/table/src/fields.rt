// The fields of a table whose counts and length are known to be good, as its station has them. The table stays a slice, with the fact
// `WellSized` in a clause: of a struct by value the clauses would have `table.entry.bytes.now` wherever they have `table.now`.
ghost use Rattle.std.specs.Prelude.{◌≡◌, true, ◌+◌, ◌<◌, ◌≤◌, length};
ghost use Rattle.rules.specs.Station.{version_good, version_of, width, Wide, limit, record_size, table_size, count_r, count_d, device_start, station};
ghost use Rattle.table.specs.Layout.{WellSized, RecordAt};

use record::Record;

// The bytes of a set: those of the version that the header states, four times its number. No other function says what the width of a table
// is.
pub fn width(table: &[u8]) -> usize
    requires { (8 ≤ length table.now) × (version_good (version_of table.now) ≡ true) }
    ensures { (result ≡ width table.now) × Wide result }
{
    4 * (usize::from(table[4]))
}

// The most resources and devices that the width allows.
pub fn limit(table: &[u8]) -> usize
    requires { (8 ≤ length table.now) × (version_good (version_of table.now) ≡ true) }
    ensures { (result ≡ limit (width table.now)) × (result ≤ 64) }
{
    8 * width(table)
}

// R, the number of resources.
pub fn resources(table: &[u8]) -> usize
    requires { WellSized table.now }
    ensures { (result ≡ count_r table.now) × (result ≤ 64) }
{
    usize::from(table[3])
}

// D, the number of devices.
pub fn devices(table: &[u8]) -> usize
    requires { WellSized table.now }
    ensures { (result ≡ count_d table.now) × (result ≤ 64) }
{
    usize::from(table[6])
}

// The bytes of a table of R resources and D devices.
pub fn size(w: usize, resources: usize, devices: usize) -> usize
    requires { Wide w × (resources < 256) × (devices < 256) }
    ensures { result ≡ table_size w resources devices }
{
    8 + 4 * resources + (16 + 6 * w) * devices
}

// The byte at which device d's record starts, or the table ends for D.
pub fn start_at(table: &[u8], d: usize) -> usize
    requires { (8 ≤ length table.now) × (version_good (version_of table.now) ≡ true) × (d < 256) }
    ensures { result ≡ device_start (width table.now) table.now d }
{
    size(width(table), usize::from(table[3]), d)
}

// The same of a device that is there: its record ends inside the table.
pub fn start(table: &[u8], d: usize) -> usize
    requires { WellSized table.now × (d < count_d table.now) }
    ensures value { result ≡ device_start (width table.now) table.now d }
    ensures table_in_bounds { result + record_size (width table.now) ≤ length table.now }
{
    start_at(table, d)
}

// A resource's systemlevel.
pub fn level(table: &[u8], r: usize) -> u8
    requires { WellSized table.now × (r < count_r table.now) }
    ensures { result ≡ ((station table.now).resource r).level }
{
    table[8 + 4 * r]
}

// A resource's resourceorder.
pub fn order(table: &[u8], r: usize) -> u16
    requires { WellSized table.now × (r < count_r table.now) }
    ensures { result ≡ ((station table.now).resource r).order }
{
    words::read16(table, 8 + 4 * r + 2)
}

// A device of a table: its record, and its number. Who has looked it up once hands it on, as a reference.
#[derive(Clone, Copy)]
pub struct DeviceRecord<'a> {
    pub record: Record<'a>,
    pub number: usize,
    pub ghost there: { RecordAt record.bytes.now number record.at record.width },
}

// Device d of a table.
pub fn device(table: &[u8], d: usize) -> DeviceRecord<'_>
    requires { WellSized table.now × (d < count_d table.now) }
    ensures table { result.record.bytes.now ≡ table.now }
    ensures number { result.number ≡ d }
{
    DeviceRecord {
        record: Record {
            bytes: table,
            at: start(table, d),
            width: width(table),
        },
        number: d,
    }
}

// A device's parent, or 255.
pub fn parent(table: &[u8], d: usize) -> u8
    requires { WellSized table.now × (d < count_d table.now) }
    ensures { result ≡ ((station table.now).device d).parent }
{
    device(table, d).record.parent()
}

// The `_PS` mask.
pub fn ps(table: &[u8], d: usize) -> u8
    requires { WellSized table.now × (d < count_d table.now) }
    ensures { result ≡ ((station table.now).device d).ps }
{
    device(table, d).record.ps()
}

// Bit 0 `_PRW`, bit 1 `_DSW`.
pub fn flags(table: &[u8], d: usize) -> u8
    requires { WellSized table.now × (d < count_d table.now) }
    ensures { result ≡ ((station table.now).device d).flags }
{
    device(table, d).record.flags()
}
