// The needed set: what the devices need, all together.
ghost use Rattle.std.specs.Prelude.{◌≡◌, ◌-◌, ◌<◌, ◌≤◌, length};
ghost use Rattle.rules.specs.Station.{width, count_d, station};
ghost use Rattle.rules.specs.Power.{needed};
ghost use Rattle.rules.specs.Status.{entries_size, entries};
ghost use Rattle.rules.specs.Request.{replace_entry};
ghost use Rattle.table.specs.Layout.{WellSized};
ghost use Rattle.status.specs.Needs.{needed_from, below_each};

use record::Record;
use rules::Entry;
use table::fields::DeviceRecord;

// A set with what the devices from one number up to another need. The byte at which a record starts is carried on, here and below, so that
// no turn has a product.
fn needed_from(table: &[u8], devices: &[u8], set: u64, from: usize, end: usize) -> u64
    requires { WellSized table.now × (entries_size (width table.now) ≤ length devices.now) × (end ≤ count_d table.now)
        × (from < 256) }
    ensures { result ≡ needed_from (station table.now)
        (entries table.now devices.now) set from (end - from) }
{
    let width = table::fields::width(table);
    let size = record::read::size(width);
    let mut at = table::fields::start_at(table, from);
    let mut all = set;
    for d in from..end {
        let record = Record {
            bytes: table,
            at,
            width,
        };
        let e = crate::image::entry(devices, d);
        all = sets::union(all, power::needs(&DeviceRecord { record, number: d }, e));
        at += size;
    }
    all
}

// The union of what each device needs with its entry.
pub fn needed(table: &[u8], devices: &[u8]) -> u64
    requires { WellSized table.now × (entries_size (width table.now) ≤ length devices.now) }
    ensures { result ≡ needed (station table.now) (entries table.now devices.now) }
{
    needed_from(table, devices, 0, 0, table::fields::devices(table))
}

// For each device what those below it need, from the start of `out`.
pub fn needed_below(table: &[u8], devices: &[u8], out: &mut [u64])
    requires { WellSized table.now × (entries_size (width table.now) ≤ length devices.now)
        × (count_d table.now ≤ length out.old) }
    ensures { out.new ≡ below_each table.now devices.now out.old }
{
    let n = table::fields::devices(table);
    let width = table::fields::width(table);
    let size = record::read::size(width);
    let mut at = table::fields::start_at(table, 0);
    let mut all: u64 = 0;
    for d in 0..n {
        out[d] = all;
        let record = Record {
            bytes: table,
            at,
            width,
        };
        let e = crate::image::entry(devices, d);
        all = sets::union(all, power::needs(&DeviceRecord { record, number: d }, e));
        at += size;
    }
}

// The needed set with e for device d's entry: so no caller writes an entry to learn what it would need. The devices before d and after it
// go by turns of their own, so that no turn asks which device it is at.
pub fn needed_with(table: &[u8], devices: &[u8], d: usize, e: Entry) -> u64
    requires { WellSized table.now × (entries_size (width table.now) ≤ length devices.now) × (d < count_d table.now) }
    ensures { result ≡ needed (station table.now) (replace_entry (entries table.now devices.now) d e) }
{
    let before = needed_from(table, devices, 0, 0, d);
    let own = power::needs(&table::fields::device(table, d), e);
    let with = sets::union(before, own);
    needed_from(table, devices, with, d + 1, table::fields::devices(table))
}
