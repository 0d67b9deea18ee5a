// The state image of a table of either version: its size, its on-set and a device's entry in place. Table and image are two slices, and
// the second is written by the planner while others only read it: so what is known of both (`Ready`) is a clause and no struct.
ghost use Rattle.std.specs.Prelude.{◌≡◌, ◌+◌, ◌*◌, ◌<◌, ◌≤◌, length};
ghost use Rattle.rules.specs.Station.{width, limit, station};
ghost use Rattle.rules.specs.Status.{entry_at, entries, image_size, image_of, fresh_status, status};
ghost use Rattle.rules.specs.Request.{in_state};
ghost use Rattle.table.specs.Layout.{WellSized};
ghost use Rattle.status.specs.Ready.{status_with, entry_with};

use crate::state::State;
use rules::Entry;

// The bytes that the image of a table's state has.
pub fn size(table: &[u8]) -> usize
    requires { WellSized table.now }
    ensures { result ≡ image_size (width table.now) }
{
    33 * table::fields::width(table)
}

// The resources that an image of that size has on.
pub fn on_set(table: &[u8], image: &[u8]) -> u64
    requires { WellSized table.now × (length image.now ≡ image_size (width table.now)) }
    ensures { result ≡ (status table.now image.now).on }
{
    let w = table::fields::width(table);
    record::word::read(image, 32 * w, w)
}

// Another on-set in the image; its entries stay.
pub fn set_on(table: &[u8], image: &mut [u8], on: u64)
    requires { WellSized table.now × (length image.old ≡ image_size (width table.now)) }
    ensures { image.new ≡ image_of (width table.now)
        (status_with table.now image.old on) }
{
    let w = table::fields::width(table);
    record::word::write(image, 32 * w, w, on);
}

// Device d in state y and another on-set, in the image itself: a state by value would be copied twice for it.
pub fn set_state(table: &[u8], image: &mut [u8], d: usize, y: u8, on: u64)
    requires { WellSized table.now × (length image.old ≡ image_size (width table.now)) × (d < limit (width table.now)) }
    ensures { image.new ≡ image_of (width table.now)
        (entry_with table.now image.old d
        (in_state (entries table.now image.old d) y) on) }
{
    image[4 * d] = y;
    set_on(table, image, on);
}

// Another entry for device d and another on-set, through the state by value of the table's version. Each branch names its instance: a
// function over both would have to show that a state of any size fits in memory.
pub fn set_entry(table: &[u8], image: &mut [u8], d: usize, e: Entry, on: u64)
    requires { WellSized table.now × (length image.old ≡ image_size (width table.now)) × (d < limit (width table.now)) }
    ensures { image.new ≡ image_of (width table.now)
        (entry_with table.now image.old d e on) }
{
    if table::fields::width(table) == 8 {
        let before = State::<u64, 256>::load(image);
        before.with_entry(d, e, on).store(image);
        return;
    }
    let before = State::<u32, 128>::load(image);
    let low = (on % 0x1_0000_0000) as u32;
    before.with_entry(d, e, low).store(image);
}

// A fresh state over all of the image, by the instance of the table's version, as above.
pub fn write_fresh(table: &[u8], image: &mut [u8])
    requires { WellSized table.now × (length image.old ≡ image_size (width table.now)) }
    ensures { image.new ≡ image_of (width table.now) (fresh_status (station table.now)) }
{
    let resources = table::fields::resources(table) as u32;
    if table::fields::width(table) == 8 {
        State::<u64, 256>::fresh(resources).store(image);
        return;
    }
    State::<u32, 128>::fresh(resources).store(image);
}

// Device d's entry, of bytes that start with the device part. Each byte by its place: an array taken out of the slice would name the same
// four places, and have them shown to be the slice's.
pub fn entry(devices: &[u8], d: usize) -> Entry
    requires { 4 * d + 4 ≤ length devices.now }
    ensures { result ≡ entry_at devices.now (4 * d) }
{
    let at = 4 * d;
    Entry {
        state: devices[at],
        armed: devices[at + 1],
        sleep: devices[at + 2],
        wake: devices[at + 3],
    }
}
