// Whether the values of a state image are in range, answer 7, apart from its length.
ghost use Rattle.std.specs.Prelude.{◌≡◌, ◌&&◌, ◌||◌, ◌+◌, ◌*◌, ◌≤◌, ltb, length};
ghost use Rattle.rules.specs.Index.{every};
ghost use Rattle.rules.specs.Station.{width, limit, station};
ghost use Rattle.rules.specs.Power.{is_armed};
ghost use Rattle.rules.specs.Status.{entry_at, entries_size, entries, entry_good, entry_zero, entries_good, on_good};
ghost use Rattle.table.specs.Layout.{WellSized};

// The entry is armed, and each number is in its range.
fn armed_good(e: rules::Entry) -> bool
    ensures { result ≡ is_armed e && entry_good e }
{
    (e.armed == 1) & (e.state <= 4) & (e.sleep <= 4) & (e.wake <= 4)
}

// Entry k is good. Read as one number, an entry that is not armed is good when that is at most 4; any other must be armed.
fn place_good(devices: &[u8], k: usize) -> bool
    requires { 4 * k + 4 ≤ length devices.now }
    ensures { result ≡ entry_good (entry_at devices.now (4 * k)) }
{
    words::read32(devices, 4 * k) <= 4 || armed_good(crate::image::entry(devices, k))
}

// Each of the first n entries is good.
fn first_good(devices: &[u8], n: usize) -> bool
    requires { 4 * n ≤ length devices.now }
    ensures { result ≡ every (λ k. entry_good (entry_at devices.now (4 * k))) n }
{
    for k in 0..n {
        if !place_good(devices, k) {
            return false;
        }
    }
    true
}

// Each entry from n to the end is zero: the union of all, two read as one number, so that no turn waits for a test. An odd one comes first.
fn zero_from(devices: &[u8], n: usize, end: usize) -> bool
    requires { (n ≤ end) × (4 * end ≤ length devices.now) }
    ensures { result ≡ every (λ k. ltb k n || entry_zero (entry_at devices.now (4 * k))) end }
{
    let mut all: u64 = 0;
    let mut from = n;
    if (end - n) % 2 == 1 {
        all = u64::from(words::read32(devices, 4 * n));
        from += 1;
    }
    for i in (from..end).step_by(2) {
        all = sets::union(all, words::read64(devices, 4 * i));
    }
    all == 0
}

// Each entry is good, and those from D on are zero; zero is good, so those need no other test.
pub fn entries_good(table: &[u8], devices: &[u8]) -> bool
    requires { WellSized table.now × (entries_size (width table.now) ≤ length devices.now) }
    ensures { result ≡ entries_good (limit (width table.now)) (station table.now)
        (entries table.now devices.now) }
{
    let n = table::fields::devices(table);
    first_good(devices, n) && zero_from(devices, n, table::fields::limit(table))
}

// No resource from R on.
pub fn on_good(table: &[u8], on: u64) -> bool
    requires { WellSized table.now }
    ensures { result ≡ on_good (station table.now) on }
{
    sets::fits(on, table::fields::resources(table) as u32)
}
