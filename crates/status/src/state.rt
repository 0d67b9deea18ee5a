// The state by value and its image, in the form of each version: 128 bytes beside 32 bits, and 256 bytes beside 64 bits.
ghost use Rattle.std.specs.Prelude.{◌≡◌, ℕ, ◌+◌, ◌*◌, ◌≤◌, length};
ghost use Rattle.std.proofs.lemmas.List.Edits.{sets};
ghost use Rattle.sets.specs.Sets.{first_n};
ghost use Rattle.words.specs.Words.{read_le, bytes_le, put};
ghost use Rattle.rules.specs.Status.{entry_bytes, entries_size, image_size};
ghost use Rattle.status.specs.State.{held, loaded, stored, fresh_held, changed};

use rules::Entry;

// The set of the resources that are on: 32 bits in version 1, 64 bits in version 2.
pub trait OnSet: Copy {
    // how many bytes it has in an image, and the set as a number
    ghost bytes: { ℕ };

    ghost number: { Self → ℕ };

    // The n resources from 0 on.
    fn first_n(n: u32) -> Self
        requires { n ≤ 8 * bytes }
        ensures { number result ≡ first_n n };

    // The on-set whose bytes start at `at`.
    fn read(image: &[u8], at: usize) -> Self
        requires { at + bytes ≤ length image.now }
        ensures { number result ≡ read_le bytes image.now at };

    // Its bytes, from `at` on.
    fn write(self, image: &mut [u8], at: usize)
        requires { at + bytes ≤ length image.old }
        ensures { image.new ≡ put image.old at (bytes_le bytes (number self)) };
}

impl OnSet for u32 {
    ghost bytes = { 4 };

    ghost number = { λ on. on };

    fn first_n(n: u32) -> u32 {
        sets::first_n(n) as u32
    }

    fn read(image: &[u8], at: usize) -> u32 {
        words::read32(image, at)
    }

    fn write(self, image: &mut [u8], at: usize) {
        words::write32(image, at, self);
    }
}

impl OnSet for u64 {
    ghost bytes = { 8 };

    ghost number = { λ on. on };

    fn first_n(n: u32) -> u64 {
        sets::first_n(n)
    }

    fn read(image: &[u8], at: usize) -> u64 {
        record::word::read(image, at, 8)
    }

    fn write(self, image: &mut [u8], at: usize) {
        record::word::write(image, at, 8, self);
    }
}

// The state of a table: four bytes a device, and the set of the resources that are on. Of version 1 it is a `State<u32, 128>`, of version 2
// a `State<u64, 256>`.
#[derive(Clone, Copy)]
pub struct State<S, const N: usize> {
    pub devices: [u8; N],
    pub on: S,
}

impl<S: OnSet, const N: usize> State<S, N> {
    // Every device in D0, none armed, the given number of resources on.
    pub fn fresh(resources: u32) -> State<S, N>
        requires { (N ≡ entries_size S.bytes) × (resources ≤ 8 * S.bytes) }
        ensures { held S.number result ≡ fresh_held S.bytes resources }
    {
        State {
            devices: [0u8; N],
            on: S::first_n(resources),
        }
    }

    // The state that an image holds.
    pub fn load(image: &[u8]) -> State<S, N>
        requires { (N ≡ entries_size S.bytes) × (length image.now ≡ image_size S.bytes) }
        ensures { held S.number result ≡ loaded S.bytes image.now }
    {
        let mut devices = [0u8; N];
        words::copy(&image[..N], &mut devices, 0);
        let on = S::read(image, N);
        State { devices, on }
    }

    // The state's image, written over all of the lent bytes.
    pub fn store(self, image: &mut [u8])
        requires { (N ≡ entries_size S.bytes) × (length image.old ≡ image_size S.bytes) }
        ensures { image.new ≡ stored S.bytes (held S.number self) }
    {
        words::copy(&self.devices, image, 0);
        self.on.write(image, N);
    }

    // The state with another entry for device d and another on-set.
    pub fn with_entry(self, d: usize, e: Entry, on: S) -> State<S, N>
        requires { 4 * d + 4 ≤ N }
        ensures { held S.number result ≡ changed (held S.number self) d e (S.number on) }
    {
        let mut devices = self.devices;
        write_entry(&mut devices, d, e);
        State { devices, on }
    }
}

// Device d's entry in the device part, each byte at its place, as `image::entry` reads them.
fn write_entry(devices: &mut [u8], d: usize, e: Entry)
    requires { 4 * d + 4 ≤ length devices.old }
    ensures { devices.new ≡ sets devices.old (4 * d) (entry_bytes e) }
{
    let at = 4 * d;
    devices[at] = e.state;
    devices[at + 1] = e.armed;
    devices[at + 2] = e.sleep;
    devices[at + 3] = e.wake;
}
