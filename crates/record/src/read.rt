// The fields of a device's record. Only this crate knows at which byte a field stands. A number is absent as 255 and no `Option`: so the
// table has it, and the definitions compare that byte (`parent_good`, `sxd_good`, `wake_range`).
ghost use Rattle.std.specs.Prelude.{◌≡◌, ◌+◌, ◌*◌, ◌^◌, ◌<◌, ◌≤◌};
ghost use Rattle.rules.specs.Station.{Wide, record_size};
ghost use Rattle.record.specs.Record.{device_of};

use crate::Record;

// The bytes of a record.
pub fn size(w: usize) -> usize
    requires { Wide w }
    ensures { result ≡ record_size w }
{
    16 + 6 * w
}

// The byte of a record at which set k starts. By a branch, so that each product is by a literal.
pub fn set_start(w: usize, k: usize) -> usize
    requires { Wide w × (k < 5) }
    ensures { (result ≡ 4 + w * k) × (result + w ≤ 4 + 5 * w) }
{
    if w == 8 {
        return 4 + 8 * k;
    }
    4 + 4 * k
}

#[tactic(auto, unfolding(rules::specs::Station::device_at), using(rules::proofs::Index::below_in))]
impl Record<'_> {
    // A device's parent, or 255.
    pub fn parent(&self) -> u8
        ensures { result ≡ (device_of self.now).parent }
    {
        self.bytes[self.at]
    }

    // The `_PS` mask.
    pub fn ps(&self) -> u8
        ensures { result ≡ (device_of self.now).ps }
    {
        self.bytes[self.at + 1]
    }

    // The `_PR` mask.
    pub fn pr(&self) -> u8
        ensures { result ≡ (device_of self.now).pr }
    {
        self.bytes[self.at + 2]
    }

    // Bit 0 `_PRW`, bit 1 `_DSW`.
    pub fn flags(&self) -> u8
        ensures { result ≡ (device_of self.now).flags }
    {
        self.bytes[self.at + 3]
    }

    // Set k: `_PR0` to `_PR3`, and `_PRW` for 4. One branch for its place and its size, which the compiler shares among several sets.
    pub fn set(&self, k: usize) -> u64
        requires { k < 5 }
        ensures { (result ≡ (device_of self.now).sets k) × (result < 256 ^ self.now.width) }
    {
        if self.width == 8 {
            return words::read64(self.bytes, self.at + 4 + 8 * k);
        }
        u64::from(words::read32(self.bytes, self.at + 4 + 4 * k))
    }

    // `_SxD`, or 255; S0 has none.
    pub fn sxd(&self, x: usize) -> u8
        requires { x < 5 }
        ensures { result ≡ (device_of self.now).sxd x }
    {
        if x == 0 {
            return 255;
        }
        self.bytes[self.at + 3 + 5 * self.width + x]
    }

    // `_SxW`, or 255.
    pub fn sxw(&self, x: usize) -> u8
        requires { x < 5 }
        ensures { result ≡ (device_of self.now).sxw x }
    {
        self.bytes[self.at + 8 + 5 * self.width + x]
    }

    // The deepest sleep state of `_PRW`.
    pub fn deepest(&self) -> u8
        ensures { result ≡ (device_of self.now).deepest }
    {
        self.bytes[self.at + 13 + 5 * self.width]
    }
}
