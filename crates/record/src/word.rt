// Numbers of w bytes, read and written: 4 in version 1, 8 in version 2.
ghost use Rattle.std.specs.Prelude.{◌≡◌, ◌+◌, ◌^◌, ◌<◌, ◌≤◌, length};
ghost use Rattle.words.specs.Words.{read_le, bytes_le, put};
ghost use Rattle.rules.specs.Station.{Wide};

// The number that the w bytes from `at` on make.
pub fn read(s: &[u8], at: usize, w: usize) -> u64
    requires { Wide w × (at + w ≤ length s.now) }
    ensures { (result ≡ read_le w s.now at) × (result < 256 ^ w) }
{
    if w == 8 {
        words::read64(s, at)
    } else {
        u64::from(words::read32(s, at))
    }
}

// The w low bytes of x, from `at` on.
#[tactic(auto, using(words::proofs::Twice::bytes_low))]
pub fn write(s: &mut [u8], at: usize, w: usize, x: u64)
    requires { Wide w × (at + w ≤ length s.old) }
    ensures { s.new ≡ put s.old at (bytes_le w x) }
{
    if w == 8 {
        words::write64(s, at, x);
    } else {
        words::write32(s, at, (x % 0x1_0000_0000) as u32);
    }
}
