// Little-endian numbers in byte slices, elements copied, and words as bytes, four each.
#![tactic(auto)]

ghost use Rattle.std.specs.Prelude.{◌≡◌, [], ◌∷◌, ◌+◌, ◌*◌, ◌%◌, ◌≤◌, ◌<◌, length};
ghost use Rattle.words.specs.Words.{read_le, bytes_le, put, word_bytes, byte_words};

// The number after x among those of a byte: 0 after 255. What stands for an absent number, 255, so comes before all others.
pub fn next8(x: u8) -> u32
    ensures { (result ≡ (x + 1) % 256) × (x < 256) }
{
    u32::from(x.wrapping_add(1))
}

// The number that the two bytes from `at` on make. A function for each size: `from_le_bytes` is of one type, and a trait over the three
// would only say them again.
pub fn read16(s: &[u8], at: usize) -> u16
    requires { at + 2 ≤ length s.now }
    ensures { result ≡ read_le 2 s.now at }
{
    u16::from_le_bytes(s[at..at + 2].try_into().unwrap())
}

// The number that the four bytes from `at` on make.
pub fn read32(s: &[u8], at: usize) -> u32
    requires { at + 4 ≤ length s.now }
    ensures { result ≡ read_le 4 s.now at }
{
    let bytes = s[at..at + 4].try_into().unwrap();
    u32::from_le_bytes(bytes)
}

// The number that the eight bytes from `at` on make.
pub fn read64(s: &[u8], at: usize) -> u64
    requires { at + 8 ≤ length s.now }
    ensures { result ≡ read_le 8 s.now at }
{
    u64::from_le_bytes(s[at..at + 8].try_into().unwrap())
}

// The byte x, at `at`: a run of one, for callers that write runs.
pub fn write8(s: &mut [u8], at: usize, x: u8)
    requires { at + 1 ≤ length s.old }
    ensures { s.new ≡ put s.old at (x ∷ []) }
{
    s[at] = x;
}

// The two bytes of x, from `at` on.
pub fn write16(s: &mut [u8], at: usize, x: u16)
    requires { at + 2 ≤ length s.old }
    ensures { s.new ≡ put s.old at (bytes_le 2 x) }
{
    copy(&x.to_le_bytes(), s, at);
}

// The four bytes of x, from `at` on.
pub fn write32(s: &mut [u8], at: usize, x: u32)
    requires { at + 4 ≤ length s.old }
    ensures { s.new ≡ put s.old at (bytes_le 4 x) }
{
    copy(&x.to_le_bytes(), s, at);
}

// The eight bytes of x, from `at` on.
pub fn write64(s: &mut [u8], at: usize, x: u64)
    requires { at + 8 ≤ length s.old }
    ensures { s.new ≡ put s.old at (bytes_le 8 x) }
{
    let bytes = x.to_le_bytes();
    copy(&bytes, s, at);
}

// All of `from`, from `at` on. A loop: `copy_from_slice` compiles to calls of `memmove`, which the boards do not bring.
pub fn copy<T: Copy>(from: &[T], out: &mut [T], at: usize)
    requires { at + length from.now ≤ length out.old }
    ensures { out.new ≡ put out.old at from.now }
{
    for (i, &x) in from.iter().enumerate() {
        out[at + i] = x;
    }
}

// The words as bytes, from the bytes of word `at` on.
pub fn write_words(from: &[u32], out: &mut [u8], at: usize)
    requires { 4 * (at + length from.now) ≤ length out.old }
    ensures { out.new ≡ put out.old (4 * at) (word_bytes from.now) }
{
    for (i, word) in from.iter().enumerate() {
        write32(out, 4 * (at + i), *word);
    }
}

// As many words of the bytes as `out` holds.
pub fn read_words(from: &[u8], out: &mut [u32])
    requires { 4 * length out.old ≤ length from.now }
    ensures { out.new ≡ byte_words (length out.old) from.now }
{
    for (i, word) in out.iter_mut().enumerate() {
        *word = read32(from, 4 * i);
    }
}
