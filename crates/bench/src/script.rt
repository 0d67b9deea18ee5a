// Reading the script. A line is a letter and bytes of two digits, each after a space; a byte past its end is zero, so that a short line
// needs no rule.
ghost use Rattle.std.specs.Prelude.{◌≡◌, ◌+◌, ◌*◌, ◌/◌, ◌%◌, ◌-◌, ◌≤◌, ◌<◌, min, length, get_or, set};
ghost use Rattle.bench.specs.Script.{digit_of, byte_at, count_at, number_at, request_at, filled};

use rules::Request;

// A letter of a line, zero past its end.
pub fn letter(line: &[u8], at: usize) -> u8
    ensures { result ≡ get_or line.now at 0 }
{
    line.get(at).copied().unwrap_or(0)
}

// The number that a digit stands for: 0 to 9, a to f.
fn digit(c: u8) -> u32
    ensures { (result ≡ digit_of c) × (result < 16) }
{
    let x = u32::from(c);
    (x % 16 + 9 * (x / 64)) % 16
}

// Byte i of a line.
pub fn byte(line: &[u8], i: usize) -> u8
    requires { i < 0x1_0000_0000 }
    ensures { result ≡ byte_at line.now i }
{
    let high = digit(letter(line, 3 * i + 2));
    let low = digit(letter(line, 3 * i + 3));
    (16 * high + low) as u8
}

// Byte i of a line, as a length or a place.
pub fn size(line: &[u8], i: usize) -> usize
    requires { i < 0x1_0000_0000 }
    ensures { (result ≡ byte_at line.now i) × (result < 256) }
{
    usize::from(byte(line, i))
}

// Two bytes of a line as a length or a place, the lower one and the higher one; at most so much.
pub fn count(line: &[u8], low: usize, high: usize, most: usize) -> usize
    requires { (low < 256) × (high < 256) }
    ensures { (result ≡ count_at line.now low high most) × (result ≤ most) }
{
    (size(line, low) + 256 * size(line, high)).min(most)
}

// A number of 32 bits: a byte, and its highest byte, which a line that has no such byte leaves zero.
pub fn number(line: &[u8], at: usize, high: usize) -> u32
    requires { (at ≤ 4099) × (high ≤ 4099) }
    ensures { result ≡ number_at line.now at high }
{
    u32::from(byte(line, at)) + 0x100_0000 * u32::from(byte(line, high))
}

// A request: its four numbers, with their highest bytes from `high` on.
pub fn request(line: &[u8], high: usize) -> Request
    requires { high ≤ 4096 }
    ensures { result ≡ request_at line.now high }
{
    let kind = number(line, 0, high);
    let device = number(line, 1, high + 1);
    let a = number(line, 2, high + 2);
    let b = number(line, 3, high + 3);
    Request { kind, device, a, b }
}

// Changes one byte, by those of a line from `at` on: a place, at most so much, whose higher byte is at `high`, and what is then there.
pub fn change(bytes: &mut [u8], line: &[u8], at: usize, high: usize, most: usize)
    requires { (at ≤ 64) × (high ≤ 64) × (most < length bytes.old) }
    ensures { bytes.new ≡ set bytes.old (count_at line.now at high most) (byte_at line.now (at + 1)) }
{
    bytes[count(line, at, high, most)] = byte(line, at + 1);
}

// Which byte of a period the i-th is; with no period it is byte i.
fn turn(i: usize, period: usize) -> usize
    ensures { (result ≡ i % period) × (result ≤ i) }
{
    i.checked_rem(period).unwrap_or(i)
}

// Sets n bytes from `at` on to those of a line that start at byte `from`, again after each period.
pub fn fill(bytes: &mut [u8], at: usize, line: &[u8], from: usize, period: usize, n: usize)
    requires { (from ≤ 64) × (at + n ≤ length bytes.old) × (length bytes.old ≤ 4428) }
    ensures { bytes.new ≡ filled bytes.old at line.now from period n }
{
    for i in 0..n {
        bytes[at + i] = byte(line, from + turn(i, period));
    }
}
