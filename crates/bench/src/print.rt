// Parts of a printed line. The program is given no handle, so that it prints by the crate io at a descriptor, and not by a `Display`.
ghost use Rattle.std.specs.Prelude.{◌≡◌, ◌/◌, ◌%◌, ◌<◌, length};
ghost use Rattle.rules.specs.Answers.{number_of};

use rules::Verdict;

// The standard output.
const STDOUT_FILENO: i32 = 1;

// Prints a text, and answers its length.
pub fn text(text: &[u8]) -> usize
    ensures { result ≡ length text.now }
{
    io::write_all(STDOUT_FILENO, text);
    text.len()
}

// Prints a number after a space, and answers it.
pub fn number(n: u64) -> u64
    ensures { result ≡ n }
{
    io::write_all(STDOUT_FILENO, b" ");
    io::print_decimal(STDOUT_FILENO, n);
    n
}

// Prints a text, and number, place and count of an answer that is one number; gives its count.
pub fn answer(before: &[u8], answer: u64) -> u64
    ensures { (result ≡ answer / 0x100 % 0x1_0000) × (result < 0x1_0000) }
{
    text(before);
    number(answer % 0x100);
    number(answer / 0x100_0000);
    number(answer / 0x100 % 0x1_0000)
}

// Prints number, place and count of an answer that is a verdict; gives its number.
pub fn verdict(v: Verdict) -> u64
    ensures { result ≡ number_of v }
{
    text(b": check");
    let answer = number(u64::from(rules::number(v)));
    number(rules::place(v) as u64);
    number(rules::count(v) as u64);
    answer
}

// Prints a text, and bytes as the script has them; answers how many.
pub fn hex(before: &[u8], bytes: &[u8]) -> usize
    ensures { result ≡ length bytes.now }
{
    text(before);
    for &b in bytes {
        io::write_all(STDOUT_FILENO, b" ");
        io::print_hex(STDOUT_FILENO, u64::from(b), 2);
    }
    bytes.len()
}
