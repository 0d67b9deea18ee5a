// Runs the cases of the file `stdin`, a line each, through the exported functions and some below them. It prints each line as it stands,
// and after it what was answered.
#![tactic(auto)]

mod descriptions;
mod looks;
mod print;
mod script;
mod states;
mod tables;
mod tasks;

use tables::Table;

// The standard input.
const STDIN_FILENO: i32 = 0;

fn main() {
    let mut text = io::large_buffer();
    let n = io::read_full(STDIN_FILENO, &mut text);
    let mut table = Table::new();
    let mut state = [0u8; 265];
    for line in text[..n].split_inclusive(|&b| b == b'\n') {
        let line = line.strip_suffix(b"\n").unwrap_or(line);
        print::text(line);
        table.after(line);
        states::after(table.as_slice(), &mut state, line);
        looks::look(&table, &state, line);
        print::text(b"\n");
    }
}
