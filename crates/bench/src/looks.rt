// The lines that look at the table and the state, and change neither.
ghost use Rattle.std.specs.Prelude.{◌≡◌, ◌≤◌, length, take};
ghost use Rattle.bench.specs.Cases.{table_answer, state_answer, list_answer, record_length, seen};
ghost use Rattle.bench.specs.Cases.{status_given, list_length, list_bytes, words_given};

use crate::states::Image;
use crate::tables::Table;
use crate::tasks::Task;
use crate::{descriptions, print, script, states, tasks};
use rules::Verdict;

// `D`: the table's first bytes, with one of them changed, and a fresh state in as many bytes as the line says last.
fn damaged_table(table: &Table, line: &[u8]) -> u64
    ensures { result ≡ table_answer table.now.bytes line.now }
{
    let mut bytes = table.bytes;
    script::change(&mut bytes, line, 1, 5, 4427);
    let mut state = [0xa5u8; 265];
    let n = script::count(line, 0, 4, 4428);
    let room = script::count(line, 3, 6, 265);
    states::fresh(&bytes[..n], &mut state[..room])
}

// `S`: a request with no calls, for the state's first bytes with one of them changed.
fn damaged_state(table: &[u8], state: &Image, line: &[u8]) -> u64
    ensures { result ≡ state_answer table.now state.now line.now }
{
    let mut bytes = *state;
    script::change(&mut bytes, line, 5, 8, 264);
    let n = script::count(line, 4, 7, 265);
    tasks::check(
        table,
        &bytes[..n],
        Task::Plan(script::request(line, 4096)),
        b"",
    )
}

// `V`: whether the table and the state's first bytes, with one of them changed, are a table and a consistent state of it.
fn status_verdict(table: &[u8], state: &Image, line: &[u8]) -> Verdict
    ensures { result ≡ status_given table.now state.now line.now }
{
    let mut bytes = *state;
    script::change(&mut bytes, line, 1, 4, 264);
    let n = script::count(line, 0, 3, 265);
    status::verdict(table, &bytes[..n])
}

// Stores the bytes of a line from byte `from` on, as many as there is room for, and answers how many.
fn store_list(list: &mut [u8], line: &[u8], from: usize) -> usize
    requires { (length list.old ≡ 4428) × (from ≤ 64) }
    ensures value { (result ≡ list_length line.now from) × (result ≤ 4428) }
    ensures list { list.new ≡ list_bytes list.old line.now from }
{
    let n = (line.len() / 3).saturating_sub(from).min(4428);
    script::fill(list, 0, line, from, 0, n);
    n
}

// `L` and `C`: a request and a list for it, and a list for bring-up.
fn list(table: &[u8], state: &[u8], task: Task, line: &[u8], from: usize) -> u64
    requires { from ≤ 64 }
    ensures { result ≡ list_answer table.now state.now task line.now from }
{
    let mut list = [0u8; 4428];
    let n = store_list(&mut list, line, from);
    tasks::check(table, state, task, &list[..n])
}

// `W`: as `L`, with the list as words; bytes past a multiple of four are left out.
fn words_verdict(table: &[u8], state: &[u8], line: &[u8]) -> Verdict
    ensures { result ≡ words_given table.now state.now line.now }
{
    let mut list = [0u8; 4428];
    let size = store_list(&mut list, line, 4);
    let n = size / 4;
    let mut calls = [0u32; 1107];
    words::read_words(&list[..size], &mut calls[..n]);
    checker::check::check_words(table, state, script::request(line, 4096), &calls[..n])
}

// `R`: the record of a device; answers how many bytes it has.
fn record(table: &[u8], line: &[u8]) -> usize
    ensures { result ≡ record_length table.now line.now }
{
    print::hex(b":", table::record(table, script::size(line, 0)))
}

// What such a line answers.
pub fn look(table: &Table, state: &Image, line: &[u8]) -> u64
    ensures { result ≡ seen (take table.now.len table.now.bytes) table.now.bytes state.now line.now }
{
    let part = table.as_slice();
    let n = states::size(part);
    let lent = &state[..n];
    match script::letter(line, 0) {
        b'D' => damaged_table(table, line),
        b'S' => damaged_state(part, state, line),
        b'V' => print::verdict(status_verdict(part, state, line)),
        b'L' => list(part, lent, Task::Plan(script::request(line, 4096)), line, 4),
        b'C' => list(part, lent, Task::BringUp, line, 0),
        b'W' => print::verdict(words_verdict(part, lent, line)),
        b'R' => record(part, line) as u64,
        b'M' => descriptions::write(table, line),
        b'E' => descriptions::describe(part, line),
        _ => 0,
    }
}
