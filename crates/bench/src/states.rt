// The lines that make a state, and move it on.
ghost use Rattle.std.specs.Prelude.{◌≡◌, ◌≤◌, length};
ghost use Rattle.rules.specs.Outcomes.{fresh};
ghost use Rattle.sailgarnet.specs.Packed.{packed};
ghost use Rattle.bench.specs.Cases.{set_size, state_size, started, kept, state_then};

use crate::tasks::Task;
use crate::{print, script, tasks};

// A state image, of version 1 or 2, and the room past it: in all a byte more than one of version 2.
pub type Image = [u8; 265];

// The bytes of a set in a table: 8 in version 2, else 4.
fn set_size(table: &[u8]) -> usize
    ensures { (result ≡ set_size table.now) × (result ≤ 8) }
{
    if script::letter(table, 4) == 2 { 8 } else { 4 }
}

// The bytes of a table's state.
pub fn size(table: &[u8]) -> usize
    ensures { (result ≡ state_size table.now) × (result ≤ 264) }
{
    33 * set_size(table)
}

// A fresh state in lent bytes: prints the answer, and gives it.
pub fn fresh(table: &[u8], state: &mut [u8]) -> u64
    ensures { (result ≡ packed (fresh table.now state.old).verdict)
        × (state.new ≡ (fresh table.now state.old).state) }
{
    let answer = sailgarnet::sailgarnet_fresh(table, state);
    print::answer(b":", answer);
    answer
}

// `F`: the table's fresh state, or A5 in every byte where the table is refused.
fn start(table: &[u8], state: &mut Image)
    ensures { state.new ≡ started table.now }
{
    *state = [0xa5; 265];
    let n = size(table);
    fresh(table, &mut state[..n]);
}

// `K`: the on-set, w bytes, and the entries that the line has, and zeros past them.
fn keep(w: usize, line: &[u8], state: &mut Image)
    requires { w ≤ 8 }
    ensures { state.new ≡ kept w line.now }
{
    *state = [0; 265];
    script::fill(state, 0, line, w, 0, 32 * w);
    script::fill(state, 32 * w, line, 0, 0, w);
}

// The state after a line.
pub fn after(table: &[u8], state: &mut Image, line: &[u8])
    ensures { state.new ≡ state_then table.now state.old line.now }
{
    match script::letter(line, 0) {
        b'F' => start(table, state),
        b'K' => keep(set_size(table), line, state),
        b'Q' => tasks::plan(
            table,
            state,
            Task::Plan(script::request(line, 4)),
            32 * set_size(table) + 4,
        ),
        b'P' => tasks::plan(
            table,
            state,
            Task::Plan(script::request(line, 4)),
            script::count(line, 8, 9, 16_644),
        ),
        b'B' => tasks::plan(
            table,
            state,
            Task::BringUp,
            script::count(line, 0, 1, 16_644),
        ),
        _ => (),
    }
}
