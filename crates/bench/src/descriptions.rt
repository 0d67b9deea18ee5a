// The lines that write a table from described resources and devices, and that describe one.
ghost use Rattle.std.specs.Prelude.{◌≡◌, ◌≤◌, length, take, drop};
ghost use Rattle.rules.specs.Write.{write, describe};
ghost use Rattle.sailgarnet.specs.Packed.{packed};
ghost use Rattle.bench.specs.Cases.{write_answer, describe_answer};

use crate::tables::Table;
use crate::{print, script};

// A table written in lent bytes from resources, which end at `end`, and devices, the rest: prints the answer and these bytes, and gives
// the answer.
fn write_lists(version: u32, lists: &[u8], end: usize, table: &mut [u8]) -> u64
    requires { end ≤ length lists.now }
    ensures { result ≡ packed (write version (take end lists.now) (drop end lists.now)
        table.old).verdict }
{
    let answer = sailgarnet::sailgarnet_write(version, &lists[..end], &lists[end..], table);
    print::answer(b":", answer);
    print::hex(b" table", table);
    answer
}

// `M`: a table in as many bytes as the line says, from resources and devices, with one of their bytes changed.
pub fn write(lists: &Table, line: &[u8]) -> u64
    ensures { result ≡ write_answer lists.now.bytes lists.now.len line.now }
{
    let mut bytes = lists.bytes;
    script::change(&mut bytes, line, 1, 7, 4427);
    let mut table = [0xa5u8; 4428];
    let end = script::count(line, 0, 6, lists.len);
    let n = script::count(line, 3, 8, 4428);
    write_lists(
        script::number(line, 4, 5),
        &bytes[..lists.len],
        end,
        &mut table[..n],
    )
}

// A table described in lent bytes: prints the answer and these bytes, and gives the answer.
fn describe_in(table: &[u8], resources: &mut [u8], devices: &mut [u8]) -> u64
    ensures { result ≡ packed (describe table.now resources.old devices.old).verdict }
{
    let answer = sailgarnet::sailgarnet_describe(table, resources, devices);
    print::answer(b":", answer);
    print::hex(b" resources", resources);
    print::hex(b" devices", devices);
    answer
}

// `E`: the table described in two buffers, as long as the line says.
pub fn describe(table: &[u8], line: &[u8]) -> u64
    ensures { result ≡ describe_answer table.now line.now }
{
    let mut resources = [0xa5u8; 4428];
    let mut devices = [0xa5u8; 4428];
    let n = script::count(line, 0, 2, 4428);
    let m = script::count(line, 1, 3, 4428);
    describe_in(table, &mut resources[..n], &mut devices[..m])
}
