// One record of a table or of a description: its fields, the tests of them, the first bad field, and whether it is good, asked quickly;
// the lowest bad record of a run; a device read whole and written.
#![tactic(auto)]

ghost use Rattle.std.specs.Prelude.{◌+◌, ◌≤◌, length};
ghost use Rattle.rules.specs.Station.{Wide, fields_size};

pub mod bad;
pub mod device;
pub mod good;
pub mod lowest;
pub mod quick;
pub mod read;
pub mod word;

// One device's record, in a table or in a list of described devices: the bytes, where in them it starts, and the bytes of a set, 4 or 8.
// Its fields lie inside the bytes; the zeros that end a table's record need not. Passed on as a reference: it is four words.
#[derive(Clone, Copy)]
pub struct Record<'a> {
    pub bytes: &'a [u8],
    pub at: usize,
    pub width: usize,
    pub ghost wide: { Wide width },
    pub ghost inside: { at + fields_size width ≤ length bytes.now },
}
