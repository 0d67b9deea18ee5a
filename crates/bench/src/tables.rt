// The lines that make a table.
ghost use Rattle.std.specs.Prelude.{◌≡◌, ◌+◌, ◌≤◌, length, take, replicate};
ghost use Rattle.bench.specs.Cases.{more, added, table_after, size_after};

use crate::script;

// A table, or the two lists of records that one is written from, and the room past it: in all that of 65 resources and 65 devices.
#[derive(Clone, Copy)]
pub struct Table {
    pub bytes: [u8; 4428],
    pub len: usize,
    ghost in_range: { len ≤ 4428 },
}

impl Table {
    // An empty table, and zeros past it.
    pub fn new() -> Table
        ensures { (result.bytes ≡ replicate 4428 0) × (result.len ≡ 0) }
    {
        Table {
            bytes: [0; 4428],
            len: 0,
        }
    }

    // Its bytes, with none of the room.
    pub fn as_slice(&self) -> &[u8]
        ensures { result.now ≡ take self.now.len self.now.bytes }
    {
        &self.bytes[..self.len]
    }

    // `+`: the table goes on with the bytes of a line past the first, which says how often; with 64 of them at most, a device.
    fn add(&mut self, line: &[u8])
        ensures len { self.new.len ≡ self.old.len + more self.old.len line.now }
        ensures bytes { self.new.bytes ≡ added self.old.len line.now self.old.bytes }
    {
        let period = (line.len() / 3).saturating_sub(1).min(64);
        let n = (script::size(line, 0) * period).min(4428 - self.len);
        script::fill(&mut self.bytes, self.len, line, 1, period, n);
        self.len += n;
    }

    // The table after a line: `T` begins a new one.
    pub fn after(&mut self, line: &[u8])
        ensures len { self.new.len ≡ size_after self.old.len line.now }
        ensures bytes { self.new.bytes ≡ table_after self.old.len line.now self.old.bytes }
    {
        match script::letter(line, 0) {
            b'T' => self.len = 0,
            b'+' => self.add(line),
            _ => (),
        }
    }
}
