// The header of a table, read and written, and what a version says.
ghost use Rattle.std.specs.Prelude.{◌≡◌, ◌<◌, ◌≤◌, length};
ghost use Rattle.words.specs.Words.{put};
ghost use Rattle.rules.specs.Station.{version_good, version_width, Wide};
ghost use Rattle.rules.specs.Table.{header_good};
ghost use Rattle.rules.specs.Describe.{header_bytes};

// What every table starts with.
const MARK: [u8; 3] = *b"PWT";

// Which versions there are. A number and no enum: C gives any (`sailgarnet_write`), and the definitions are of any.
pub fn version_good(version: u32) -> bool
    ensures { result ≡ version_good version }
{
    (version == 1) | (version == 2)
}

// The bytes of a set in a table of a version.
pub fn version_width(version: u32) -> usize
    ensures { (result ≡ version_width version) × Wide result }
{
    if version == 2 {
        return 8;
    }
    4
}

// 1: the 8 bytes, the mark, a version that there is and a zero at byte 7.
pub fn header_good(table: &[u8]) -> bool
    ensures { result ≡ header_good table.now }
{
    if table.len() < 8 {
        return false;
    }
    // byte by byte: a comparison of slices calls `memcmp`, which the boards do not bring
    let marked = (table[0] == MARK[0]) & (table[1] == MARK[1]) & (table[2] == MARK[2]);
    if !marked {
        return false;
    }
    version_good(u32::from(words::read16(table, 4))) & (table[7] == 0)
}

// The header of a table of R resources and D devices, over the first 8 bytes.
pub fn write_header(version: u32, resources: usize, devices: usize, out: &mut [u8])
    requires { (resources < 256) × (devices < 256) × (8 ≤ length out.old) }
    ensures { out.new ≡ put out.old 0 (header_bytes version resources devices) }
{
    words::copy(&MARK, out, 0);
    words::write8(out, 3, resources as u8);
    words::write16(out, 4, (version % 0x1_0000) as u16);
    words::write8(out, 6, devices as u8);
    words::write8(out, 7, 0);
}
