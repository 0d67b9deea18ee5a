// A table written from two lists of records.
ghost use Rattle.std.specs.Prelude.{◌≡◌, ◌+◌, ◌*◌, ◌≤◌, length};
ghost use Rattle.words.specs.Words.{put};
ghost use Rattle.rules.specs.Index.{join};
ghost use Rattle.rules.specs.Station.{Wide, record_size};
ghost use Rattle.rules.specs.Describe.{described_size, described_d, described_device, record_bytes};
ghost use Rattle.rules.specs.Write.{write};

use crate::{DESCRIBED_SIZE, DESCRIBED_WIDTH};
use record::Record;
use record::device::Device;
use rules::Verdict;

// The records of whole devices, from `at` on.
#[tactic(auto, using(crate::proofs::Lists::writing))]
fn write_devices(ds: &[u8], table: &mut [u8], at: usize, w: usize)
    requires { Wide w × (length ds.now ≡ described_size * described_d ds.now)
        × (at + record_size w * described_d ds.now ≤ length table.old) }
    ensures { table.new ≡ put table.old at
        (join (λ d. record_bytes w (described_device ds.now d)) (described_d ds.now)) }
{
    let mut p = at;
    for d in 0..crate::check::devices(ds) {
        let record = Record {
            bytes: ds,
            at: DESCRIBED_SIZE * d,
            width: DESCRIBED_WIDTH,
        };
        Device::from(&record).write_record(table, p, w);
        p += record::read::size(w);
    }
}

// Writes the table of a version; a refusal leaves every byte.
#[tactic(auto, using(crate::proofs::Whole::write_stops))]
pub fn write(version: u32, rs: &[u8], ds: &[u8], table: &mut [u8]) -> Verdict
    ensures { (result ≡ (write version rs.now ds.now table.old).verdict)
        × (table.new ≡ (write version rs.now ds.now table.old).table) }
{
    let size = crate::check::verdict(version, rs, ds, table.len())?;
    let w = table::header::version_width(version);
    let r = crate::check::resources(rs);
    let d = crate::check::devices(ds);
    table::header::write_header(version, r, d, table);
    words::copy(rs, table, 8);
    write_devices(ds, table, 8 + 4 * r, w);
    Ok(size)
}
