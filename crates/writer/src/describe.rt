// A table's resources and devices as two lists of records.
ghost use Rattle.std.specs.Prelude.{◌≡◌, ◌*◌, ◌≤◌, length};
ghost use Rattle.words.specs.Words.{put};
ghost use Rattle.rules.specs.Station.{count_d};
ghost use Rattle.rules.specs.Describe.{described_size, devices_of};
ghost use Rattle.rules.specs.Write.{describe};
ghost use Rattle.table.specs.Layout.{WellSized};

use crate::{DESCRIBED_SIZE, DESCRIBED_WIDTH};
use record::device::Device;
use rules::{Reason, Refusal, Verdict};

// The devices of a table, 54 bytes each.
#[tactic(auto, using(crate::proofs::Lists::describing))]
fn describe_devices(table: &[u8], out: &mut [u8])
    requires { WellSized table.now × (described_size * count_d table.now ≤ length out.old) }
    ensures { out.new ≡ put out.old 0 (devices_of table.now) }
{
    let mut p = 0;
    for d in 0..table::fields::devices(table) {
        let device = Device::from(&table::fields::device(table, d).record);
        device.write(out, p, DESCRIBED_WIDTH);
        p += DESCRIBED_SIZE;
    }
}

// Describes a table; a refusal leaves every byte.
pub fn describe(table: &[u8], resources: &mut [u8], devices: &mut [u8]) -> Verdict
    ensures { (result ≡ (describe table.now resources.old devices.old).verdict)
        × (resources.new ≡ (describe table.now resources.old devices.old).resources)
        × (devices.new ≡ (describe table.now resources.old devices.old).devices) }
{
    table::check_table(table)?;
    let r = 4 * table::fields::resources(table);
    let d = DESCRIBED_SIZE * table::fields::devices(table);
    let room = (r <= resources.len()) & (d <= devices.len());
    if !room {
        return Err(Refusal(Reason::NoRoom, 0));
    }
    words::copy(&table[8..8 + r], resources, 0);
    describe_devices(table, devices);
    Ok(r + d)
}
