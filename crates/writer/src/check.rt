// Answers 1, 2, 9, 4, 5 and 6 of two lists of records that a table is to be written from. A described device is the fields of a record with
// sets of 8 bytes, so that the tests of a table's record are its tests.
// The answers stand beside the table's (`crates/table/src/lib.rt`) and are not the same functions: a list may be cut short, its number of
// records is not in a header, and the definitions differ with that (`described_device_good`, `records_verdict`).
ghost use Rattle.std.specs.Prelude.{◌≡◌, not, ◌+◌, ◌*◌, ◌<◌, ◌≤◌};
ghost use Rattle.rules.specs.Index.{least_option};
ghost use Rattle.rules.specs.Station.{limit};
ghost use Rattle.rules.specs.Table.{fields_or_objects};
ghost use Rattle.rules.specs.Describe.{described_width, described_r, described_d};
ghost use Rattle.rules.specs.Write.{described_resource_good, described_fields_good, described_device_good, records_verdict, write_verdict};
ghost use Rattle.writer.specs.WithinLimits.{WithinLimits};

use crate::{DESCRIBED_SIZE, DESCRIBED_WIDTH};
use record::Record;
use record::lowest::Records;
use rules::{Reason, Refusal, Verdict};

// The number of described resources; one that is cut short counts.
pub fn resources(rs: &[u8]) -> usize
    ensures { result ≡ described_r rs.now }
{
    rs.len().div_ceil(4)
}

// The number of described devices.
pub fn devices(ds: &[u8]) -> usize
    ensures { result ≡ described_d ds.now }
{
    ds.len().div_ceil(DESCRIBED_SIZE)
}

// 4: the lowest bad resource, if one is bad. One that is cut short is past all whole ones, and bad.
fn lowest_resource(rs: &[u8]) -> Option<usize>
    ensures { result ≡ least_option (λ i. not (described_resource_good rs.now i)) (described_r rs.now) }
{
    let whole = rs.len() / 4;
    record::lowest::lowest_resource(rs, 0, whole).or((whole < resources(rs)).then_some(whole))
}

// 5 and 6: the lowest bad device, if one is bad. One that is cut short likewise.
fn lowest_device(ds: &[u8], resources: usize) -> Option<usize>
    requires { (described_d ds.now < 256) × (resources ≤ limit described_width) }
    ensures { result ≡ least_option (λ i. not (described_device_good resources ds.now i)) (described_d ds.now) }
{
    let whole = ds.len() / DESCRIBED_SIZE;
    let records = Records {
        bytes: ds,
        first: 0,
        width: DESCRIBED_WIDTH,
        zeros: false,
        count: whole,
    };
    records
        .lowest_bad(resources)
        .or((whole < devices(ds)).then_some(whole))
}

// Whether device d is whole and all its fields are good, asked of a device that is refused. By the first bad field: the quick tests have
// one caller, so that they are compiled into its loop.
#[tactic(auto, using(crate::proofs::Records::fields_cut))]
fn fields_good(ds: &[u8], d: usize, resources: usize) -> bool
    requires { (d < 256) × (resources ≤ limit described_width) }
    ensures { result ≡ described_fields_good resources ds.now d }
{
    let at = DESCRIBED_SIZE * d;
    ds.len() >= at + DESCRIBED_SIZE
        && Record {
            bytes: ds,
            at,
            width: DESCRIBED_WIDTH,
        }
        .bad_value(d, resources)
        .is_none()
}

// The answer for a bad device: 5 before 6.
#[tactic(auto, using(crate::proofs::Records::refused))]
fn refusal(ds: &[u8], d: usize, resources: usize) -> Verdict
    requires { (d < 256) × (resources ≤ limit described_width) }
    ensures { result ≡ fields_or_objects (described_fields_good resources ds.now d) d }
{
    if fields_good(ds, d, resources) {
        return Err(Refusal(Reason::BadObjects, d));
    }
    Err(Refusal(Reason::BadDevice, d))
}

// Answers 4 to 6 of lists that are not too long.
#[tactic(auto, using(crate::proofs::Records::records_answers))]
fn check_records(rs: &[u8], ds: &[u8]) -> Verdict
    requires { WithinLimits rs.now ds.now }
    ensures { result ≡ records_verdict rs.now ds.now }
{
    let resources = resources(rs);
    if let Some(r) = lowest_resource(rs) {
        return Err(Refusal(Reason::BadResource, r));
    }
    if let Some(d) = lowest_device(ds, resources) {
        return refusal(ds, d, resources);
    }
    Ok(0)
}

// The answer for any lists and a buffer of so many bytes, done with the bytes of the table.
#[tactic(auto, using(crate::proofs::Records::write_answers))]
pub fn verdict(version: u32, rs: &[u8], ds: &[u8], room: usize) -> Verdict
    ensures { result ≡ write_verdict version rs.now ds.now room }
{
    if !table::header::version_good(version) {
        return Err(Refusal(Reason::NotATable, 0));
    }
    let w = table::header::version_width(version);
    let resources = resources(rs);
    let devices = devices(ds);
    let few = (resources <= 8 * w) & (devices <= 8 * w);
    if !few {
        return Err(Refusal(Reason::TooMany, 0));
    }
    let size = table::fields::size(w, resources, devices);
    if room < size {
        return Err(Refusal(Reason::NoRoom, 0));
    }
    check_records(rs, ds)?;
    Ok(size)
}
