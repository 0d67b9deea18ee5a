// Whether any bytes are a power table, answers 1 to 6, and the bytes of one device's record.
#![tactic(auto)]

pub mod fields;
pub mod header;

ghost use Rattle.std.specs.Prelude.{◌≡◌, true, not, ◌<◌, ◌≤◌, length};
ghost use Rattle.rules.specs.Index.{least_option};
ghost use Rattle.rules.specs.Answers.{passes};
ghost use Rattle.rules.specs.Station.{version_good, version_of, count_r, count_d, resource_start};
ghost use Rattle.rules.specs.Table.{header_good, counts_good, length_good, resource_good, fields_good, device_good, device_refusal, table_verdict};
ghost use Rattle.rules.specs.Outcomes.{record_part};
ghost use Rattle.table.specs.Layout.{WellSized};

use record::lowest::Records;
use rules::{Reason, Refusal, Verdict};

// 2: at most as many resources and devices as the width allows.
fn counts_good(table: &[u8]) -> bool
    requires { (8 ≤ length table.now) × (version_good (version_of table.now) ≡ true) }
    ensures { result ≡ counts_good table.now }
{
    let most = crate::fields::limit(table);
    (usize::from(table[3]) <= most) & (usize::from(table[6]) <= most)
}

// 3: the header, the resources and the devices take all bytes.
fn length_good(table: &[u8]) -> bool
    requires { (8 ≤ length table.now) × (version_good (version_of table.now) ≡ true) }
    ensures { result ≡ length_good table.now }
{
    let devices = usize::from(table[6]);
    table.len() == crate::fields::start_at(table, devices)
}

// 4: the lowest bad resource, if one is bad.
fn lowest_resource(table: &[u8]) -> Option<usize>
    requires { WellSized table.now }
    ensures { result ≡ least_option (λ i. not (resource_good table.now (resource_start i))) (count_r table.now) }
{
    record::lowest::lowest_resource(table, 8, crate::fields::resources(table))
}

// Whether every field of device d is good, asked of a device that is refused.
fn fields_good(table: &[u8], d: usize) -> bool
    requires { WellSized table.now × (d < count_d table.now) }
    ensures { result ≡ fields_good table.now d }
{
    let resources = crate::fields::resources(table);
    crate::fields::device(table, d)
        .record
        .bad_field(d, resources)
        .is_none()
}

// 5 and 6: the lowest bad device, if one is bad.
#[tactic(auto, using(crate::proofs::Verdicts::lowest_bad))]
fn lowest_device(table: &[u8]) -> Option<usize>
    requires { WellSized table.now }
    ensures { result ≡ least_option (λ i. not (device_good table.now i)) (count_d table.now) }
{
    let records = Records {
        bytes: table,
        first: crate::fields::start_at(table, 0),
        width: crate::fields::width(table),
        zeros: true,
        count: crate::fields::devices(table),
    };
    records.lowest_bad(crate::fields::resources(table))
}

// The answer for a bad device: 5 before 6.
fn refusal(table: &[u8], d: usize) -> Verdict
    requires { WellSized table.now × (d < count_d table.now) }
    ensures { result ≡ device_refusal table.now d }
{
    if fields_good(table, d) {
        return Err(Refusal(Reason::BadObjects, d));
    }
    Err(Refusal(Reason::BadDevice, d))
}

// Answers 4 to 6 of bytes that pass 1 to 3.
#[tactic(auto, using(crate::proofs::Verdicts::table_answers))]
fn check_records(table: &[u8]) -> Verdict
    requires { WellSized table.now × (header_good table.now ≡ true) }
    ensures { result ≡ table_verdict table.now }
{
    if let Some(r) = lowest_resource(table) {
        return Err(Refusal(Reason::BadResource, r));
    }
    if let Some(d) = lowest_device(table) {
        return refusal(table, d);
    }
    Ok(0)
}

// Answers 2 to 6 of bytes whose header is good. Apart from the test of the header, which is put in line where a table is checked, so that
// what is no table is refused before anything is called.
#[inline(never)]
pub fn check_past_header(table: &[u8]) -> Verdict
    requires { header_good table.now ≡ true }
    ensures { result ≡ table_verdict table.now }
{
    if !counts_good(table) {
        return Err(Refusal(Reason::TooMany, 0));
    }
    if !length_good(table) {
        return Err(Refusal(Reason::WrongLength, 0));
    }
    check_records(table)
}

// Answers 1 to 6 of any bytes, done with no calls if they are a power table.
pub fn check_table(table: &[u8]) -> Verdict
    ensures { result ≡ table_verdict table.now }
{
    if !crate::header::header_good(table) {
        return Err(Refusal(Reason::NotATable, 0));
    }
    check_past_header(table)
}

// Whether bytes are a power table.
pub fn accepted(table: &[u8]) -> bool
    ensures { result ≡ passes (table_verdict table.now) }
{
    check_table(table).is_ok()
}

// A device's own bytes of the table; empty if the table is refused or the number is not below D.
pub fn record(table: &[u8], d: usize) -> &[u8]
    ensures { result.now ≡ record_part table.now d }
{
    if !accepted(table) {
        return &table[..0];
    }
    if d >= crate::fields::devices(table) {
        return &table[..0];
    }
    let at = crate::fields::start(table, d);
    let end = at + record::read::size(crate::fields::width(table));
    &table[at..end]
}
