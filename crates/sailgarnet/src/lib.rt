// The functions for C: numbers and byte slices in, one number out.
#![tactic(auto)]

pub mod buffers;

ghost use Rattle.std.specs.Prelude.{◌≡◌, true, false, ◌<◌, length};
ghost use Rattle.rules.specs.Answers.{place_of, count_of};
ghost use Rattle.rules.specs.Sleep.{is_sleep};
ghost use Rattle.rules.specs.Outcomes.{fresh, plan_bytes, check_bytes};
ghost use Rattle.rules.specs.BringUp.{bring_up_bytes, check_bring_up_bytes};
ghost use Rattle.rules.specs.Write.{write, describe};
ghost use Rattle.laws.specs.Inverse.{WrittenDescribes, DescribedMakes, AnswersAsReader};
ghost use Rattle.laws.specs.Demand2.{Demand2Bytes};
ghost use Rattle.laws.specs.Demand3.{Demand3Bytes};
ghost use Rattle.laws.specs.Sleep.{SleepEntryBytes};
ghost use Rattle.laws.specs.BringUp.{BringsUpBytes, BringUpCheckedBytes};
ghost use Rattle.sailgarnet.specs.Packed.{packed, number_in, count_in, place_in, Reads, asked};

use rules::{Request, Verdict};

// An answer as one number: its number in bits 0 to 7, its count in bits 8 to 23, its place in bits 24 to 63.
fn pack(v: Verdict) -> u64
    requires { (count_of v < 0x1_0000) × (place_of v < 0x100_0000_0000) }
    ensures { (result ≡ packed v) × Reads result v }
{
    let number = u64::from(rules::number(v));
    let count = rules::count(v) as u64;
    let place = rules::place(v) as u64;
    number + 0x100 * count + 0x100_0000 * place
}

#[unsafe(no_mangle)]
pub extern "C" fn sailgarnet_fresh(table: &[u8], state: &mut [u8]) -> u64
    ensures answer { (result ≡ packed (fresh table.now state.old).verdict)
        × Reads result (fresh table.now state.old).verdict }
    ensures state { state.new ≡ (fresh table.now state.old).state }
{
    pack(status::fresh(table, state))
}

#[unsafe(no_mangle)]
pub extern "C" fn sailgarnet_plan(
    table: &[u8],
    state: &mut [u8],
    kind: u32,
    device: u32,
    a: u32,
    b: u32,
    plan: &mut [u8],
) -> u64
    ensures answer { (result ≡ packed (plan_bytes table.now state.old (asked kind device a b)
        plan.old).verdict)
        × Reads result (plan_bytes table.now state.old (asked kind device a b) plan.old).verdict }
    ensures state { state.new ≡ (plan_bytes table.now state.old (asked kind device a b)
        plan.old).state }
    ensures plan { plan.new ≡ (plan_bytes table.now state.old (asked kind device a b)
        plan.old).plan }
    ensures demand { is_sleep (asked kind device a b) ≡ false → Demand2Bytes table.now state.old
        (asked kind device a b) plan.old (number_in result) (count_in result) state.new plan.new }
    ensures sleep { is_sleep (asked kind device a b) ≡ true → SleepEntryBytes table.now state.old
        (asked kind device a b) plan.old (number_in result) (count_in result) state.new plan.new }
{
    pack(crate::buffers::plan_bytes(table, state, Request { kind, device, a, b }, plan))
}

#[unsafe(no_mangle)]
pub extern "C" fn sailgarnet_check(
    table: &[u8],
    state: &[u8],
    kind: u32,
    device: u32,
    a: u32,
    b: u32,
    list: &[u8],
) -> u64
    ensures answer { (result ≡ packed (check_bytes table.now state.now (asked kind device a b) list.now))
        × Reads result (check_bytes table.now state.now (asked kind device a b) list.now) }
    ensures demand { Demand3Bytes table.now state.now (asked kind device a b) list.now }
{
    pack(crate::buffers::check_bytes(table, state, Request { kind, device, a, b }, list))
}

#[unsafe(no_mangle)]
pub extern "C" fn sailgarnet_bring_up(table: &[u8], state: &mut [u8], plan: &mut [u8]) -> u64
    ensures answer { (result ≡ packed (bring_up_bytes table.now state.old plan.old).verdict)
        × Reads result (bring_up_bytes table.now state.old plan.old).verdict }
    ensures state { state.new ≡ (bring_up_bytes table.now state.old plan.old).state }
    ensures plan { plan.new ≡ (bring_up_bytes table.now state.old plan.old).plan }
    ensures brings { BringsUpBytes table.now state.old plan.old (number_in result) (count_in result)
        state.new plan.new }
{
    pack(crate::buffers::bring_up_bytes(table, state, plan))
}

#[unsafe(no_mangle)]
pub extern "C" fn sailgarnet_check_bring_up(table: &[u8], state: &[u8], list: &[u8]) -> u64
    ensures answer { (result ≡ packed (check_bring_up_bytes table.now state.now list.now))
        × Reads result (check_bring_up_bytes table.now state.now list.now) }
    ensures checked { BringUpCheckedBytes table.now state.now list.now }
{
    pack(crate::buffers::check_bring_up_bytes(table, state, list))
}

#[unsafe(no_mangle)]
pub extern "C" fn sailgarnet_write(
    version: u32,
    resources: &[u8],
    devices: &[u8],
    table: &mut [u8],
) -> u64
    ensures answer { (result ≡ packed (write version resources.now devices.now table.old).verdict)
        × Reads result (write version resources.now devices.now table.old).verdict }
    ensures table { table.new ≡ (write version resources.now devices.now
        table.old).table }
    ensures reader { AnswersAsReader version resources.now devices.now (length table.old)
        (number_in result) (place_in result) }
    ensures inverse { WrittenDescribes resources.now devices.now (number_in result) (count_in result)
        table.new }
{
    pack(writer::write::write(version, resources, devices, table))
}

#[unsafe(no_mangle)]
pub extern "C" fn sailgarnet_describe(table: &[u8], resources: &mut [u8], devices: &mut [u8]) -> u64
    ensures answer { (result ≡ packed (describe table.now resources.old devices.old).verdict)
        × Reads result (describe table.now resources.old devices.old).verdict }
    ensures resources { resources.new ≡ (describe table.now resources.old
        devices.old).resources }
    ensures devices { devices.new ≡ (describe table.now resources.old
        devices.old).devices }
    ensures inverse { DescribedMakes table.now (number_in result) resources.new devices.new }
{
    pack(writer::describe::describe(table, resources, devices))
}
