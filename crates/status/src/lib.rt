// Answers 7 and 8 of a lent image, and a fresh state written into lent bytes.
#![tactic(auto)]

pub mod consistency;
pub mod image;
pub mod needed;
pub mod state;
pub mod values;

ghost use Rattle.std.specs.Prelude.{◌≡◌, Ok};
ghost use Rattle.rules.specs.Table.{table_verdict};
ghost use Rattle.rules.specs.Status.{image_good, state_verdict};
ghost use Rattle.rules.specs.BringUp.{state_but_power_verdict};
ghost use Rattle.rules.specs.Outcomes.{fresh, table_and_state_verdict};

use rules::{Reason, Refusal, Verdict};

// Whether an image has its size and every value is in range: else it is answered 7.
pub fn image_good(table: &[u8], image: &[u8]) -> bool
    requires { table_verdict table.now ≡ Ok 0 }
    ensures { result ≡ image_good table.now image.now }
{
    if image.len() != crate::image::size(table) {
        return false;
    }
    crate::values::entries_good(table, image)
        && crate::values::on_good(table, crate::image::on_set(table, image))
}

// 7 and 8 of an image, for an accepted table.
pub fn check_state(table: &[u8], image: &[u8]) -> Verdict
    requires { table_verdict table.now ≡ Ok 0 }
    ensures { result ≡ state_verdict table.now image.now }
{
    if !image_good(table, image) {
        return Err(Refusal(Reason::BadState, 0));
    }
    let on = crate::image::on_set(table, image);
    crate::consistency::consistency(table, image, Some(on))
}

// The same without rule 4 of RULES.md 4.3, and so whatever is on.
pub fn check_but_power(table: &[u8], image: &[u8]) -> Verdict
    requires { table_verdict table.now ≡ Ok 0 }
    ensures { result ≡ state_but_power_verdict table.now image.now }
{
    if !image_good(table, image) {
        return Err(Refusal(Reason::BadState, 0));
    }
    crate::consistency::consistency(table, image, None)
}

// Answers 1 to 8 of any bytes: whether they are a power table and a consistent state of it.
pub fn verdict(table: &[u8], image: &[u8]) -> Verdict
    ensures { result ≡ table_and_state_verdict table.now image.now }
{
    table::check_table(table)?;
    check_state(table, image)
}

// A fresh state for a table that is good, into bytes that are an image's; a refusal leaves every byte.
#[tactic(auto, using(crate::proofs::Chains::fresh_stops))]
pub fn fresh(table: &[u8], state: &mut [u8]) -> Verdict
    ensures { (result ≡ (fresh table.now state.old).verdict)
        × (state.new ≡ (fresh table.now state.old).state) }
{
    let done = table::check_table(table)?;
    if state.len() != crate::image::size(table) {
        return Err(Refusal(Reason::BadState, 0));
    }
    crate::image::write_fresh(table, state);
    Ok(done)
}
