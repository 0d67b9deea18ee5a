// Sleep entry: the states that the devices take for it, and answers 10, 20 and 21. The plan is written by the planner.
#![tactic(auto)]

pub mod choice;
pub mod stages;

ghost use Rattle.std.specs.Prelude.{◌≡◌, ◌≤◌, length};
ghost use Rattle.rules.specs.Index.{least_option};
ghost use Rattle.rules.specs.Station.{count_d, station};
ghost use Rattle.rules.specs.Status.{entries};
ghost use Rattle.rules.specs.Sleep.{sleep_form_good, armed_for_other, sleep_verdict};
ghost use Rattle.status.specs.Ready.{Ready};
ghost use Rattle.sleep.specs.Chosen.{states_left};

use rules::{Entry, Reason, Refusal, Request, Verdict};

// 10: the sleep state is 1 to 4, and the other two numbers are zero.
#[tactic(auto, unfolding(rules::specs::Sleep::sleep_form_good))]
fn form_good(q: Request) -> bool
    ensures { result ≡ sleep_form_good q }
{
    matches!((q.a, q.device, q.b), (1..=4, 0, 0))
}

// 20: armed, and not for sleep state x.
#[tactic(auto, unfolding(rules::specs::Sleep::armed_for_other))]
fn armed_for_other(e: Entry, x: u8) -> bool
    ensures { result ≡ armed_for_other e x }
{
    e.armed == 1 && e.sleep != x
}

// The lowest such device.
fn lowest_other(table: &[u8], devices: &[u8], x: u8) -> Option<usize>
    requires { Ready table.now devices.now }
    ensures { result ≡ least_option (λ d. armed_for_other (entries table.now devices.now d) x)
        (count_d table.now) }
{
    let n = table::fields::devices(table);
    (0..n).find(|&d| armed_for_other(status::image::entry(devices, d), x))
}

// 10, 20 and 21. Where it is done, the states that the devices take stand in `chosen`.
pub fn verdict(table: &[u8], devices: &[u8], q: Request, chosen: &mut [u8]) -> Verdict
    requires { Ready table.now devices.now × (count_d table.now ≤ length chosen.old) }
    ensures { (result ≡ sleep_verdict (station table.now) (entries table.now devices.now) q)
        × (chosen.new ≡ states_left table.now devices.now q chosen.old) }
{
    if !form_good(q) {
        return Err(Refusal(Reason::BadRequest, 0));
    }
    let x = q.a as u8;
    if let Some(d) = lowest_other(table, devices, x) {
        return Err(Refusal(Reason::ArmedForOther, d));
    }
    crate::choice::choose(table, devices, x, chosen);
    if !crate::choice::has_choice(table, chosen) {
        return Err(Refusal(Reason::NoChoice, 0));
    }
    Ok(0)
}
