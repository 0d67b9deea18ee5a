// Plans one request: answers 1 to 18, 20 and 21, the calls into a lent plan, and the state after them. A refusal writes neither.
ghost use Rattle.std.specs.Prelude.{◌≡◌, true, false, ◌≤◌, length, Ok};
ghost use Rattle.rules.specs.Answers.{number_of, count_of};
ghost use Rattle.rules.specs.Station.{width};
ghost use Rattle.rules.specs.Table.{table_verdict};
ghost use Rattle.rules.specs.Sleep.{is_sleep};
ghost use Rattle.rules.specs.Outcomes.{list_room, plan_words};
ghost use Rattle.laws.specs.Demand2.{Demand2Words};
ghost use Rattle.laws.specs.Sleep.{SleepEntryWords};
ghost use Rattle.request.specs.Permitted.{PermittedRequest};
ghost use Rattle.planner.specs.Plan.{Written, plan_elements};

use crate::element::Element;
use rules::{Kind, Request, Verdict};

// The calls and the state of a request that has passed every check.
pub fn write_plan(table: &[u8], state: &mut [u8], q: Request, plan: &mut [u32]) -> usize
    requires { PermittedRequest table.now state.old q × (list_room (width table.now) ≤ length plan.old) }
    ensures { Written table.now state.old q plan.old result state.new plan.new }
{
    let on = status::image::on_set(table, state);
    let c = request::change::change(table, state, on, q);
    let count = switching::write::write_calls(table, c.switching, plan);
    status::image::set_entry(table, state, q.device as usize, c.entry, c.needed);
    count
}

// Plans a request of any kind but 4, for an accepted table.
fn request_elements<E: Element>(
    table: &[u8],
    state: &mut [u8],
    q: Request,
    plan: &mut [E],
) -> Verdict
    requires { (is_sleep q ≡ false) × (table_verdict table.now ≡ Ok 0) }
    ensures { (result ≡ (plan_elements E.SIZE E.written table.now state.old q (E.numbers plan.old)).verdict)
        × (state.new ≡ (plan_elements E.SIZE E.written table.now state.old q (E.numbers plan.old)).state)
        × (E.numbers plan.new ≡ (plan_elements E.SIZE E.written table.now state.old q (E.numbers plan.old)).plan) }
{
    let fits = plan.len() >= E::SIZE * switching::write::room(table);
    request::stages::past_table(table, state, fits, q)?;
    Ok(E::write_plan(table, state, q, plan))
}

// Plans sleep entry, for an accepted table.
fn sleep_elements<E: Element>(table: &[u8], state: &mut [u8], q: Request, plan: &mut [E]) -> Verdict
    requires { (is_sleep q ≡ true) × (table_verdict table.now ≡ Ok 0) }
    ensures { (result ≡ (plan_elements E.SIZE E.written table.now state.old q (E.numbers plan.old)).verdict)
        × (state.new ≡ (plan_elements E.SIZE E.written table.now state.old q (E.numbers plan.old)).state)
        × (E.numbers plan.new ≡ (plan_elements E.SIZE E.written table.now state.old q (E.numbers plan.old)).plan) }
{
    let fits = plan.len() >= E::SIZE * crate::moves::room(table);
    let mut chosen = [0u8; 64];
    sleep::stages::past_table(table, state, fits, q, &mut chosen)?;
    Ok(crate::moves::write_choice(table, state, &chosen, plan))
}

// Plans one request on a plan of words or of bytes. The table is asked first, so that what is none is refused before anything else is called.
pub fn plan_elements<E: Element>(
    table: &[u8],
    state: &mut [u8],
    q: Request,
    plan: &mut [E],
) -> Verdict
    ensures { (result ≡ (plan_elements E.SIZE E.written table.now state.old q (E.numbers plan.old)).verdict)
        × (state.new ≡ (plan_elements E.SIZE E.written table.now state.old q (E.numbers plan.old)).state)
        × (E.numbers plan.new ≡ (plan_elements E.SIZE E.written table.now state.old q (E.numbers plan.old)).plan) }
{
    table::check_table(table)?;
    match q.asks() {
        Some(Kind::Sleep) => sleep_elements(table, state, q, plan),
        _ => request_elements(table, state, q, plan),
    }
}

// Plans one request on a plan of words. What it accepts of kinds 1 to 3 keeps demand 2, and of kind 4 what sleep entry promises.
pub fn plan_words(table: &[u8], state: &mut [u8], q: Request, plan: &mut [u32]) -> Verdict
    ensures answer { (result ≡ (plan_words table.now state.old q plan.old).verdict)
        × (state.new ≡ (plan_words table.now state.old q plan.old).state)
        × (plan.new ≡ (plan_words table.now state.old q plan.old).plan) }
    ensures demand { is_sleep q ≡ false → Demand2Words table.now state.old q plan.old (number_of result)
        (count_of result) state.new plan.new }
    ensures sleep { is_sleep q ≡ true → SleepEntryWords table.now state.old q plan.old (number_of result)
        (count_of result) state.new plan.new }
{
    plan_elements(table, state, q, plan)
}
