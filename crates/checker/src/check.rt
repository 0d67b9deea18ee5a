// Whether a list of calls conforms to a request: answers 1 to 8, 10 to 18, then 19. Nothing is written.
ghost use Rattle.std.specs.Prelude.{◌≡◌};
ghost use Rattle.rules.specs.Station.{station};
ghost use Rattle.rules.specs.Status.{status};
ghost use Rattle.rules.specs.Check.{conforming_to};
ghost use Rattle.rules.specs.Outcomes.{check_words};
ghost use Rattle.laws.specs.Demand3.{Demand3};
ghost use Rattle.request.specs.Permitted.{PermittedRequest};

use rules::{Reason, Refusal, Request, Verdict};

// Whether the list is that of a request which has passed every check.
pub fn conforming(table: &[u8], state: &[u8], q: Request, list: &[u32]) -> bool
    requires { PermittedRequest table.now state.now q }
    ensures { result ≡ conforming_to (station table.now) (status table.now state.now) q
        list.now }
{
    let on = status::image::on_set(table, state);
    let c = request::change::change(table, state, on, q);
    switching::walk::walk(table, c.switching, list)
}

// The checker on a list of words. What it passes keeps demand 3.
#[tactic(auto, using(crate::proofs::Answer::word_stops))]
pub fn check_words(table: &[u8], state: &[u8], q: Request, list: &[u32]) -> Verdict
    ensures answer { result ≡ check_words table.now state.now q list.now }
    ensures demand { Demand3 table.now state.now q list.now }
{
    request::stages::verdict(table, state, true, q)?;
    if !conforming(table, state, q, list) {
        return Err(Refusal(Reason::NotConforming, 0));
    }
    Ok(0)
}
