// One phase of a list: the calls that switch each resource of a set, each once and in order. The first word that cannot stand there ends
// it.
ghost use Rattle.std.specs.Prelude.{◌≡◌, ◌^◌, ◌<◌, IfSome};
ghost use Rattle.rules.specs.Station.{count_r, station};
ghost use Rattle.table.specs.Layout.{WellSized};
ghost use Rattle.switching.specs.Phases.{Leaves, follows, take_phase, comes_next};

// Whether r's resourceorder may follow the last one's: not higher for OFFs, not lower for ONs.
#[tactic(auto, unfolding(crate::specs::Phases::follows))]
fn in_order(table: &[u8], off: bool, last: usize, r: usize) -> bool
    requires { WellSized table.now × (last < count_r table.now) × (r < count_r table.now) }
    ensures { result ≡ follows (station table.now) off last r }
{
    let before = table::fields::order(table, last);
    let here = table::fields::order(table, r);
    if off { here <= before } else { before <= here }
}

// Whether r may be switched next, after the last one if any, while `left` is still to be switched.
#[tactic(auto, unfolding(crate::specs::Phases::comes_next))]
fn comes_next(table: &[u8], off: bool, left: u64, last: Option<usize>, r: u32) -> bool
    requires { WellSized table.now × (left < 2 ^ count_r table.now) × IfSome last (λ p. p < count_r table.now) }
    ensures { result ≡ comes_next (station table.now) off left last r }
{
    sets::has(left, r)
        && match last {
            Some(last) => in_order(table, off, last, r as usize),
            None => true,
        }
}

// What is left of the list after the words that switch each resource of the set.
pub fn take_phase<'a>(table: &[u8], off: bool, set: u64, list: &'a [u32]) -> Option<&'a [u32]>
    requires { WellSized table.now × (set < 2 ^ count_r table.now) }
    ensures { Leaves result (take_phase (station table.now) off set None list.now) }
{
    let mut left = set;
    let mut last = None;
    let mut rest = list;
    while left > 0 {
        let (word, after) = rest.split_first()?;
        let r = u32::from(crate::decode::switched(off, *word)?);
        if !comes_next(table, off, left, last, r) {
            return None;
        }
        left = sets::without(left, r);
        last = Some(r as usize);
        rest = after;
    }
    Some(rest)
}
