// The first bad field of a record: where in the record it starts, if one is bad.
ghost use Rattle.std.specs.Prelude.{◌≡◌, ◌+◌, ◌<◌, ◌≤◌, length};
ghost use Rattle.rules.specs.Station.{limit, record_size};
ghost use Rattle.rules.specs.Table.{head_fields, set_fields, sxd_fields, sxw_fields, deepest_fields};
ghost use Rattle.rules.specs.Table.{value_fields, zero_fields, device_fields};
ghost use Rattle.record.specs.Bad.{bad_place};
ghost use Rattle.record.specs.Record.{device_of};

use crate::Record;
use crate::read::set_start;

impl Record<'_> {
    // Where the first bad field of a device's bytes 0 to 3 starts, if one is bad; so the four after it, of other values.
    #[tactic(auto, unfolding(rules::specs::Table::head_fields, crate::specs::Bad::bad_place))]
    fn bad_head(&self, d: usize) -> Option<usize>
        requires { d < 256 }
        ensures { result ≡ bad_place (head_fields d (device_of self.now)) }
    {
        if !self.parent_good(d) {
            return Some(0);
        }
        if self.ps() >= 16 {
            return Some(1);
        }
        if self.pr() >= 16 {
            return Some(2);
        }
        if self.flags() >= 4 {
            return Some(3);
        }
        None
    }

    // The five sets.
    #[tactic(auto, unfolding(rules::specs::Table::set_fields), using(crate::proofs::FirstBad::bad_loop))]
    fn bad_set(&self, resources: usize) -> Option<usize>
        requires { resources ≤ limit self.now.width }
        ensures { result ≡ bad_place (set_fields self.now.width resources (device_of self.now)) }
    {
        for k in 0..5 {
            if !self.set_good(k, resources) {
                return Some(set_start(self.width, k));
            }
        }
        None
    }

    // `_S1D` to `_S4D`.
    #[tactic(auto, unfolding(rules::specs::Table::sxd_fields), using(crate::proofs::FirstBad::bad_loop))]
    fn bad_sxd(&self) -> Option<usize>
        ensures { result ≡ bad_place (sxd_fields self.now.width (device_of self.now)) }
    {
        for k in 0..4 {
            if !self.sxd_good(k + 1) {
                return Some(4 + 5 * self.width + k);
            }
        }
        None
    }

    // `_S0W` to `_S4W`.
    #[tactic(auto, unfolding(rules::specs::Table::sxw_fields), using(crate::proofs::FirstBad::bad_loop))]
    fn bad_sxw(&self) -> Option<usize>
        ensures { result ≡ bad_place (sxw_fields self.now.width (device_of self.now)) }
    {
        for x in 0..5 {
            if !self.sxw_good(x) {
                return Some(8 + 5 * self.width + x);
            }
        }
        None
    }

    // The deepest sleep state.
    #[tactic(auto, unfolding(rules::specs::Table::deepest_fields, crate::specs::Bad::bad_place))]
    fn bad_deepest(&self) -> Option<usize>
        ensures { result ≡ bad_place (deepest_fields self.now.width (device_of self.now)) }
    {
        if !self.deepest_good() {
            return Some(13 + 5 * self.width);
        }
        None
    }

    // Where the first bad value of device d starts, if one is bad. A part is asked only where those before it are good: `or` would ask all
    // of them, and of `or_else` a proof does not learn what such a closure returns.
    #[tactic(auto, unfolding(rules::specs::Table::value_fields), using(crate::proofs::FirstBad::place_joined))]
    pub fn bad_value(&self, d: usize, resources: usize) -> Option<usize>
        requires { (d < 256) × (resources ≤ limit self.now.width) }
        ensures { result ≡ bad_place (value_fields self.now.width resources d (device_of self.now)) }
    {
        if let Some(at) = self.bad_head(d) {
            return Some(at);
        }
        if let Some(at) = self.bad_set(resources) {
            return Some(at);
        }
        if let Some(at) = self.bad_sxd() {
            return Some(at);
        }
        if let Some(at) = self.bad_sxw() {
            return Some(at);
        }
        self.bad_deepest()
    }

    // The 2 + w zeros to the record's end.
    #[tactic(auto, unfolding(rules::specs::Table::zero_fields), using(crate::proofs::FirstBad::bad_loop))]
    fn bad_zero(&self) -> Option<usize>
        requires { self.now.at + record_size self.now.width ≤ length self.now.bytes.now }
        ensures { result ≡ bad_place (zero_fields self.now.width self.now.bytes.now self.now.at) }
    {
        for k in 0..2 + self.width {
            if self.bytes[self.at + 14 + 5 * self.width + k] != 0 {
                return Some(14 + 5 * self.width + k);
            }
        }
        None
    }

    // Where the first bad field of device d's record starts, if one is bad.
    #[tactic(auto, unfolding(rules::specs::Table::device_fields), using(crate::proofs::FirstBad::place_joined))]
    pub fn bad_field(&self, d: usize, resources: usize) -> Option<usize>
        requires { (self.now.at + record_size self.now.width ≤ length self.now.bytes.now) × (d < 256)
            × (resources ≤ limit self.now.width) }
        ensures { result ≡ bad_place (device_fields self.now.width resources self.now.bytes.now d self.now.at) }
    {
        if let Some(at) = self.bad_value(d, resources) {
            return Some(at);
        }
        self.bad_zero()
    }
}
