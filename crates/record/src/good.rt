// The tests of one field of a device's record, and whether its objects agree.
// Tests are joined by `&` and `|`, not `&&` and `||`: no branch, and the value is mostly the rule as it is written.
ghost use Rattle.std.specs.Prelude.{◌≡◌, ◌<◌, ◌≤◌};
ghost use Rattle.sets.specs.Sets.{member};
ghost use Rattle.rules.specs.Station.{limit};
ghost use Rattle.rules.specs.Table.{parent_good, present, set_good, sxd_good, sxw_good, deepest_good, objects_good};
ghost use Rattle.record.specs.Record.{device_of};

use crate::Record;

// Bit x of a mask.
pub fn bit(mask: u8, x: u32) -> bool
    ensures { result ≡ member mask x }
{
    sets::has(u64::from(mask), x)
}

impl Record<'_> {
    // A parent is lower than its child; 255 for none. One comparison for both, of the number after the parent's.
    #[tactic(auto, unfolding(rules::specs::Table::parent_good))]
    pub fn parent_good(&self, d: usize) -> bool
        requires { d < 256 }
        ensures { result ≡ parent_good d (device_of self.now) }
    {
        let parent = self.parent();
        words::next8(parent) as usize <= d
    }

    // Whether set k's object is there: `_PR0` to `_PR3`, or `_PRW`.
    #[tactic(auto, unfolding(rules::specs::Table::present))]
    pub fn present(&self, k: usize) -> bool
        requires { k < 5 }
        ensures { result ≡ present (device_of self.now) k }
    {
        if k == 4 {
            return bit(self.flags(), 0);
        }
        bit(self.pr(), k as u32)
    }

    // No bit at or above R, and zero where the object is absent.
    #[tactic(auto, unfolding(rules::specs::Table::set_good))]
    pub fn set_good(&self, k: usize, resources: usize) -> bool
        requires { (k < 5) × (resources ≤ limit self.now.width) }
        ensures { result ≡ set_good resources (device_of self.now) k }
    {
        let s = self.set(k);
        sets::fits(s, resources as u32) & (self.present(k) | (s == 0))
    }

    // `_SxD`: 0 to 3 or absent, and not larger than `_SxW` where both are present. An absent `_SxW`, 255, is larger than any state.
    #[tactic(auto, unfolding(rules::specs::Table::sxd_good))]
    pub fn sxd_good(&self, x: usize) -> bool
        requires { x < 5 }
        ensures { result ≡ sxd_good (device_of self.now) x }
    {
        let state = self.sxd(x);
        if state <= 3 {
            return state <= self.sxw(x);
        }
        state == 255
    }

    // `_SxW`: 0 to 4 or absent.
    #[tactic(auto, unfolding(rules::specs::Table::sxw_good))]
    pub fn sxw_good(&self, x: usize) -> bool
        requires { x < 5 }
        ensures { result ≡ sxw_good (device_of self.now) x }
    {
        let limit = self.sxw(x);
        (limit == 255) | (limit <= 4)
    }

    // The deepest sleep state: 0 to 4; 0 without `_PRW`. One comparison for both.
    #[tactic(auto, unfolding(rules::specs::Table::deepest_good, rules::specs::Table::present))]
    pub fn deepest_good(&self) -> bool
        ensures { result ≡ deepest_good (device_of self.now) }
    {
        let most = if self.present(4) { 4 } else { 0 };
        self.deepest() <= most
    }

    // Any `_PS` needs `_PS0` and `_PS3`; any `_PR` needs `_PR0`; with both kinds, mask bits 0 to 2 agree; `_DSW` needs `_PRW`.
    #[tactic(auto, unfolding(rules::specs::Table::objects_good))]
    pub fn objects_good(&self) -> bool
        ensures { result ≡ objects_good (device_of self.now) }
    {
        let ps = self.ps();
        let pr = self.pr();
        let flags = self.flags();
        ((ps == 0) | bit(ps, 0) & bit(ps, 3))
            & ((pr == 0) | bit(pr, 0))
            & ((ps == 0) | (pr == 0) | (ps % 8 == pr % 8))
            & (!bit(flags, 1) | bit(flags, 0))
    }
}
