// Whether every field of a device is good. Each device of every table and list is asked, and nearly always the answer is yes:
// so the tests do without the place of a bad field, share what they can, and leave at the first that fails. Sets and states are written out
// one by one, and are no arrays: each is read once, for two tests (docs/DECISIONS.md has what loops cost).
ghost use Rattle.std.specs.Prelude.{◌≡◌, ◌&&◌, ◌+◌, ◌<◌, ◌≤◌, length};
ghost use Rattle.rules.specs.Station.{limit, record_size};
ghost use Rattle.rules.specs.Table.{all_good, head_fields, set_fields, sxd_fields, sxw_fields, deepest_fields};
ghost use Rattle.rules.specs.Table.{value_fields, zero_fields, objects_good};
ghost use Rattle.record.specs.Good.{absent_set, no_sleep};
ghost use Rattle.record.specs.Record.{device_of};

use crate::Record;

impl Record<'_> {
    // Bytes 0 to 3.
    #[tactic(auto, unfolding(rules::specs::Table::head_fields, rules::specs::Table::all_good))]
    fn head_good(&self, d: usize) -> bool
        requires { d < 256 }
        ensures { result ≡ all_good (head_fields d (device_of self.now)) }
    {
        self.parent_good(d) & (self.ps() < 16) & (self.pr() < 16) & (self.flags() < 4)
    }

    // Set k, which has been read, where its object is absent, else none.
    #[tactic(auto, unfolding(crate::specs::Good::absent_set))]
    fn absent_set(&self, k: usize, s: u64) -> u64
        requires { (k < 5) × (s ≡ (device_of self.now).sets k) }
        ensures { result ≡ absent_set (device_of self.now) k }
    {
        if self.present(k) {
            return 0;
        }
        s
    }

    // The five sets, each read once: their union has no bit at or above R, and the union of those whose objects are absent is none. Where
    // all five objects are there, nothing is left to ask.
    #[tactic(auto, using(crate::proofs::AllGood::sets_unfit, crate::proofs::AllGood::sets_there, crate::proofs::AllGood::sets_left))]
    fn sets_good(&self, resources: usize) -> bool
        requires { resources ≤ limit self.now.width }
        ensures { result ≡ all_good (set_fields self.now.width resources (device_of self.now)) }
    {
        let a = self.set(0);
        let b = self.set(1);
        let c = self.set(2);
        let d = self.set(3);
        let e = self.set(4);
        if !sets::within(a | b | c | d | e, sets::first_n(resources as u32)) {
            return false;
        }
        if (self.pr() == 15) & self.present(4) {
            return true;
        }
        let f = self.absent_set(0, a);
        let g = self.absent_set(1, b);
        let h = self.absent_set(2, c);
        let i = self.absent_set(3, d);
        let j = self.absent_set(4, e);
        (f | g | h | i | j) == 0
    }

    // `_S1D` to `_S4D`. Where a device has none of them, one comparison tests all four.
    #[tactic(auto, unfolding(rules::specs::Table::sxd_fields, rules::specs::Table::all_good, rules::specs::Index::each_from, rules::specs::Table::sxd_good))]
    fn states_good(&self) -> bool
        ensures { result ≡ all_good (sxd_fields self.now.width (device_of self.now)) }
    {
        let a = self.sxd(1);
        let b = self.sxd(2);
        let c = self.sxd(3);
        let d = self.sxd(4);
        if u32::from_le_bytes([a, b, c, d]) == 0xffff_ffff {
            return true;
        }
        self.sxd_good(1) && self.sxd_good(2) && self.sxd_good(3) && self.sxd_good(4)
    }

    // `_S0W` to `_S4W`.
    #[tactic(auto, unfolding(rules::specs::Table::sxw_fields, rules::specs::Table::all_good, rules::specs::Index::each_from))]
    fn limits_good(&self) -> bool
        ensures { result ≡ all_good (sxw_fields self.now.width (device_of self.now)) }
    {
        self.sxw_good(0) & self.sxw_good(1) & self.sxw_good(2) & self.sxw_good(3) & self.sxw_good(4)
    }

    // Whether `_S1D` to `_S4D` and `_S0W` to `_S4W` are absent and the deepest sleep state is 0: ten bytes, asked as one number of eight and
    // one of two.
    fn no_sleep(&self) -> bool
        ensures { result ≡ no_sleep (device_of self.now) }
    {
        let first = self.at + 4 + 5 * self.width;
        let eight = self.bytes[first..first + 8].try_into().unwrap();
        let last = u16::from_le_bytes([self.sxw(4), self.deepest()]);
        (u64::from_le_bytes(eight) == u64::MAX) & (last == 0x00ff)
    }

    // What a device says of sleep states. Most of those without `_PRW` say nothing. The others are not asked that: the compiler would take
    // the bytes for the tests below out of the numbers read for it.
    #[tactic(auto, unfolding(rules::specs::Table::deepest_fields, rules::specs::Table::all_good), using(crate::proofs::AllGood::no_sleep_good))]
    fn sleep_good(&self) -> bool
        ensures { result ≡ (all_good (sxd_fields self.now.width (device_of self.now))
            && all_good (sxw_fields self.now.width (device_of self.now))
            && all_good (deepest_fields self.now.width (device_of self.now))) }
    {
        if self.flags() == 0 && self.no_sleep() {
            return true;
        }
        self.states_good() && self.limits_good() && self.deepest_good()
    }

    // Every value of device d, wherever its record is: in a table, or in a list of described devices, which has no zeros.
    #[tactic(auto, unfolding(rules::specs::Table::value_fields, rules::specs::Table::deepest_fields, rules::specs::Table::all_good), using(laws::proofs::Good::joined))]
    pub fn values_good(&self, d: usize, resources: usize) -> bool
        requires { (d < 256) × (resources ≤ limit self.now.width) }
        ensures { result ≡ all_good (value_fields self.now.width resources d (device_of self.now)) }
    {
        self.head_good(d) && self.sets_good(resources) && self.sleep_good()
    }

    // Zeros to the record's end, 6 bytes or 10, read as three numbers of four bytes, which cover them in either version without a branch.
    #[tactic(auto, using(crate::proofs::AllGood::zeros_fours))]
    pub fn zeros_good(&self) -> bool
        requires { self.now.at + record_size self.now.width ≤ length self.now.bytes.now }
        ensures { result ≡ all_good (zero_fields self.now.width self.now.bytes.now self.now.at) }
    {
        let first = words::read32(self.bytes, self.at + 14 + 5 * self.width);
        let next = words::read32(self.bytes, self.at + 10 + 6 * self.width);
        let last = words::read32(self.bytes, self.at + 12 + 6 * self.width);
        (first | next | last) == 0
    }

    // Whether the objects agree. Where there are `_PR0` and `_PR3`, and either no `_PS` or one for each state with `_PR`, only `_DSW` is
    // left to ask; any other device is put to the whole rule.
    #[tactic(auto, unfolding(rules::specs::Table::objects_good))]
    pub fn objects_agree(&self) -> bool
        ensures { result ≡ objects_good (device_of self.now) }
    {
        let ps = self.ps();
        let pr = self.pr();
        let flags = self.flags();
        if ((ps == 0) | (ps == pr)) & crate::good::bit(pr, 0) & crate::good::bit(pr, 3) {
            return !crate::good::bit(flags, 1) | crate::good::bit(flags, 0);
        }
        self.objects_good()
    }
}
