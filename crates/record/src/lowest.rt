// The lowest bad record of a run of records: those of a table, and those of a list of described resources or devices.
ghost use Rattle.std.specs.Prelude.{◌≡◌, ◌||◌, not, ◌+◌, ◌*◌, ◌<◌, ◌≤◌, length};
ghost use Rattle.rules.specs.Index.{least_option};
ghost use Rattle.rules.specs.Station.{Wide, limit};
ghost use Rattle.rules.specs.Table.{all_good, resource_good, zero_fields};
ghost use Rattle.record.specs.Good.{size_with, good_with};

use crate::Record;

// Whether a resource has a bad field. Its level and the zero after it are read as one number, which is at most 4 if both are good.
#[tactic(auto, unfolding(rules::specs::Table::resource_good, rules::specs::Table::first_bad, words::specs::Words::read_le))]
fn resource_bad(bytes: &[u8], at: usize) -> bool
    requires { at + 4 ≤ length bytes.now }
    ensures { result ≡ not (resource_good bytes.now at) }
{
    words::read16(bytes, at) > 4
}

// The lowest bad one of n resources from byte `first` on, if one is bad.
#[tactic(auto, unfolding(rules::specs::Index::least_option), using(rules::proofs::Index::lowest_of))]
pub fn lowest_resource(bytes: &[u8], first: usize, n: usize) -> Option<usize>
    requires { first + 4 * n ≤ length bytes.now }
    ensures { result ≡ least_option (λ i. not (resource_good bytes.now (first + 4 * i))) n }
{
    for i in 0..n {
        if resource_bad(bytes, first + 4 * i) {
            return Some(i);
        }
    }
    None
}

// The bytes of a device's record, with the zeros at its end or without.
fn size_with(w: usize, zeros: bool) -> usize
    requires { Wide w }
    ensures { result ≡ size_with zeros w }
{
    if zeros {
        return crate::read::size(w);
    }
    14 + 5 * w
}

// Device records one after the other: the bytes, where in them the first starts, the bytes of a set, whether zeros end each record, as in
// a table, or none, as in a list of described devices, and how many records there are. They end inside the bytes.
// `zeros` changes their size too, so no test as a closure would stand for it.
#[derive(Clone, Copy)]
pub struct Records<'a> {
    pub bytes: &'a [u8],
    pub first: usize,
    pub width: usize,
    pub zeros: bool,
    pub count: usize,
    pub ghost wide: { Wide width },
    pub ghost inside: { first + size_with zeros width * count ≤ length bytes.now },
    pub ghost few: { count < 256 },
}

impl Records<'_> {
    // Whether zeros follow the values of a record, where there are any.
    fn zeros_follow(&self, r: &Record<'_>) -> bool
        requires { r.now.at + size_with self.now.zeros r.now.width ≤ length r.now.bytes.now }
        ensures { result ≡ (not self.now.zeros || all_good (zero_fields r.now.width r.now.bytes.now r.now.at)) }
    {
        !self.zeros || r.zeros_good()
    }

    // Whether every field of device d, whose record starts at a byte, is good, and its objects agree.
    #[tactic(auto, unfolding(crate::specs::Good::good_with))]
    fn device_good(&self, at: usize, d: usize, resources: usize) -> bool
        requires { (at + size_with self.now.zeros self.now.width ≤ length self.now.bytes.now) × (d < 256)
            × (resources ≤ limit self.now.width) }
        ensures { result ≡ good_with self.now.zeros self.now.width resources self.now.bytes.now d at }
    {
        let r = Record {
            bytes: self.bytes,
            at,
            width: self.width,
        };
        r.values_good(d, resources) && self.zeros_follow(&r) && r.objects_agree()
    }

    // The lowest bad device, if one is bad. The bytes at which the records start are added up: no product in the loop.
    #[tactic(auto, unfolding(rules::specs::Index::least_option), using(rules::proofs::Index::lowest_of))]
    pub fn lowest_bad(&self, resources: usize) -> Option<usize>
        requires { resources ≤ limit self.now.width }
        ensures { result ≡ least_option (λ i. not (good_with self.now.zeros self.now.width resources self.now.bytes.now i
            (self.now.first + size_with self.now.zeros self.now.width * i))) self.now.count }
    {
        let size = size_with(self.width, self.zeros);
        let mut at = self.first;
        for d in 0..self.count {
            if !self.device_good(at, d, resources) {
                return Some(d);
            }
            at += size;
        }
        None
    }
}
