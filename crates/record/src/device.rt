// A device by value: read from bytes with sets of one width, and written with sets of the same or another.
ghost use Rattle.std.specs.Prelude.{◌≡◌, [], ◌∷◌, ◌++◌, ◌+◌, ◌*◌, ◌≤◌, length, replicate};
ghost use Rattle.words.specs.Words.{put};
ghost use Rattle.rules.specs.Index.{each};
ghost use Rattle.rules.specs.Station.{Wide, record_size, fields_size, zeros_size};
ghost use Rattle.record.specs.Record.{device_of};
ghost use Rattle.record.specs.Value.{device_value, sets_bytes, value_bytes};

use crate::Record;

// What a device's record says, in the order of RULES.md 2.4.
#[derive(Clone, Copy)]
pub struct Device {
    pub parent: u8,
    pub ps: u8,
    pub pr: u8,
    pub flags: u8,
    pub sets: [u64; 5],
    pub sxd: [u8; 4],
    pub sxw: [u8; 5],
    pub deepest: u8,
}

// The device that a record says.
impl From<&Record<'_>> for Device {
    ghost from_gives = { λ r v. v ≡ device_value (device_of r.now) };

    #[tactic(auto, unfolding(crate::specs::Value::device_value, rules::specs::Index::each_from))]
    fn from(r: &Record<'_>) -> Device {
        Device {
            parent: r.parent(),
            ps: r.ps(),
            pr: r.pr(),
            flags: r.flags(),
            sets: std::array::from_fn(|k| r.set(k)),
            sxd: std::array::from_fn(|k| r.sxd(k + 1)),
            sxw: std::array::from_fn(|x| r.sxw(x)),
            deepest: r.deepest(),
        }
    }
}

// Five sets, w bytes each; the place is carried on, so that no turn has a product.
#[tactic(auto, using(crate::proofs::Values::sets_loop))]
fn write_sets(sets: [u64; 5], out: &mut [u8], at: usize, w: usize)
    requires { Wide w × (at + 5 * w ≤ length out.old) }
    ensures { out.new ≡ put out.old at (sets_bytes w sets) }
{
    let mut p = at;
    for s in sets {
        crate::word::write(out, p, w, s);
        p += w;
    }
}

impl Device {
    // The device's fields, from `at` on.
    pub fn write(&self, out: &mut [u8], at: usize, w: usize)
        requires { Wide w × (at + fields_size w ≤ length out.old) }
        ensures { (out.new ≡ put out.old at (value_bytes w self.now)) × (length (value_bytes w self.now) ≡ fields_size w) }
    {
        words::copy(&[self.parent, self.ps, self.pr, self.flags], out, at);
        write_sets(self.sets, out, at + 4, w);
        words::copy(&self.sxd, out, at + 4 + 5 * w);
        words::copy(&self.sxw, out, at + 8 + 5 * w);
        words::write8(out, at + 13 + 5 * w, self.deepest);
    }

    // The device's record: its fields, then zeros to its end.
    pub fn write_record(&self, out: &mut [u8], at: usize, w: usize)
        requires { Wide w × (at + record_size w ≤ length out.old) }
        ensures { out.new ≡ put out.old at (value_bytes w self.now ++ replicate (zeros_size w) 0) }
    {
        self.write(out, at, w);
        crate::word::write(out, at + 14 + 5 * w, w, 0);
        words::write16(out, at + 14 + 6 * w, 0);
    }
}
