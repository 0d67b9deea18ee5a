// Sets of power resources in a 64-bit word: bit r is 1 where resource r is in the set.
#![tactic(auto)]

ghost use Rattle.std.specs.Prelude.{◌≡◌, ◌<◌, ◌≤◌, ◌^◌, ltb};
ghost use Rattle.sets.specs.Sets.{member, union, minus, single, first_n, subset, Lowest, Highest};

// What is in a or in b.
pub fn union(a: u64, b: u64) -> u64
    ensures { result ≡ union a b }
{
    a | b
}

// What is in a and not in b.
pub fn minus(a: u64, b: u64) -> u64
    ensures { result ≡ minus a b }
{
    a ^ (a & b)
}

// Resource r alone.
pub fn single(r: u32) -> u64
    requires { r < 64 }
    ensures { result ≡ single r }
{
    1 << r
}

// Whether resource r is in s; a word has none from 64 on.
pub fn has(s: u64, r: u32) -> bool
    ensures { result ≡ member s r }
{
    r < 64 && (s >> r) % 2 == 1
}

// s with resource r taken out.
pub fn without(s: u64, r: u32) -> u64
    requires { r < 64 }
    ensures { result ≡ minus s (single r) }
{
    minus(s, single(r))
}

// The n resources from 0 on.
pub fn first_n(n: u32) -> u64
    requires { n ≤ 64 }
    ensures { result ≡ first_n n }
{
    if n < 64 { single(n) - 1 } else { u64::MAX }
}

// Whether all of a is in b.
pub fn within(a: u64, b: u64) -> bool
    ensures { result ≡ subset a b }
{
    minus(a, b) == 0
}

// Whether s has no resource from n on.
pub fn fits(s: u64, n: u32) -> bool
    ensures { result ≡ ltb s (2 ^ n) }
{
    n >= 64 || (s >> n) == 0
}

// The lowest member of a set that has one, found by the machine and not by a loop.
pub fn lowest(s: u64) -> u32
    requires { 0 < s }
    ensures { Lowest s result × (result < 64) }
{
    s.trailing_zeros()
}

// The highest member, found in the same way.
pub fn highest(s: u64) -> u32
    requires { 0 < s }
    ensures { Highest s result × (result < 64) }
{
    s.ilog2()
}
