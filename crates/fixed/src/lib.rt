// A float taken apart into fixed point, and put together again. Qk is a whole number that stands for itself over 2^k.
#![tactic(auto)]

ghost use Rattle.std.specs.Prelude.{◌≡◌, not, ◌+◌, ◌-◌, ◌*◌, ◌/◌, ◌%◌, ◌^◌, ◌<◌, ◌≤◌, T, leb};
ghost use Rattle.std.specs.Float.{binary32};
ghost use Rattle.std.specs.Float.Ieee.{is_nan, to_bits};
ghost use Rattle.series.specs.Near.{Relative};
ghost use Rattle.fixed.specs.Fixed.{small, place_at, place_of, size_at, size_of, pack_of};

// x * y of Q32, both of Q32 and below 1, cut
pub fn times(x: u64, y: u64) -> u64
    requires { (x < 4294967296) × (y < 4294967296) }
    ensures { (result ≡ x * y / 4294967296) × (result ≤ x) × (result ≤ y) }
{
    x * y / 4294967296
}

// a float as ± digits * 2^(exponent - 150), where the exponent's field is not 0: the digits have the leading one that the pattern leaves out
#[derive(Clone, Copy)]
pub struct Parts {
    pub negative: bool,
    pub exponent: u64,
    pub digits: u64,
    ghost ranges: { (exponent < 256) × (8388608 ≤ digits) × (digits < 16777216) },
}

impl Parts {
    pub fn of(t: f32) -> Parts
        requires { T (not (is_nan t)) }
        ensures negative { result.negative ≡ leb 2147483648 (to_bits binary32 t) }
        ensures exponent { result.exponent ≡ to_bits binary32 t % 2147483648 / 8388608 }
        ensures digits { result.digits ≡ to_bits binary32 t % 8388608 + 8388608 }
    {
        let b: u32 = f32::to_bits(t);
        Parts {
            negative: b >= 2147483648,
            exponent: (b % 2147483648 / 8388608) as u64,
            digits: (b % 8388608 + 8388608) as u64,
        }
    }

    // the size in Q56, where it is whole. The bounds stand in the contracts of these three alone: a type for them would be made and taken apart
    // in each of two callers
    #[tactic(auto, using(crate::proofs::Shifts::wholes))]
    fn whole(self) -> u64
        requires { (94 ≤ self.exponent) × (self.exponent ≤ 133) }
        ensures { (result ≡ self.digits * 2 ^ (self.exponent - 94)) × (result < 9223372036854775808) }
    {
        self.digits << (self.exponent - 94)
    }

    // 128 ± the size in Q32, cut
    #[tactic(auto, using(crate::proofs::Shifts::places))]
    fn place(self) -> u64
        requires { (94 ≤ self.exponent) × (self.exponent ≤ 133) }
        ensures { result ≡ place_at self.negative self.exponent self.digits }
    {
        if self.negative {
            return (9223372036854775808 - self.whole()) >> 24;
        }
        (9223372036854775808 + self.whole()) >> 24
    }

    // the size in Q32, cut
    #[tactic(auto, using(crate::proofs::Shifts::size_whole))]
    fn size(self) -> u64
        requires { (94 ≤ self.exponent) × (self.exponent ≤ 133) }
        ensures { result ≡ size_at self.exponent self.digits }
    {
        self.whole() >> 24
    }
}

// t + 128 in Q32, cut
#[tactic(auto, using(crate::proofs::Tiny::spots))]
pub fn spot(t: f32) -> u64
    requires { T (small t) }
    ensures { result ≡ place_of t }
{
    let p = Parts::of(t);
    if p.exponent < 94 {
        if t < 0.0 {
            return 549755813887;
        }
        return 549755813888;
    }
    p.place()
}

// the size of t in Q32, cut
#[tactic(auto, using(crate::proofs::Placed::sizes))]
pub fn size(t: f32) -> u64
    requires { T (small t) }
    ensures { result ≡ size_of t }
{
    let p = Parts::of(t);
    if p.exponent < 94 {
        return 0;
    }
    p.size()
}

// q of Qk as a float, to the nearest
#[tactic(auto, unfolding(crate::specs::Fixed::pack_of), using(crate::proofs::Packs::packs))]
pub fn pack(q: u64, k: u64) -> f32
    requires { (0 < q) × (k ≤ 120) }
    ensures is { result ≡ pack_of q k }
    ensures near { Relative (2 ^ 24) q (2 ^ k) result }
{
    let z = u64::leading_zeros(q) as u64;
    let m = (((q << z) >> 39) + 1) >> 1;
    f32::from_bits(((189 - z - k) * 8388608 + m) as u32)
}
