// Conversions between floats and integers, worked out on bits: sign, exponent and fraction by shifts and masks, with no
// float instruction and no signed number. This is what `as`, `to_f32`, `f16::from_f32` and their like do in the
// source's ctor.rs and conv.rs. A format is a type with its numbers and their law. A pattern is held in a u64.
#![tactic(auto)]

ghost use Rattle.std.specs.Prelude.{◌≡◌, ℕ, false, cond, ◌+◌, ◌-◌, ◌*◌, ◌/◌, ◌%◌, ◌^◌, ◌≤◌, ◌<◌, min, ltb};
ghost use Rattle.meaning.specs.Floats.{hid, ones, top, closest, packed, bits, value, integer};
ghost use Rattle.meaning.specs.Floats as Floats;
ghost use Rattle.meaning.specs.Scalars as Scalars;
ghost use Rattle.laws.proofs.Digits.{Format as IsFormat};
ghost use Rattle.laws.proofs.Rounding as Rounding;
ghost use Rattle.float.specs.Taken.{Layout, binary16_is, binary32_is, binary64_is, size, meaning, exponent, Stands};

// A binary format by its numbers: the digits of its significand with the leading one, and its largest exponent.
pub trait Format {
    const DIGITS: u64;

    const EMAX: u64;

    ghost DIGITS: { ℕ };

    ghost EMAX: { ℕ };

    ghost laws: { IsFormat DIGITS EMAX };
}

// A format whose patterns are read: the bits of its exponent's field.
pub trait Pattern: Format {
    const EXPONENT_BITS: u64;

    ghost EXPONENT_BITS: { ℕ };

    ghost laws: { Layout Self.DIGITS Self.EMAX EXPONENT_BITS };
}

// The three formats of IEEE 754 here: of 16, 32 and 64 bits.
pub struct Binary16;

impl Format for Binary16 {
    const DIGITS: u64 = 11;

    const EMAX: u64 = 15;

    ghost DIGITS = { 11 };

    ghost EMAX = { 15 };

    ghost laws = { binary16_is.format };
}

impl Pattern for Binary16 {
    const EXPONENT_BITS: u64 = 5;

    ghost EXPONENT_BITS = { 5 };

    ghost laws = { binary16_is };
}

pub struct Binary32;

impl Format for Binary32 {
    const DIGITS: u64 = 24;

    const EMAX: u64 = 127;

    ghost DIGITS = { 24 };

    ghost EMAX = { 127 };

    ghost laws = { binary32_is.format };
}

impl Pattern for Binary32 {
    const EXPONENT_BITS: u64 = 8;

    ghost EXPONENT_BITS = { 8 };

    ghost laws = { binary32_is };
}

pub struct Binary64;

impl Format for Binary64 {
    const DIGITS: u64 = 53;

    const EMAX: u64 = 1023;

    ghost DIGITS = { 53 };

    ghost EMAX = { 1023 };

    ghost laws = { binary64_is.format };
}

impl Pattern for Binary64 {
    const EXPONENT_BITS: u64 = 11;

    ghost EXPONENT_BITS = { 11 };

    ghost laws = { binary64_is };
}

// A whole number by its sign and its magnitude.
#[derive(Clone, Copy)]
pub struct Whole {
    pub negative: bool,
    pub magnitude: u64,
}

// A magnitude: significand * 2 ^ exponent.
#[derive(Clone, Copy)]
pub struct Magnitude {
    pub significand: u64,
    pub exponent: u64,
}

// An exact number taken apart: Fin(s, x) is x * 2 ^ -1074, negative where s is true. Every float of the three formats
// is one, and every integer of 64 bits.
#[derive(Clone, Copy)]
pub enum Parts {
    Nan,
    Inf(bool),
    Fin(bool, Magnitude),
}

// A range of whole numbers, from -low to high.
#[derive(Clone, Copy)]
pub struct Range {
    pub low: u64,
    pub high: u64,
}

// ---- bits

// The k low bits of x.
fn low_bits(x: u64, k: u64) -> u64
    requires { k < 64 }
    ensures { result ≡ x % 2 ^ k }
{
    x & ((1 << k) - 1)
}

// f in the place of the exponent's field; from the field's range on it reaches the sign's place.
fn placed<F: Format>(f: u64) -> u64
    requires { f < 4096 }
    ensures { result ≡ f * hid F.DIGITS }
{
    f << (F::DIGITS - 1)
}

// The exponent's field of a pattern.
fn field<F: Pattern>(x: u64) -> u64
    ensures { result ≡ x / hid F.DIGITS % 2 ^ F.EXPONENT_BITS }
{
    low_bits(x >> (F::DIGITS - 1), F::EXPONENT_BITS)
}

// The fraction of a pattern.
fn fraction<F: Format>(x: u64) -> u64
    ensures { result ≡ x % hid F.DIGITS }
{
    low_bits(x, F::DIGITS - 1)
}

// The largest field, that of the infinities and NaNs.
fn largest_field<F: Format>() -> u64
    ensures { result ≡ ones F.EMAX }
{
    2 * F::EMAX + 1
}

// The sign's bit.
fn sign_bit<F: Format>() -> u64
    ensures { result ≡ top F.DIGITS F.EMAX }
{
    placed::<F>(2 * F::EMAX + 2)
}

// The same as a pattern has it: set where the number is negative.
fn sign<F: Format>(negative: bool) -> u64
    ensures { result ≡ cond negative (top F.DIGITS F.EMAX) 0 }
{
    if negative { sign_bit::<F>() } else { 0 }
}

// The format's smallest positive value is 2 ^ unit, where 1 is 2 ^ -1074: binary64's own.
fn unit<F: Format>() -> u64
    ensures { result ≡ Floats.unit F.DIGITS F.EMAX }
{
    1076 - (F::EMAX + F::DIGITS)
}

// The infinity's pattern: ones in the whole of the exponent's field.
fn infinity<F: Format>() -> u64
    ensures { result ≡ ones F.EMAX * hid F.DIGITS }
{
    placed::<F>(largest_field::<F>())
}

// ---- from a pattern or an integer to its parts

// The parts of a pattern. Any x is read; bits above the sign's count as the sign. The field 0 has no leading one.
pub fn unpack<F: Pattern>(x: u64) -> Parts
    ensures { Stands (value F.DIGITS F.EMAX x) result }
{
    let s = sign_bit::<F>() <= x;
    let f = field::<F>(x);
    let t = fraction::<F>(x);
    if f == largest_field::<F>() {
        if t == 0 {
            return Parts::Inf(s);
        }
        return Parts::Nan;
    }
    let u = unit::<F>();
    if f == 0 {
        return Parts::Fin(
            s,
            Magnitude {
                significand: t,
                exponent: u,
            },
        );
    }
    let m = placed::<F>(1) + t;
    let e = f - 1 + u;
    Parts::Fin(
        s,
        Magnitude {
            significand: m,
            exponent: e,
        },
    )
}

impl Magnitude {
    // The whole number n, in the unit of `Parts`, 2 ^ -1074.
    fn whole(n: u64) -> Self
        ensures { result ≡ record { significand = n; exponent = 1074 } }
    {
        Magnitude {
            significand: n,
            exponent: 1074,
        }
    }
}

// The number m.
impl From<u64> for Whole {
    ghost from_gives = { λ m n. n ≡ record { negative = false; magnitude = m } };

    fn from(m: u64) -> Whole {
        Whole {
            negative: false,
            magnitude: m,
        }
    }
}

// The parts of a whole number.
impl From<Whole> for Parts {
    ghost from_gives = { λ n v. Stands (integer n.negative n.magnitude) v };

    fn from(n: Whole) -> Parts {
        Parts::Fin(n.negative, Magnitude::whole(n.magnitude))
    }
}

// ---- from parts to the nearest pattern

// m / 2 ^ sh to the nearest whole number, a tie to the even one.
fn round_shift(m: u64, sh: u64) -> u64
    ensures { result ≡ closest m (2 ^ sh) }
{
    if sh == 0 {
        return m;
    }
    if sh > 64 {
        return 0;
    }
    let half = 1 << (sh - 1);
    // every digit is dropped
    if sh == 64 {
        if m > half {
            return 1;
        }
        return 0;
    }
    let q = m >> sh;
    let rest = low_bits(m, sh);
    // at a tie an odd q is left, and an even one kept
    if rest + (q & 1) > half { q + 1 } else { q }
}

impl Magnitude {
    // Divided by 2 ^ d, to the nearest whole number.
    fn scaled(self, d: u64) -> u64
        requires { d ≤ self.exponent
            → (self.exponent - d < 64) × (self.significand * 2 ^ (self.exponent - d) < 2 ^ 64) }
        ensures { result ≡ closest (size self) (2 ^ d) }
    {
        if d <= self.exponent {
            self.significand << (self.exponent - d)
        } else {
            round_shift(self.significand, d - self.exponent)
        }
    }

    // How many places the format drops: it keeps DIGITS digits, and none below its smallest value. The digits are
    // counted by the place of the leading one bit of an integer's magnitude, which its leading zeros tell; the count
    // gives the exponent and the shift.
    fn dropped<F: Format>(self) -> u64
        requires { (0 < self.significand) × (self.exponent < 2100) }
        ensures value { result ≡ Floats.dropped F.DIGITS F.EMAX (size self) }
        ensures upper_bound { result < 2164 }
    {
        let digits = 64 - (u64::leading_zeros(self.significand) as u64) + self.exponent;
        digits.saturating_sub(unit::<F>()).saturating_sub(F::DIGITS)
    }

    // The pattern, without its sign, of the value of the format nearest to the magnitude in units of 2 ^ -1074. Of the
    // digits kept the leading one adds one to the field, and a carry goes into the field too, as it should; from the
    // infinity's pattern on it is the infinity.
    fn pack<F: Format>(self) -> u64
        requires { self.exponent < 2100 }
        ensures { result ≡ packed F.DIGITS F.EMAX (size self) }
    {
        if self.significand == 0 {
            return 0;
        }
        let k = self.dropped::<F>();
        let u = unit::<F>();
        let q = self.scaled(u + k);
        (placed::<F>(k) + q).min(infinity::<F>())
    }
}

// The pattern of the value nearest to a number, by one rounding; the NaN made has the sign clear and the fraction's
// highest bit alone.
fn assemble<F: Format>(v: Parts) -> u64
    requires { exponent v < 2100 }
    ensures value { result ≡ bits F.DIGITS F.EMAX (meaning v) }
    ensures upper_bound { result < 2 * top F.DIGITS F.EMAX }
{
    match v {
        Parts::Nan => infinity::<F>() + (placed::<F>(1) >> 1),
        Parts::Inf(s) => sign::<F>(s) + infinity::<F>(),
        Parts::Fin(s, x) => sign::<F>(s) + x.pack::<F>(),
    }
}

// ---- from pattern to pattern, and from integer to pattern

// A pattern of the format S to the nearest of the format T: `n as f32` of an f64; `f16::from_f64`, with one rounding;
// `f16::from_f32`; `f16::to_f32`, which is exact.
pub fn convert<S: Pattern, T: Format>(x: u64) -> u64
    ensures value { result ≡ bits T.DIGITS T.EMAX (value S.DIGITS S.EMAX x) }
    ensures upper_bound { result < 2 * top T.DIGITS T.EMAX }
{
    assemble::<T>(unpack::<S>(x))
}

// A whole number to the format: `to_f64` of an i64; `n as f32` of an i64, i32 or u32; `f16::from_i64`.
pub fn of_int<F: Format>(n: Whole) -> u64
    ensures value { result ≡ bits F.DIGITS F.EMAX (integer n.negative n.magnitude) }
    ensures upper_bound { result < 2 * top F.DIGITS F.EMAX }
{
    assemble::<F>(Parts::from(n))
}

// ---- from parts to integers

impl Range {
    // Its end on the side of the sign.
    fn end(self, negative: bool) -> u64
        ensures { result ≡ cond negative self.low self.high }
    {
        if negative { self.low } else { self.high }
    }
}

impl Magnitude {
    // In units of 2 ^ -1074, cut to a whole number, and the limit where that is smaller.
    fn cut(self, limit: u64) -> u64
        ensures { result ≡ min (size self / 2 ^ 1074) limit }
    {
        let m = self.significand;
        let e = self.exponent;
        if e < 1074 {
            let down = 1074 - e;
            if down > 63 {
                return 0;
            }
            return (m >> down).min(limit);
        }
        let up = e - 1074;
        if m == 0 {
            return 0;
        }
        if up > 63 {
            return limit;
        }
        if (limit >> up) < m {
            return limit;
        }
        m << up
    }
}

// The whole number n as the payload of an i32 or a u32: two's complement of 32 bits.
fn wrap(negative: bool, n: u64) -> u64
    requires { n ≤ cond negative (2 ^ 32) (2 ^ 32 - 1) }
    ensures value { result ≡ Scalars.wrap negative n }
    ensures upper_bound { result < 2 ^ 32 }
{
    if negative {
        (0x1_0000_0000 - n) % 0x1_0000_0000
    } else {
        n
    }
}

// `x as i32` and `x as u32` of a float, and held within a range besides: toward zero, to the nearest end of the range,
// and 0 for a NaN.
pub fn toward(range: Range, v: Parts) -> u64
    requires { (range.low ≤ 2 ^ 32) × (range.high < 2 ^ 32) }
    ensures value { result ≡ Scalars.toward range.low range.high (meaning v) }
    ensures upper_bound { result < 2 ^ 32 }
{
    match v {
        Parts::Nan => 0,
        Parts::Inf(s) => wrap(s, range.end(s)),
        Parts::Fin(s, x) => wrap(s, x.cut(range.end(s))),
    }
}

// ---- ranges

impl Magnitude {
    // Whether it is more than a limit. The larger exponent would shift its side up, past 64 bits; the other side is
    // shifted down instead, and the test is the same for whole numbers.
    fn beyond(self, limit: Magnitude) -> bool
        ensures { result ≡ ltb (size limit) (size self) }
    {
        let m = self.significand;
        if m == 0 {
            return false;
        }
        if limit.exponent <= self.exponent {
            let up = self.exponent - limit.exponent;
            if up > 63 {
                return true;
            }
            return (limit.significand >> up) < m;
        }
        let down = limit.exponent - self.exponent;
        if down > 63 {
            return limit.significand == 0;
        }
        limit.significand <= ((m - 1) >> down)
    }
}

// Whether a number lies within a range: where `to_i32` and `to_u32` of an i64 give something.
pub fn within(range: Range, v: Parts) -> bool
    ensures { result ≡ Scalars.within range.low range.high (meaning v) }
{
    match v {
        Parts::Nan => false,
        Parts::Inf(_) => false,
        Parts::Fin(s, x) => !x.beyond(Magnitude::whole(range.end(s))),
    }
}

// `l != zero`: false for zero of either sign, and true for a NaN.
pub fn nonzero(v: Parts) -> bool
    ensures { result ≡ Scalars.nonzero (meaning v) }
{
    match v {
        Parts::Nan => true,
        Parts::Inf(_) => true,
        Parts::Fin(_, x) => 0 < x.significand,
    }
}

// ---- finite or not: by a format's numbers, which are p, its significand's digits, emax, its largest exponent, and w, the
// bits of its exponent's field; and the same by its type

// Whether a pattern is a finite number's: no infinity's and no NaN's.
pub fn is_finite_by(p: u64, emax: u64, w: u64, b: u64) -> bool
    requires { Layout p emax w }
    ensures { result ≡ Floats.finite p emax b }
{
    low_bits(b >> (p - 1), w) < 2 * emax + 1
}

pub fn is_finite<F: Pattern>(b: u64) -> bool
    ensures { result ≡ Floats.finite F.DIGITS F.EMAX b }
{
    is_finite_by(F::DIGITS, F::EMAX, F::EXPONENT_BITS, b)
}

// The largest finite value: p ones, with emax + 1 - p places below them.
fn largest(p: u64, emax: u64) -> Magnitude
    requires { IsFormat p emax × (p ≤ emax + 1) }
    ensures { size result ≡ Floats.largest p emax * 2 ^ 1074 }
{
    Magnitude {
        significand: (1 << p) - 1,
        exponent: emax + 1 - p + 1074,
    }
}

// Half a last place past it: p + 1 ones, with emax - p places below them. There is a tie there, and the even neighbour
// is the infinity.
fn threshold(p: u64, emax: u64) -> Magnitude
    requires { IsFormat p emax }
    ensures { size result ≡ Rounding.threshold p emax }
{
    Magnitude {
        significand: (1 << (p + 1)) - 1,
        exponent: emax + 1074 - p,
    }
}

// Whether a number is past the format's largest finite value, on either side, or no number: `!range.contains(n)`.
pub fn outside_by(p: u64, emax: u64, v: Parts) -> bool
    requires format { IsFormat p emax }
    requires p_bound { p ≤ emax + 1 }
    ensures { result ≡ Floats.outside p emax (meaning v) }
{
    match v {
        Parts::Nan => true,
        Parts::Inf(_) => true,
        Parts::Fin(_, x) => x.beyond(largest(p, emax)),
    }
}

pub fn outside<F: Format>(v: Parts) -> bool
    requires { F.DIGITS ≤ F.EMAX + 1 }
    ensures { result ≡ Floats.outside F.DIGITS F.EMAX (meaning v) }
{
    outside_by(F::DIGITS, F::EMAX, v)
}

// Whether the nearest value of the format is finite, told without making its pattern: it is finite below the threshold.
pub fn rounds_finite_by(p: u64, emax: u64, v: Parts) -> bool
    requires format { IsFormat p emax }
    requires least { (2 ≤ p) × (1 ≤ emax) }
    ensures { result ≡ Floats.finite p emax (bits p emax (meaning v)) }
{
    match v {
        Parts::Nan => false,
        Parts::Inf(_) => false,
        Parts::Fin(_, x) => threshold(p, emax).beyond(x),
    }
}

pub fn rounds_finite<F: Format>(v: Parts) -> bool
    requires { (2 ≤ F.DIGITS) × (1 ≤ F.EMAX) }
    ensures { result ≡ Floats.finite F.DIGITS F.EMAX (bits F.DIGITS F.EMAX (meaning v)) }
{
    rounds_finite_by(F::DIGITS, F::EMAX, v)
}
