// One literal: its conversion without a constructor (conv.rs, `Convert for LiteralInstance`), and the scalar
// constructors (builtin/ctor.rs).
#![tactic(auto)]

ghost use Rattle.std.specs.Prelude.{◌≡◌, cond, not, ◌&&◌, ◌+◌, ◌≤◌, ◌<◌, ◌^◌, eqb};
ghost use Rattle.std.proofs.Math.Option.{none, some};
ghost use Rattle.meaning.specs.Kinds.{bool, aint, afloat, i32, u32, f32, f16, kind_of};
ghost use Rattle.meaning.specs.Floats.{binary16, outside};
ghost use Rattle.meaning.specs.Floats as Floats;
ghost use Rattle.meaning.specs.Scalars.{before_f16, number, within, toward, nonzero, some?};
ghost use Rattle.meaning.specs.Entries.{stage_of};
ghost use Rattle.kind.specs.Ends.{of_kind, numbered, low, high};
ghost use Rattle.float.specs.Taken.{Stands, meaning};
ghost use Rattle.literal.specs.LiteralAnswers.{converted_of, conv_from, conv_between, number_of, Short, in_range};
ghost use Rattle.literal.specs.LiteralAnswers.{held_in, staged_of, refusal_for, paper, tried, Always, When, no_ctor};
ghost use Rattle.literal.specs.LiteralAnswers.{WhenTo};

use error::Refusal;
use float::{Binary16, Binary32, Binary64, Format, Parts, Pattern, Range, Whole};
use kind::Scalar;

// Why a scalar constructor makes nothing of a literal: its kind or the literal's is none, or the refusals 4, 15 and 21.
#[derive(Clone, Copy)]
pub enum Unmade {
    NoTarget,
    NoArgument,
    Abstract,
    Integer,
    Float,
}

impl From<Unmade> for Refusal {
    ghost from_gives = { λ u r. r ≡ refusal_for u };

    fn from(why: Unmade) -> Refusal {
        match why {
            Unmade::NoTarget => Refusal::BadTarget,
            Unmade::NoArgument => Refusal::BadArgument,
            Unmade::Abstract => Refusal::NotConstructible,
            Unmade::Integer => Refusal::IntegerRange,
            Unmade::Float => Refusal::FloatRange,
        }
    }
}

// The stage of an evaluation (`ShaderStage` of the source), by its number. The numbers are written once, here.
#[derive(Clone, Copy)]
pub struct Stage;

impl Stage {
    pub const CONST: u8 = 0;

    pub const OVERRIDE: u8 = 1;

    pub const EXEC: u8 = 2;
}

// What the stage decides, read once where a call comes in: `checked`, whether f32 and f16 refuse a number outside their
// range (21).
#[derive(Clone, Copy)]
pub struct Rules {
    pub checked: bool,
}

// A literal: the number of its kind, and its payload. A number over 6 is no kind's; each function answers it too.
#[derive(Clone, Copy)]
pub struct Literal {
    pub kind: u8,
    pub bits: u64,
}

// ---- the stage

// "Stage and kind choices: matches": the stage picks the rules, and that stands here alone; another number is refused.
pub fn rules_at(stage: u8) -> Result<Rules, Refusal>
    ensures { result ≡ staged_of (stage_of stage) }
{
    match stage {
        Stage::CONST => Ok(Rules { checked: true }),
        Stage::OVERRIDE => Ok(Rules { checked: true }),
        Stage::EXEC => Ok(Rules { checked: false }),
        _ => Err(Refusal::NoStage),
    }
}

// ---- the number of a literal

// Of an AbstractInt: two's complement, in 64 bits.
fn abstract_int_number(bits: u64) -> Whole
    ensures { number aint bits ≡ Floats.integer result.negative result.magnitude }
{
    if bits < 0x8000_0000_0000_0000 {
        Whole {
            negative: false,
            magnitude: bits,
        }
    } else {
        Whole {
            negative: true,
            magnitude: !bits + 1,
        }
    }
}

// Of an I32, in 32 bits; a payload of more bits has no magnitude left.
fn i32_number(bits: u64) -> Whole
    ensures { number i32 bits ≡ Floats.integer result.negative result.magnitude }
{
    if bits < 0x8000_0000 {
        return Whole {
            negative: false,
            magnitude: bits,
        };
    }
    if bits < 0x1_0000_0000 {
        return Whole {
            negative: true,
            magnitude: 0x1_0000_0000 - bits,
        };
    }
    Whole {
        negative: true,
        magnitude: 0,
    }
}

impl Literal {
    // The number that it stands for, by its kind.
    fn parts(self) -> Parts
        ensures { Stands (number_of self.kind self.bits) result }
    {
        match self.kind {
            Scalar::BOOL => Parts::from(Whole::from(self.bits)),
            Scalar::ABSTRACT_INT => Parts::from(abstract_int_number(self.bits)),
            Scalar::ABSTRACT_FLOAT => float::unpack::<Binary64>(self.bits),
            Scalar::I32 => Parts::from(i32_number(self.bits)),
            Scalar::U32 => Parts::from(Whole::from(self.bits)),
            Scalar::F32 => float::unpack::<Binary32>(self.bits),
            Scalar::F16 => float::unpack::<Binary16>(self.bits),
            _ => Parts::Nan,
        }
    }
}

// ---- the range of a kind

// As `Scalar` gives its ends.
fn range_of(kind: u8) -> Range
    ensures { result ≡ record { low = numbered low kind; high = numbered high kind } }
{
    let k = Scalar { kind };
    Range {
        low: k.low_end(),
        high: k.high_end(),
    }
}

// ---- conversion without a constructor

// A whole number, if it lies within a range.
fn integer(range: Range, v: Parts) -> Option<u64>
    requires { (range.low ≤ 2 ^ 32) × (range.high < 2 ^ 32) }
    ensures { result ≡ converted_of (cond (within range.low range.high (meaning v))
        (some (toward range.low range.high (meaning v))) none) }
{
    if float::within(range, v) {
        Some(float::toward(range, v))
    } else {
        None
    }
}

// A pattern made, if it is a finite number's.
fn finite<F: Pattern>(made: u64) -> Option<u64>
    ensures { result ≡ converted_of (cond (Floats.finite F.DIGITS F.EMAX made) (some made) none) }
{
    if float::is_finite::<F>(made) {
        Some(made)
    } else {
        None
    }
}

// An AbstractInt as a literal of another kind: "AbstractInt to I32, U32, AbstractFloat, F32, F16", "an integer within
// the target's range, a float result finite".
fn convert_abstract_int(to: u8, bits: u64) -> Option<u64>
    ensures { result ≡ converted_of (conv_from aint to bits) }
{
    let n = abstract_int_number(bits);
    match to {
        Scalar::BOOL => None,
        Scalar::ABSTRACT_INT => Some(bits),
        Scalar::ABSTRACT_FLOAT => finite::<Binary64>(float::of_int::<Binary64>(n)),
        Scalar::I32 => integer(range_of(Scalar::I32), Parts::from(n)),
        Scalar::U32 => integer(range_of(Scalar::U32), Parts::from(n)),
        Scalar::F32 => finite::<Binary32>(float::of_int::<Binary32>(n)),
        Scalar::F16 => finite::<Binary16>(float::of_int::<Binary16>(n)),
        _ => None,
    }
}

// The same of an AbstractFloat: "AbstractFloat to F32, F16".
fn convert_abstract_float(to: u8, bits: u64) -> Option<u64>
    ensures { result ≡ converted_of (conv_from afloat to bits) }
{
    match to {
        Scalar::BOOL => None,
        Scalar::ABSTRACT_INT => None,
        Scalar::ABSTRACT_FLOAT => Some(bits),
        Scalar::I32 => None,
        Scalar::U32 => None,
        Scalar::F32 => finite::<Binary32>(float::convert::<Binary64, Binary32>(bits)),
        Scalar::F16 => finite::<Binary16>(float::convert::<Binary64, Binary16>(bits)),
        _ => None,
    }
}

impl Literal {
    // Any other kind converts to itself alone.
    fn convert_same(self, to: u8) -> Option<u64>
        ensures { result ≡ converted_of (cond (eqb self.kind to) (some self.bits) none) }
    {
        if self.kind == to {
            Some(self.bits)
        } else {
            None
        }
    }

    // Its payload as a literal of another kind (`convert_to` of conv.rs); "an unchanged kind keeps its bits". "Stage
    // and kind choices: matches": the kind that the literal has picks the rule, and in it the target's kind. No rank is
    // asked for: each rule answers for the kinds that have none.
    pub fn convert_to(self, to: u8) -> Option<u64>
        ensures { result ≡ converted_of (conv_between to self.kind self.bits) }
    {
        match self.kind {
            Scalar::BOOL => self.convert_same(to),
            Scalar::ABSTRACT_INT => convert_abstract_int(to, self.bits),
            Scalar::ABSTRACT_FLOAT => convert_abstract_float(to, self.bits),
            Scalar::I32 => self.convert_same(to),
            Scalar::U32 => self.convert_same(to),
            Scalar::F32 => self.convert_same(to),
            Scalar::F16 => self.convert_same(to),
            _ => None,
        }
    }
}

// ---- whether a literal converts, told without making the payload

// Of an AbstractInt. As an AbstractFloat and an F32 every whole number of 64 bits is finite.
fn abstract_int_fits(to: u8, bits: u64) -> bool
    ensures { result ≡ some? (conv_from aint to bits) }
{
    let v = Parts::from(abstract_int_number(bits));
    match to {
        Scalar::BOOL => false,
        Scalar::ABSTRACT_INT => true,
        Scalar::ABSTRACT_FLOAT => true,
        Scalar::I32 => float::within(range_of(Scalar::I32), v),
        Scalar::U32 => float::within(range_of(Scalar::U32), v),
        Scalar::F32 => true,
        Scalar::F16 => float::rounds_finite::<Binary16>(v),
        _ => false,
    }
}

// Of an AbstractFloat.
fn abstract_float_fits(to: u8, bits: u64) -> bool
    ensures { result ≡ some? (conv_from afloat to bits) }
{
    match to {
        Scalar::BOOL => false,
        Scalar::ABSTRACT_INT => false,
        Scalar::ABSTRACT_FLOAT => true,
        Scalar::I32 => false,
        Scalar::U32 => false,
        Scalar::F32 => float::rounds_finite::<Binary32>(float::unpack::<Binary64>(bits)),
        Scalar::F16 => float::rounds_finite::<Binary16>(float::unpack::<Binary64>(bits)),
        _ => false,
    }
}

impl Literal {
    // Whether it converts to a kind: what `convert_to` decides, by the same matches.
    pub fn fits(self, to: u8) -> bool
        ensures { result ≡ some? (conv_between to self.kind self.bits) }
    {
        match self.kind {
            Scalar::BOOL => self.kind == to,
            Scalar::ABSTRACT_INT => abstract_int_fits(to, self.bits),
            Scalar::ABSTRACT_FLOAT => abstract_float_fits(to, self.bits),
            Scalar::I32 => self.kind == to,
            Scalar::U32 => self.kind == to,
            Scalar::F32 => self.kind == to,
            Scalar::F16 => self.kind == to,
            _ => false,
        }
    }
}

// ---- the rules of the scalar constructors

impl Literal {
    // `*l != zero`: a NaN is not zero, and zero of either sign is.
    fn truth(self) -> u64
        ensures { result ≡ cond (nonzero (number_of self.kind self.bits)) 1 0 }
    {
        if float::nonzero(self.parts()) { 1 } else { 0 }
    }

    // Toward zero, held within a range.
    fn held(self, range: Range) -> u64
        requires { (range.low ≤ 2 ^ 32) × (range.high < 2 ^ 32) }
        ensures { result ≡ toward range.low range.high (number_of self.kind self.bits) }
    {
        float::toward(range, self.parts())
    }

    // The same within the range of a kind.
    fn held_in(self, to: u8) -> u64
        requires { Short to }
        ensures { result ≡ held_in to (number_of self.kind self.bits) }
    {
        self.held(range_of(to))
    }

    // "AbstractInt must fit (15)"
    fn fitting(self, to: u8) -> Result<u64, Unmade>
        requires { Short to }
        ensures { paper result ≡ tried (cond (not (in_range to (number_of self.kind self.bits))) 15 0)
            (held_in to (number_of self.kind self.bits)) }
    {
        match integer(range_of(to), self.parts()) {
            Some(q) => Ok(q),
            None => Err(Unmade::Integer),
        }
    }
}

// A payload made of a number; where the rules say so, the number must lie in the format's finite range (21).
fn ranged<F: Format>(rules: Rules, v: Parts, made: u64) -> Result<u64, Unmade>
    requires { F.DIGITS ≤ F.EMAX + 1 }
    ensures { paper result ≡ tried (cond (rules.checked && outside F.DIGITS F.EMAX (meaning v)) 21 0) made }
{
    if !rules.checked {
        return Ok(made);
    }
    if float::outside::<F>(v) {
        Err(Unmade::Float)
    } else {
        Ok(made)
    }
}

impl Literal {
    // The f16 of a literal of another kind. "AbstractFloat and integers are rounded to f32 first, then to f16: two
    // roundings": how f16 rounds stands here alone.
    fn f16_bits(self) -> u64
        ensures { result ≡ of_kind 0 (λ k. binary16 Floats.bits (before_f16 k (number k self.bits)))
            (kind_of self.kind) }
    {
        let single = match self.kind {
            Scalar::BOOL => float::of_int::<Binary32>(Whole::from(self.bits)),
            Scalar::ABSTRACT_INT => float::of_int::<Binary32>(abstract_int_number(self.bits)),
            Scalar::ABSTRACT_FLOAT => float::convert::<Binary64, Binary32>(self.bits),
            Scalar::I32 => float::of_int::<Binary32>(i32_number(self.bits)),
            Scalar::U32 => float::of_int::<Binary32>(Whole::from(self.bits)),
            Scalar::F32 => self.bits,
            Scalar::F16 => float::convert::<Binary16, Binary32>(self.bits),
            _ => return 0,
        };
        float::convert::<Binary32, Binary16>(single)
    }

    // The same, in its range where the rules say so.
    fn f16_ranged(self, rules: Rules) -> Result<u64, Unmade>
        ensures { paper result ≡ tried (cond (rules.checked && binary16 outside (number_of self.kind self.bits)) 21 0)
            (of_kind 0 (λ k. binary16 Floats.bits (before_f16 k (number k self.bits))) (kind_of self.kind)) }
    {
        ranged::<Binary16>(rules, self.parts(), self.f16_bits())
    }
}

// ---- the five scalar constructors: each takes one literal of any kind, and "the same kind keeps its bits"

// Where i32 and u32 saturate, given an F32: at the largest f32 below 2 ^ 31, and below 2 ^ 32.
const I32_OF_F32: Range = Range {
    low: 0x8000_0000,
    high: 2147483520,
};

const U32_OF_F32: Range = Range {
    low: 0,
    high: 4294967040,
};

// Where u32 saturates, given an F16: at its own largest.
const U32_OF_F16: Range = Range {
    low: 0,
    high: 65504,
};

impl Literal {
    // `bool` of ctor.rs.
    fn bool_ctor(self) -> Result<u64, Unmade>
        ensures { Always bool self.kind self.bits result }
    {
        match self.kind {
            Scalar::BOOL => Ok(self.bits),
            Scalar::ABSTRACT_INT => Ok(self.truth()),
            Scalar::ABSTRACT_FLOAT => Ok(self.truth()),
            Scalar::I32 => Ok(self.truth()),
            Scalar::U32 => Ok(self.truth()),
            Scalar::F32 => Ok(self.truth()),
            Scalar::F16 => Ok(self.truth()),
            _ => Err(Unmade::NoArgument),
        }
    }

    // `i32` of ctor.rs. "U32 keeps its bits"; an F16 saturates at the ends of its own range.
    fn i32_ctor(self) -> Result<u64, Unmade>
        ensures { Always i32 self.kind self.bits result }
    {
        match self.kind {
            Scalar::BOOL => Ok(self.held_in(Scalar::I32)),
            Scalar::ABSTRACT_INT => self.fitting(Scalar::I32),
            Scalar::ABSTRACT_FLOAT => Ok(self.held_in(Scalar::I32)),
            Scalar::I32 => Ok(self.bits),
            Scalar::U32 => Ok(self.bits),
            Scalar::F32 => Ok(self.held(I32_OF_F32)),
            Scalar::F16 => Ok(self.held_in(Scalar::F16)),
            _ => Err(Unmade::NoArgument),
        }
    }

    // `u32` of ctor.rs. "I32 keeps its bits; negative floats give 0".
    fn u32_ctor(self) -> Result<u64, Unmade>
        ensures { Always u32 self.kind self.bits result }
    {
        match self.kind {
            Scalar::BOOL => Ok(self.held_in(Scalar::U32)),
            Scalar::ABSTRACT_INT => self.fitting(Scalar::U32),
            Scalar::ABSTRACT_FLOAT => Ok(self.held_in(Scalar::U32)),
            Scalar::I32 => Ok(self.bits),
            Scalar::U32 => Ok(self.bits),
            Scalar::F32 => Ok(self.held(U32_OF_F32)),
            Scalar::F16 => Ok(self.held(U32_OF_F16)),
            _ => Err(Unmade::NoArgument),
        }
    }

    // `f32` of ctor.rs: the literal's kind picks the conversion. Only an AbstractFloat is checked: no finite number of
    // another kind lies outside f32's range.
    fn f32_ctor(self, rules: Rules) -> Result<u64, Unmade>
        ensures { When rules f32 self.kind self.bits result }
    {
        match self.kind {
            Scalar::BOOL => Ok(float::of_int::<Binary32>(Whole::from(self.bits))),
            Scalar::ABSTRACT_INT => Ok(float::of_int::<Binary32>(abstract_int_number(self.bits))),
            Scalar::ABSTRACT_FLOAT => {
                let v = float::unpack::<Binary64>(self.bits);
                ranged::<Binary32>(rules, v, float::convert::<Binary64, Binary32>(self.bits))
            }
            Scalar::I32 => Ok(float::of_int::<Binary32>(i32_number(self.bits))),
            Scalar::U32 => Ok(float::of_int::<Binary32>(Whole::from(self.bits))),
            Scalar::F32 => Ok(self.bits),
            Scalar::F16 => Ok(float::convert::<Binary16, Binary32>(self.bits)),
            _ => Err(Unmade::NoArgument),
        }
    }

    // `f16` of ctor.rs. Every other kind but Bool is checked.
    fn f16_ctor(self, rules: Rules) -> Result<u64, Unmade>
        ensures { When rules f16 self.kind self.bits result }
    {
        match self.kind {
            Scalar::BOOL => Ok(self.f16_bits()),
            Scalar::ABSTRACT_INT => self.f16_ranged(rules),
            Scalar::ABSTRACT_FLOAT => self.f16_ranged(rules),
            Scalar::I32 => self.f16_ranged(rules),
            Scalar::U32 => self.f16_ranged(rules),
            Scalar::F32 => self.f16_ranged(rules),
            Scalar::F16 => Ok(self.bits),
            _ => Err(Unmade::NoArgument),
        }
    }

    // "not constructible (abstract scalar with arguments)": 4, after the argument's 2.
    fn abstract_ctor(self) -> Result<u64, Unmade>
        ensures { paper result ≡ no_ctor self.kind }
    {
        let k = Scalar { kind: self.kind };
        if k.is_kind() {
            Err(Unmade::Abstract)
        } else {
            Err(Unmade::NoArgument)
        }
    }
}

// ---- all of them

impl Literal {
    // "Stage and kind choices: matches": the target's kind picks the constructor. The answers come in the order 1, 2,
    // 4, then 15 and 21.
    pub fn construct(self, rules: Rules, to: u8) -> Result<u64, Unmade>
        ensures { WhenTo rules to self.kind self.bits result }
    {
        match to {
            Scalar::BOOL => self.bool_ctor(),
            Scalar::ABSTRACT_INT => self.abstract_ctor(),
            Scalar::ABSTRACT_FLOAT => self.abstract_ctor(),
            Scalar::I32 => self.i32_ctor(),
            Scalar::U32 => self.u32_ctor(),
            Scalar::F32 => self.f32_ctor(rules),
            Scalar::F16 => self.f16_ctor(rules),
            _ => Err(Unmade::NoTarget),
        }
    }
}
