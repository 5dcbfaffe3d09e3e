// Ranks of conversions without a constructor: the source's conv.rs on types. Between two kinds, between two types'
// records, and the entry `conversion_rank`.
#![tactic(auto)]

ghost use Rattle.std.specs.Prelude.{◌≡◌, cond, eqb};
ghost use Rattle.std.proofs.Math.Option.{none, some};
ghost use Rattle.meaning.specs.Kinds.{kind_of, from_aint, from_afloat};
ghost use Rattle.meaning.specs.Entries.{rank_answer};
ghost use Rattle.kind.specs.Ends.{of_kind, numbered};
ghost use Rattle.record.specs.Bytes.{same_bytes};
ghost use Rattle.error.specs.Refusals.{paper};
ghost use Rattle.rank.specs.Ranked.{rank_of, rank_between, RankIs, ConvertsIs, kinds_from, KindConverts, front, RanksTo};
ghost use Rattle.rank.specs.Ranked.{RanksToRuntime};

use error::Refusal;
use kind::Scalar;
use ty::{Limit, Target, Type};

// ---- ranks between kinds

// "a type converts to itself (rank 0)"
fn rank_of_same(from: u8, to: u8) -> Option<u8>
    ensures { result ≡ rank_of (cond (eqb from to) (some 0) none) }
{
    (from == to).then_some(0)
}

// "AbstractInt to I32 3, U32 4, AbstractFloat 5, F32 6, F16 7"
#[tactic(auto, using(kind::proofs::Numbers::no_kind), unfolding(crate::proofs::Ranks::ranks))]
fn rank_of_abstract_int(to: u8) -> Option<u8>
    ensures { result ≡ rank_of (of_kind none from_aint (kind_of to)) }
{
    match to {
        Scalar::BOOL => None,
        Scalar::ABSTRACT_INT => Some(0),
        Scalar::ABSTRACT_FLOAT => Some(5),
        Scalar::I32 => Some(3),
        Scalar::U32 => Some(4),
        Scalar::F32 => Some(6),
        Scalar::F16 => Some(7),
        _ => None,
    }
}

// "AbstractFloat to F32 1, F16 2"
#[tactic(auto, using(kind::proofs::Numbers::no_kind), unfolding(crate::proofs::Ranks::ranks))]
fn rank_of_abstract_float(to: u8) -> Option<u8>
    ensures { result ≡ rank_of (of_kind none from_afloat (kind_of to)) }
{
    match to {
        Scalar::BOOL => None,
        Scalar::ABSTRACT_INT => None,
        Scalar::ABSTRACT_FLOAT => Some(0),
        Scalar::I32 => None,
        Scalar::U32 => None,
        Scalar::F32 => Some(1),
        Scalar::F16 => Some(2),
        _ => None,
    }
}

// The rank between two kinds (`conversion_rank` of conv.rs, of two scalar types). "Stage and kind choices: matches".
#[tactic(auto, using(kind::proofs::Numbers::no_kind), unfolding(crate::proofs::Ranks::ranks))]
pub fn kind_rank(from: u8, to: u8) -> Option<u8>
    ensures { result ≡ rank_of (rank_between from to) }
{
    match from {
        Scalar::BOOL => rank_of_same(from, to),
        Scalar::ABSTRACT_INT => rank_of_abstract_int(to),
        Scalar::ABSTRACT_FLOAT => rank_of_abstract_float(to),
        Scalar::I32 => rank_of_same(from, to),
        Scalar::U32 => rank_of_same(from, to),
        Scalar::F32 => rank_of_same(from, to),
        Scalar::F16 => rank_of_same(from, to),
        _ => None,
    }
}

// ---- ranks between types

// Whether two records are the same up to the last byte, which is where a type without a struct has its kind.
fn same_shape(a: Type, b: Type) -> bool
    ensures { result ≡ same_bytes (front a.entry.bytes.now) (front b.entry.bytes.now) }
{
    let m = a.bytes.len() - 1;
    let n = b.bytes.len() - 1;
    a.bytes[..m] == b.bytes[..n]
}

// The rank of a conversion from the type a to the type b: "vectors, matrices and counted arrays of
// equal shape convert as their elements do", and "structs convert only to an equal type".
pub fn type_rank(a: Type, b: Type) -> Option<u8>
    ensures { RankIs a.entry.bytes.now b.entry.bytes.now result }
{
    if a.bytes == b.bytes {
        return Some(0);
    }
    let j = ty::leaf_at(a.bytes, 0, Limit::DEPTH)?;
    let k = ty::leaf_at(b.bytes, 0, Limit::DEPTH)?;
    if same_shape(a, b) {
        return kind_rank(j, k);
    }
    None
}

// The kinds to which a scalar of a kind converts, a bit for each by its number: its own, from AbstractInt every kind
// but Bool, from AbstractFloat also F32 and F16.
#[tactic(auto, using(kind::proofs::Numbers::no_kind), unfolding(crate::proofs::Ranks::ranks))]
fn kinds_from(from: u8) -> u8
    ensures { result ≡ numbered kinds_from from }
{
    match from {
        Scalar::BOOL => 0b000_0001,
        Scalar::ABSTRACT_INT => 0b111_1110,
        Scalar::ABSTRACT_FLOAT => 0b110_0100,
        Scalar::I32 => 0b000_1000,
        Scalar::U32 => 0b001_0000,
        Scalar::F32 => 0b010_0000,
        Scalar::F16 => 0b100_0000,
        _ => 0,
    }
}

// Whether a scalar of the one kind converts to the other: where there is a rank, told by one bit and not by a branch
// for each kind, since every literal of a list is asked.
pub fn kind_converts(from: u8, to: u8) -> bool
    ensures { KindConverts from to result }
{
    // a number over 6 is no kind's; said first, it lets the compiler know the length of the literals that are asked about
    if from > Scalar::F16 {
        return false;
    }
    if to > Scalar::F16 {
        return false;
    }
    (kinds_from(from) >> to) % 2 == 1
}

// Whether the type a converts to the type b, whatever they are.
fn other_converts(a: Type, b: Type) -> bool
    ensures { ConvertsIs a.entry.bytes.now b.entry.bytes.now result }
{
    type_rank(a, b).is_some()
}

// The same. Two scalars, as most are, by their kinds: a type of three bytes is a scalar.
pub fn type_converts(a: Type, b: Type) -> bool
    ensures { ConvertsIs a.entry.bytes.now b.entry.bytes.now result }
{
    if a.bytes.len() == 3 {
        if b.bytes.len() == 3 {
            return kind_converts(a.bytes[2], b.bytes[2]);
        }
    }
    other_converts(a, b)
}

// The rank to the type that a target is, of the one type that the arguments have to be.
fn rank_to(target: Type, args: &[u8]) -> Result<u8, Refusal>
    ensures { RanksTo target.entry.bytes.now args.now result }
{
    if !ty::is_type(args) {
        return Err(Refusal::BadArgument);
    }
    let from = Type { bytes: args };
    type_rank(from, target).ok_or(Refusal::NoConversion)
}

// A runtime-sized array is the type of no value, so nothing has a rank to it.
fn rank_to_runtime(args: &[u8]) -> Result<u8, Refusal>
    ensures { RanksToRuntime args.now result }
{
    if !ty::is_type(args) {
        return Err(Refusal::BadArgument);
    }
    Err(Refusal::NoConversion)
}

// The source's `conversion_rank`: the rank of the conversion of the one type that the arguments are into the target.
// Nothing is assumed of the bytes.
pub fn conversion_rank(target: &[u8], args: &[u8]) -> Result<u8, Refusal>
    ensures { paper result ≡ rank_answer target.now args.now }
{
    let found = ty::read_target(target).ok_or(Refusal::BadTarget)?;
    match found {
        Target::Type => {
            let to = Type { bytes: target };
            rank_to(to, args)
        }
        Target::Runtime => rank_to_runtime(args),
        _ => Err(Refusal::BadTarget),
    }
}
