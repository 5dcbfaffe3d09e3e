// The entry `type_ctor` of the source's builtin/mod.rs and builtin/ctor.rs: the type of what a constructor makes, from
// the types of its arguments.
#![tactic(auto)]

ghost use Rattle.std.specs.Prelude.{length};
ghost use Rattle.meaning.specs.Entries.{type_answer};
ghost use Rattle.error.specs.Told.{Told};
ghost use Rattle.ty.specs.Targets.{Meant};
ghost use Rattle.check_type.specs.Rules.{GoodType};
ghost use Rattle.typing.specs.Hands.{HandsVector, HandsMatrix, HandsArray};
ghost use Rattle.typing.specs.TypingAnswers.{Answers, VectorAnswers, MatrixAnswers, ArrayAnswers, TargetAnswers};

use arg_types::Types;
use error::Refusal;
use record::Writer;
use ty::{Limit, Size, Target, Type};

// ---- handing a record over

// The record of a vector type.
fn hand_vector(n: u8, k: u8, out: &mut [u8]) -> Result<usize, Refusal>
    ensures { HandsVector n k out.old result out.new }
{
    let s = [b'T', b'v', n, b'T', b's', k];
    error::hand(&s, out)
}

// The record of a matrix type.
fn hand_matrix(size: Size, k: u8, out: &mut [u8]) -> Result<usize, Refusal>
    ensures { HandsMatrix size.columns size.rows k out.old result out.new }
{
    let s = [b'T', b'm', size.columns, size.rows, b'T', b's', k];
    error::hand(&s, out)
}

// The record of an array of n elements of that type.
fn hand_array(n: usize, ty: Type, out: &mut [u8]) -> Result<usize, Refusal>
    ensures { HandsArray n ty.entry.bytes.now out.old result out.new }
{
    if out.len() < 4 {
        return Err(Refusal::NoRoom);
    }
    if ty.bytes.len() > out.len() - 4 {
        return Err(Refusal::NoRoom);
    }
    let mut w = Writer { out, at: 0 };
    w.put_pair(b'T', b'a');
    w.put_le(2, n as u64);
    w.put_bytes(ty.bytes);
    Ok(w.at)
}

// ---- the answers

// The target's own record, if the check passes.
fn answer(target: &[u8], args: Types, out: &mut [u8]) -> Result<usize, Refusal>
    requires { GoodType target.now }
    ensures { Answers target.now args.entry.bytes.now args.entry.count out.old result out.new }
{
    check_type::check(target, args)?;
    error::hand(target, out)
}

// The vector type that is named.
fn answer_vector(n: u8, args: Types, out: &mut [u8]) -> Result<usize, Refusal>
    ensures { VectorAnswers n args.entry.bytes.now args.entry.count out.old result out.new }
{
    let k = infer_type::name_vector(n, args)?;
    hand_vector(n, k, out)
}

// The matrix type that is named.
fn answer_matrix(size: Size, args: Types, out: &mut [u8]) -> Result<usize, Refusal>
    ensures { MatrixAnswers size.columns size.rows args.entry.bytes.now args.entry.count out.old result out.new }
{
    let k = infer_type::name_matrix(size, args)?;
    hand_matrix(size, k, out)
}

// The array of the arguments' common type (10), counted as they are.
fn answer_array(args: Types, out: &mut [u8]) -> Result<usize, Refusal>
    ensures { ArrayAnswers args.entry.bytes.now args.entry.count out.old result out.new }
{
    let mut room = [0u8; Limit::TYPE_BYTES];
    let q = common_type::common_type(args.bytes, &mut room).ok_or(Refusal::NoCommonType)?;
    let ty = Type { bytes: &room[..q] };
    hand_array(args.count, ty, out)
}

// ---- the target and the arguments are read

// By the target. A runtime-sized array is "16 typing only: `Tr` ..".
fn answer_target(
    found: Target,
    target: &[u8],
    args: Types,
    out: &mut [u8],
) -> Result<usize, Refusal>
    requires { Meant target.now found }
    ensures { TargetAnswers target.now args.entry.bytes.now args.entry.count out.old result out.new }
{
    match found {
        Target::Type => answer(target, args, out),
        Target::Runtime => Err(Refusal::NotTyped),
        Target::Array => answer_array(args, out),
        Target::Vector(n) => answer_vector(n, args, out),
        Target::Matrix(c, r) => {
            let size = Size {
                columns: c,
                rows: r,
            };
            answer_matrix(size, args, out)
        }
    }
}

// ---- the entry

// The source's `type_ctor`: the type of what the target's constructor makes of arguments of these types. Nothing is
// assumed of the bytes; a refusal leaves the lent buffer as it was, and a record fills the front of it.
pub fn type_ctor(target: &[u8], args: &[u8], out: &mut [u8]) -> Result<usize, Refusal>
    ensures { Told (type_answer target.now args.now (length out.old)) out.old result
        out.new }
{
    let found = ty::read_target(target).ok_or(Refusal::BadTarget)?;
    let count = args::type_args(args, found).ok_or(Refusal::BadArgument)?;
    let given = Types { bytes: args, count };
    answer_target(found, target, given, out)
}
