// The entry `call_ctor` of the source's builtin/mod.rs: which constructor a target is, by how many arguments there are.
#![tactic(auto)]

ghost use Rattle.std.specs.Prelude.{◌≤◌, T, length};
ghost use Rattle.meaning.specs.Trees.{Ts, Tv, Tm, Qa, Qv, Qm};
ghost use Rattle.meaning.specs.Records.{side};
ghost use Rattle.meaning.specs.Entries.{build_answer};
ghost use Rattle.ty.specs.Targets.{RuntimeIs, Meant};
ghost use Rattle.error.specs.Told.{Told};
ghost use Rattle.builtin.specs.Calls.{TypeBuilt, LeafBuilt, RuntimeBuilt, ShapeBuilt, TargetBuilt, TargetAnswers};

use args::Values;
use error::Refusal;
use kind::Scalar;
use literal::Rules;
use matrix::FloatKind;
use scalar::{Kind, Value};
use ty::{Head, Limit, Size, Target, Type};

// ---- the arguments are read: at least one, or none

// A scalar type: 4 for an abstract one, 5 for two arguments or more.
fn scalar_ctor(rules: Rules, kind: Kind, args: Values, out: &mut [u8]) -> Result<usize, Refusal>
    requires { 1 ≤ args.count }
    ensures { LeafBuilt Ts rules kind.number args.entry out.old result out.new }
{
    if args.count == 1 {
        return scalar::scalar(rules, kind, Value { bytes: args.bytes }, out);
    }
    let scalar = Scalar { kind: kind.number };
    if scalar.is_abstract() {
        return Err(Refusal::NotConstructible);
    }
    Err(Refusal::SeveralForScalar)
}

// A vector type.
fn vec_ctor(rules: Rules, n: u8, kind: Kind, args: Values, out: &mut [u8]) -> Result<usize, Refusal>
    requires { T (side n) × (1 ≤ args.count) }
    ensures { LeafBuilt (Tv n) rules kind.number args.entry out.old result out.new }
{
    if args.count == 1 {
        return vector::vec_one(rules, n, kind, Value { bytes: args.bytes }, out);
    }
    vector::vec_parts(n, kind, args.bytes, out)
}

// A matrix type.
fn mat_ctor(
    rules: Rules,
    size: Size,
    kind: FloatKind,
    args: Values,
    out: &mut [u8],
) -> Result<usize, Refusal>
    requires { 1 ≤ args.count }
    ensures { LeafBuilt (Tm size.columns size.rows) rules kind.number args.entry out.old result out.new }
{
    if args.count == 1 {
        return matrix::mat_one(rules, size, kind, Value { bytes: args.bytes }, out);
    }
    matrix::mat_parts(size, kind, args, out)
}

// A type whose record the target is: "no arguments with a type record: the zero value".
fn type_given(rules: Rules, target: Type, args: Values, out: &mut [u8]) -> Result<usize, Refusal>
    ensures { TypeBuilt rules target.entry.bytes.now args.entry out.old result out.new }
{
    if args.count == 0 {
        return zero::zero_value(target, out);
    }
    match ty::head_at(target.bytes, 0, Limit::DEPTH) {
        Head::Scalar(k) => scalar_ctor(rules, Kind { number: k }, args, out),
        Head::Vector(n, k) => vec_ctor(rules, n, Kind { number: k }, args, out),
        Head::Matrix(c, r, k) => {
            let size = Size {
                columns: c,
                rows: r,
            };
            mat_ctor(rules, size, FloatKind { number: k }, args, out)
        }
        Head::Array(_) => array::array_of(target, args, out),
        Head::Struct(_, _) => array::struct_of(target, args, out),
    }
}

// A runtime-sized array: "4 .. building `Tr` with none".
fn runtime_given(target: &[u8], args: Values, out: &mut [u8]) -> Result<usize, Refusal>
    requires { RuntimeIs target.now }
    ensures { RuntimeBuilt target.now args.entry out.old result out.new }
{
    if args.count == 0 {
        return Err(Refusal::NotConstructible);
    }
    array::runtime_of(target, args, out)
}

// `Qa`: 11 without arguments.
fn array_given(args: Values, out: &mut [u8]) -> Result<usize, Refusal>
    ensures { ShapeBuilt Qa args.entry out.old result out.new }
{
    if args.count == 0 {
        return Err(Refusal::ArgumentsNeeded);
    }
    array::qa_of(args, out)
}

// `Qv`: "without arguments: AbstractInt zeros".
fn vector_given(n: u8, args: Values, out: &mut [u8]) -> Result<usize, Refusal>
    requires { T (side n) }
    ensures { ShapeBuilt (Qv n) args.entry out.old result out.new }
{
    if args.count == 0 {
        return zero::zero_vector(n, Scalar::ABSTRACT_INT, out);
    }
    if args.count == 1 {
        return vector::qv_one(n, Value { bytes: args.bytes }, out);
    }
    vector::qv_parts(n, args.bytes, out)
}

// `Qm`: 11 without arguments.
fn matrix_given(size: Size, args: Values, out: &mut [u8]) -> Result<usize, Refusal>
    ensures { ShapeBuilt (Qm size.columns size.rows) args.entry out.old result out.new }
{
    if args.count == 0 {
        return Err(Refusal::ArgumentsNeeded);
    }
    if args.count == 1 {
        return matrix::qm_one(size, Value { bytes: args.bytes }, out);
    }
    matrix::qm_parts(size, args, out)
}

// ---- the target and the arguments are read

// By the target.
fn target_given(
    rules: Rules,
    found: Target,
    target: &[u8],
    args: Values,
    out: &mut [u8],
) -> Result<usize, Refusal>
    requires { Meant target.now found }
    ensures { TargetBuilt rules target.now args.entry out.old result out.new }
{
    match found {
        Target::Type => type_given(rules, Type { bytes: target }, args, out),
        Target::Runtime => runtime_given(target, args, out),
        Target::Array => array_given(args, out),
        Target::Vector(n) => vector_given(n, args, out),
        Target::Matrix(c, r) => {
            let size = Size {
                columns: c,
                rows: r,
            };
            matrix_given(size, args, out)
        }
    }
}

// ---- the stage is read

// "Order: 3, 1, 2, then the order above, then 22".
fn target_call(rules: Rules, target: &[u8], args: &[u8], out: &mut [u8]) -> Result<usize, Refusal>
    ensures { TargetAnswers rules target.now args.now out.old result out.new }
{
    let Some(found) = ty::read_target(target) else {
        return Err(Refusal::BadTarget);
    };
    let Some(count) = args::value_args(args, found) else {
        return Err(Refusal::BadArgument);
    };
    target_given(rules, found, target, Values { bytes: args, count }, out)
}

// ---- the entry

// The source's `call_ctor`: what the target's constructor makes of the arguments, at the front of the lent buffer, or a
// refusal, which leaves the buffer as it was. Nothing is assumed of the bytes.
pub fn call_ctor(stage: u8, target: &[u8], args: &[u8], out: &mut [u8]) -> Result<usize, Refusal>
    ensures { Told (build_answer stage target.now args.now (length out.old)) out.old result
        out.new }
{
    // taken anew: its two words are read one by one, not copied at once (docs/DECISIONS.md, 66)
    let t = &target[..];
    let rules = literal::rules_at(stage)?;
    target_call(rules, t, args, out)
}
