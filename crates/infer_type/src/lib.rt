// An untemplated shape as the target of typing: the type that its arguments' types give.
#![tactic(auto)]

ghost use Rattle.std.specs.Prelude.{◌≡◌, ◌≤◌};
ghost use Rattle.infer_type.specs.Shapes.{VectorOneNames, VectorPartsName, VectorNames, FloatNames, MatrixPartsName};
ghost use Rattle.infer_type.specs.Shapes.{MatrixOneNames, MatrixNames};

use arg_types::Types;
use error::Refusal;
use kind::Scalar;
use ty::{Head, Limit, Size, Type};

// `Qv` of one argument: "so is a single argument that `Qv` can't take" (12).
fn name_vector_one(n: u8, arg: Type) -> Result<u8, Refusal>
    ensures { VectorOneNames n arg.entry.bytes.now result }
{
    match ty::head_at(arg.bytes, 0, Limit::DEPTH) {
        Head::Scalar(k) => Ok(k),
        Head::Vector(m, k) => {
            if m == n {
                return Ok(k);
            }
            Err(Refusal::VectorPart)
        }
        _ => Err(Refusal::VectorPart),
    }
}

// `Qv` of several: parts (12), then their number (8), then their common kind (10).
fn name_vector_parts(n: u8, args: Types) -> Result<u8, Refusal>
    requires { 2 ≤ args.count }
    ensures { VectorPartsName n args.entry.bytes.now args.entry.count result }
{
    if !arg_types::are_parts(args.bytes) {
        return Err(Refusal::VectorPart);
    }
    let sum = arg_types::total(args.bytes);
    if sum != n as usize {
        return Err(Refusal::Count {
            wanted: n as usize,
            given: args.count,
        });
    }
    arg_types::common_kind(args.bytes).ok_or(Refusal::NoCommonType)
}

// `Qv`; without arguments it is of AbstractInt.
pub fn name_vector(n: u8, args: Types) -> Result<u8, Refusal>
    ensures { VectorNames n args.entry.bytes.now args.entry.count result }
{
    if args.count == 0 {
        return Ok(Scalar::ABSTRACT_INT);
    }
    if args.count == 1 {
        return name_vector_one(n, Type { bytes: args.bytes });
    }
    name_vector_parts(n, args)
}

// `Qm` by the common type of its arguments: floats (13), then the shape.
fn name_matrix_from(size: Size, ty: Type, n: usize) -> Result<u8, Refusal>
    ensures { FloatNames size.columns size.rows ty.entry.bytes.now n result }
{
    let k = shape::float_inner(ty.bytes).ok_or(Refusal::FloatsNeeded)?;
    shape::matrix_shape(size, ty.bytes, n)?;
    Ok(k)
}

// `Qm` of several (10 before the rest), or of one that is no matrix.
fn name_matrix_parts(size: Size, args: Types) -> Result<u8, Refusal>
    ensures { MatrixPartsName size.columns size.rows args.entry.bytes.now args.entry.count result }
{
    let mut room = [0u8; Limit::TYPE_BYTES];
    let q = common_type::common_type(args.bytes, &mut room).ok_or(Refusal::NoCommonType)?;
    let ty = Type { bytes: &room[..q] };
    name_matrix_from(size, ty, args.count)
}

// `Qm` of one argument: "one matrix of equal size kept (7)".
fn name_matrix_one(size: Size, args: Types) -> Result<u8, Refusal>
    requires { args.count ≡ 1 }
    ensures { MatrixOneNames size.columns size.rows args.entry.bytes.now result }
{
    match ty::head_at(args.bytes, 0, Limit::DEPTH) {
        Head::Matrix(a, b, k) => {
            let given = Size {
                columns: a,
                rows: b,
            };
            if given == size {
                return Ok(k);
            }
            Err(Refusal::Mismatch)
        }
        _ => name_matrix_parts(size, args),
    }
}

// `Qm`; 11 without arguments.
pub fn name_matrix(size: Size, args: Types) -> Result<u8, Refusal>
    ensures { MatrixNames size.columns size.rows args.entry.bytes.now args.entry.count result }
{
    if args.count == 0 {
        return Err(Refusal::ArgumentsNeeded);
    }
    if args.count == 1 {
        return name_matrix_one(size, args);
    }
    name_matrix_parts(size, args)
}
