// A type record as the target of typing: whether its constructor takes arguments of these types.
#![tactic(auto)]

ghost use Rattle.std.specs.Prelude.{◌≡◌, length};
ghost use Rattle.ty.specs.Stands.{Ends};
ghost use Rattle.shape.specs.TypeRows.{SomeTypeRow};
ghost use Rattle.check_type.specs.Rules.{ScalarChecks, VectorOneChecks, VectorPartsCheck, VectorChecks, ArrayChecks, SomeStruct};
ghost use Rattle.check_type.specs.Rules.{StructChecks, DownChecks, MatrixPartsCheck, MatrixOneChecks, MatrixChecks};
ghost use Rattle.check_type.specs.Rules.{GoodType, TypeChecks};

use arg_types::Types;
use error::Refusal;
use kind::Scalar;
use ty::{Head, Limit, Size, Type};

// A scalar's: 4 for an abstract one, before all; 5 for two arguments or more, and for one that is no scalar.
fn check_scalar(k: u8, args: Types) -> Result<(), Refusal>
    ensures { ScalarChecks k args.entry.bytes.now args.entry.count result }
{
    let scalar = Scalar { kind: k };
    if scalar.is_abstract() {
        return Err(Refusal::NotConstructible);
    }
    if args.count == 0 {
        return Ok(());
    }
    if args.count != 1 {
        return Err(Refusal::SeveralForScalar);
    }
    match shape::scalar_kind(args.bytes, 0, Limit::DEPTH) {
        Some(_) => Ok(()),
        None => Err(Refusal::SeveralForScalar),
    }
}

// A vector's, of one argument: "a single argument that a vector type can't take is 7".
fn check_vector_one(m: u8, k: u8, arg: Type) -> Result<(), Refusal>
    ensures { VectorOneChecks m k arg.entry.bytes.now result }
{
    match ty::head_at(arg.bytes, 0, Limit::DEPTH) {
        Head::Scalar(j) => {
            if rank::kind_converts(j, k) {
                return Ok(());
            }
            Err(Refusal::Mismatch)
        }
        Head::Vector(p, _) => {
            if p == m {
                return Ok(());
            }
            Err(Refusal::Mismatch)
        }
        _ => Err(Refusal::Mismatch),
    }
}

// Of several: each part (12), then the count, where "typing's 8 gives the number of arguments, not the flattened count".
fn check_vector_parts(m: u8, k: u8, args: Types) -> Result<(), Refusal>
    ensures { VectorPartsCheck m k args.entry.bytes.now args.entry.count result }
{
    if !arg_types::parts_to(k, args.bytes) {
        return Err(Refusal::VectorPart);
    }
    if arg_types::total(args.bytes) != m as usize {
        return Err(Refusal::Count {
            wanted: m as usize,
            given: args.count,
        });
    }
    Ok(())
}

// "16 .. an abstract vector type", before all.
fn check_vector(m: u8, k: u8, args: Types) -> Result<(), Refusal>
    ensures { VectorChecks m k args.entry.bytes.now args.entry.count result }
{
    let scalar = Scalar { kind: k };
    if scalar.is_abstract() {
        return Err(Refusal::NotTyped);
    }
    if args.count == 0 {
        return Ok(());
    }
    if args.count == 1 {
        return check_vector_one(m, k, Type { bytes: args.bytes });
    }
    check_vector_parts(m, k, args)
}

// A counted array's: "typing doesn't count a counted array's arguments".
fn check_array(target: &[u8], args: &[u8]) -> Result<(), Refusal>
    requires some_type_row { SomeTypeRow args.now 0 }
    requires ends { Ends 15 target.now 4 (length target.now) }
    ensures { ArrayChecks target.now args.now result }
{
    if !arg_types::types_convert(args, target, 4) {
        return Err(Refusal::Mismatch);
    }
    Ok(())
}

// A struct's: count (8), then a member that doesn't convert (9). The record of its members is all that follows its first six bytes.
fn check_struct(target: &[u8], m: u16, args: Types) -> Result<(), Refusal>
    requires { SomeStruct target.now m }
    ensures { StructChecks target.now m args.entry.bytes.now args.entry.count result }
{
    if args.count == 0 {
        return Ok(());
    }
    if args.count != m as usize {
        return Err(Refusal::Count {
            wanted: m as usize,
            given: args.count,
        });
    }
    if !arg_types::member_types_convert(args.bytes, target) {
        return Err(Refusal::NoConversion);
    }
    Ok(())
}

// Whether the type goes down to the kind k (7), and as many of it make a matrix.
fn matrix_from(size: Size, k: u8, ty: Type, n: usize) -> Result<(), Refusal>
    ensures { DownChecks size.columns size.rows k ty.entry.bytes.now n result }
{
    if !shape::goes_down(ty.bytes, k) {
        return Err(Refusal::Mismatch);
    }
    shape::matrix_shape(size, ty.bytes, n)?;
    Ok(())
}

// A matrix's, by the common type of its arguments (10).
fn check_matrix_parts(size: Size, k: u8, args: Types) -> Result<(), Refusal>
    ensures { MatrixPartsCheck size.columns size.rows k args.entry.bytes.now args.entry.count result }
{
    let mut room = [0u8; Limit::TYPE_BYTES];
    let q = common_type::common_type(args.bytes, &mut room).ok_or(Refusal::NoCommonType)?;
    let ty = Type { bytes: &room[..q] };
    matrix_from(size, k, ty, args.count)
}

// One argument that is a matrix "needs equal size (7)".
fn check_matrix_one(size: Size, k: u8, args: Types) -> Result<(), Refusal>
    requires { args.count ≡ 1 }
    ensures { MatrixOneChecks size.columns size.rows k args.entry.bytes.now result }
{
    match ty::head_at(args.bytes, 0, Limit::DEPTH) {
        Head::Matrix(a, b, _) => {
            let given = Size {
                columns: a,
                rows: b,
            };
            if given == size {
                return Ok(());
            }
            Err(Refusal::Mismatch)
        }
        _ => check_matrix_parts(size, k, args),
    }
}

// A matrix type's, by how many arguments there are.
fn check_matrix(size: Size, k: u8, args: Types) -> Result<(), Refusal>
    ensures { MatrixChecks size.columns size.rows k args.entry.bytes.now args.entry.count result }
{
    if args.count == 0 {
        return Ok(());
    }
    if args.count == 1 {
        return check_matrix_one(size, k, args);
    }
    check_matrix_parts(size, k, args)
}

// Every type record's.
pub fn check(target: &[u8], args: Types) -> Result<(), Refusal>
    requires { GoodType target.now }
    ensures { TypeChecks target.now args.entry.bytes.now args.entry.count result }
{
    match ty::head_at(target, 0, Limit::DEPTH) {
        Head::Scalar(k) => check_scalar(k, args),
        Head::Vector(m, k) => check_vector(m, k, args),
        Head::Matrix(c, r, k) => {
            let size = Size {
                columns: c,
                rows: r,
            };
            check_matrix(size, k, args)
        }
        Head::Array(_) => check_array(target, args.bytes),
        Head::Struct(_, m) => check_struct(target, m, args),
    }
}
