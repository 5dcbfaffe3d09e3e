// Matrices: the source's `mat` (ctor.rs) on records. Everything is decided first, then measured, then written.
#![tactic(auto)]

ghost use Rattle.std.specs.Prelude.{◌≡◌, ◌≤◌, T, length, get_or};
ghost use lib.Dec.{T_prop};
ghost use Rattle.ty.specs.TypeFronts.{float_number};
ghost use Rattle.matrix.specs.MatrixRules.{FirstAs, Bottom, ToMade, MatParts, Common, QmMade, QmParts, SomeMatrixArg};
ghost use Rattle.matrix.specs.MatrixRules.{Remade, MatOne, QmOne};

use args::Values;
use error::Refusal;
use kind::Scalar;
use literal::Rules;
use record::Writer;
use scalar::Value;
use ty::{Head, Limit, Size, Type};

// A float kind by its number.
#[derive(Clone, Copy)]
pub struct FloatKind {
    pub number: u8,
    pub ghost float: { T (float_number number) } by { T_prop (float_number number) },
}

// The size of the matrix that the arguments are.
fn size_of(args: &[u8]) -> Size
    requires { 4 ≤ length args.now }
    ensures columns { result.columns ≡ get_or args.now 2 0 }
    ensures rows { result.rows ≡ get_or args.now 3 0 }
{
    Size {
        columns: args[2],
        rows: args[3],
    }
}

// ---- a matrix type

// The arguments to the type `ty`, whose kind is k: "all convert to that (10)", then the shape.
fn mat_to(size: Size, k: u8, ty: Type, args: Values, out: &mut [u8]) -> Result<usize, Refusal>
    requires { Bottom k ty.bytes.now }
    ensures { ToMade size.columns size.rows k ty.entry.bytes.now args.entry.bytes.now args.entry.count out.old result out.new }
{
    if !convert_all::all_convert(args.bytes, 0, ty.bytes, 0, Limit::DEPTH) {
        return Err(Refusal::NoCommonType);
    }
    columns::of_parts(size, k, ty.bytes, args, out)
}

// The arguments where the kind of the first one's type is j, and `ty` is that type with the target's kind in its place:
// "7 if that doesn't convert", else that is the type that all have to convert to.
fn mat_by(
    size: Size,
    kind: FloatKind,
    j: u8,
    ty: Type,
    args: Values,
    out: &mut [u8],
) -> Result<usize, Refusal>
    requires some { 1 ≤ args.count }
    requires first_as { FirstAs kind.number j ty.bytes.now args.bytes.now }
    ensures { MatParts size.columns size.rows kind.number args.entry.bytes.now args.entry.count out.old result out.new }
{
    let k = kind.number;
    if !rank::kind_converts(j, k) {
        return Err(Refusal::Mismatch);
    }
    mat_to(size, k, ty, args, out)
}

// The arguments whatever the first is: its type is derived. The last byte of a type's record is its kind, which becomes the target's.
fn mat_others(size: Size, kind: FloatKind, args: Values, out: &mut [u8]) -> Result<usize, Refusal>
    requires { 1 ≤ args.count }
    ensures { MatParts size.columns size.rows kind.number args.entry.bytes.now args.entry.count out.old result out.new }
{
    let k = kind.number;
    let mut buf = [0u8; Limit::TYPE_BYTES];
    let step = args::next_type(args.bytes, 0, &mut buf);
    if !shape::goes_down(&buf, k) {
        return Err(Refusal::Mismatch);
    }
    let last = step.ty - 1;
    buf[last] = k;
    let ty = Type {
        bytes: &buf[..step.ty],
    };
    mat_to(size, k, ty, args, out)
}

// The arguments of a matrix type, which are not one matrix: "the first argument's type with the target's scalar one
// level down, or in its place if it is a scalar (7 if that doesn't convert; a struct never does)". The front of a
// scalar's or a vector's type, which most are, says all of it; only other types are derived.
pub fn mat_parts(
    size: Size,
    kind: FloatKind,
    args: Values,
    out: &mut [u8],
) -> Result<usize, Refusal>
    requires { 1 ≤ args.count }
    ensures { MatParts size.columns size.rows kind.number args.entry.bytes.now args.entry.count out.old result out.new }
{
    // taken anew: its two words are read one by one, not copied at once (docs/DECISIONS.md, 66)
    let a = Values {
        bytes: &args.bytes[..],
        count: args.count,
    };
    match args::head_of(a.bytes, 0) {
        Head::Scalar(j) => {
            let ty = Type {
                bytes: &[b'T', b's', kind.number],
            };
            mat_by(size, kind, j, ty, a, out)
        }
        Head::Vector(n, j) => {
            let ty = Type {
                bytes: &[b'T', b'v', n, b'T', b's', kind.number],
            };
            mat_by(size, kind, j, ty, a, out)
        }
        Head::Matrix(_, _, _) => mat_others(size, kind, a, out),
        Head::Array(_) => mat_others(size, kind, a, out),
        Head::Struct(_, _) => mat_others(size, kind, a, out),
    }
}

// One matrix of equal size into a matrix type of a concrete kind: the constructor on each literal, up to the first refusal.
fn mat_made(rules: Rules, size: Size, k: u8, args: &[u8], out: &mut [u8]) -> Result<usize, Refusal>
    requires { SomeMatrixArg rules size.columns size.rows k args.now }
    ensures { Remade rules size.columns size.rows k args.now out.old result out.new }
{
    scalar::all_made(rules, args, k)?;
    if !columns::room_for(size, k, out.len()) {
        return Err(Refusal::NoRoom);
    }
    let mut w = Writer { out, at: 0 };
    scalar::write_made(rules, args, k, &mut w);
    Ok(w.at)
}

// One argument of a matrix type: "one matrix needs equal size (7), then constructors" (13 "also one matrix into a kind 2 matrix type").
pub fn mat_one(
    rules: Rules,
    size: Size,
    kind: FloatKind,
    arg: Value,
    out: &mut [u8],
) -> Result<usize, Refusal>
    ensures { MatOne rules size.columns size.rows kind.number arg.entry.bytes.now out.old result out.new }
{
    if arg.bytes[1] != b'm' {
        let values = Values {
            bytes: arg.bytes,
            count: 1,
        };
        return mat_parts(size, kind, values, out);
    }
    if size_of(arg.bytes) != size {
        return Err(Refusal::Mismatch);
    }
    let scalar = Scalar { kind: kind.number };
    if scalar.is_abstract() {
        return Err(Refusal::FloatsNeeded);
    }
    mat_made(rules, size, kind.number, arg.bytes, out)
}

// ---- the untemplated shape `Qm`

// The arguments whose common type is `ty`: "float (13); conversion (10)", then the shape.
fn qm_to(size: Size, ty: Type, args: Values, out: &mut [u8]) -> Result<usize, Refusal>
    requires { Common ty.bytes.now args.bytes.now }
    ensures { QmMade size.columns size.rows ty.entry.bytes.now args.entry.bytes.now args.entry.count out.old result out.new }
{
    let k = shape::float_inner(ty.bytes).ok_or(Refusal::FloatsNeeded)?;
    if !conv::fits(args.bytes, k) {
        return Err(Refusal::NoCommonType);
    }
    columns::of_parts(size, k, ty.bytes, args, out)
}

// The arguments of `Qm`, which are not one matrix: "common type (10); float, AbstractInt becoming AbstractFloat (13);
// conversion (10); rows (14); count (8); 13".
pub fn qm_parts(size: Size, args: Values, out: &mut [u8]) -> Result<usize, Refusal>
    requires { 1 ≤ args.count }
    ensures { QmParts size.columns size.rows args.entry.bytes.now args.entry.count out.old result out.new }
{
    let mut buf = [0u8; Limit::TYPE_BYTES];
    let q = common_type::common_type_of(args.bytes, false, &mut buf).ok_or(Refusal::NoCommonType)?;
    let ty = Type { bytes: &buf[..q] };
    qm_to(size, ty, args, out)
}

// One argument of `Qm`: "one matrix of equal size kept (7)".
pub fn qm_one(size: Size, arg: Value, out: &mut [u8]) -> Result<usize, Refusal>
    ensures { QmOne size.columns size.rows arg.entry.bytes.now out.old result out.new }
{
    if arg.bytes[1] != b'm' {
        let values = Values {
            bytes: arg.bytes,
            count: 1,
        };
        return qm_parts(size, values, out);
    }
    if size_of(arg.bytes) != size {
        return Err(Refusal::Mismatch);
    }
    error::hand(arg.bytes, out)
}
