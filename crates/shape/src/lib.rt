// What vectors, matrices and typing ask of the record of a type: where it ends, the kind in it, and whether as many of it make a matrix.
#![tactic(auto)]

ghost use Rattle.std.specs.Prelude.{◌≡◌};
ghost use Rattle.ty.specs.Stands.{Standing};
ghost use Rattle.shape.specs.Kinds.{KindsMeet, float_found, LitKindAt, InnerKind, GoesDown, FloatInner};
ghost use Rattle.shape.specs.Matrices.{ShapeIs};
ghost use Rattle.shape.specs.TypeRows.{EndsAt};

use error::Refusal;
use kind::Scalar;
use ty::{Head, Limit, Size};

// What the arguments of a matrix are, once their type and their number are right.
#[derive(Clone, Copy)]
pub enum Shape {
    Scalars,
    Columns,
}

// The end of the type's record that stands at `at`.
pub fn end_of_type(s: &[u8], at: usize, depth: u8) -> usize
    requires { Standing depth s.now at }
    ensures { EndsAt depth s.now at result }
{
    match ty::type_end(s, at, depth) {
        Some(e) => e,
        None => at,
    }
}

// ---- scalar kinds

// The common kind of the kind so far and the next one, as the source folds types, pair by pair.
pub fn meet_kinds(first: u8, next: u8) -> Option<u8>
    ensures { KindsMeet first next result }
{
    if rank::kind_converts(first, next) {
        return Some(next);
    }
    if rank::kind_converts(next, first) {
        return Some(first);
    }
    None
}

// The kind of an untemplated matrix of scalars of the kind k: "float, AbstractInt becoming AbstractFloat".
pub fn float_kind(k: u8) -> Option<u8>
    ensures { result ≡ float_found k }
{
    if k == Scalar::ABSTRACT_INT {
        return Some(Scalar::ABSTRACT_FLOAT);
    }
    let scalar = Scalar { kind: k };
    if scalar.is_float() {
        return Some(k);
    }
    None
}

// The kind of a scalar type.
pub fn scalar_kind(s: &[u8], at: usize, depth: u8) -> Option<u8>
    requires { Standing depth s.now at }
    ensures { LitKindAt depth s.now at result }
{
    match ty::head_at(s, at, depth) {
        Head::Scalar(k) => Some(k),
        Head::Vector(_, _) => None,
        Head::Matrix(_, _, _) => None,
        Head::Array(_) => None,
        Head::Struct(_, _) => None,
    }
}

// The kind "one level down, or in its place if it is a scalar", of the type at the front of `ty`, if a scalar stands there.
pub fn inner_kind(ty: &[u8]) -> Option<u8>
    requires { Standing 15 ty.now 0 }
    ensures { InnerKind ty.now result }
{
    match ty::head_at(ty, 0, Limit::DEPTH) {
        Head::Scalar(k) => Some(k),
        Head::Vector(_, k) => Some(k),
        Head::Matrix(_, _, k) => Some(k),
        Head::Array(_) => scalar_kind(ty, 4, Limit::PART_DEPTH),
        Head::Struct(_, _) => None,
    }
}

// Whether what stands "one level down" in the type at the front of `ty`, "or in its place if it is a scalar", converts
// to the kind k: "a struct never does".
pub fn goes_down(ty: &[u8], k: u8) -> bool
    requires { Standing 15 ty.now 0 }
    ensures { GoesDown k ty.now result }
{
    match inner_kind(ty) {
        Some(j) => rank::kind_converts(j, k),
        None => false,
    }
}

// The kind of the untemplated matrix whose arguments have that type, if it is a float's.
pub fn float_inner(ty: &[u8]) -> Option<u8>
    requires { Standing 15 ty.now 0 }
    ensures { FloatInner ty.now result }
{
    match inner_kind(ty) {
        Some(k) => float_kind(k),
        None => None,
    }
}

// ---- matrices

// Whether count arguments of the type at the front of `ty` are the scalars or the columns of a matrix: "rows (14),
// columns or c × r scalars (8), 13".
pub fn matrix_shape(size: Size, ty: &[u8], count: usize) -> Result<Shape, Refusal>
    requires { Standing 15 ty.now 0 }
    ensures { ShapeIs size.columns size.rows ty.now count result }
{
    match ty::head_at(ty, 0, Limit::DEPTH) {
        Head::Scalar(_) => {
            let n = size.scalars();
            if count != n {
                return Err(Refusal::Count {
                    wanted: n,
                    given: count,
                });
            }
            Ok(Shape::Scalars)
        }
        Head::Vector(n, _) => {
            if n != size.rows {
                return Err(Refusal::ColumnLength);
            }
            let w = usize::from(size.columns);
            if count != w {
                return Err(Refusal::Count {
                    wanted: w,
                    given: count,
                });
            }
            Ok(Shape::Columns)
        }
        Head::Matrix(_, _, _) => Err(Refusal::FloatsNeeded),
        Head::Array(_) => Err(Refusal::FloatsNeeded),
        Head::Struct(_, _) => Err(Refusal::FloatsNeeded),
    }
}
