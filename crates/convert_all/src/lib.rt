// Lists of arguments to one type: the source's `convert_all_to` (conv.rs) on records in a row.
#![tactic(auto)]

ghost use Rattle.std.specs.Prelude.{◌≡◌, ◌≤◌};
ghost use Rattle.ty.specs.declared.Head.TheVariants.{Scalar, Vector, Matrix};
ghost use Rattle.args.specs.Row.{SomeRow, SomeArg};
ghost use Rattle.convert_all.specs.Lists.{HeadConverts, ArgConverts, Asked, AskedFit, TypesConvert, LiteralsFit, AllConvert};
ghost use Rattle.convert_all.specs.Lists.{AllRoom, AllPut};

use record::Writer;
use ty::{Head, Limit, Size, Type};

// ---- one argument's type to a type

// Whether the scalar type of the kind j converts to a type of that front: to a scalar of a kind to which j converts.
fn scalar_converts(j: u8, to: Head) -> bool
    ensures { HeadConverts (Scalar j) to result }
{
    let Head::Scalar(k) = to else {
        return false;
    };
    rank::kind_converts(j, k)
}

// The same of a vector: to one of equal length.
fn vector_converts(n: u8, j: u8, to: Head) -> bool
    ensures { HeadConverts (Vector n j) to result }
{
    let Head::Vector(m, k) = to else {
        return false;
    };
    if m != n {
        return false;
    }
    rank::kind_converts(j, k)
}

// The same of a matrix: to one of equal shape.
fn matrix_converts(size: Size, j: u8, to: Head) -> bool
    ensures { HeadConverts (Matrix size.columns size.rows j) to result }
{
    let Head::Matrix(c, r, k) = to else {
        return false;
    };
    if c != size.columns {
        return false;
    }
    if r != size.rows {
        return false;
    }
    rank::kind_converts(j, k)
}

// Whether the type of the argument at i, whatever that is, converts to the type that `ty` is.
fn derived_converts(args: &[u8], i: usize, ty: Type) -> bool
    requires { SomeArg args.now i }
    ensures { ArgConverts args.now i ty.entry.bytes.now result }
{
    let mut buf = [0u8; Limit::TYPE_BYTES];
    let step = args::next_type(args, i, &mut buf);
    let q = step.ty;
    rank::type_converts(Type { bytes: &buf[..q] }, ty)
}

// The same. An array's type and a struct's are derived; any other is seen at its front.
pub fn arg_converts(args: &[u8], i: usize, ty: Type) -> bool
    requires { SomeArg args.now i }
    ensures { ArgConverts args.now i ty.entry.bytes.now result }
{
    // taken anew: its two words are read one by one, not copied at once (docs/DECISIONS.md, 66)
    let a = &args[..];
    let t = &ty.bytes[..];
    match args::head_of(a, i) {
        Head::Scalar(j) => scalar_converts(j, ty::head_at(t, 0, Limit::DEPTH)),
        Head::Vector(n, j) => vector_converts(n, j, ty::head_at(t, 0, Limit::DEPTH)),
        Head::Matrix(c, r, j) => {
            let size = Size {
                columns: c,
                rows: r,
            };
            matrix_converts(size, j, ty::head_at(t, 0, Limit::DEPTH))
        }
        Head::Array(_) => derived_converts(a, i, ty),
        Head::Struct(_, _) => derived_converts(a, i, ty),
    }
}

// ---- all arguments to one type

// Whether the type of each argument from `from` on converts to the type that `ty` is.
fn others_convert(args: &[u8], from: usize, ty: Type) -> bool
    requires { SomeRow args.now from }
    ensures { TypesConvert args.now from ty.entry.bytes.now result }
{
    let mut i = from;
    while i < args.len() {
        if !arg_converts(args, i, ty) {
            return false;
        }
        i = args::next_arg(args, i);
    }
    true
}

// Whether each argument from `from` on is a literal that converts to the kind k: one scan decides both the types, since
// no other type than a scalar converts to a scalar, and the literals.
fn literals_fit(args: &[u8], from: usize, k: u8) -> bool
    requires { SomeRow args.now from }
    ensures { LiteralsFit args.now from k result }
{
    let mut i = from;
    while i < args.len() {
        if args[i + 1] != b's' {
            return false;
        }
        if !conv::fits_at(args, i, k) {
            return false;
        }
        i = i + record::literal_len(args[i + 2]);
    }
    true
}

// Whether each argument, whose type converts to the one whose record stands at `at`, converts too: one scan over the
// literals of all. Arguments with a struct in them keep their type, so they always do.
pub fn all_fit(args: &[u8], from: usize, ty: &[u8], at: usize, depth: u8) -> bool
    requires { AskedFit args.now from depth ty.now at }
    ensures { AllConvert args.now from depth ty.now at result }
{
    // to a scalar there are literals alone
    if ty[at + 1] == b's' {
        return literals_fit(args, from, ty[at + 2]);
    }
    let Some(k) = ty::leaf_at(ty, at, depth) else {
        return true;
    };
    conv::fits(&args[from..], k)
}

// Whether each argument from `from` on converts to the type whose record stands at `at`: "a value converts exactly if
// its type does and each literal fits". Decided before anything is written.
pub fn all_convert(args: &[u8], from: usize, ty: &[u8], at: usize, depth: u8) -> bool
    requires asked { Asked args.now from depth ty.now at }
    requires depth_bound { depth ≤ 15 }
    ensures { AllConvert args.now from depth ty.now at result }
{
    // taken anew: its two words are read one by one, not copied at once (docs/DECISIONS.md, 66)
    let a = &args[..];
    let t = &ty[..];
    let Some(e) = ty::type_end(t, at, depth) else {
        return false;
    };
    if t[at + 1] == b's' {
        return literals_fit(a, from, t[at + 2]);
    }
    if !others_convert(a, from, Type { bytes: &t[at..e] }) {
        return false;
    }
    all_fit(a, from, t, at, depth)
}

// The arguments from `from` on, converted to that type, one after another.
pub fn write_all(args: &[u8], from: usize, ty: &[u8], at: usize, depth: u8, w: &mut Writer)
    requires { AllRoom args.now from depth ty.now at w.old.out.now w.old.at }
    ensures put { AllPut args.now from depth ty.now at w.old.out.now w.old.at w.new.at w.new.out.now }
    ensures same_reference { w.new.out.ghost_name ≡ w.old.out.ghost_name }
{
    match ty::leaf_at(ty, at, depth) {
        Some(k) => conv::convert_items(&args[from..], k, w),
        None => w.put_bytes(&args[from..]),
    }
}
