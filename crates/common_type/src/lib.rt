// The common type of a list: the source's `convert_all_ty` (conv.rs) on records in a row, of values and of types.
#![tactic(auto)]

ghost use Rattle.std.specs.Prelude.{◌≡◌, ◌≤◌, List, map, length};
ghost use Rattle.meaning.specs.Trees.{Ty, Val, type_of};
ghost use Rattle.meaning.specs.Convert.{common};
ghost use Rattle.ty.specs.Stands.{Stands, Standing, Whole};
ghost use Rattle.shape.specs.TypeRows.{TypeRow, SomeTypeRow};
ghost use Rattle.args.specs.Row.{Row, SomeRow, SomeArg};
ghost use Rattle.common_type.specs.Brought.{brought, PartAt, Parts, Brings};
ghost use Rattle.common_type.specs.CommonTypes.{Commons, Meeting, Meets, Going, Goes, GoingScalar};
ghost use Rattle.common_type.specs.CommonTypes.{GoingTypes, GoesTypes};

use args::Step;
use record::Writer;
use ty::{Limit, Type};

// Where an argument ends, and the type that it brings.
#[derive(Clone, Copy)]
struct Part<'t> {
    end: usize,
    ty: Type<'t>,
}

// ---- the common type

// The type becomes the one so far, at the front of `ty`.
fn keep(ty: &mut [u8], kept: Type) -> usize
    requires { length kept.bytes.now ≤ length ty.old }
    ensures { (t : Ty) → Whole kept.entry.bytes.now t → Stands 15 ty.new 0 t result }
{
    let mut w = Writer { out: ty, at: 0 };
    w.put_bytes(kept.bytes);
    w.at
}

// The type so far, at the front of `ty` up to q, and the next one: the next if the first converts to it, else the first
// if the next converts to it.
fn meet(ty: &mut [u8], q: usize, next: Type) -> Option<usize>
    requires { Meeting ty.old q next.bytes.now }
    ensures { Meets ty.old q next.entry.bytes.now result ty.new }
{
    let so_far = Type { bytes: &ty[..q] };
    if rank::type_converts(so_far, next) {
        return Some(keep(ty, next));
    }
    if rank::type_converts(next, so_far) {
        return Some(q);
    }
    None
}

// Where in a type's record that of the type it brings begins: a vector's kind stands after its mark and its length.
fn part_at(ty: &[u8], flat: bool) -> usize
    requires { Standing 15 ty.now 0 }
    ensures { PartAt flat ty.now result }
{
    if flat {
        if ty[1] == b'v' {
            return 3;
        }
    }
    0
}

// The type that the argument at i brings, whose record stands in `ty` then.
fn next_part<'t>(args: &[u8], i: usize, flat: bool, ty: &'t mut [u8]) -> Part<'t>
    requires some_arg { SomeArg args.now i }
    requires ty_len { length ty.old ≡ 4096 }
    ensures brings { Brings flat args.now i result.end result.ty.bytes.now }
    ensures short { length result.ty.bytes.now ≤ 4096 }
{
    let step = args::next_type(args, i, ty);
    let from = part_at(ty, flat);
    Part {
        end: step.end,
        ty: Type {
            bytes: &ty[from..step.ty],
        },
    }
}

// The type that the first argument brings, whatever it is.
fn first_other(args: &[u8], flat: bool, ty: &mut [u8]) -> Step
    requires some_arg { SomeArg args.now 0 }
    requires ty_len { length ty.old ≡ 4096 }
    ensures { Parts flat args.now 0 result.end result.ty ty.new }
{
    let mut next = [0u8; Limit::TYPE_BYTES];
    let part = next_part(args, 0, flat, &mut next);
    Step {
        end: part.end,
        ty: keep(ty, part.ty),
    }
}

// The common type of the one so far and those that the arguments from i on bring, pair by pair.
fn common_from(args: &[u8], i: usize, flat: bool, ty: &mut [u8], q: usize) -> Option<usize>
    requires { Going args.now i ty.old q }
    ensures { Goes flat args.now i ty.old q result ty.new }
{
    let mut next = [0u8; Limit::TYPE_BYTES];
    let mut at = i;
    let mut end = q;
    while at < args.len() {
        let part = next_part(args, at, flat, &mut next);
        end = meet(ty, end, part.ty)?;
        at = part.end;
    }
    Some(end)
}

// ---- the same for literals, by their kinds

// The type that the first argument brings: a literal's is written at once.
fn first_type(args: &[u8], flat: bool, ty: &mut [u8]) -> Step
    requires some_arg { SomeArg args.now 0 }
    requires ty_len { length ty.old ≡ 4096 }
    ensures { Parts flat args.now 0 result.end result.ty ty.new }
{
    if args[1] != b's' {
        return first_other(args, flat, ty);
    }
    let k = args[2];
    let n = record::literal_len(k);
    ty[0] = b'T';
    ty[1] = b's';
    ty[2] = k;
    Step { end: n, ty: 3 }
}

// The common type of a scalar so far and those that the arguments from i on bring. A literal's type needs no record of
// its own; from the first argument that is no literal on, each type is derived.
fn common_literals(args: &[u8], i: usize, flat: bool, ty: &mut [u8]) -> Option<usize>
    requires { GoingScalar args.now i ty.old }
    ensures { Goes flat args.now i ty.old 3 result ty.new }
{
    let mut at = i;
    while at < args.len() {
        if args[at + 1] != b's' {
            return common_from(args, at, flat, ty, 3);
        }
        let k = args[at + 2];
        let first = ty[2];
        ty[2] = shape::meet_kinds(first, k)?;
        at = at + record::literal_len(k);
    }
    Some(3)
}

// The common type of the one so far and those that the arguments from i on bring.
fn common_rest(args: &[u8], i: usize, flat: bool, ty: &mut [u8], q: usize) -> Option<usize>
    requires { Going args.now i ty.old q }
    ensures { Goes flat args.now i ty.old q result ty.new }
{
    if ty[1] != b's' {
        return common_from(args, i, flat, ty, q);
    }
    common_literals(args, i, flat, ty)
}

// The common type of the values that the arguments bring, with `flat` the parts of vectors: "one of its own types to
// which all others convert; none exists otherwise", so there is none of no argument. Its record is
// written at the front of `ty`, and the answer is where it ends.
pub fn common_type_of(args: &[u8], flat: bool, ty: &mut [u8]) -> Option<usize>
    requires some_row { SomeRow args.now 0 }
    requires ty_len { length ty.old ≡ 4096 }
    ensures { (l : List Val) → Row args.now 0 l → Commons (common (map type_of (brought flat l))) result ty.new }
{
    if args.len() == 0 {
        return None;
    }
    let first = first_type(args, flat, ty);
    common_rest(args, first.end, flat, ty, first.ty)
}

// ---- the same for types in a row

// The common type of the one so far and those from i on, pair by pair.
fn common_types_from(types: &[u8], i: usize, ty: &mut [u8], q: usize) -> Option<usize>
    requires { GoingTypes types.now i ty.old q }
    ensures { GoesTypes types.now i ty.old q result ty.new }
{
    let mut at = i;
    let mut end = q;
    while at < types.len() {
        let e = shape::end_of_type(types, at, Limit::DEPTH);
        end = meet(
            ty,
            end,
            Type {
                bytes: &types[at..e],
            },
        )?;
        at = e;
    }
    Some(end)
}

// The common type of the types whose records stand in a row. Its record is written at the front of `ty`, and the answer
// is where it ends.
pub fn common_type(types: &[u8], ty: &mut [u8]) -> Option<usize>
    requires some_type_row { SomeTypeRow types.now 0 }
    requires ty_len { length ty.old ≡ 4096 }
    ensures { (l : List Ty) → TypeRow types.now 0 l → Commons (common l) result ty.new }
{
    if types.len() == 0 {
        return None;
    }
    let e = shape::end_of_type(types, 0, Limit::DEPTH);
    let first = keep(ty, Type { bytes: &types[..e] });
    common_types_from(types, e, ty, first)
}
