// The entry `write_layout`: one value in WGSL's memory layout. Decided first, then measured, then written.
#![tactic(auto)]

ghost use Rattle.std.specs.Prelude.{◌≡◌, length};
ghost use Rattle.meaning.specs.Layout.{zeros, write_answer};
ghost use Rattle.record.specs.Bytes.{Put, Takes};
ghost use Rattle.error.specs.Told.{Told};
ghost use Rattle.args.specs.OneValue.{Found};
ghost use Rattle.write_layout.specs.Memory.{LiteralsRoom, LiteralsMoved, ColumnsRoom, ColumnsMoved, ElementsRoom, ElementsMoved};
ghost use Rattle.write_layout.specs.Memory.{MembersRoom, MembersMoved, ValueRoom, ValueMoved, Writes};

use error::Refusal;
use memory::{Places, Source};
use record::Writer;
use ty::{Head, Limit, Type};

// "Padding is written as zero": n bytes of it.
fn put_zeros(n: u8, w: &mut Writer)
    requires { Takes w.old.out.now w.old.at (zeros n) }
    ensures put { Put w.old.out.now w.old.at (zeros n) w.new.at w.new.out.now }
    ensures same_reference { w.new.out.ghost_name ≡ w.old.out.ghost_name }
{
    let to = w.at;
    let end = to + usize::from(n);
    w.out[to..end].fill(0);
    w.at = end;
}

// The scalars of n literals of the kind k, whose records stand at `at`: a vector's, a column's, and an array's where it
// has scalars. Answers where the last of them ends. Inlined, since most values have a few scalars in a row.
#[inline(always)]
fn write_literals(s: &[u8], at: usize, n: u16, k: u8, w: &mut Writer) -> usize
    requires { LiteralsRoom s.now at n k w.old.out.now w.old.at }
    ensures moved { LiteralsMoved s.now at n k w.old.out.now w.old.at result w.new.at w.new.out.now }
    ensures same_reference { w.new.out.ghost_name ≡ w.old.out.ghost_name }
{
    let wide = record::width(k);
    let size = memory::scalar_size(k);
    let mut own = Writer {
        out: &mut *w.out,
        at: w.at,
    };
    let mut i = at;
    for _ in 0..n {
        own.put_le(size, record::number(s, i + 3, wide));
        i += 3 + wide;
    }
    w.at = own.at;
    i
}

// The n vectors of r literals that stand at `at`, each with its padding behind it: the columns of a matrix, and an
// array's elements where they are vectors. Answers where the last of them ends.
fn write_columns(s: &[u8], at: usize, n: u16, r: u8, k: u8, pad: u8, w: &mut Writer) -> usize
    requires { ColumnsRoom s.now at n r k pad w.old.out.now w.old.at }
    ensures moved { ColumnsMoved s.now at n r k pad w.old.out.now w.old.at result w.new.at w.new.out.now }
    ensures same_reference { w.new.out.ghost_name ≡ w.old.out.ghost_name }
{
    let rows = u16::from(r);
    let mut i = at;
    for _ in 0..n {
        i = write_literals(s, i + 3, rows, k, w);
        put_zeros(pad, w);
    }
    i
}

// The n elements that stand at a place, of the type that stands at another, each with its padding behind it. Scalars
// and vectors are seen to before. Answers where the type and the last element end.
#[cycle(each_element_write_elements_write_member_write_members_write_value)]
fn each_element(src: &Source, at: Places, n: u16, pad: u8, depth: u8, w: &mut Writer) -> Places
    requires { ElementsRoom depth src.now.ty.now at.ty n pad src.now.pads.now src.now.bytes.now at.from
        w.old.out.now w.old.at }
    ensures moved { ElementsMoved depth src.now.ty.now at.ty n pad src.now.pads.now src.now.bytes.now
        at.from w.old.out.now w.old.at result.ty result.from w.new.at w.new.out.now }
    ensures same_reference { w.new.out.ghost_name ≡ w.old.out.ghost_name }
{
    let mut all = at;
    for _ in 0..n {
        let element = Places {
            from: all.from,
            ..at
        };
        all = write_value(src, element, depth, w);
        put_zeros(pad, w);
    }
    all
}

// The same; where the type is a scalar's or a vector's, without asking for it again at each element.
#[cycle(each_element_write_elements_write_member_write_members_write_value)]
fn write_elements(src: &Source, at: Places, n: u16, pad: u8, depth: u8, w: &mut Writer) -> Places
    requires { ElementsRoom depth src.now.ty.now at.ty n pad src.now.pads.now src.now.bytes.now at.from
        w.old.out.now w.old.at }
    ensures moved { ElementsMoved depth src.now.ty.now at.ty n pad src.now.pads.now src.now.bytes.now
        at.from w.old.out.now w.old.at result.ty result.from w.new.at w.new.out.now }
    ensures same_reference { w.new.out.ghost_name ≡ w.old.out.ghost_name }
{
    let h = ty::head_at(src.ty, at.ty, depth);
    if let Head::Scalar(k) = h {
        let from = write_literals(src.bytes, at.from, n, k, w);
        return Places {
            ty: at.ty + 3,
            from,
        };
    }
    if let Head::Vector(r, k) = h {
        let from = write_columns(src.bytes, at.from, n, r, k, pad, w);
        return Places {
            ty: at.ty + 6,
            from,
        };
    }
    each_element(src, at, n, pad, depth, w)
}

// The n members that stand at a place, of the types that stand at another, each with the padding before it that the
// table says.
#[cycle(each_element_write_elements_write_member_write_members_write_value)]
fn write_members(src: &Source, at: Places, n: u16, depth: u8, w: &mut Writer) -> Places
    requires { MembersRoom depth src.now.ty.now at.ty n src.now.pads.now src.now.bytes.now at.from
        w.old.out.now w.old.at }
    ensures moved { MembersMoved depth src.now.ty.now at.ty n src.now.pads.now src.now.bytes.now
        at.from w.old.out.now w.old.at result.ty result.from w.new.at w.new.out.now }
    ensures same_reference { w.new.out.ghost_name ≡ w.old.out.ghost_name }
{
    let mut all = at;
    for _ in 0..n {
        put_zeros(src.pads[all.ty + 1], w);
        all = write_member(src, all, depth, w);
    }
    all
}

// The value that stands at a place, of the type that stands at another. The allowed depth is the number that falls.
#[cycle(each_element_write_elements_write_member_write_members_write_value)]
fn write_value(src: &Source, at: Places, depth: u8, w: &mut Writer) -> Places
    requires { ValueRoom depth src.now.ty.now at.ty src.now.pads.now src.now.bytes.now at.from w.old.out.now w.old.at }
    ensures moved { ValueMoved depth src.now.ty.now at.ty src.now.pads.now src.now.bytes.now
        at.from w.old.out.now w.old.at result.ty result.from w.new.at w.new.out.now }
    ensures same_reference { w.new.out.ghost_name ≡ w.old.out.ghost_name }
{
    match ty::head_at(src.ty, at.ty, depth) {
        Head::Scalar(k) => Places {
            ty: at.ty + 3,
            from: write_literals(src.bytes, at.from, 1, k, w),
        },
        Head::Vector(n, k) => Places {
            ty: at.ty + 6,
            from: write_literals(src.bytes, at.from + 3, u16::from(n), k, w),
        },
        Head::Matrix(c, r, k) => Places {
            ty: at.ty + 7,
            from: write_columns(
                src.bytes,
                at.from + 4,
                u16::from(c),
                r,
                k,
                src.pads[at.ty],
                w,
            ),
        },
        Head::Array(n) => {
            let first = Places {
                ty: at.ty + 4,
                from: at.from + 4,
            };
            write_elements(src, first, n, src.pads[at.ty], depth - 1, w)
        }
        Head::Struct(_, n) => {
            let first = Places {
                ty: at.ty + 6,
                from: at.from + 6,
            };
            let all = write_members(src, first, n, depth - 1, w);
            put_zeros(src.pads[at.ty], w);
            all
        }
    }
}

// A member: the same, without the walk where it is a scalar or a vector.
#[cycle(each_element_write_elements_write_member_write_members_write_value)]
fn write_member(src: &Source, at: Places, depth: u8, w: &mut Writer) -> Places
    requires { ValueRoom depth src.now.ty.now at.ty src.now.pads.now src.now.bytes.now at.from w.old.out.now w.old.at }
    ensures moved { ValueMoved depth src.now.ty.now at.ty src.now.pads.now src.now.bytes.now
        at.from w.old.out.now w.old.at result.ty result.from w.new.at w.new.out.now }
    ensures same_reference { w.new.out.ghost_name ≡ w.old.out.ghost_name }
{
    let h = ty::head_at(src.ty, at.ty, depth);
    if let Head::Scalar(k) = h {
        let from = write_literals(src.bytes, at.from, 1, k, w);
        return Places {
            ty: at.ty + 3,
            from,
        };
    }
    if let Head::Vector(n, k) = h {
        let from = write_literals(src.bytes, at.from + 3, u16::from(n), k, w);
        return Places {
            ty: at.ty + 6,
            from,
        };
    }
    write_value(src, at, depth, w)
}

// ---- the entry

// The one value, of that type.
fn write_one(ty: Type, args: &[u8], out: &mut [u8]) -> Result<usize, Refusal>
    requires { Found args.now ty.bytes.now }
    ensures { Writes ty.entry.bytes.now args.now out.old result out.new }
{
    if !layout::has_layout(ty) {
        return Err(Refusal::NoLayout);
    }
    let mut pads = [0u8; Limit::TYPE_BYTES];
    let extent = layout::measure(ty, &mut pads).ok_or(Refusal::NoRoom)?;
    if extent.size > out.len() {
        return Err(Refusal::NoRoom);
    }
    let mut w = Writer { out, at: 0 };
    let src = Source {
        ty: ty.bytes,
        pads: &pads,
        bytes: args,
    };
    let _ = write_value(&src, Places { ty: 0, from: 0 }, Limit::DEPTH, &mut w);
    Ok(w.at)
}

// The value that the bytes are, as it lies in memory, from the first byte of the buffer on: exactly its type's size.
// Nothing is assumed of the bytes; a refusal leaves the lent buffer as it was.
pub fn write_layout(args: &[u8], out: &mut [u8]) -> Result<usize, Refusal>
    ensures { Told (write_answer args.now (length out.old)) out.old result out.new }
{
    let mut buf = [0u8; Limit::TYPE_BYTES];
    let q = args::one_value(args, &mut buf).ok_or(Refusal::BadArgument)?;
    let ty = Type { bytes: &buf[..q] };
    write_one(ty, args, out)
}
