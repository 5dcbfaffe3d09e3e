// The entry `read_layout`: bytes in WGSL's memory layout, read back by a type. Decided first, then measured, then written.
#![tactic(auto)]

ghost use Rattle.std.specs.Prelude.{◌≡◌, ◌≤◌, length};
ghost use Rattle.meaning.specs.Layout.{read_answer};
ghost use Rattle.error.specs.Told.{Told};
ghost use Rattle.read_layout.specs.Memory.{ScalarsRoom, ScalarsMoved, VectorRoom, VectorMoved, ColumnsRoom, ColumnsMoved};
ghost use Rattle.read_layout.specs.Memory.{ElementsRoom, ElementsMoved, MembersRoom, MembersMoved, ValueRoom, ValueMoved};
ghost use Rattle.read_layout.specs.Memory.{SomeSized, Reads, TypeTold};

use error::Refusal;
use memory::{Places, Source};
use record::Writer;
use ty::{Head, Limit, Target, Type};

// The literals of n scalars of the kind k that lie at `at`: a vector's, a column's, and an array's where it has
// scalars. Answers where the last of them ends. Inlined, since most values have a few scalars in a row.
#[inline(always)]
fn read_scalars(mem: &[u8], at: usize, n: u16, k: u8, w: &mut Writer) -> usize
    requires { ScalarsRoom mem.now at n k w.old.out.now w.old.at }
    ensures moved { ScalarsMoved mem.now at n k w.old.out.now w.old.at result w.new.at w.new.out.now }
    ensures same_reference { w.new.out.ghost_name ≡ w.old.out.ghost_name }
{
    let size = memory::scalar_size(k);
    let mut own = Writer {
        out: &mut *w.out,
        at: w.at,
    };
    let mut i = at;
    for _ in 0..n {
        own.put_literal(k, record::number(mem, i, size));
        i += size;
    }
    w.at = own.at;
    i
}

// A vector of n, behind its mark.
#[inline(always)]
fn read_vector(mem: &[u8], at: usize, n: u8, k: u8, w: &mut Writer) -> usize
    requires { VectorRoom mem.now at n k w.old.out.now w.old.at }
    ensures moved { VectorMoved mem.now at n k w.old.out.now w.old.at result w.new.at w.new.out.now }
    ensures same_reference { w.new.out.ghost_name ≡ w.old.out.ghost_name }
{
    w.put_three(b'V', b'v', n);
    read_scalars(mem, at, u16::from(n), k, w)
}

// The n vectors of r scalars that lie at `at`, each with `pad` bytes of padding behind it, which are passed over: the
// columns of a matrix, and an array's elements where they are vectors.
fn read_columns(mem: &[u8], at: usize, n: u16, r: u8, k: u8, pad: u8, w: &mut Writer) -> usize
    requires { ColumnsRoom mem.now at n r k pad w.old.out.now w.old.at }
    ensures moved { ColumnsMoved mem.now at n r k pad w.old.out.now w.old.at result w.new.at w.new.out.now }
    ensures same_reference { w.new.out.ghost_name ≡ w.old.out.ghost_name }
{
    let skip = usize::from(pad);
    let mut i = at;
    for _ in 0..n {
        i = read_vector(mem, i, r, k, w) + skip;
    }
    i
}

// The n elements that lie at a place, of the type that stands at another, each with `pad` bytes of padding behind it.
// Scalars and vectors are seen to before. Answers where the type and the last element end.
#[cycle(each_element_read_elements_read_member_read_members_read_value)]
fn each_element(src: &Source, at: Places, n: u16, pad: u8, depth: u8, w: &mut Writer) -> Places
    requires { ElementsRoom depth src.now.ty.now at.ty n pad src.now.pads.now src.now.bytes.now at.from
        w.old.out.now w.old.at }
    ensures moved { ElementsMoved depth src.now.ty.now at.ty n pad src.now.pads.now src.now.bytes.now
        at.from w.old.out.now w.old.at result.ty result.from w.new.at w.new.out.now }
    ensures same_reference { w.new.out.ghost_name ≡ w.old.out.ghost_name }
{
    let skip = usize::from(pad);
    let mut all = at;
    for _ in 0..n {
        let element = Places {
            from: all.from,
            ..at
        };
        all = read_value(src, element, depth, w);
        all.from += skip;
    }
    all
}

// The same; where the type is a scalar's or a vector's, without asking for it again at each element.
#[cycle(each_element_read_elements_read_member_read_members_read_value)]
fn read_elements(src: &Source, at: Places, n: u16, pad: u8, depth: u8, w: &mut Writer) -> Places
    requires { ElementsRoom depth src.now.ty.now at.ty n pad src.now.pads.now src.now.bytes.now at.from
        w.old.out.now w.old.at }
    ensures moved { ElementsMoved depth src.now.ty.now at.ty n pad src.now.pads.now src.now.bytes.now
        at.from w.old.out.now w.old.at result.ty result.from w.new.at w.new.out.now }
    ensures same_reference { w.new.out.ghost_name ≡ w.old.out.ghost_name }
{
    let h = ty::head_at(src.ty, at.ty, depth);
    if let Head::Scalar(k) = h {
        let from = read_scalars(src.bytes, at.from, n, k, w);
        return Places {
            ty: at.ty + 3,
            from,
        };
    }
    if let Head::Vector(r, k) = h {
        let from = read_columns(src.bytes, at.from, n, r, k, pad, w);
        return Places {
            ty: at.ty + 6,
            from,
        };
    }
    each_element(src, at, n, pad, depth, w)
}

// The n members that lie at a place, of the types that stand at another; the padding before each, which the table says,
// is passed over.
#[cycle(each_element_read_elements_read_member_read_members_read_value)]
fn read_members(src: &Source, at: Places, n: u16, depth: u8, w: &mut Writer) -> Places
    requires { MembersRoom depth src.now.ty.now at.ty n src.now.pads.now src.now.bytes.now at.from
        w.old.out.now w.old.at }
    ensures moved { MembersMoved depth src.now.ty.now at.ty n src.now.pads.now src.now.bytes.now
        at.from w.old.out.now w.old.at result.ty result.from w.new.at w.new.out.now }
    ensures same_reference { w.new.out.ghost_name ≡ w.old.out.ghost_name }
{
    let mut all = at;
    for _ in 0..n {
        all.from += usize::from(src.pads[all.ty + 1]);
        all = read_member(src, all, depth, w);
    }
    all
}

// The value that lies at a place, of the type that stands at another. The allowed depth is the number that falls.
#[cycle(each_element_read_elements_read_member_read_members_read_value)]
fn read_value(src: &Source, at: Places, depth: u8, w: &mut Writer) -> Places
    requires { ValueRoom depth src.now.ty.now at.ty src.now.pads.now src.now.bytes.now at.from w.old.out.now w.old.at }
    ensures moved { ValueMoved depth src.now.ty.now at.ty src.now.pads.now src.now.bytes.now
        at.from w.old.out.now w.old.at result.ty result.from w.new.at w.new.out.now }
    ensures same_reference { w.new.out.ghost_name ≡ w.old.out.ghost_name }
{
    match ty::head_at(src.ty, at.ty, depth) {
        Head::Scalar(k) => Places {
            ty: at.ty + 3,
            from: read_scalars(src.bytes, at.from, 1, k, w),
        },
        Head::Vector(n, k) => Places {
            ty: at.ty + 6,
            from: read_vector(src.bytes, at.from, n, k, w),
        },
        Head::Matrix(c, r, k) => {
            w.put_four(b'V', b'm', c, r);
            Places {
                ty: at.ty + 7,
                from: read_columns(src.bytes, at.from, u16::from(c), r, k, src.pads[at.ty], w),
            }
        }
        Head::Array(n) => {
            w.put_array(n);
            let first = Places {
                ty: at.ty + 4,
                ..at
            };
            read_elements(src, first, n, src.pads[at.ty], depth - 1, w)
        }
        Head::Struct(i, n) => {
            w.put_struct(i, n);
            let first = Places {
                ty: at.ty + 6,
                ..at
            };
            let mut all = read_members(src, first, n, depth - 1, w);
            all.from += usize::from(src.pads[at.ty]);
            all
        }
    }
}

// A member: the same, without the walk where it is a scalar or a vector.
#[cycle(each_element_read_elements_read_member_read_members_read_value)]
fn read_member(src: &Source, at: Places, depth: u8, w: &mut Writer) -> Places
    requires { ValueRoom depth src.now.ty.now at.ty src.now.pads.now src.now.bytes.now at.from w.old.out.now w.old.at }
    ensures moved { ValueMoved depth src.now.ty.now at.ty src.now.pads.now src.now.bytes.now
        at.from w.old.out.now w.old.at result.ty result.from w.new.at w.new.out.now }
    ensures same_reference { w.new.out.ghost_name ≡ w.old.out.ghost_name }
{
    let h = ty::head_at(src.ty, at.ty, depth);
    if let Head::Scalar(k) = h {
        let from = read_scalars(src.bytes, at.from, 1, k, w);
        return Places {
            ty: at.ty + 3,
            from,
        };
    }
    if let Head::Vector(n, k) = h {
        let from = read_vector(src.bytes, at.from, n, k, w);
        return Places {
            ty: at.ty + 6,
            from,
        };
    }
    read_value(src, at, depth, w)
}

// ---- the entry

// The value of that type; the memory has its size.
fn read_sized(target: Type, pads: &[u8], mem: &[u8], out: &mut [u8]) -> Result<usize, Refusal>
    requires { SomeSized target.bytes.now pads.now mem.now }
    ensures { Reads target.entry.bytes.now pads.now mem.now out.old result out.new }
{
    let (_, n) = ty::value_len(target.bytes, 0, Limit::DEPTH).ok_or(Refusal::NoRoom)?;
    if n > out.len() {
        return Err(Refusal::NoRoom);
    }
    let mut w = Writer { out, at: 0 };
    let src = Source {
        ty: target.bytes,
        pads,
        bytes: mem,
    };
    let _ = read_value(&src, Places { ty: 0, from: 0 }, Limit::DEPTH, &mut w);
    Ok(w.at)
}

// By a type, whose record has 4,096 bytes at most.
fn read_type(target: Type, mem: &[u8], out: &mut [u8]) -> Result<usize, Refusal>
    requires { length target.bytes.now ≤ 4096 }
    ensures { TypeTold target.entry.bytes.now mem.now out.old result out.new }
{
    if !layout::has_layout(target) {
        return Err(Refusal::NoLayout);
    }
    let mut pads = [0u8; Limit::TYPE_BYTES];
    let extent = layout::measure(target, &mut pads).ok_or(Refusal::MemorySize)?;
    if extent.size != mem.len() {
        return Err(Refusal::MemorySize);
    }
    read_sized(target, &pads, mem, out)
}

// The value that the bytes in memory are, read by the type whose record the target is: its record at the front of the
// buffer. Nothing is assumed of the bytes; a refusal leaves the lent buffer as it was.
pub fn read_layout(target: &[u8], memory: &[u8], out: &mut [u8]) -> Result<usize, Refusal>
    ensures { Told (read_answer target.now memory.now (length out.old)) out.old result
        out.new }
{
    let found = ty::read_target(target).ok_or(Refusal::BadTarget)?;
    match found {
        Target::Type => read_type(Type { bytes: target }, memory, out),
        Target::Runtime => Err(Refusal::NoLayout),
        _ => Err(Refusal::BadTarget),
    }
}
