// WGSL's memory layout of a type, from its record: whether it has one, its size and its alignment, and the padding inside it.
#![tactic(auto)]

ghost use Rattle.std.specs.Prelude.{◌≡◌, ◌+◌, ◌-◌, ◌*◌, ◌≤◌, ◌<◌, length};
ghost use Rattle.meaning.specs.Trees.{Ty};
ghost use Rattle.meaning.specs.Layout.{has_layout, vec_align, round_up, layout_answer};
ghost use Rattle.ty.specs.Stands.{Whole, Standing, StandingAll};
ghost use Rattle.record.specs.Literals.{Sized};
ghost use Rattle.memory.specs.Sizes.{Align};
ghost use Rattle.layout.specs.Laid.{KindLaid, LaidAt, LaidAll, paper, LaidTold};
ghost use Rattle.layout.specs.Extents.{past_of, Times, Rounds, ScalarExtent, VectorExtent, Extends, ExtendsAll};

use error::Refusal;
use kind::Scalar;
use ty::{Head, Limit, Target, Type};

// Where a type's record ends, and the size and the alignment of the type.
#[derive(Clone, Copy)]
pub struct Extent {
    pub end: usize,
    pub size: usize,
    pub align: u8,
}

// What a caller is told of a type.
#[derive(Clone, Copy)]
pub struct Layout {
    pub size: usize,
    pub align: usize,
}

// ---- which types have a layout

// The end of a type's record, if its kind has a place in memory.
fn laid_end(k: u8, e: usize) -> Option<usize>
    ensures { KindLaid k e result }
{
    let scalar = Scalar { kind: k };
    if scalar.has_layout() {
        return Some(e);
    }
    None
}

// The end of n types' records, if all have a layout.
#[cycle(members_laid_walk_laid)]
fn members_laid(ty: &[u8], at: usize, n: u16, depth: u8) -> Option<usize>
    requires { StandingAll depth ty.now at n }
    ensures { LaidAll depth ty.now at n result }
{
    let mut i = at;
    for _ in 0..n {
        i = walk_laid(ty, i, depth)?;
    }
    Some(i)
}

// The end of the record of the type that stands at `at`, if it has a layout. The allowed depth is the number that falls.
#[cycle(members_laid_walk_laid)]
fn walk_laid(ty: &[u8], at: usize, depth: u8) -> Option<usize>
    requires { Standing depth ty.now at }
    ensures { LaidAt depth ty.now at result }
{
    // taken anew: its two words are read one by one, not copied at once (docs/DECISIONS.md, 66)
    let t = &ty[..];
    match ty::head_at(t, at, depth) {
        Head::Scalar(k) => laid_end(k, at + 3),
        Head::Vector(_, k) => laid_end(k, at + 6),
        Head::Matrix(_, _, k) => laid_end(k, at + 7),
        Head::Array(_) => walk_laid(t, at + 4, depth - 1),
        Head::Struct(_, n) => members_laid(t, at + 6, n, depth - 1),
    }
}

// Whether the type has a layout: "a type that holds Bool, an abstract kind" has none.
pub fn has_layout(ty: Type) -> bool
    ensures { (t : Ty) → Whole ty.entry.bytes.now t → result ≡ has_layout t }
{
    walk_laid(ty.bytes, 0, Limit::DEPTH).is_some()
}

// ---- alignment and size

// "a vector of 2 is aligned to two scalars, of 3 or 4 to four"
fn vector_align(n: u8, k: u8) -> u8
    ensures { Sized k (vec_align n) 16 result }
{
    let size = memory::scalar_size(k) as u8;
    if n == 2 {
        return 2 * size;
    }
    4 * size
}

// The bytes from n up to the next multiple of the alignment.
fn gap(align: u8, n: usize) -> u8
    requires { Align align }
    ensures { (result ≡ round_up align n - n) × (result < 16) }
{
    let a = usize::from(align);
    let over = n % a;
    if over == 0 {
        return 0;
    }
    (a - over) as u8
}

// A scalar, whose type's record ends at e.
fn scalar_extent(e: usize, k: u8) -> Extent
    ensures { ScalarExtent e k result }
{
    let size = memory::scalar_size(k);
    Extent {
        end: e,
        size,
        align: size as u8,
    }
}

// A vector, or a column of a matrix, whose type's record ends at e.
fn vector_extent(e: usize, n: u8, k: u8) -> Extent
    ensures { VectorExtent e n k result }
{
    Extent {
        end: e,
        size: usize::from(n) * memory::scalar_size(k),
        align: vector_align(n, k),
    }
}

// n times the size; None where that is past 64 bits.
fn times(n: u16, x: Extent) -> Option<Extent>
    ensures { Times n x result }
{
    let size = usize::from(n).checked_mul(x.size)?;
    Some(Extent { size, ..x })
}

// The size rounded up to the alignment, the padding that this adds put into the table at `at`: it is behind each
// column, behind each element, or behind the last member. None where the size is then past 64 bits.
fn rounded(x: Extent, at: usize, pads: &mut [u8]) -> Option<Extent>
    requires { Align x.align × (at < length pads.old) }
    ensures { Rounds x at pads.old result pads.new }
{
    let g = gap(x.align, x.size);
    let size = x.size.checked_add(usize::from(g))?;
    pads[at] = g;
    Some(Extent { size, ..x })
}

// Where a member ends that begins g bytes behind `end`; None past 64 bits.
fn member_end(end: usize, g: u8, size: usize) -> Option<usize>
    ensures { result ≡ past_of (end + g + size) }
{
    end.checked_add(usize::from(g))?.checked_add(size)
}

// The members whose n types stand at `at`: where the last one ends, and the greatest alignment; None past 64 bits. The
// padding before each goes into the table behind the first byte of its record.
#[cycle(members_extent_walk_extent)]
fn members_extent(ty: &[u8], at: usize, n: u16, depth: u8, pads: &mut [u8]) -> Option<Extent>
    requires { StandingAll depth ty.now at n × (length ty.now ≤ length pads.old) }
    ensures { ExtendsAll depth ty.now at n pads.old result pads.new }
{
    let mut i = at;
    let mut end: usize = 0;
    let mut most: u8 = 1;
    for _ in 0..n {
        let member = walk_extent(ty, i, depth, pads)?;
        let g = gap(member.align, end);
        pads[i + 1] = g;
        end = member_end(end, g, member.size)?;
        most = most.max(member.align);
        i = member.end;
    }
    Some(Extent {
        end: i,
        size: end,
        align: most,
    })
}

// The type that stands at `at`, all that follows from it worked out once: its size, its alignment, and the padding
// inside it, which goes into the table; None where the size is past 64 bits. The allowed depth is the number that
// falls.
#[cycle(members_extent_walk_extent)]
fn walk_extent(ty: &[u8], at: usize, depth: u8, pads: &mut [u8]) -> Option<Extent>
    requires { Standing depth ty.now at × (length ty.now ≤ length pads.old) }
    ensures { Extends depth ty.now at pads.old result pads.new }
{
    match ty::head_at(ty, at, depth) {
        Head::Scalar(k) => Some(scalar_extent(at + 3, k)),
        Head::Vector(n, k) => Some(vector_extent(at + 6, n, k)),
        Head::Matrix(c, r, k) => {
            let column = rounded(vector_extent(at + 7, r, k), at, pads)?;
            times(u16::from(c), column)
        }
        Head::Array(n) => {
            let part = walk_extent(ty, at + 4, depth - 1, pads)?;
            let element = rounded(part, at, pads)?;
            times(n, element)
        }
        Head::Struct(_, n) => {
            let members = members_extent(ty, at + 6, n, depth - 1, pads)?;
            rounded(members, at, pads)
        }
    }
}

// The same of a whole record.
pub fn measure(ty: Type, pads: &mut [u8]) -> Option<Extent>
    requires { length ty.bytes.now ≤ length pads.old }
    ensures { Extends 15 ty.entry.bytes.now 0 pads.old result pads.new }
{
    walk_extent(ty.bytes, 0, Limit::DEPTH, pads)
}

// ---- the entry

// Of a type, whose record has 4,096 bytes at most.
fn layout_of_type(target: Type) -> Result<Layout, Refusal>
    requires { length target.bytes.now ≤ 4096 }
    ensures { LaidTold target.entry.bytes.now result }
{
    if !has_layout(target) {
        return Err(Refusal::NoLayout);
    }
    let mut pads = [0u8; Limit::TYPE_BYTES];
    let extent = measure(target, &mut pads).ok_or(Refusal::NoRoom)?;
    Ok(Layout {
        size: extent.size,
        align: usize::from(extent.align),
    })
}

// The size and the alignment of the type whose record the target is, so that a caller can lend the right buffer.
// Nothing is assumed of the bytes.
pub fn layout_of(target: &[u8]) -> Result<Layout, Refusal>
    ensures { paper result ≡ layout_answer target.now }
{
    let found = ty::read_target(target).ok_or(Refusal::BadTarget)?;
    match found {
        Target::Type => layout_of_type(Type { bytes: target }),
        Target::Runtime => Err(Refusal::NoLayout),
        _ => Err(Refusal::BadTarget),
    }
}
