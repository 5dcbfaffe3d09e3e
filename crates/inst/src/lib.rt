// Value records, read by a type: the source's inst.rs on bytes in a lent slice.
#![tactic(auto)]

ghost use Rattle.std.specs.Prelude.{◌≡◌, [], ◌∷◌, ◌≤◌, ◌+◌, ◌/◌, ◌%◌, T, length};
ghost use Rattle.meaning.specs.Kinds.{Kind};
ghost use Rattle.meaning.specs.Trees.{Ts};
ghost use Rattle.kind.specs.Ends.{numbered};
ghost use Rattle.record.specs.Bytes.{Decides, Starts, Width};
ghost use Rattle.ty.specs.Stands.{Standing, StandingAll};
ghost use Rattle.ty.specs.TypeFronts.{kind_number};
ghost use Rattle.inst.specs.Values.{Fits};
ghost use Rattle.inst.specs.Reading.{most, KindIs, Literals, LiteralAt, VectorAt, Columns, MatrixAt, ReadAs, ReadEach};
ghost use Rattle.inst.specs.Reading.{ReadAll};

use ty::{Head, Size};

// The greatest payload of a kind: "unused high bytes are zero; Bool is 0 or 1". A payload's range is said here only.
#[tactic(auto, unfolding(kind::specs::Ends::of_kind, meaning::specs::Kinds::kind_of, meaning::specs::Kinds::payloads, crate::specs::Reading::most))]
fn top(k: u8) -> u64
    ensures { result ≡ numbered most k }
{
    match k {
        kind::Scalar::BOOL => 1,
        kind::Scalar::ABSTRACT_INT => 0xffff_ffff_ffff_ffff,
        kind::Scalar::ABSTRACT_FLOAT => 0xffff_ffff_ffff_ffff,
        kind::Scalar::I32 => 0xffff_ffff,
        kind::Scalar::U32 => 0xffff_ffff,
        kind::Scalar::F32 => 0xffff_ffff,
        kind::Scalar::F16 => 0xffff,
        _ => 0,
    }
}

// Whether a literal of the kind k stands at `at`, its payload w bytes wide and at most `limit`. The two are parameters
// so that a loop over literals looks them up once.
fn is_literal(s: &[u8], at: usize, k: u8, w: usize, limit: u64) -> bool
    requires { Width w }
    ensures { (j : Kind) → KindIs j k w limit → Decides (Fits s.now at (Ts j) (at + (3 + w))) result }
{
    record::room(s, at) >= 3 + w
        && s[at] == b'V'
        && s[at + 1] == b's'
        && s[at + 2] == k
        && record::number(s, at + 3, w) <= limit
}

// The end of the literal of the kind k that stands at `at`.
pub fn literal_as(s: &[u8], at: usize, k: u8) -> Option<usize>
    requires { T (kind_number k) }
    ensures { LiteralAt s.now at k result }
{
    let w = record::width(k);
    if is_literal(s, at, k, w, top(k)) {
        return Some(at + (3 + w));
    }
    None
}

// The end of n literals of the kind k: a vector's, and an array's where it has scalars.
fn literals(s: &[u8], at: usize, n: u16, k: u8) -> Option<usize>
    requires { T (kind_number k) × (at ≤ length s.now) }
    ensures { Literals s.now at n k result }
{
    let w = record::width(k);
    let limit = top(k);
    let mut i = at;
    for _ in 0..n {
        if !is_literal(s, i, k, w, limit) {
            return None;
        }
        i += 3 + w;
    }
    Some(i)
}

// Whether a vector of n begins at `at`.
fn vector_starts(s: &[u8], at: usize, n: u8) -> bool
    ensures { Decides (Starts s.now at (86 ∷ 118 ∷ n ∷ [])) result }
{
    record::two_at(s, at, b'V', b'v') && s.len() >= at + 3 && s[at + 2] == n
}

// Whether a value with that mark begins at `at`, the bytes a and b behind the mark.
fn four_at(s: &[u8], at: usize, mark: u8, a: u8, b: u8) -> bool
    ensures { Decides (Starts s.now at (86 ∷ mark ∷ a ∷ b ∷ [])) result }
{
    record::two_at(s, at, b'V', mark) && record::two_at(s, at + 2, a, b)
}

// Whether a struct of that identity and that member count begins at `at`.
fn struct_starts(s: &[u8], at: usize, i: u16, n: u16) -> bool
    ensures { Decides (Starts s.now at (86 ∷ 117 ∷ i % 256 ∷ i / 256 % 256 ∷ n % 256 ∷ n / 256 % 256 ∷ [])) result }
{
    four_at(s, at, b'u', record::low(i), record::high(i))
        && record::two_at(s, at + 4, record::low(n), record::high(n))
}

// The end of the vector of n literals of the kind k that stands at `at`.
pub fn vector_as(s: &[u8], at: usize, n: u8, k: u8) -> Option<usize>
    requires { T (kind_number k) }
    ensures { VectorAt s.now at n k result }
{
    if !vector_starts(s, at, n) {
        return None;
    }
    literals(s, at + 3, u16::from(n), k)
}

// The end of n vectors of r literals of the kind k: a matrix's columns, and an array's elements where they are vectors.
fn columns(s: &[u8], at: usize, n: u16, r: u8, k: u8) -> Option<usize>
    requires { T (kind_number k) × (at ≤ length s.now) }
    ensures { Columns s.now at n r k result }
{
    let mut i = at;
    for _ in 0..n {
        i = vector_as(s, i, r, k)?;
    }
    Some(i)
}

// The end of the matrix that stands at `at`.
pub fn matrix_as(s: &[u8], at: usize, size: Size, k: u8) -> Option<usize>
    requires { T (kind_number k) }
    ensures { MatrixAt s.now at size.columns size.rows k result }
{
    if !four_at(s, at, b'm', size.columns, size.rows) {
        return None;
    }
    columns(s, at + 4, u16::from(size.columns), size.rows, k)
}

// The end of n values of the type that stands at `o`.
#[cycle(each_as_elements_as_member_as_members_as_value_as)]
fn each_as(s: &[u8], at: usize, n: u16, ty: &[u8], o: usize, depth: u8) -> Option<(usize, usize)>
    requires { Standing depth ty.now o × (at ≤ length s.now) }
    ensures { ReadEach depth ty.now o s.now at n result }
{
    let mut i = at;
    let mut q = o;
    for _ in 0..n {
        (i, q) = value_as(s, i, ty, o, depth)?;
    }
    Some((i, q))
}

// The same; where the type is a scalar's or a vector's, which it is in a long array as a rule, without asking for it
// again at each element.
#[cycle(each_as_elements_as_member_as_members_as_value_as)]
pub fn elements_as(
    s: &[u8],
    at: usize,
    n: u16,
    ty: &[u8],
    o: usize,
    depth: u8,
) -> Option<(usize, usize)>
    requires { Standing depth ty.now o × (at ≤ length s.now) }
    ensures { ReadEach depth ty.now o s.now at n result }
{
    match ty::head_at(ty, o, depth) {
        Head::Scalar(k) => Some((literals(s, at, n, k)?, o + 3)),
        Head::Vector(r, k) => Some((columns(s, at, n, r, k)?, o + 6)),
        _ => each_as(s, at, n, ty, o, depth),
    }
}

// The end of n values of the n types that stand at `o`, one after another.
#[cycle(each_as_elements_as_member_as_members_as_value_as)]
fn members_as(s: &[u8], at: usize, n: u16, ty: &[u8], o: usize, depth: u8) -> Option<(usize, usize)>
    requires { StandingAll depth ty.now o n × (at ≤ length s.now) }
    ensures { ReadAll depth ty.now o s.now at n result }
{
    let mut i = at;
    let mut q = o;
    for _ in 0..n {
        (i, q) = member_as(s, i, ty, q, depth)?;
    }
    Some((i, q))
}

// The end of the value at `at`, if it is one of the type that stands at `o`, and the end of the type.
#[cycle(each_as_elements_as_member_as_members_as_value_as)]
pub fn value_as(s: &[u8], at: usize, ty: &[u8], o: usize, depth: u8) -> Option<(usize, usize)>
    requires { Standing depth ty.now o }
    ensures { ReadAs depth ty.now o s.now at result }
{
    // taken anew: their two words are read one by one, not copied at once (docs/DECISIONS.md, 66)
    let u = &s[..];
    let t = &ty[..];
    match ty::head_at(t, o, depth) {
        Head::Scalar(k) => Some((literal_as(u, at, k)?, o + 3)),
        Head::Vector(n, k) => Some((vector_as(u, at, n, k)?, o + 6)),
        Head::Matrix(c, r, k) => {
            let size = Size {
                columns: c,
                rows: r,
            };
            Some((matrix_as(u, at, size, k)?, o + 7))
        }
        Head::Array(n) => {
            if !four_at(u, at, b'a', record::low(n), record::high(n)) {
                return None;
            }
            elements_as(u, at + 4, n, t, o + 4, depth - 1)
        }
        Head::Struct(i, n) => {
            if !struct_starts(u, at, i, n) {
                return None;
            }
            members_as(u, at + 6, n, t, o + 6, depth - 1)
        }
    }
}

// A member: the same, without the walk where it is a scalar or a vector.
#[cycle(each_as_elements_as_member_as_members_as_value_as)]
fn member_as(s: &[u8], at: usize, ty: &[u8], o: usize, depth: u8) -> Option<(usize, usize)>
    requires { Standing depth ty.now o }
    ensures { ReadAs depth ty.now o s.now at result }
{
    match ty::head_at(ty, o, depth) {
        Head::Scalar(k) => Some((literal_as(s, at, k)?, o + 3)),
        Head::Vector(n, k) => Some((vector_as(s, at, n, k)?, o + 6)),
        _ => value_as(s, at, ty, o, depth),
    }
}
