// Values of which nothing is known: the front of one, its type written into a lent buffer, and where one that is known
// to be there ends.
#![tactic(auto)]

ghost use Rattle.std.specs.Prelude.{◌≡◌, ◌≤◌, length};
ghost use Rattle.record.specs.Bytes.{Takes, Put};
ghost use Rattle.inst.specs.Values.{Having, HavingAll, EndsAt, EndsAll};
ghost use Rattle.derive.specs.Derives.{Marked, FrontIs, Tried, type_front, Derives, DerivesAll};

use kind::Scalar;
use record::Writer;
use ty::{Head, Limit, Size};

// ---- the front of a value's record, which is that of its type: a scalar's kind; a vector's length and kind; a
// matrix's columns, rows and kind; an array's count; a struct's identity and member count

// The front of a scalar.
fn scalar_front(s: &[u8], at: usize, depth: u8) -> Option<Head>
    requires { Marked s.now at 115 }
    ensures { FrontIs depth s.now at result }
{
    let k = s[at + 2];
    let scalar = Scalar { kind: k };
    if !scalar.is_kind() {
        return None;
    }
    Some(Head::Scalar(k))
}

// The front of a vector; the kind is that of its first literal.
fn vector_front(s: &[u8], at: usize, depth: u8) -> Option<Head>
    requires { Marked s.now at 118 }
    ensures { FrontIs depth s.now at result }
{
    if depth < 1 {
        return None;
    }
    if record::room(s, at) < 6 {
        return None;
    }
    let n = s[at + 2];
    let k = s[at + 5];
    let scalar = Scalar { kind: k };
    if !ty::is_side(n) {
        return None;
    }
    if !scalar.is_kind() {
        return None;
    }
    Some(Head::Vector(n, k))
}

// The front of a matrix; the kind is that of its first column's first literal.
fn matrix_front(s: &[u8], at: usize, depth: u8) -> Option<Head>
    requires { Marked s.now at 109 }
    ensures { FrontIs depth s.now at result }
{
    if depth < 2 {
        return None;
    }
    if record::room(s, at) < 10 {
        return None;
    }
    let c = s[at + 2];
    let r = s[at + 3];
    let k = s[at + 9];
    let scalar = Scalar { kind: k };
    if !ty::is_side(c) {
        return None;
    }
    if !ty::is_side(r) {
        return None;
    }
    if !scalar.is_float() {
        return None;
    }
    Some(Head::Matrix(c, r, k))
}

// The front of an array.
fn array_front(s: &[u8], at: usize, depth: u8) -> Option<Head>
    requires { Marked s.now at 97 }
    ensures { FrontIs depth s.now at result }
{
    if depth < 1 {
        return None;
    }
    if record::room(s, at) < 4 {
        return None;
    }
    let n = record::join(s[at + 2], s[at + 3]);
    if n < 1 {
        return None;
    }
    Some(Head::Array(n))
}

// The front of a struct.
fn struct_front(s: &[u8], at: usize, depth: u8) -> Option<Head>
    requires { Marked s.now at 117 }
    ensures { FrontIs depth s.now at result }
{
    if depth < 1 {
        return None;
    }
    if record::room(s, at) < 6 {
        return None;
    }
    let i = record::join(s[at + 2], s[at + 3]);
    let n = record::join(s[at + 4], s[at + 5]);
    if !matches!(n, 1..=Limit::MEMBERS) {
        return None;
    }
    Some(Head::Struct(i, n))
}

// The front of the value that stands at `at`, if one does.
pub fn value_front(s: &[u8], at: usize, depth: u8) -> Option<Head>
    ensures { FrontIs depth s.now at result }
{
    if record::room(s, at) < 3 {
        return None;
    }
    if s[at] != b'V' {
        return None;
    }
    let mark = s[at + 1];
    if mark == b's' {
        return scalar_front(s, at, depth);
    }
    if mark == b'v' {
        return vector_front(s, at, depth);
    }
    if mark == b'm' {
        return matrix_front(s, at, depth);
    }
    if mark == b'a' {
        return array_front(s, at, depth);
    }
    if mark == b'u' {
        return struct_front(s, at, depth);
    }
    None
}

// How many bytes a type's record has up to its parts' types, by the front of a value.
fn front_len(f: Head) -> usize
    ensures { result ≡ length (type_front f) }
{
    match f {
        Head::Scalar(_) => 3,
        Head::Vector(_, _) => 6,
        Head::Matrix(_, _, _) => 7,
        Head::Array(_) => 4,
        Head::Struct(_, _) => 6,
    }
}

// Those bytes.
fn write_front(f: Head, w: &mut Writer)
    requires { Takes w.old.out.now w.old.at (type_front f) }
    ensures put { Put w.old.out.now w.old.at (type_front f) w.new.at w.new.out.now }
    ensures same_reference { w.new.out.ghost_name ≡ w.old.out.ghost_name }
{
    match f {
        Head::Scalar(k) => w.put_three(b'T', b's', k),
        Head::Vector(n, k) => {
            w.put_three(b'T', b'v', n);
            w.put_three(b'T', b's', k);
        }
        Head::Matrix(c, r, k) => {
            w.put_four(b'T', b'm', c, r);
            w.put_three(b'T', b's', k);
        }
        Head::Array(n) => w.put_four(b'T', b'a', record::low(n), record::high(n)),
        Head::Struct(i, n) => {
            w.put_three(b'T', b'u', record::low(i));
            w.put_three(record::high(i), record::low(n), record::high(n));
        }
    }
}

// The same, if there is room for them, and the place behind them.
fn put_type_front(out: &mut [u8], to: usize, f: Head) -> Option<usize>
    ensures { Tried out.old to (type_front f) result out.new }
{
    if record::room(out, to) < front_len(f) {
        return None;
    }
    let mut w = Writer { out, at: to };
    write_front(f, &mut w);
    Some(w.at)
}

// Derives the types of n values, one after another.
#[cycle(derive_derive_members)]
fn derive_members(
    s: &[u8],
    at: usize,
    n: u16,
    ty: &mut [u8],
    o: usize,
    depth: u8,
) -> Option<(usize, usize)>
    requires { (at ≤ length s.now) × (o ≤ length ty.old) }
    ensures { DerivesAll depth s.now at n ty.old o result ty.new }
{
    let mut i = at;
    let mut p = o;
    for _ in 0..n {
        (i, p) = derive(s, i, ty, p, depth)?;
    }
    Some((i, p))
}

// Derives the type of the value at `at`, and writes its record at `o`. "Each part may be a value again": the reader of
// one value calls the reader of a list of parts, which calls back; bytes left and depth fall. The first element of an
// array says its type, and the others are held to it.
#[cycle(derive_derive_members)]
pub fn derive(s: &[u8], at: usize, ty: &mut [u8], o: usize, depth: u8) -> Option<(usize, usize)>
    ensures { Derives depth s.now at ty.old o result ty.new }
{
    let front = value_front(s, at, depth)?;
    let p = put_type_front(ty, o, front)?;
    match front {
        Head::Array(n) => {
            let (e, q) = derive(s, at + 4, ty, p, depth - 1)?;
            let (z, _) = inst::elements_as(s, e, n - 1, ty, p, depth - 1)?;
            Some((z, q))
        }
        Head::Struct(_, n) => derive_members(s, at + 6, n, ty, p, depth - 1),
        _ => inst::value_as(s, at, ty, o, depth),
    }
}

// Where n values that are known to stand at `at`, one after another, end.
#[cycle(members_skip_value_end)]
fn members_skip(s: &[u8], at: usize, n: u16, depth: u8) -> usize
    requires { HavingAll depth s.now at n }
    ensures { EndsAll depth s.now at n result }
{
    let mut i = at;
    for _ in 0..n {
        i = value_end(s, i, depth);
    }
    i
}

// Where a value that is known to stand at `at` ends. Its length follows from its type, so the front says it, and of an
// array the first element.
#[cycle(members_skip_value_end)]
pub fn value_end(s: &[u8], at: usize, depth: u8) -> usize
    requires { Having depth s.now at }
    ensures { EndsAt depth s.now at result }
{
    let Some(front) = value_front(s, at, depth) else {
        return at;
    };
    match front {
        Head::Scalar(k) => at + record::literal_len(k),
        Head::Vector(n, k) => at + ty::vector_len(n, k),
        Head::Matrix(c, r, k) => {
            let size = Size {
                columns: c,
                rows: r,
            };
            at + ty::matrix_len(size, k)
        }
        Head::Array(n) => {
            let e = value_end(s, at + 4, depth - 1);
            at + 4 + usize::from(n) * (e - (at + 4))
        }
        Head::Struct(_, n) => members_skip(s, at + 6, n, depth - 1),
    }
}
