// Type records and targets: the source's ty.rs and tplt.rs on bytes in a lent slice.
#![tactic(auto)]

ghost use Rattle.std.specs.Prelude.{◌≡◌, ℕ, ◌≤◌, ◌+◌, ◌-◌, ◌*◌, length};
ghost use Rattle.meaning.specs.Trees.{Tv, Tm, val_len};
ghost use Rattle.meaning.specs.Records.{side};
ghost use Rattle.meaning.specs.Read.{read_target};
ghost use Rattle.record.specs.Bytes.{Decides};
ghost use Rattle.record.specs.Literals.{Sized, most_lit};
ghost use Rattle.ty.specs.Stands.{Ends, EndAll, Standing, StandingAll, OneType};
ghost use Rattle.ty.specs.OneTypes.{one_type_prop};
ghost use Rattle.ty.specs.TypeFronts.{Told, ScalarAt, VectorAt, MatrixAt, ArrayAt, StructAt, Fronted};
ghost use Rattle.ty.specs.Heads.{HeadAt, len_of, Measured, MeasuredAll, LeafAt};
ghost use Rattle.ty.specs.Targets.{ArrayShape, VectorShape, MatrixShape, RuntimeTarget, TypeTarget, target_of};

use kind::Scalar;

// The limits of document 01 on types and arguments, each with its words. They are written once, here.
#[derive(Clone, Copy)]
pub struct Limit;

impl Limit {
    // "Depth 15 passes, 16 is malformed."
    pub const DEPTH: u8 = 15;

    // The depth of what is in a type of that depth: of a member, of the element of an array and of `Tr`; for `Qa` "each
    // argument's type has depth at most 14".
    pub const PART_DEPTH: u8 = 14;

    // "Length is at most 4,096 bytes."
    pub const TYPE_BYTES: usize = 4096;

    // `Tr`: "at most 4,094 bytes, since building makes a `Ta` of it".
    pub const RUNTIME_BYTES: usize = 4094;

    // For `Qa` each argument's type has "at most 4,092 bytes".
    pub const ELEMENT_BYTES: usize = 4092;

    // A struct has 1 to 1,023 members.
    pub const MEMBERS: u16 = 1023;

    // "At most 65,535" arguments.
    pub const ARGUMENTS: usize = 65535;
}

// The front of a type's record: where it ends if it has no parts, else what its parts are.
#[derive(Clone, Copy)]
enum Front {
    Whole(usize),
    Array,
    Struct(u16),
}

// What the bytes of a target are. A type's record is read again where its parts are wanted.
#[derive(Clone, Copy)]
pub enum Target {
    Type,
    Runtime,
    Array,
    Vector(u8),
    Matrix(u8, u8),
}

// The front of a well-formed type's record: `Ts` kind; `Tv` n and a kind; `Tm` c r and a kind; `Ta` count; `Tu`
// identity and member count.
#[derive(Clone, Copy)]
pub enum Head {
    Scalar(u8),
    Vector(u8, u8),
    Matrix(u8, u8, u8),
    Array(u16),
    Struct(u16, u16),
}

// The columns and the rows of a matrix.
#[derive(Clone, Copy, PartialEq, Eq)]
pub struct Size {
    pub columns: u8,
    pub rows: u8,
}

impl Size {
    // The number of scalars in such a matrix.
    pub fn scalars(self) -> usize
        ensures { result ≡ self.columns * self.rows }
    {
        usize::from(self.columns) * usize::from(self.rows)
    }
}

// The whole record of one well-formed type.
#[derive(Clone, Copy)]
pub struct Type<'a> {
    pub bytes: &'a [u8],
    pub ghost one: { OneType bytes.now } by { one_type_prop bytes.now },
}

// Whether the number can be a vector's length, a matrix's columns or its rows.
#[tactic(auto, using(std::proofs::lemmas::Bool::Decides::nat_tests), unfolding(meaning::specs::Records::side))]
pub fn is_side(n: u8) -> bool
    ensures { result ≡ side n }
{
    matches!(n, 2..=4)
}

// Whether `Ts` and a kind stand at `at`.
fn is_scalar(s: &[u8], at: usize) -> bool
    ensures { Decides (ScalarAt s.now at) result }
{
    record::room(s, at) >= 3
        && s[at] == b'T'
        && s[at + 1] == b's'
        && Scalar { kind: s[at + 2] }.is_kind()
}

// Whether `Tv` n and a scalar's record stand at `at`.
fn is_vector(s: &[u8], at: usize, depth: u8) -> bool
    ensures { Decides (VectorAt depth s.now at) result }
{
    depth >= 1
        && record::room(s, at) >= 6
        && s[at] == b'T'
        && s[at + 1] == b'v'
        && is_side(s[at + 2])
        && is_scalar(s, at + 3)
}

// Whether `Tm` c r and the record of a float kind stand at `at`.
fn is_matrix(s: &[u8], at: usize, depth: u8) -> bool
    ensures { Decides (MatrixAt depth s.now at) result }
{
    depth >= 2
        && record::room(s, at) >= 7
        && s[at] == b'T'
        && s[at + 1] == b'm'
        && is_side(s[at + 2])
        && is_side(s[at + 3])
        && Scalar { kind: s[at + 6] }.is_float()
        && is_scalar(s, at + 4)
}

// Whether `Ta` and a count of at least 1 stand at `at`.
fn is_array(s: &[u8], at: usize, depth: u8) -> bool
    ensures { Decides (ArrayAt depth s.now at) result }
{
    depth >= 1
        && record::room(s, at) >= 4
        && s[at] == b'T'
        && s[at + 1] == b'a'
        && record::join(s[at + 2], s[at + 3]) >= 1
}

// Whether `Tu`, an identity and a member count of 1 to 1,023 stand at `at`.
fn is_struct(s: &[u8], at: usize, depth: u8) -> bool
    ensures { Decides (StructAt depth s.now at) result }
{
    depth >= 1
        && record::room(s, at) >= 6
        && s[at] == b'T'
        && s[at + 1] == b'u'
        && matches!(record::join(s[at + 4], s[at + 5]), 1..=Limit::MEMBERS)
}

// The front of what stands at `at`. Each test knows its own mark; scalars come first, being the most.
fn front_at(s: &[u8], at: usize, depth: u8) -> Option<Front>
    ensures { Fronted depth s.now at result }
{
    if is_scalar(s, at) {
        return Some(Front::Whole(at + 3));
    }
    if is_vector(s, at, depth) {
        return Some(Front::Whole(at + 6));
    }
    if is_matrix(s, at, depth) {
        return Some(Front::Whole(at + 7));
    }
    if is_array(s, at, depth) {
        return Some(Front::Array);
    }
    if is_struct(s, at, depth) {
        return Some(Front::Struct(record::join(s[at + 4], s[at + 5])));
    }
    None
}

// The end of n types' records that begin at `at`.
#[cycle(members_end_walk_end)]
fn members_end(s: &[u8], at: usize, n: u16, depth: u8) -> Option<usize>
    requires { at ≤ length s.now }
    ensures { Told (EndAll depth s.now at n) result }
{
    let mut i = at;
    for _ in 0..n {
        i = walk_end(s, i, depth)?;
    }
    Some(i)
}

// The end of the record of a type of that depth at most, "each walk one level shallower than its parent": the allowed
// depth is the number that falls, so the walk goes no deeper than it says, whatever the bytes are.
#[cycle(members_end_walk_end)]
fn walk_end(s: &[u8], at: usize, depth: u8) -> Option<usize>
    ensures { Told (Ends depth s.now at) result }
{
    // taken anew: its two words are read one by one, not copied at once (docs/DECISIONS.md, 66)
    let t = &s[..];
    match front_at(t, at, depth)? {
        Front::Whole(e) => Some(e),
        Front::Array => walk_end(t, at + 4, depth - 1),
        Front::Struct(n) => members_end(t, at + 6, n, depth - 1),
    }
}

// The same, without the walk where a scalar stands: most types are scalars, and a look where the bytes are is much
// cheaper than a call.
pub fn type_end(s: &[u8], at: usize, depth: u8) -> Option<usize>
    ensures { Told (Ends depth s.now at) result }
{
    if is_scalar(s, at) {
        return Some(at + 3);
    }
    walk_end(s, at, depth)
}

// Whether all of s from `at` on is the record of one type of that depth at most.
fn is_whole(s: &[u8], at: usize, depth: u8) -> bool
    ensures { Decides (Ends depth s.now at (length s.now)) result }
{
    type_end(s, at, depth) == Some(s.len())
}

// Whether s is `Qa`.
fn is_array_shape(s: &[u8]) -> bool
    ensures { Decides (ArrayShape s.now) result }
{
    matches!(s, [b'Q', b'a'])
}

// Whether s is `Qv` n.
fn is_vector_shape(s: &[u8]) -> bool
    ensures { Decides (VectorShape s.now) result }
{
    match s {
        [b'Q', b'v', n] => is_side(*n),
        _ => false,
    }
}

// Whether s is `Qm` c r.
fn is_matrix_shape(s: &[u8]) -> bool
    ensures { Decides (MatrixShape s.now) result }
{
    match s {
        [b'Q', b'm', c, r] => is_side(*c) && is_side(*r),
        _ => false,
    }
}

// Whether s is `Tr` and an element type. Building makes a `Ta` of it, which is longer and one level deeper.
fn is_runtime(s: &[u8]) -> bool
    ensures { Decides (RuntimeTarget s.now) result }
{
    s.len() <= Limit::RUNTIME_BYTES
        && matches!(s, [b'T', b'r', ..])
        && is_whole(s, 2, Limit::PART_DEPTH)
}

// Whether s is one type's record within the limits.
pub fn is_type(s: &[u8]) -> bool
    ensures { Decides (TypeTarget s.now) result }
{
    s.len() <= Limit::TYPE_BYTES && is_whole(s, 0, Limit::DEPTH)
}

// What the bytes of a target are, if they are one's: nothing is assumed of them.
pub fn read_target(s: &[u8]) -> Option<Target>
    ensures { result ≡ target_of (read_target s.now) }
{
    if is_array_shape(s) {
        return Some(Target::Array);
    }
    if is_vector_shape(s) {
        return Some(Target::Vector(s[2]));
    }
    if is_matrix_shape(s) {
        return Some(Target::Matrix(s[2], s[3]));
    }
    if is_runtime(s) {
        return Some(Target::Runtime);
    }
    if is_type(s) {
        return Some(Target::Type);
    }
    None
}

// The front of the record that stands at `at`. Only the second letter of the mark is looked at, since a well-formed
// record is known to stand there.
pub fn head_at(ty: &[u8], at: usize, depth: u8) -> Head
    requires { Standing depth ty.now at }
    ensures { HeadAt depth ty.now at result }
{
    let mark = ty[at + 1];
    if mark == b's' {
        return Head::Scalar(ty[at + 2]);
    }
    if mark == b'v' {
        return Head::Vector(ty[at + 2], ty[at + 5]);
    }
    if mark == b'm' {
        return Head::Matrix(ty[at + 2], ty[at + 3], ty[at + 6]);
    }
    if mark == b'a' {
        return Head::Array(record::join(ty[at + 2], ty[at + 3]));
    }
    Head::Struct(
        record::join(ty[at + 2], ty[at + 3]),
        record::join(ty[at + 4], ty[at + 5]),
    )
}

// The length of a vector's record.
pub fn vector_len(n: u8, kind: u8) -> usize
    ensures { Sized kind (λ k. val_len (Tv n k)) (3 + 255 * most_lit) result }
{
    3 + usize::from(n) * record::literal_len(kind)
}

// The length of a matrix's record: its columns are vectors.
pub fn matrix_len(size: Size, kind: u8) -> usize
    ensures { Sized kind (λ k. val_len (Tm size.columns size.rows k)) (4 + 255 * (3 + 255 * most_lit)) result }
{
    4 + usize::from(size.columns) * vector_len(size.rows, kind)
}

// The length of an array of n elements of that length, behind 4 bytes of mark and count.
fn array_len(n: u16, l: Option<(usize, usize)>) -> Option<(usize, usize)>
    requires { 1 ≤ n }
    ensures { (e m : ℕ) → l ≡ len_of e m → result ≡ len_of e (4 + n * m) }
{
    let (e, m) = l?;
    let elements = usize::from(n).checked_mul(m)?;
    Some((e, elements.checked_add(4)?))
}

// The length of a struct whose n members' types stand at `at`: 6 bytes, and then the members.
#[cycle(members_len_walk_len)]
fn members_len(ty: &[u8], at: usize, n: u16, depth: u8) -> Option<(usize, usize)>
    requires { StandingAll depth ty.now at n }
    ensures { MeasuredAll depth ty.now at n result }
{
    let mut i = at;
    let mut sum: usize = 6;
    for _ in 0..n {
        let (e, m) = walk_len(ty, i, depth)?;
        i = e;
        sum = sum.checked_add(m)?;
    }
    Some((i, sum))
}

// The length of the value of the type whose record stands at `at`.
#[cycle(members_len_walk_len)]
fn walk_len(ty: &[u8], at: usize, depth: u8) -> Option<(usize, usize)>
    requires { Standing depth ty.now at }
    ensures { Measured depth ty.now at result }
{
    // taken anew: its two words are read one by one, not copied at once (docs/DECISIONS.md, 66)
    let t = &ty[..];
    match head_at(t, at, depth) {
        Head::Scalar(k) => Some((at + 3, record::literal_len(k))),
        Head::Vector(n, k) => Some((at + 6, vector_len(n, k))),
        Head::Matrix(c, r, k) => {
            let size = Size {
                columns: c,
                rows: r,
            };
            Some((at + 7, matrix_len(size, k)))
        }
        Head::Array(n) => array_len(n, walk_len(t, at + 4, depth - 1)),
        Head::Struct(_, n) => members_len(t, at + 6, n, depth - 1),
    }
}

// The same, without the walk where it is a scalar.
pub fn value_len(ty: &[u8], at: usize, depth: u8) -> Option<(usize, usize)>
    requires { Standing depth ty.now at }
    ensures { Measured depth ty.now at result }
{
    if ty[at + 1] == b's' {
        return Some((at + 3, record::literal_len(ty[at + 2])));
    }
    walk_len(ty, at, depth)
}

// The scalar kind at the bottom of the type that stands at `at`.
fn walk_leaf(ty: &[u8], at: usize, depth: u8) -> Option<u8>
    requires { Standing depth ty.now at }
    ensures { LeafAt depth ty.now at result }
{
    // taken anew: its two words are read one by one, not copied at once (docs/DECISIONS.md, 66)
    let t = &ty[..];
    match head_at(t, at, depth) {
        Head::Scalar(k) => Some(k),
        Head::Vector(_, k) => Some(k),
        Head::Matrix(_, _, k) => Some(k),
        Head::Array(_) => walk_leaf(t, at + 4, depth - 1),
        Head::Struct(_, _) => None,
    }
}

// The same, without the walk where it is a scalar.
pub fn leaf_at(ty: &[u8], at: usize, depth: u8) -> Option<u8>
    requires { Standing depth ty.now at }
    ensures { LeafAt depth ty.now at result }
{
    if ty[at + 1] == b's' {
        return Some(ty[at + 2]);
    }
    walk_leaf(ty, at, depth)
}
