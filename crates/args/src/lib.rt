// The arguments of a call: how many they are, and one after another.
#![tactic(auto)]

ghost use Rattle.std.specs.Prelude.{◌≡◌, ◌≤◌, length};
ghost use Rattle.meaning.specs.Trees as trees;
ghost use Rattle.meaning.specs.Records.{val_bytes, ty_bytes};
ghost use Rattle.meaning.specs.Read.{read_vals, read_tys};
ghost use Rattle.ty.specs.Targets.{seen};
ghost use Rattle.args.specs.Counts.{is_qa, is_tight, depth_for, bytes_for, args_of, Rests, Left, ValueArg, TypeArg, Counts};
ghost use Rattle.args.specs.Counts.{Flat, FlatLeft};
ghost use Rattle.args.specs.OneValue.{Singles};
ghost use Rattle.args.specs.Row.{SomeArg, SomeGiven, HeadOf, Skips, Types};
ghost use Rattle.args.specs.Values.{some_given_prop};

use kind::Scalar;
use ty::{Head, Limit, Size, Target};

// The arguments of a call: records of well-formed values in a row, and how many they are.
#[derive(Clone, Copy)]
pub struct Values<'a> {
    pub bytes: &'a [u8],
    pub count: usize,
    pub ghost given: { SomeGiven bytes.now count } by { some_given_prop bytes.now count },
}

// ---- how many

// How many arguments were counted, and where the last of them ends.
#[derive(Clone, Copy)]
struct Counted {
    end: usize,
    count: usize,
}

// The limits on an argument's type: its depth, and the bytes of its record.
#[derive(Clone, Copy)]
struct Bounds {
    depth: u8,
    bytes: usize,
    ghost fit: { (2 ≤ depth) × (7 ≤ bytes) × (bytes ≤ 4096) },
}

// Whether the target is `Qa`, whose limits are tighter.
fn is_tight(found: Target) -> bool
    ensures { result ≡ is_tight found }
{
    matches!(found, Target::Array)
}

// The limits of that target.
#[tactic(auto, using(crate::proofs::Rest::tight_is))]
fn bounds_for(found: Target) -> Bounds
    ensures depth { (g : trees.Target) → found ≡ seen g → result.depth ≡ depth_for (is_qa g) }
    ensures bytes { (g : trees.Target) → found ≡ seen g → result.bytes ≡ bytes_for (is_qa g) }
{
    if is_tight(found) {
        return Bounds {
            depth: Limit::PART_DEPTH,
            bytes: Limit::ELEMENT_BYTES,
        };
    }
    Bounds {
        depth: Limit::DEPTH,
        bytes: Limit::TYPE_BYTES,
    }
}

// The end of the literal that stands at `at`, if one does. Most arguments are literals, and the third byte of one is its
// kind.
fn literal_end(s: &[u8], at: usize) -> Option<usize>
    ensures { Flat s.now at result }
{
    if record::room(s, at) < 3 {
        return None;
    }
    let k = s[at + 2];
    let scalar = Scalar { kind: k };
    if !scalar.is_kind() {
        return None;
    }
    inst::literal_as(s, at, k)
}

// The end of the vector or matrix that stands at `at`. What such a value's type is follows from its first bytes, so its
// record need not be written.
fn other_flat_end(s: &[u8], at: usize) -> Option<usize>
    ensures { Flat s.now at result }
{
    match derive::value_front(s, at, 2)? {
        Head::Vector(n, k) => inst::vector_as(s, at, n, k),
        Head::Matrix(c, r, k) => {
            let size = Size {
                columns: c,
                rows: r,
            };
            inst::matrix_as(s, at, size, k)
        }
        _ => None,
    }
}

// The end of the scalar, vector or matrix that stands at `at`. A literal is looked for first, without asking for the
// front.
fn flat_end(s: &[u8], at: usize) -> Option<usize>
    ensures { Flat s.now at result }
{
    if let Some(e) = literal_end(s, at) {
        return Some(e);
    }
    other_flat_end(s, at)
}

// The scalars, vectors and matrices that s begins with: all of the arguments, as a rule, and then no room for types is
// needed.
fn flat_args(s: &[u8]) -> Counted
    ensures { FlatLeft s.now result.end result.count }
{
    let mut i = 0;
    let mut n: usize = 0;
    while i < s.len() && n < Limit::ARGUMENTS {
        let Some(e) = flat_end(s, i) else {
            break;
        };
        i = e;
        n += 1;
    }
    Counted { end: i, count: n }
}

// Counts the values that s is, each with a type within the bounds, of which some were counted before. The types are
// derived into `ty`.
fn count_values(s: &[u8], before: Counted, ty: &mut [u8], most: Bounds) -> Option<usize>
    requires { (length ty.old ≡ 4096) × Left val_bytes (ValueArg most.depth most.bytes) s.now before.end before.count }
    ensures { Counts (Rests val_bytes (ValueArg most.depth most.bytes) s.now 0) result }
{
    let mut i = before.end;
    let mut n = before.count;
    while i < s.len() {
        if n == Limit::ARGUMENTS {
            return None;
        }
        let (e, q) = derive::derive(s, i, ty, 0, most.depth)?;
        if q > most.bytes {
            return None;
        }
        i = e;
        n += 1;
    }
    Some(n)
}

// Counts the rest of the arguments, with room for their types.
fn other_args(s: &[u8], before: Counted, most: Bounds) -> Option<usize>
    requires { Left val_bytes (ValueArg most.depth most.bytes) s.now before.end before.count }
    ensures { Counts (Rests val_bytes (ValueArg most.depth most.bytes) s.now 0) result }
{
    let mut ty = [0u8; Limit::TYPE_BYTES];
    count_values(s, before, &mut ty, most)
}

// Counts the types that s is. A type's end is taken by `let else`: `?` costs two more instructions for each type here.
fn count_types(s: &[u8], most: Bounds) -> Option<usize>
    ensures { Counts (Rests ty_bytes (TypeArg most.depth most.bytes) s.now 0) result }
{
    let mut i = 0;
    let mut n: usize = 0;
    while i < s.len() {
        if n >= Limit::ARGUMENTS {
            return None;
        }
        let Some(e) = ty::type_end(s, i, most.depth) else {
            return None;
        };
        if e - i > most.bytes {
            return None;
        }
        i = e;
        n += 1;
    }
    Some(n)
}

// How many arguments of a build for that target s is.
pub fn value_args(s: &[u8], found: Target) -> Option<usize>
    ensures { (g : trees.Target) → found ≡ seen g → result ≡ args_of (read_vals g s.now) }
{
    let flat = flat_args(s);
    if flat.end == s.len() {
        return Some(flat.count);
    }
    other_args(s, flat, bounds_for(found))
}

// The same of typing, whose arguments are types.
pub fn type_args(s: &[u8], found: Target) -> Option<usize>
    ensures { (g : trees.Target) → found ≡ seen g → result ≡ args_of (read_tys g s.now) }
{
    count_types(s, bounds_for(found))
}

// ---- one after another

// Where an argument ends, and where the record of its type does.
#[derive(Clone, Copy)]
pub struct Step {
    pub end: usize,
    pub ty: usize,
}

// The front of the type of the argument at i, which its own first bytes say: a vector or a matrix has a first literal,
// whose kind is the kind of all.
pub fn head_of(args: &[u8], i: usize) -> Head
    requires { SomeArg args.now i }
    ensures { HeadOf args.now i result }
{
    let mark = args[i + 1];
    if mark == b's' {
        return Head::Scalar(args[i + 2]);
    }
    if mark == b'v' {
        return Head::Vector(args[i + 2], args[i + 5]);
    }
    if mark == b'm' {
        return Head::Matrix(args[i + 2], args[i + 3], args[i + 9]);
    }
    if mark == b'a' {
        return Head::Array(record::join(args[i + 2], args[i + 3]));
    }
    Head::Struct(
        record::join(args[i + 2], args[i + 3]),
        record::join(args[i + 4], args[i + 5]),
    )
}

// The end of the argument at i; a literal's, which most are, and a vector's without asking what it is.
pub fn next_arg(args: &[u8], i: usize) -> usize
    requires { SomeArg args.now i }
    ensures { Skips args.now i result }
{
    if args[i + 1] == b's' {
        return i + record::literal_len(args[i + 2]);
    }
    if args[i + 1] == b'v' {
        return i + ty::vector_len(args[i + 2], args[i + 5]);
    }
    derive::value_end(args, i, Limit::DEPTH)
}

// The type of the argument at i, whose record is written at the front of `ty`.
pub fn next_type(args: &[u8], i: usize, ty: &mut [u8]) -> Step
    requires some_arg { SomeArg args.now i }
    requires ty_len { length ty.old ≡ 4096 }
    ensures { Types args.now i result.end result.ty ty.new }
{
    match derive::derive(args, i, ty, 0, Limit::DEPTH) {
        Some((e, q)) => Step { end: e, ty: q },
        None => Step { end: i, ty: 0 },
    }
}

// ---- one value alone

// The type of the value that the bytes are, if they are one well-formed value. Its record is written at the front of
// `ty`, and the answer is where it ends.
pub fn one_value(args: &[u8], ty: &mut [u8]) -> Option<usize>
    requires { length ty.old ≡ 4096 }
    ensures { Singles args.now result ty.new }
{
    let (e, q) = derive::derive(args, 0, ty, 0, Limit::DEPTH)?;
    if e != args.len() {
        return None;
    }
    Some(q)
}
