// Vectors: the source's `vec` (ctor.rs) on records in lent slices. All is decided and measured before a byte is
// written.
#![tactic(auto)]

ghost use Rattle.std.specs.Prelude.{◌≡◌, ◌+◌, ◌≤◌, T, get_or};
ghost use Rattle.meaning.specs.Records.{‘s’, ‘v’, side};
ghost use Rattle.args.specs.Row.{SomeRow, SomeArg};
ghost use Rattle.vector.specs.VectorRules.{Repeats, QvOne, Splats, VecOne, PartCount, IsFlat, FirstLit, FlatCount, AllFlat};
ghost use Rattle.vector.specs.VectorRules.{SomeRoom, PartsPut, SomeVector, VectorPut, VecParts, SomeCommon, ToCommon, QvParts};

use error::Refusal;
use kind::Scalar;
use literal::Rules;
use record::Writer;
use scalar::{Kind, Value};
use ty::{Limit, Type};

// ---- writing

// The vector of n literals of one kind and one payload, if there is room for it: "22 the accepted record is longer than
// the lent buffer".
fn repeated(n: u8, kind: Kind, bits: u64, out: &mut [u8]) -> Result<usize, Refusal>
    ensures { Repeats n kind.number bits out.old result out.new }
{
    let k = kind.number;
    if ty::vector_len(n, k) > out.len() {
        return Err(Refusal::NoRoom);
    }
    let mut w = Writer { out, at: 0 };
    w.put_three(b'V', b'v', n);
    w.put_literals(n, k, bits);
    Ok(w.at)
}

// ---- one argument

// One argument to an untemplated vector: "one literal repeated; one vector of n kept (7)". Anything else is one part,
// and a vector has at least two.
pub fn qv_one(n: u8, arg: Value, out: &mut [u8]) -> Result<usize, Refusal>
    requires { T (side n) }
    ensures { QvOne n arg.entry.bytes.now out.old result out.new }
{
    let mark = arg.bytes[1];
    if mark == b's' {
        let literal = conv::literal_at(arg.bytes, 0);
        let kind = Kind {
            number: literal.kind,
        };
        return repeated(n, kind, literal.bits, out);
    }
    if mark == b'v' {
        if arg.bytes[2] != n {
            return Err(Refusal::Mismatch);
        }
        return error::hand(arg.bytes, out);
    }
    Err(Refusal::Count {
        wanted: n as usize,
        given: 1,
    })
}

// One literal to a vector type: "one literal converts and is repeated (9)".
fn splat(n: u8, kind: Kind, arg: Value, out: &mut [u8]) -> Result<usize, Refusal>
    requires { get_or arg.bytes.now 1 0 ≡ ‘s’ }
    ensures { Splats n kind.number arg.entry.bytes.now out.old result out.new }
{
    let literal = conv::literal_at(arg.bytes, 0);
    let bits = literal
        .convert_to(kind.number)
        .ok_or(Refusal::NoConversion)?;
    repeated(n, kind, bits, out)
}

// One vector to a vector type: "needs equal n (7), then the scalar constructor on each component"; an abstract vector
// type has none (12).
fn rebuilt(rules: Rules, n: u8, kind: Kind, arg: Value, out: &mut [u8]) -> Result<usize, Refusal>
    requires { get_or arg.bytes.now 1 0 ≡ ‘v’ }
    ensures { VecOne rules n kind.number arg.entry.bytes.now out.old result out.new }
{
    if arg.bytes[2] != n {
        return Err(Refusal::Mismatch);
    }
    let k = kind.number;
    let scalar = Scalar { kind: k };
    if scalar.is_abstract() {
        return Err(Refusal::VectorPart);
    }
    scalar::all_made(rules, arg.bytes, k)?;
    if ty::vector_len(n, k) > out.len() {
        return Err(Refusal::NoRoom);
    }
    let mut w = Writer { out, at: 0 };
    scalar::write_made(rules, arg.bytes, k, &mut w);
    Ok(w.at)
}

// One argument to a vector type. Anything but a literal or a vector is one part, and a vector has at least two.
pub fn vec_one(
    rules: Rules,
    n: u8,
    kind: Kind,
    arg: Value,
    out: &mut [u8],
) -> Result<usize, Refusal>
    requires { T (side n) }
    ensures { VecOne rules n kind.number arg.entry.bytes.now out.old result out.new }
{
    let mark = arg.bytes[1];
    if mark == b's' {
        return splat(n, kind, arg, out);
    }
    if mark == b'v' {
        return rebuilt(rules, n, kind, arg, out);
    }
    Err(Refusal::Count {
        wanted: n as usize,
        given: 1,
    })
}

// ---- several arguments

// How many parts the argument at i is: "vectors are flattened", anything else is one.
fn part_count(args: &[u8], i: usize) -> usize
    requires { SomeArg args.now i }
    ensures { PartCount args.now i result }
{
    if args[i + 1] == b'v' {
        return args[i + 2] as usize;
    }
    1
}

// Whether it is a literal or a vector.
fn is_flat(args: &[u8], i: usize) -> bool
    requires { SomeArg args.now i }
    ensures { IsFlat args.now i result }
{
    let mark = args[i + 1];
    if mark == b's' {
        return true;
    }
    if mark == b'v' {
        return true;
    }
    false
}

// Where its first literal begins: a vector's is behind its mark and count.
fn first_literal(args: &[u8], i: usize) -> usize
    requires { SomeArg args.now i }
    ensures { FirstLit args.now i result }
{
    if args[i + 1] == b'v' {
        return i + 3;
    }
    i
}

// How many parts the arguments are, flattened.
fn flat_count(args: &[u8]) -> usize
    requires { SomeRow args.now 0 }
    ensures { FlatCount args.now result }
{
    let mut i = 0;
    let mut m: usize = 0;
    while i < args.len() {
        m += part_count(args, i);
        i = args::next_arg(args, i);
    }
    m
}

// Whether each of them is a literal or a vector.
fn all_flat(args: &[u8]) -> bool
    requires { SomeRow args.now 0 }
    ensures { AllFlat args.now result }
{
    let mut i = 0;
    while i < args.len() {
        if !is_flat(args, i) {
            return false;
        }
        i = args::next_arg(args, i);
    }
    true
}

// The literals of the arguments, converted to the kind k.
fn put_parts(k: u8, args: &[u8], w: &mut Writer)
    requires { SomeRoom k args.now w.old.out.now w.old.at }
    ensures put { PartsPut k args.now w.old.out.now w.old.at w.new.at w.new.out.now }
    ensures same_reference { w.new.out.ghost_name ≡ w.old.out.ghost_name }
{
    let mut i = 0;
    while i < args.len() {
        let from = first_literal(args, i);
        let end = args::next_arg(args, i);
        conv::convert_items(&args[from..end], k, w);
        i = end;
    }
}

// The vector of those literals, if there is room for it.
fn write_parts(n: u8, k: u8, args: &[u8], out: &mut [u8]) -> Result<usize, Refusal>
    requires { SomeVector n k args.now }
    ensures { VectorPut n k args.now out.old result out.new }
{
    if ty::vector_len(n, k) > out.len() {
        return Err(Refusal::NoRoom);
    }
    let mut w = Writer { out, at: 0 };
    w.put_three(b'V', b'v', n);
    put_parts(k, args, &mut w);
    Ok(w.at)
}

// Arguments to a vector type: "vectors are flattened, count (8), then conversion (9)".
pub fn vec_parts(n: u8, kind: Kind, args: &[u8], out: &mut [u8]) -> Result<usize, Refusal>
    requires sides { T (side n) }
    requires some_row { SomeRow args.now 0 }
    ensures { VecParts n kind.number args.now out.old result out.new }
{
    let k = kind.number;
    let m = flat_count(args);
    let wanted = n as usize;
    if m != wanted {
        return Err(Refusal::Count { wanted, given: m });
    }
    if !all_flat(args) {
        return Err(Refusal::NoConversion);
    }
    if !conv::fits(args, k) {
        return Err(Refusal::NoConversion);
    }
    write_parts(n, k, args, out)
}

// The parts of the arguments to their common type: a literal that does not fit it is 10, then "scalars only (12)".
fn to_common(n: u8, args: &[u8], ty: Type, out: &mut [u8]) -> Result<usize, Refusal>
    requires { SomeCommon n args.now ty.bytes.now }
    ensures { ToCommon n args.now ty.entry.bytes.now out.old result out.new }
{
    if ty.bytes[1] == b's' {
        let k = ty.bytes[2];
        if !conv::fits(args, k) {
            return Err(Refusal::NoCommonType);
        }
        return write_parts(n, k, args, out);
    }
    if !convert_all::all_fit(args, 0, ty.bytes, 0, Limit::DEPTH) {
        return Err(Refusal::NoCommonType);
    }
    Err(Refusal::VectorPart)
}

// Arguments to an untemplated vector: "flattened count (8), common type (10), scalars only (12)".
pub fn qv_parts(n: u8, args: &[u8], out: &mut [u8]) -> Result<usize, Refusal>
    requires sides { T (side n) }
    requires some_row { SomeRow args.now 0 }
    ensures { QvParts n args.now out.old result out.new }
{
    let given = flat_count(args);
    let wanted = n as usize;
    if given != wanted {
        return Err(Refusal::Count { wanted, given });
    }
    let mut buf = [0u8; Limit::TYPE_BYTES];
    let q = common_type::common_type_of(args, true, &mut buf).ok_or(Refusal::NoCommonType)?;
    let ty = Type { bytes: &buf[..q] };
    to_common(n, args, ty, out)
}
