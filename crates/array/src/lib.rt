// The source's `array` and its struct construction (ctor.rs, builtin/mod.rs) on records: decided first, then measured,
// then written.
#![tactic(auto)]

ghost use Rattle.std.specs.Prelude.{◌≡◌, ◌≤◌, ◌+◌, ◌*◌};
ghost use Rattle.array.specs.Lengths.{Within};
ghost use Rattle.array.specs.Arrays.{SomeElements, ElementsTold, SomeArray, ArrayTold, SomeRuntime, RuntimeTold, QaTold};
ghost use Rattle.array.specs.Members.{SomePairs, SomePair, MemberIs, MembersFit, MembersRoom, MembersPut, IsStruct, CountIs};
ghost use Rattle.array.specs.Members.{StructTold, SomeMade, MadeTold};

use args::Values;
use error::Refusal;
use record::Writer;
use ty::{Limit, Type};

// ---- lengths

// Whether a record of the length that was measured is within the room.
fn takes(len: Option<(usize, usize)>, room: usize) -> bool
    ensures { Within (λ n. n) len room result }
{
    let Some((_, n)) = len else {
        return false;
    };
    n <= room
}

// The same for n elements of that length and the 4 bytes before them. No product is made: the number tested is what the
// room leaves for one element.
fn takes_array(n: usize, len: Option<(usize, usize)>, room: usize) -> bool
    requires { 1 ≤ n }
    ensures { Within (λ m. 4 + n * m) len room result }
{
    let Some((_, m)) = len else {
        return false;
    };
    if room < 4 {
        return false;
    }
    m <= (room - 4) / n
}

// ---- arrays

// The array whose arguments are known to convert to the element type at `at`, if there is room for it: the mark, the
// count, the elements.
fn write_array(
    args: Values,
    ty: &[u8],
    at: usize,
    depth: u8,
    out: &mut [u8],
) -> Result<usize, Refusal>
    requires { SomeElements args.bytes.now args.count depth ty.now at }
    ensures { ElementsTold args.entry.bytes.now args.entry.count depth ty.now at out.old result out.new }
{
    // taken anew: its two words are read one by one, not copied at once (docs/DECISIONS.md, 66)
    let a = &args.bytes[..];
    let t = &ty[..];
    let count = args.count;
    if !takes_array(count, ty::value_len(t, at, depth), out.len()) {
        return Err(Refusal::NoRoom);
    }
    let mut w = Writer { out, at: 0 };
    w.put_mark(b'a');
    w.put_le(2, count as u64);
    convert_all::write_all(a, 0, t, at, depth, &mut w);
    Ok(w.at)
}

// A counted array of the arguments: "conversion (9) before count (8)".
pub fn array_of(target: Type, args: Values, out: &mut [u8]) -> Result<usize, Refusal>
    requires { SomeArray target.bytes.now args.count }
    ensures { ArrayTold target.entry.bytes.now args.entry.bytes.now args.entry.count out.old result out.new }
{
    let ty = target.bytes;
    if !convert_all::all_convert(args.bytes, 0, ty, 4, Limit::PART_DEPTH) {
        return Err(Refusal::NoConversion);
    }
    let wanted = record::join(ty[2], ty[3]) as usize;
    let given = args.count;
    if given != wanted {
        return Err(Refusal::Count { wanted, given });
    }
    write_array(args, ty, 4, Limit::PART_DEPTH, out)
}

// An array of the arguments for a runtime-sized target: "the count is that of the arguments".
pub fn runtime_of(target: &[u8], args: Values, out: &mut [u8]) -> Result<usize, Refusal>
    requires { SomeRuntime target.now args.count }
    ensures { RuntimeTold target.now args.entry.bytes.now args.entry.count out.old result out.new }
{
    if !convert_all::all_convert(args.bytes, 0, target, 2, Limit::PART_DEPTH) {
        return Err(Refusal::NoConversion);
    }
    write_array(args, target, 2, Limit::PART_DEPTH, out)
}

// An array of the arguments without a type: "`Qa`: 11, then 10", the 10 where there is no common type or a literal does
// not fit it.
pub fn qa_of(args: Values, out: &mut [u8]) -> Result<usize, Refusal>
    requires { 1 ≤ args.count }
    ensures { QaTold args.entry.bytes.now args.entry.count out.old result out.new }
{
    let mut buf = [0u8; Limit::TYPE_BYTES];
    let q = common_type::common_type_of(args.bytes, false, &mut buf).ok_or(Refusal::NoCommonType)?;
    let ty = Type { bytes: &buf[..q] };
    if !convert_all::all_fit(args.bytes, 0, ty.bytes, 0, Limit::DEPTH) {
        return Err(Refusal::NoCommonType);
    }
    write_array(args, ty.bytes, 0, Limit::DEPTH, out)
}

// ---- structs

// Whether the argument at i converts to the member type at `at`: its type, and then each of its literals.
fn member_fits(target: &[u8], at: usize, args: &[u8], i: usize) -> Option<(usize, usize)>
    requires { SomePair target.now at args.now i }
    ensures { MemberIs target.now at args.now i result }
{
    let e = args::next_arg(args, i);
    let q = shape::end_of_type(target, at, Limit::PART_DEPTH);
    let member = Type {
        bytes: &target[at..q],
    };
    if !convert_all::arg_converts(args, i, member) {
        return None;
    }
    if !conv::value_fits(&args[i..e], target, at, Limit::PART_DEPTH) {
        return None;
    }
    Some((e, q))
}

// Whether each argument converts to its member's type: decided before anything is written.
fn members_convert(target: &[u8], args: &[u8]) -> bool
    requires { SomePairs target.now 6 args.now 0 }
    ensures { MembersFit target.now 6 args.now 0 result }
{
    let mut i = 0;
    let mut at = 6;
    while i < args.len() {
        let Some((e, q)) = member_fits(target, at, args, i) else {
            return false;
        };
        i = e;
        at = q;
    }
    true
}

// The arguments, each converted to its member's type.
fn write_members(target: &[u8], args: &[u8], w: &mut Writer)
    requires { MembersRoom target.now 6 args.now 0 w.old.out.now w.old.at }
    ensures put { MembersPut target.now 6 args.now 0 w.old.out.now w.old.at w.new.at w.new.out.now }
    ensures same_reference { w.new.out.ghost_name ≡ w.old.out.ghost_name }
{
    let mut from = 0;
    let mut at = 6;
    while from < args.len() {
        let end = args::next_arg(args, from);
        conv::write_converted(&args[from..end], target, at, Limit::PART_DEPTH, w);
        from = end;
        at = shape::end_of_type(target, at, Limit::PART_DEPTH);
    }
}

// The number of members of the struct type that the target is.
fn member_count(target: &[u8]) -> usize
    requires { IsStruct target.now }
    ensures { CountIs target.now result }
{
    record::join(target[4], target[5]) as usize
}

// The struct whose arguments are known to convert, if there is room for it. Its identity and its member count are the
// type's.
fn write_struct(target: &[u8], args: &[u8], out: &mut [u8]) -> Result<usize, Refusal>
    requires { SomeMade target.now args.now }
    ensures { MadeTold target.now args.now out.old result out.new }
{
    if !takes(ty::value_len(target, 0, Limit::DEPTH), out.len()) {
        return Err(Refusal::NoRoom);
    }
    let mut w = Writer { out, at: 0 };
    w.put_mark(b'u');
    w.put_bytes(&target[2..6]);
    write_members(target, args, &mut w);
    Ok(w.at)
}

// A struct of the arguments: "count (8), conversion (9)".
pub fn struct_of(target: Type, args: Values, out: &mut [u8]) -> Result<usize, Refusal>
    requires { IsStruct target.bytes.now }
    ensures { StructTold target.entry.bytes.now args.entry.bytes.now args.entry.count out.old result out.new }
{
    let ty = target.bytes;
    let members = member_count(ty);
    let given = args.count;
    if given != members {
        return Err(Refusal::Count {
            wanted: members,
            given,
        });
    }
    if !members_convert(ty, args.bytes) {
        return Err(Refusal::NoConversion);
    }
    write_struct(ty, args.bytes, out)
}
