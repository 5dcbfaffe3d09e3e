// The entry `convert_to` of the source's conv.rs: decided first, then measured, then written.
#![tactic(auto)]

ghost use Rattle.std.specs.Prelude.{◌≡◌, ◌++◌, ◌+◌, ◌-◌, ◌≤◌, length, take, drop};
ghost use Rattle.meaning.specs.Entries.{convert_answer};
ghost use Rattle.record.specs.Bytes.{Put};
ghost use Rattle.error.specs.Told.{Told};
ghost use Rattle.ty.specs.Targets.{RuntimeIs};
ghost use Rattle.args.specs.OneValue.{Found};
ghost use Rattle.convert_to.specs.Conversions.{Converts, SomeBecomes, Writes, ConvertsRuntime, is_shape};

use error::Refusal;
use record::Writer;
use ty::{Limit, Target, Type};

// Writes a value that is known to convert, if there is room for it: "22 the accepted record is longer than the lent buffer".
fn write_value(target: Type, args: &[u8], out: &mut [u8]) -> Result<usize, Refusal>
    requires { SomeBecomes target.bytes.now args.now }
    ensures { Writes target.entry.bytes.now args.now out.old result out.new }
{
    let (_, n) = ty::value_len(target.bytes, 0, Limit::DEPTH).ok_or(Refusal::NoRoom)?;
    if n > out.len() {
        return Err(Refusal::NoRoom);
    }
    let mut w = Writer { out, at: 0 };
    conv::write_converted(args, target.bytes, 0, Limit::DEPTH, &mut w);
    Ok(w.at)
}

// The one value, of the type `ty`, to the target. Nothing is written before all is decided.
fn convert_value(target: Type, args: &[u8], ty: Type, out: &mut [u8]) -> Result<usize, Refusal>
    requires { Found args.now ty.bytes.now }
    ensures { Converts target.entry.bytes.now args.now ty.entry.bytes.now out.old result out.new }
{
    if !rank::type_converts(ty, target) {
        return Err(Refusal::NoConversion);
    }
    if !conv::value_fits(args, target.bytes, 0, Limit::DEPTH) {
        return Err(Refusal::NoConversion);
    }
    write_value(target, args, out)
}

// The record of the counted array that a runtime-sized one becomes: the mark and the count of the value's type, then
// the target's element type.
fn counted(ty: &[u8], target: &[u8], out: &mut [u8]) -> usize
    requires { (4 ≤ length ty.now) × (2 ≤ length target.now) × (2 + length target.now ≤ length out.old) }
    ensures { Put out.old 0 (take 4 ty.now ++ take (length target.now - 2)
        (drop 2 target.now)) result out.new }
{
    let mut w = Writer { out, at: 0 };
    w.put_bytes(&ty[..4]);
    w.put_bytes(&target[2..]);
    w.at
}

// The one value, of the type `ty`, to a runtime-sized array: "an array value also converts to `Tr` if its elements do;
// the result is a `Va`".
fn convert_array(target: &[u8], args: &[u8], ty: Type, out: &mut [u8]) -> Result<usize, Refusal>
    requires { RuntimeIs target.now × Found args.now ty.bytes.now }
    ensures { ConvertsRuntime target.now args.now ty.entry.bytes.now out.old result out.new }
{
    if ty.bytes[1] != b'a' {
        return Err(Refusal::NoConversion);
    }
    let mut whole = [0u8; Limit::TYPE_BYTES];
    let m = counted(ty.bytes, target, &mut whole);
    let to = Type { bytes: &whole[..m] };
    convert_value(to, args, ty, out)
}

// Whether the target is a shape; no value converts to one.
fn is_shape(found: Target) -> bool
    ensures { result ≡ is_shape found }
{
    !matches!(found, Target::Type | Target::Runtime)
}

// The source's `convert_to`: the one value that the arguments are, converted to the target. Nothing is assumed of the
// bytes; a refusal leaves the lent buffer as it was, and a record fills the front of it.
pub fn convert_to(target: &[u8], args: &[u8], out: &mut [u8]) -> Result<usize, Refusal>
    ensures { Told (convert_answer target.now args.now (length out.old)) out.old result
        out.new }
{
    let found = ty::read_target(target).ok_or(Refusal::BadTarget)?;
    if is_shape(found) {
        return Err(Refusal::BadTarget);
    }
    let mut buf = [0u8; Limit::TYPE_BYTES];
    let q = args::one_value(args, &mut buf).ok_or(Refusal::BadArgument)?;
    let ty = Type { bytes: &buf[..q] };
    if let Target::Runtime = found {
        return convert_array(target, args, ty, out);
    }
    let to = Type { bytes: target };
    convert_value(to, args, ty, out)
}
