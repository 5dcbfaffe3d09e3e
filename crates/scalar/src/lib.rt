// The scalar constructors of the source's builtin/ctor.rs on records in lent slices: on one literal, and on the
// literals of a vector or a matrix.
#![tactic(auto)]

ghost use Rattle.std.specs.Prelude.{◌≡◌, ◌+◌, ◌≤◌, length, get_or};
ghost use Rattle.record.specs.Literals.{width_of};
ghost use Rattle.conv.specs.Items.{SomeItem, SomeItems};
ghost use Rattle.scalar.specs.Made.{MadeAt, ItemMade, ItemRoom, ItemPut, AllMade, Makeable, Makes, Handed};
ghost use Rattle.scalar.specs.Made.{ScalarTold, SomeKind, some_kind_prop, OneArg, one_arg_prop};

use error::Refusal;
use kind::Scalar;
use literal::{Rules, Unmade};
use record::Writer;

// ---- one item of a value's record: a literal, or a mark with its counts

// What the constructor of the kind k makes of the literal whose record begins at i.
fn made_at(rules: Rules, src: &[u8], i: usize, k: u8) -> Result<u64, Unmade>
    requires { i + (3 + width_of (get_or src.now (i + 2) 0)) ≤ length src.now }
    ensures { MadeAt rules k src.now i result }
{
    conv::literal_at(src, i).construct(rules, k)
}

// Where the item ends, if it goes through the constructor of the kind k; a mark always does.
fn item_made(rules: Rules, src: &[u8], i: usize, k: u8) -> Result<usize, Unmade>
    requires { SomeItem src.now i }
    ensures { ItemMade rules k src.now i result }
{
    let mark = src[i + 1];
    if mark != b's' {
        return Ok(conv::item_end(src, i));
    }
    made_at(rules, src, i, k)?;
    Ok(conv::item_end(src, i))
}

// The item, a literal as the constructor of the kind k makes it, a mark as it stands.
fn put_made(rules: Rules, src: &[u8], i: usize, k: u8, w: &mut Writer)
    requires { ItemRoom rules k src.now i w.old.out.now w.old.at }
    ensures put { ItemPut rules k src.now i w.old.out.now w.old.at w.new.at w.new.out.now }
    ensures same_reference { w.new.out.ghost_name ≡ w.old.out.ghost_name }
{
    let mark = src[i + 1];
    if mark != b's' {
        let end = conv::item_end(src, i);
        w.put_bytes(&src[i..end]);
        return;
    }
    let Ok(p) = made_at(rules, src, i, k) else {
        return;
    };
    w.put_literal(k, p);
}

// ---- the items of a value's record

// Whether the constructor of the kind k takes each literal among the items: the first that it does not take says why.
// Decided before anything is written.
pub fn all_made(rules: Rules, items: &[u8], k: u8) -> Result<(), Unmade>
    requires { SomeItems items.now 0 (length items.now) }
    ensures { AllMade rules k items.now 0 (length items.now) result }
{
    let mut i = 0;
    while i < items.len() {
        i = item_made(rules, items, i, k)?;
    }
    Ok(())
}

// The items, each literal as the constructor of the kind k makes it. A literal of another kind may be of another
// length, so the places in the source and in the result go each its own way.
pub fn write_made(rules: Rules, items: &[u8], k: u8, w: &mut Writer)
    requires { Makeable rules k items.now 0 (length items.now) w.old.out.now w.old.at }
    ensures put { Makes rules k items.now 0 (length items.now) w.old.out.now w.old.at w.new.at w.new.out.now }
    ensures same_reference { w.new.out.ghost_name ≡ w.old.out.ghost_name }
{
    // a writer of its own stays in registers: as far as the compiler knows, a stored byte may change a lent one
    let mut own = Writer {
        out: &mut *w.out,
        at: w.at,
    };
    let mut i = 0;
    while i < items.len() {
        put_made(rules, items, i, k, &mut own);
        i = conv::item_end(items, i);
    }
    w.at = own.at;
}

// ---- one argument

// A kind by its number, which is one of the seven.
#[derive(Clone, Copy)]
pub struct Kind {
    pub number: u8,
    pub ghost some: { SomeKind number } by { some_kind_prop number },
}

// The whole record of one well-formed value.
#[derive(Clone, Copy)]
pub struct Value<'a> {
    pub bytes: &'a [u8],
    pub ghost one: { OneArg bytes.now } by { one_arg_prop bytes.now },
}

// A literal of that kind handed over, if there is room for it: "22 the accepted record is longer than the lent buffer".
fn hand_literal(kind: Kind, bits: u64, out: &mut [u8]) -> Result<usize, Refusal>
    ensures { Handed kind.number bits out.old result out.new }
{
    let k = kind.number;
    if record::literal_len(k) > out.len() {
        return Err(Refusal::NoRoom);
    }
    let mut w = Writer { out, at: 0 };
    w.put_literal(k, bits);
    Ok(w.at)
}

// The scalar type of that kind given one argument: "4 not constructible (abstract scalar with arguments)", "6 scalar
// given a non-scalar", then 15 or 21, then 22.
pub fn scalar(rules: Rules, kind: Kind, arg: Value, out: &mut [u8]) -> Result<usize, Refusal>
    ensures { ScalarTold rules kind.number arg.entry.bytes.now out.old result out.new }
{
    let k = kind.number;
    let scalar = Scalar { kind: k };
    if scalar.is_abstract() {
        return Err(Refusal::NotConstructible);
    }
    if arg.bytes[1] != b's' {
        return Err(Refusal::NotAScalar);
    }
    let bits = made_at(rules, arg.bytes, 0, k)?;
    hand_literal(kind, bits, out)
}
