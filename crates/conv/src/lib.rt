// Conversion without a constructor: the source's conv.rs on values' records in lent slices.
#![tactic(auto)]

ghost use Rattle.std.specs.Prelude.{◌≡◌, ◌≤◌, ◌<◌, ◌+◌, ◌-◌, length, get_or};
ghost use Rattle.meaning.specs.Scalars.{some?};
ghost use Rattle.record.specs.Bytes.{number_at};
ghost use Rattle.record.specs.Literals.{width_of};
ghost use Rattle.conv.specs.Items.{SomeItem, SomeItems, literal_as, literal_to, EndIs, ItemFits, ItemRoom, ItemPut, Fits};
ghost use Rattle.conv.specs.Items.{Convertible, Converts};
ghost use Rattle.conv.specs.Values.{SomeValueTo, ValueFits, ValueRoom, ValuePut};

use literal::Literal;
use record::Writer;

// ---- one item of a value's record: a literal, or a mark with its counts

// Where the item that begins at i ends.
pub fn item_end(src: &[u8], i: usize) -> usize
    requires { SomeItem src.now i }
    ensures { EndIs src.now i result }
{
    let mark = src[i + 1];
    if mark == b's' {
        return i + record::literal_len(src[i + 2]);
    }
    if mark == b'v' {
        return i + 3;
    }
    i + 4
}

// The literal whose record begins at i.
pub fn literal_at(src: &[u8], i: usize) -> Literal
    requires { i + (3 + width_of (get_or src.now (i + 2) 0)) ≤ length src.now }
    ensures kind { result.kind ≡ get_or src.now (i + 2) 0 }
    ensures bits { result.bits ≡ number_at src.now (i + 3) (width_of (get_or src.now (i + 2) 0)) }
{
    Literal {
        kind: src[i + 2],
        bits: record::payload_at(src, i),
    }
}

// That literal converted to the kind k.
fn converted_at(src: &[u8], i: usize, k: u8) -> Option<u64>
    requires { i + (3 + width_of (get_or src.now (i + 2) 0)) ≤ length src.now }
    ensures { result ≡ literal_to k src.now i }
{
    literal_at(src, i).convert_to(k)
}

// Whether it converts to the kind k.
pub fn fits_at(src: &[u8], i: usize, k: u8) -> bool
    requires { i + (3 + width_of (get_or src.now (i + 2) 0)) ≤ length src.now }
    ensures { result ≡ some? (literal_as k src.now i) }
{
    literal_at(src, i).fits(k)
}

// Whether the item converts to the kind k; a mark always does.
fn item_fits(src: &[u8], i: usize, k: u8) -> bool
    requires { SomeItem src.now i }
    ensures { ItemFits k src.now i result }
{
    let mark = src[i + 1];
    if mark != b's' {
        return true;
    }
    fits_at(src, i, k)
}

// The item, a literal converted to the kind k, a mark as it stands.
fn put_item(src: &[u8], i: usize, k: u8, w: &mut Writer)
    requires { ItemRoom k src.now i w.old.out.now w.old.at }
    ensures put { ItemPut k src.now i w.old.out.now w.old.at w.new.at w.new.out.now }
    ensures same_reference { w.new.out.ghost_name ≡ w.old.out.ghost_name }
{
    let mark = src[i + 1];
    if mark != b's' {
        let end = item_end(src, i);
        w.put_bytes(&src[i..end]);
        return;
    }
    let Some(p) = converted_at(src, i, k) else {
        return;
    };
    w.put_literal(k, p);
}

// ---- the items of a value's record, or of several in a row

// Whether each literal among the items converts to the kind k: decided before anything is written.
pub fn fits(items: &[u8], k: u8) -> bool
    requires { SomeItems items.now 0 (length items.now) }
    ensures { Fits k items.now 0 (length items.now) result }
{
    let mut i = 0;
    while i < items.len() {
        if !item_fits(items, i, k) {
            return false;
        }
        i = item_end(items, i);
    }
    true
}

// The items, each literal converted to the kind k. A literal of another kind may be of another length, so the places in
// the source and in the result go each its own way.
pub fn convert_items(items: &[u8], k: u8, w: &mut Writer)
    requires { Convertible k items.now 0 (length items.now) w.old.out.now w.old.at }
    ensures put { Converts k items.now 0 (length items.now) w.old.out.now w.old.at w.new.at w.new.out.now }
    ensures same_reference { w.new.out.ghost_name ≡ w.old.out.ghost_name }
{
    // a writer of its own stays in registers: as far as the compiler knows, a stored byte may change a lent one
    let mut own = Writer {
        out: &mut *w.out,
        at: w.at,
    };
    let mut i = 0;
    while i < items.len() {
        put_item(items, i, k, &mut own);
        i = item_end(items, i);
    }
    w.at = own.at;
}

// ---- a value to a type

// Whether the value, whose type converts to the one whose record stands at `at`, converts too: each literal has to fit.
// A value with a struct in it keeps its type, so it always does.
pub fn value_fits(value: &[u8], target: &[u8], at: usize, depth: u8) -> bool
    requires { SomeValueTo depth target.now at value.now 0 (length value.now) }
    ensures { ValueFits depth target.now at value.now 0 (length value.now) result }
{
    let Some(k) = ty::leaf_at(target, at, depth) else {
        return true;
    };
    fits(value, k)
}

// That value, converted.
pub fn write_converted(value: &[u8], target: &[u8], at: usize, depth: u8, w: &mut Writer)
    requires { ValueRoom depth target.now at value.now 0 (length value.now) w.old.out.now w.old.at }
    ensures put { ValuePut depth target.now at value.now 0 (length value.now)
        w.old.out.now w.old.at w.new.at w.new.out.now }
    ensures same_reference { w.new.out.ghost_name ≡ w.old.out.ghost_name }
{
    match ty::leaf_at(target, at, depth) {
        Some(k) => convert_items(value, k, w),
        None => w.put_bytes(value),
    }
}
