// What typing asks of its arguments, which are types in a row: whether they convert, and the components that they bring to a vector.
#![tactic(auto)]

ghost use Rattle.std.specs.Prelude.{length};
ghost use Rattle.ty.specs.Stands.{Standing, Ends};
ghost use Rattle.shape.specs.TypeRows.{SomeTypeRow};
ghost use Rattle.arg_types.specs.Components.{ComponentKind, ComponentCount, PartTo, PartsTo, PartOf, PartsOf, TotalIs, MeetPart};
ghost use Rattle.arg_types.specs.Components.{EachPasses, SomeParts, CommonKind};
ghost use Rattle.arg_types.specs.Given.{SomeGiven, ConvertsAt, TypesConvert, SomeMembers, MemberTypesConvert};
ghost use Rattle.arg_types.specs.Types.{some_given_prop};

use ty::{Head, Limit, Type};

// The arguments of typing: records of well-formed types in a row, and how many they are.
#[derive(Clone, Copy)]
pub struct Types<'a> {
    pub bytes: &'a [u8],
    pub count: usize,
    pub ghost given: { SomeGiven bytes.now count } by { some_given_prop bytes.now count },
}

// ---- one of the arguments

// The kind of the components that the type at i brings to a vector.
fn component_kind(s: &[u8], i: usize) -> Option<u8>
    requires { Standing 15 s.now i }
    ensures { ComponentKind s.now i result }
{
    match ty::head_at(s, i, Limit::DEPTH) {
        Head::Scalar(k) => Some(k),
        Head::Vector(_, k) => Some(k),
        _ => None,
    }
}

// Their number.
fn component_count(s: &[u8], i: usize) -> u8
    requires { Standing 15 s.now i }
    ensures { ComponentCount s.now i result }
{
    match ty::head_at(s, i, Limit::DEPTH) {
        Head::Scalar(_) => 1,
        Head::Vector(n, _) => n,
        _ => 0,
    }
}

// Whether the type that stands in a from i up to e converts to the one that stands in b from j up to f.
fn converts_at(a: &[u8], i: usize, e: usize, b: &[u8], j: usize, f: usize) -> bool
    requires ends { Ends 15 a.now i e }
    requires ends_2 { Ends 15 b.now j f }
    ensures { ConvertsAt a.now i e b.now j f result }
{
    let from = Type { bytes: &a[i..e] };
    let to = Type { bytes: &b[j..f] };
    rank::type_converts(from, to)
}

// Whether the type at i brings components that convert to the kind k.
fn part_converts(args: &[u8], i: usize, k: u8) -> bool
    requires { Standing 15 args.now i }
    ensures { PartTo k args.now i result }
{
    match component_kind(args, i) {
        Some(j) => rank::kind_converts(j, k),
        None => false,
    }
}

// Whether it brings components at all.
fn is_part(args: &[u8], i: usize) -> bool
    requires { Standing 15 args.now i }
    ensures { PartOf args.now i result }
{
    component_kind(args, i).is_some()
}

// The common kind of the kind so far and the one that the type at i brings.
fn meet_part(k: u8, args: &[u8], i: usize) -> Option<u8>
    requires { Standing 15 args.now i }
    ensures { MeetPart k args.now i result }
{
    shape::meet_kinds(k, component_kind(args, i)?)
}

// ---- all of the arguments

// Whether each converts to the type whose record the target has from `at` on.
pub fn types_convert(args: &[u8], target: &[u8], at: usize) -> bool
    requires some_type_row { SomeTypeRow args.now 0 }
    requires ends { Ends 15 target.now at (length target.now) }
    ensures { TypesConvert args.now target.now at result }
{
    let mut i = 0;
    while i < args.len() {
        let e = shape::end_of_type(args, i, Limit::DEPTH);
        if !converts_at(args, i, e, target, at, target.len()) {
            return false;
        }
        i = e;
    }
    true
}

// Whether each converts to its member's type: the members' records follow the six bytes at the front of a struct's.
pub fn member_types_convert(args: &[u8], target: &[u8]) -> bool
    requires { SomeMembers args.now target.now }
    ensures { MemberTypesConvert args.now target.now result }
{
    let mut i = 0;
    let mut j = 6;
    while i < args.len() {
        let e = shape::end_of_type(args, i, Limit::DEPTH);
        let f = shape::end_of_type(target, j, Limit::DEPTH);
        if !converts_at(args, i, e, target, j, f) {
            return false;
        }
        i = e;
        j = f;
    }
    true
}

// Whether each passes the test of the place where it stands.
fn each_passes<F: Fn(usize) -> bool>(args: &[u8], test: F) -> bool
    requires some_type_row { SomeTypeRow args.now 0 }
    requires tested { (i : _) → Standing 15 args.now i → F.pre test i }
    ensures { EachPasses (F.post test) args.now result }
{
    let mut i = 0;
    while i < args.len() {
        if !test(i) {
            return false;
        }
        i = shape::end_of_type(args, i, Limit::DEPTH);
    }
    true
}

// Whether each brings components that convert to the kind k.
pub fn parts_to(k: u8, args: &[u8]) -> bool
    requires { SomeTypeRow args.now 0 }
    ensures { PartsTo k args.now result }
{
    each_passes(args, |i| part_converts(args, i, k))
}

// Whether each brings components.
pub fn are_parts(args: &[u8]) -> bool
    requires { SomeTypeRow args.now 0 }
    ensures { PartsOf args.now result }
{
    each_passes(args, |i| is_part(args, i))
}

// How many components they bring, "a whole number": it doesn't wrap, since each component takes a byte at least.
pub fn total(args: &[u8]) -> usize
    requires { SomeTypeRow args.now 0 }
    ensures { TotalIs args.now result }
{
    let mut i = 0;
    let mut sum: usize = 0;
    while i < args.len() {
        sum += component_count(args, i) as usize;
        i = shape::end_of_type(args, i, Limit::DEPTH);
    }
    sum
}

// The common kind of the components.
pub fn common_kind(args: &[u8]) -> Option<u8>
    requires { SomeParts args.now }
    ensures { CommonKind args.now result }
{
    let mut k = component_kind(args, 0)?;
    let mut i = shape::end_of_type(args, 0, Limit::DEPTH);
    while i < args.len() {
        k = meet_part(k, args, i)?;
        i = shape::end_of_type(args, i, Limit::DEPTH);
    }
    Some(k)
}
