// "No arguments with a type record: the zero value": measured from the type's record, then written from it.
#![tactic(auto)]

ghost use Rattle.std.specs.Prelude.{◌≡◌, T};
ghost use Rattle.meaning.specs.Records.{side};
ghost use Rattle.ty.specs.TypeFronts.{kind_number};
ghost use Rattle.record.specs.Bytes.{Put, times, Takes};
ghost use Rattle.record.specs.Literals.{literal_of};
ghost use Rattle.zero.specs.Zeros.{vector_of, matrix_of, ZeroRoom, Zeroes, ElementsRoom, ZeroesEach, MembersRoom, ZeroesAll};
ghost use Rattle.zero.specs.Zeros.{ZeroTold, VectorTold};

use error::Refusal;
use kind::Scalar;
use record::Writer;
use ty::{Head, Limit, Size, Type};

// ---- values without a type's record: literals, vectors, matrices

// A literal of zero bits.
fn put_zero(k: u8, w: &mut Writer)
    requires { Takes w.old.out.now w.old.at (literal_of k 0) }
    ensures put { Put w.old.out.now w.old.at (literal_of k 0) w.new.at w.new.out.now }
    ensures same_reference { w.new.out.ghost_name ≡ w.old.out.ghost_name }
{
    let scalar = Scalar { kind: k };
    w.put_literal(k, scalar.zero_bits());
}

// A vector of n zeros.
fn put_vector(n: u8, k: u8, w: &mut Writer)
    requires { Takes w.old.out.now w.old.at (vector_of n k) }
    ensures put { Put w.old.out.now w.old.at (vector_of n k) w.new.at w.new.out.now }
    ensures same_reference { w.new.out.ghost_name ≡ w.old.out.ghost_name }
{
    let scalar = Scalar { kind: k };
    w.put_three(b'V', b'v', n);
    w.put_literals(n, k, scalar.zero_bits());
}

// The columns of a matrix of zeros.
fn put_zero_columns(size: Size, k: u8, w: &mut Writer)
    requires { Takes w.old.out.now w.old.at (times size.columns (vector_of size.rows k)) }
    ensures put { Put w.old.out.now w.old.at (times size.columns (vector_of size.rows k)) w.new.at w.new.out.now }
    ensures same_reference { w.new.out.ghost_name ≡ w.old.out.ghost_name }
{
    for _ in 0..size.columns {
        put_vector(size.rows, k, w);
    }
}

// A matrix of zeros.
fn put_matrix(size: Size, k: u8, w: &mut Writer)
    requires { Takes w.old.out.now w.old.at (matrix_of size.columns size.rows k) }
    ensures put { Put w.old.out.now w.old.at (matrix_of size.columns size.rows k) w.new.at w.new.out.now }
    ensures same_reference { w.new.out.ghost_name ≡ w.old.out.ghost_name }
{
    w.put_four(b'V', b'm', size.columns, size.rows);
    put_zero_columns(size, k, w);
}

// ---- the value of a type by its record; what is returned is where the type's record ends

// n times the zero value of the type that stands at `at`. Each is written from the type's record again, which has no
// more parts than the value: the time is linear in the bytes written.
#[cycle(put_zero_elements_put_zero_members_write_zero)]
fn put_zero_elements(ty: &[u8], at: usize, n: u16, depth: u8, w: &mut Writer) -> usize
    requires { ElementsRoom depth ty.now at n w.old.out.now w.old.at }
    ensures zeroes { ZeroesEach depth ty.now at n w.old.out.now w.old.at result w.new.at w.new.out.now }
    ensures same_reference { w.new.out.ghost_name ≡ w.old.out.ghost_name }
{
    let mut end = at;
    for _element in 0..n {
        end = write_zero(ty, at, depth, w);
    }
    end
}

// The zero values of the n types that stand at `at`, in order.
#[cycle(put_zero_elements_put_zero_members_write_zero)]
fn put_zero_members(ty: &[u8], at: usize, n: u16, depth: u8, w: &mut Writer) -> usize
    requires { MembersRoom depth ty.now at n w.old.out.now w.old.at }
    ensures zeroes { ZeroesAll depth ty.now at n w.old.out.now w.old.at result w.new.at w.new.out.now }
    ensures same_reference { w.new.out.ghost_name ≡ w.old.out.ghost_name }
{
    let mut i = at;
    for _member in 0..n {
        i = write_zero(ty, i, depth, w);
    }
    i
}

// The zero value of the type that stands at `at`. The allowed depth is the number that falls.
#[cycle(put_zero_elements_put_zero_members_write_zero)]
pub fn write_zero(ty: &[u8], at: usize, depth: u8, w: &mut Writer) -> usize
    requires { ZeroRoom depth ty.now at w.old.out.now w.old.at }
    ensures zeroes { Zeroes depth ty.now at w.old.out.now w.old.at result w.new.at w.new.out.now }
    ensures same_reference { w.new.out.ghost_name ≡ w.old.out.ghost_name }
{
    match ty::head_at(ty, at, depth) {
        Head::Scalar(k) => {
            put_zero(k, w);
            at + 3
        }
        Head::Vector(n, k) => {
            put_vector(n, k, w);
            at + 6
        }
        Head::Matrix(c, r, k) => {
            let size = Size {
                columns: c,
                rows: r,
            };
            put_matrix(size, k, w);
            at + 7
        }
        Head::Array(n) => {
            w.put_array(n);
            put_zero_elements(ty, at + 4, n, depth - 1, w)
        }
        Head::Struct(i, n) => {
            w.put_struct(i, n);
            put_zero_members(ty, at + 6, n, depth - 1, w)
        }
    }
}

// ---- the answers

// The zero value of a type. Its length follows from the type, so it is measured before anything is written: "22 the
// accepted record is longer than the lent buffer, also where its length is past 64 bits (zero values of nested arrays)".
pub fn zero_value(target: Type, out: &mut [u8]) -> Result<usize, Refusal>
    ensures { ZeroTold target.entry.bytes.now out.old result out.new }
{
    let (_, n) = ty::value_len(target.bytes, 0, Limit::DEPTH).ok_or(Refusal::NoRoom)?;
    if n > out.len() {
        return Err(Refusal::NoRoom);
    }
    let mut w = Writer { out, at: 0 };
    let _ = write_zero(target.bytes, 0, Limit::DEPTH, &mut w);
    Ok(w.at)
}

// A vector of n zeros of the kind k: "`Qv` without arguments: AbstractInt zeros".
pub fn zero_vector(n: u8, k: u8, out: &mut [u8]) -> Result<usize, Refusal>
    requires sides { T (side n) }
    requires kind { T (kind_number k) }
    ensures { VectorTold n k out.old result out.new }
{
    if ty::vector_len(n, k) > out.len() {
        return Err(Refusal::NoRoom);
    }
    let mut w = Writer { out, at: 0 };
    put_vector(n, k, &mut w);
    Ok(w.at)
}
