// The arguments of a matrix, once they are known to convert: their shape, and the matrix that has them as its columns,
// or as the scalars in them.
#![tactic(auto)]

ghost use Rattle.std.specs.Prelude.{◌≡◌};
ghost use Rattle.columns.specs.Columns.{SomeFront, SkipsTo, ColumnRoom, ColumnPut, Scalars, RoomFor, PartsAre, PartsRoom};
ghost use Rattle.columns.specs.Columns.{PartsPut};
ghost use Rattle.columns.specs.ColumnParts.{SomeParts, PartsMade};

use args::Values;
use error::Refusal;
use record::Writer;
use shape::Shape;
use ty::Size;

// Where the first n of the arguments from i on end.
fn skip(args: &[u8], i: usize, n: u8) -> usize
    requires { SomeFront args.now i n }
    ensures { SkipsTo args.now i n result }
{
    let mut e = i;
    for _ in 0..n {
        e = args::next_arg(args, e);
    }
    e
}

// A column of the scalars from i up to e, converted to the kind k.
fn put_column(args: &[u8], i: usize, e: usize, r: u8, k: u8, w: &mut Writer)
    requires { ColumnRoom k r args.now i e w.old.out.now w.old.at }
    ensures put { ColumnPut k r args.now i e w.old.out.now w.old.at w.new.at w.new.out.now }
    ensures same_reference { w.new.out.ghost_name ≡ w.old.out.ghost_name }
{
    w.put_three(b'V', b'v', r);
    conv::convert_items(&args[i..e], k, w);
}

// The scalars as columns, as many in each as there are rows.
fn put_columns(size: Size, k: u8, args: &[u8], w: &mut Writer)
    requires { PartsRoom size.columns size.rows (Scalars size.columns size.rows k args.now) w.old.out.now w.old.at }
    ensures put { PartsPut size.columns size.rows (Scalars size.columns size.rows k args.now)
        w.old.out.now w.old.at w.new.at w.new.out.now }
    ensures same_reference { w.new.out.ghost_name ≡ w.old.out.ghost_name }
{
    let mut i = 0;
    for _ in 0..size.columns {
        let e = skip(args, i, size.rows);
        put_column(args, i, e, size.rows, k, w);
        i = e;
    }
}

// The columns: of the scalars, or the vectors as they are converted.
fn put_parts(shape: Shape, size: Size, k: u8, args: &[u8], w: &mut Writer)
    requires { PartsRoom size.columns size.rows (PartsAre shape size.columns size.rows k args.now) w.old.out.now w.old.at }
    ensures put { PartsPut size.columns size.rows (PartsAre shape size.columns size.rows k args.now)
        w.old.out.now w.old.at w.new.at w.new.out.now }
    ensures same_reference { w.new.out.ghost_name ≡ w.old.out.ghost_name }
{
    match shape {
        Shape::Scalars => put_columns(size, k, args, w),
        Shape::Columns => conv::convert_items(args, k, w),
    }
}

// Whether the record of such a matrix is at most `room` bytes long: "22 the accepted record is longer than the lent buffer".
pub fn room_for(size: Size, k: u8, room: usize) -> bool
    ensures { RoomFor size.columns size.rows k room result }
{
    ty::matrix_len(size, k) <= room
}

// The matrix of arguments that convert to the kind k, whose type is the one that `ty` is, but for its kind.
pub fn of_parts(
    size: Size,
    k: u8,
    ty: &[u8],
    args: Values,
    out: &mut [u8],
) -> Result<usize, Refusal>
    requires { SomeParts k ty.now args.bytes.now args.count }
    ensures { PartsMade size.columns size.rows k ty.now args.entry.bytes.now args.entry.count out.old result out.new }
{
    // taken anew: its two words are read one by one, not copied at once (docs/DECISIONS.md, 66)
    let a = &args.bytes[..];
    let shape = shape::matrix_shape(size, ty, args.count)?;
    if !room_for(size, k, out.len()) {
        return Err(Refusal::NoRoom);
    }
    let mut w = Writer { out, at: 0 };
    w.put_four(b'V', b'm', size.columns, size.rows);
    put_parts(shape, size, k, a, &mut w);
    Ok(w.at)
}
