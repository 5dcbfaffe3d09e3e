// What the walks over values in memory share; proofs/ has the theorems about WGSL's memory layout, and the laws that
// the walks are proved by.
#![tactic(auto)]

ghost use Rattle.std.specs.Prelude.{◌≡◌, ◌≤◌};
ghost use Rattle.record.specs.Bytes.{Width};
ghost use Rattle.memory.specs.Sizes.{size_no};

use kind::Scalar;

// What a walk over a value reads: its type's record, the table of the padding inside the type, and the value's bytes.
#[derive(Clone, Copy)]
pub struct Source<'a> {
    pub ty: &'a [u8],
    pub pads: &'a [u8],
    pub bytes: &'a [u8],
}

// Where in them a walk has come to: in the type's record, and in the value's bytes.
#[derive(Clone, Copy)]
pub struct Places {
    pub ty: usize,
    pub from: usize,
}

// The bytes that a scalar of the kind takes in memory.
pub fn scalar_size(k: u8) -> usize
    ensures { (result ≡ size_no k) × Width result × (result ≤ 4) }
{
    let scalar = Scalar { kind: k };
    scalar.memory_size()
}
