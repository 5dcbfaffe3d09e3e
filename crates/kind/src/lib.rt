// The scalar kind: the scalar types of ty.rs, by their numbers.
#![tactic(auto)]

ghost use Rattle.std.specs.Prelude.{◌≡◌};
ghost use Rattle.meaning.specs.Kinds.{is_float, is_abstract, pay_width};
ghost use Rattle.meaning.specs.Layout.{laid_kind, scalar_size};
ghost use Rattle.kind.specs.Ends.{numbered, tested, known, low, high};

// A scalar kind by its number in a record. A number over 6 is no kind's; each function answers it too.
#[derive(Clone, Copy)]
pub struct Scalar {
    pub kind: u8,
}

#[tactic(auto, using(crate::proofs::Numbers::no_kind), unfolding(crate::proofs::Numbers::table))]
impl Scalar {
    // "The kind numbers belong to the scalar kind and are written once": here.
    pub const BOOL: u8 = 0;

    pub const ABSTRACT_INT: u8 = 1;

    pub const ABSTRACT_FLOAT: u8 = 2;

    pub const I32: u8 = 3;

    pub const U32: u8 = 4;

    pub const F32: u8 = 5;

    pub const F16: u8 = 6;

    // Whether the number is a kind's.
    pub fn is_kind(self) -> bool
        ensures { result ≡ tested known self.kind }
    {
        let k = self.kind;
        match k {
            Self::BOOL => true,
            Self::ABSTRACT_INT => true,
            Self::ABSTRACT_FLOAT => true,
            Self::I32 => true,
            Self::U32 => true,
            Self::F32 => true,
            Self::F16 => true,
            _ => false,
        }
    }

    // AbstractFloat, F32 or F16.
    pub fn is_float(self) -> bool
        ensures { result ≡ tested is_float self.kind }
    {
        let k = self.kind;
        match k {
            Self::BOOL => false,
            Self::ABSTRACT_INT => false,
            Self::ABSTRACT_FLOAT => true,
            Self::I32 => false,
            Self::U32 => false,
            Self::F32 => true,
            Self::F16 => true,
            _ => false,
        }
    }

    // AbstractInt or AbstractFloat.
    pub fn is_abstract(self) -> bool
        ensures { result ≡ tested is_abstract self.kind }
    {
        let k = self.kind;
        match k {
            Self::BOOL => false,
            Self::ABSTRACT_INT => true,
            Self::ABSTRACT_FLOAT => true,
            Self::I32 => false,
            Self::U32 => false,
            Self::F32 => false,
            Self::F16 => false,
            _ => false,
        }
    }

    // How many bytes a payload takes.
    pub fn width(self) -> usize
        ensures { result ≡ numbered pay_width self.kind }
    {
        let k = self.kind;
        match k {
            Self::BOOL => 8,
            Self::ABSTRACT_INT => 8,
            Self::ABSTRACT_FLOAT => 8,
            Self::I32 => 8,
            Self::U32 => 8,
            Self::F32 => 8,
            Self::F16 => 8,
            _ => 0,
        }
    }

    // Whether the kind has a place in memory: a 32-bit scalar or F16.
    pub fn has_layout(self) -> bool
        ensures { result ≡ tested laid_kind self.kind }
    {
        let k = self.kind;
        match k {
            Self::BOOL => false,
            Self::ABSTRACT_INT => false,
            Self::ABSTRACT_FLOAT => false,
            Self::I32 => true,
            Self::U32 => true,
            Self::F32 => true,
            Self::F16 => true,
            _ => false,
        }
    }

    // How many bytes it takes there; of a kind without a place this is never asked.
    pub fn memory_size(self) -> usize
        ensures { result ≡ numbered scalar_size self.kind }
    {
        let k = self.kind;
        match k {
            Self::BOOL => 4,
            Self::ABSTRACT_INT => 4,
            Self::ABSTRACT_FLOAT => 4,
            Self::I32 => 4,
            Self::U32 => 4,
            Self::F32 => 4,
            Self::F16 => 2,
            _ => 0,
        }
    }

    // The ends of the range as whole numbers, from -low to high, each held to 64 bits.
    pub fn low_end(self) -> u64
        ensures { result ≡ numbered low self.kind }
    {
        let k = self.kind;
        match k {
            Self::BOOL => 0,
            Self::ABSTRACT_INT => 0x8000_0000_0000_0000,
            Self::ABSTRACT_FLOAT => 0xffff_ffff_ffff_ffff,
            Self::I32 => 0x8000_0000,
            Self::U32 => 0,
            Self::F32 => 0xffff_ffff_ffff_ffff,
            Self::F16 => 65504,
            _ => 0,
        }
    }

    pub fn high_end(self) -> u64
        ensures { result ≡ numbered high self.kind }
    {
        let k = self.kind;
        match k {
            Self::BOOL => 1,
            Self::ABSTRACT_INT => 0x7fff_ffff_ffff_ffff,
            Self::ABSTRACT_FLOAT => 0xffff_ffff_ffff_ffff,
            Self::I32 => 0x7fff_ffff,
            Self::U32 => 0xffff_ffff,
            Self::F32 => 0xffff_ffff_ffff_ffff,
            Self::F16 => 65504,
            _ => 0,
        }
    }

    // The payload of the zero value: no bit is set, in any kind.
    pub fn zero_bits(self) -> u64
        ensures { result ≡ 0 }
    {
        0
    }
}
