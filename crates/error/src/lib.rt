// The source's error.rs: the refusals, and the answer of an entry in numbers.
#![tactic(auto)]

ghost use Rattle.std.specs.Prelude.{◌≡◌, length};
ghost use Rattle.error.specs.Refusals.{number, paper};
ghost use Rattle.error.specs.Told.{Told};
ghost use Rattle.error.specs.Numbers.{numbers, refused_numbers, in_numbers};
ghost use Rattle.error.specs.Hand.{handed};

use record::Writer;

// The refusals of documents 01 and 02, each with its words; `number` gives each its number.
#[derive(Clone, Copy)]
pub enum Refusal {
    // "bad target record"
    BadTarget,

    // "bad argument"
    BadArgument,

    // "stage over 2"
    NoStage,

    // "not constructible (abstract scalar with arguments, typing of an abstract scalar, building `Tr` with none)"
    NotConstructible,

    // "scalar with two or more arguments (typing: also one non-scalar)"
    SeveralForScalar,

    // "scalar given a non-scalar"
    NotAScalar,

    // "shape or type mismatch"
    Mismatch,

    // "count"; "only 8 carries more: wanted and given"
    Count { wanted: usize, given: usize },

    // "doesn't convert"
    NoConversion,

    // "no common type, or a component that doesn't convert"
    NoCommonType,

    // "arguments needed"
    ArgumentsNeeded,

    // "vector part not scalar (also one vector into an abstract vector type)"
    VectorPart,

    // "floats needed (also one matrix into a kind 2 matrix type)"
    FloatsNeeded,

    // "column length"
    ColumnLength,

    // "integer outside i32 or u32"
    IntegerRange,

    // "typing only: `Tr`, or an abstract vector type"
    NotTyped,

    // "outside the float's range because the stage is Const", and "at Override .. wherever Const does"
    FloatRange,

    // "the accepted record is longer than the lent buffer, also where its length is past 64 bits"
    NoRoom,

    // a batch: "more than 256 jobs"
    TooManyJobs,

    // a batch: "a job whose part reaches outside the slice, or is empty and begins past its end"
    PartOutside,

    // memory: "a type that holds Bool, an abstract kind or a runtime-sized array"
    NoLayout,

    // memory: "on reading a slice whose length isn't the type's size"
    MemorySize,
}

impl Refusal {
    // "Refusal numbers": they are written once, here.
    pub fn number(self) -> u8
        ensures { result ≡ number self }
    {
        match self {
            Refusal::BadTarget => 1,
            Refusal::BadArgument => 2,
            Refusal::NoStage => 3,
            Refusal::NotConstructible => 4,
            Refusal::SeveralForScalar => 5,
            Refusal::NotAScalar => 6,
            Refusal::Mismatch => 7,
            Refusal::Count {
                wanted: _,
                given: _,
            } => 8,
            Refusal::NoConversion => 9,
            Refusal::NoCommonType => 10,
            Refusal::ArgumentsNeeded => 11,
            Refusal::VectorPart => 12,
            Refusal::FloatsNeeded => 13,
            Refusal::ColumnLength => 14,
            Refusal::IntegerRange => 15,
            Refusal::NotTyped => 16,
            Refusal::FloatRange => 21,
            Refusal::NoRoom => 22,
            Refusal::TooManyJobs => 23,
            Refusal::PartOutside => 24,
            Refusal::NoLayout => 25,
            Refusal::MemorySize => 26,
        }
    }
}

// An answer in numbers, as C takes it: the number of the refusal, or 0; the record's length, or the rank; and for the
// refusal 8 the count wanted and the count given.
#[repr(C)]
#[derive(Clone, Copy)]
pub struct Answer {
    pub refusal: u64,
    pub value: u64,
    pub wanted: u64,
    pub given: u64,
}

impl Answer {
    pub fn accepted(value: u64) -> Answer
        ensures { result ≡ numbers 0 value 0 0 }
    {
        Answer {
            refusal: 0,
            value: value,
            wanted: 0,
            given: 0,
        }
    }

    // A refusal by its number, whichever that is.
    pub fn numbered(n: u8) -> Answer
        ensures { result ≡ numbers n 0 0 0 }
    {
        Answer {
            refusal: n as u64,
            value: 0,
            wanted: 0,
            given: 0,
        }
    }

    pub fn refused(refusal: Refusal) -> Answer
        ensures { result ≡ refused_numbers refusal }
    {
        if let Refusal::Count { wanted, given } = refusal {
            return Answer {
                refusal: refusal.number() as u64,
                value: 0,
                wanted: wanted as u64,
                given: given as u64,
            };
        }
        Answer::numbered(refusal.number())
    }
}

// The answer of an entry that writes a record, in numbers.
impl From<Result<usize, Refusal>> for Answer {
    ghost from_gives = { λ r a. a ≡ in_numbers (λ n. n) (paper r) };

    fn from(answer: Result<usize, Refusal>) -> Answer {
        match answer {
            Ok(n) => Answer::accepted(n as u64),
            Err(refusal) => Answer::refused(refusal),
        }
    }
}

// The bytes of an accepted record, if the lent buffer takes them.
pub fn hand(s: &[u8], out: &mut [u8]) -> Result<usize, Refusal>
    ensures { Told (handed (length out.old) s.now) out.old result out.new }
{
    if s.len() > out.len() {
        return Err(Refusal::NoRoom);
    }
    let mut w = Writer { out, at: 0 };
    w.put_bytes(s);
    Ok(w.at)
}
