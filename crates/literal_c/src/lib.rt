// One literal, for programs in other languages that compare with the machine's own conversions: numbers in, one number
// out.
#![tactic(auto)]

ghost use Rattle.std.specs.Prelude.{◌≡◌};
ghost use Rattle.meaning.specs.Floats.{binary16, binary32, binary64, value, bits};
ghost use Rattle.meaning.specs.Scalars.{some?};
ghost use Rattle.meaning.specs.Answers.{refusal_of};
ghost use Rattle.error.specs.Refusals as refusals;
ghost use Rattle.literal.specs.LiteralAnswers.{conv_between};
ghost use Rattle.literal_c.specs.LiteralNumbers.{or_zero, payload_of, ctor_between};

use error::Refusal;
use float::{Binary16, Binary32, Binary64};
use literal::Literal;

#[unsafe(no_mangle)]
pub extern "C" fn vireo_f64_to_f32(x: u64) -> u64
    ensures { result ≡ binary32 bits (binary64 value x) }
{
    float::convert::<Binary64, Binary32>(x)
}

#[unsafe(no_mangle)]
pub extern "C" fn vireo_f64_to_f16(x: u64) -> u64
    ensures { result ≡ binary16 bits (binary64 value x) }
{
    float::convert::<Binary64, Binary16>(x)
}

#[unsafe(no_mangle)]
pub extern "C" fn vireo_f32_to_f16(x: u64) -> u64
    ensures { result ≡ binary16 bits (binary32 value x) }
{
    float::convert::<Binary32, Binary16>(x)
}

#[unsafe(no_mangle)]
pub extern "C" fn vireo_f16_to_f32(x: u64) -> u64
    ensures { result ≡ binary32 bits (binary16 value x) }
{
    float::convert::<Binary16, Binary32>(x)
}

// Whether a literal fits another kind by conversion.
#[unsafe(no_mangle)]
pub extern "C" fn vireo_fits(to: u8, from: u8, bits: u64) -> bool
    ensures { result ≡ some? (conv_between to from bits) }
{
    Literal { kind: from, bits }.fits(to)
}

// The literal converted, or 0 where it does not fit.
#[unsafe(no_mangle)]
pub extern "C" fn vireo_converted(to: u8, from: u8, bits: u64) -> u64
    ensures { result ≡ or_zero (conv_between to from bits) }
{
    Literal { kind: from, bits }.convert_to(to).unwrap_or(0)
}

// What the constructor makes of a literal at a stage.
fn made(stage: u8, to: u8, from: Literal) -> Result<u64, Refusal>
    ensures { refusals.paper result ≡ ctor_between stage to from.kind from.bits }
{
    let rules = literal::rules_at(stage)?;
    let payload = from.construct(rules, to)?;
    Ok(payload)
}

// The payload, or 0 where it refuses.
#[unsafe(no_mangle)]
pub extern "C" fn vireo_made(stage: u8, to: u8, from: u8, bits: u64) -> u64
    ensures { result ≡ payload_of (ctor_between stage to from bits) }
{
    made(stage, to, Literal { kind: from, bits }).unwrap_or(0)
}

// The number of its refusal, or 0 where there is none.
#[unsafe(no_mangle)]
pub extern "C" fn vireo_refusal(stage: u8, to: u8, from: u8, bits: u64) -> u8
    ensures { result ≡ refusal_of (ctor_between stage to from bits) }
{
    match made(stage, to, Literal { kind: from, bits }) {
        Ok(_) => 0,
        Err(refusal) => refusal.number(),
    }
}
