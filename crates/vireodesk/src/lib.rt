// The entries for C: numbers, byte slices, and slices of structs that hold numbers. A slice passes as a pointer and then a length.
#![tactic(auto)]

ghost use Rattle.std.specs.Prelude.{◌≡◌, length};
ghost use Rattle.meaning.specs.Entries.{rank_answer, convert_answer, build_answer, type_answer};
ghost use Rattle.meaning.specs.Layout.{write_answer, read_answer, layout_answer};
ghost use Rattle.error.specs.Numbers.{in_numbers, Records};
ghost use Rattle.call_batch.specs.Jobs.{Batched};
ghost use Rattle.vireodesk.specs.MemoryLayouts.{layout_numbers};

use call_batch::Job;
use error::Answer;

#[unsafe(no_mangle)]
pub extern "C" fn vireo_conversion_rank(target: &[u8], args: &[u8]) -> Answer
    ensures { result ≡ in_numbers (λ n. n) (rank_answer target.now args.now) }
{
    match rank::conversion_rank(target, args) {
        Ok(n) => Answer::accepted(n as u64),
        Err(n) => Answer::refused(n),
    }
}

#[unsafe(no_mangle)]
pub extern "C" fn vireo_convert_to(target: &[u8], args: &[u8], out: &mut [u8]) -> Answer
    ensures { Records (convert_answer target.now args.now (length out.old)) out.old result
        out.new }
{
    Answer::from(convert_to::convert_to(target, args, out))
}

#[unsafe(no_mangle)]
pub extern "C" fn vireo_call_ctor(stage: u8, target: &[u8], args: &[u8], out: &mut [u8]) -> Answer
    ensures { Records (build_answer stage target.now args.now (length out.old)) out.old result
        out.new }
{
    Answer::from(builtin::call_ctor(stage, target, args, out))
}

#[unsafe(no_mangle)]
pub extern "C" fn vireo_type_ctor(target: &[u8], args: &[u8], out: &mut [u8]) -> Answer
    ensures { Records (type_answer target.now args.now (length out.old)) out.old result
        out.new }
{
    Answer::from(typing::type_ctor(target, args, out))
}

#[unsafe(no_mangle)]
pub extern "C" fn vireo_call_batch(bytes: &[u8], jobs: &mut [Job], out: &mut [u8]) -> Answer
    ensures { Batched bytes.now jobs.old out.old result jobs.new out.new }
{
    call_batch::call_batch(bytes, jobs, out)
}

#[unsafe(no_mangle)]
pub extern "C" fn vireo_write_layout(args: &[u8], out: &mut [u8]) -> Answer
    ensures { Records (write_answer args.now (length out.old)) out.old result out.new }
{
    Answer::from(write_layout::write_layout(args, out))
}

#[unsafe(no_mangle)]
pub extern "C" fn vireo_read_layout(target: &[u8], memory: &[u8], out: &mut [u8]) -> Answer
    ensures { Records (read_answer target.now memory.now (length out.old)) out.old result
        out.new }
{
    Answer::from(read_layout::read_layout(target, memory, out))
}

// The answer of `layout_of` in numbers: the number of the refusal, or 0; and the size and the alignment.
#[repr(C)]
#[derive(Clone, Copy)]
pub struct MemoryLayout {
    pub refusal: u64,
    pub size: u64,
    pub align: u64,
}

#[unsafe(no_mangle)]
pub extern "C" fn vireo_layout_of(target: &[u8]) -> MemoryLayout
    ensures { result ≡ layout_numbers (layout_answer target.now) }
{
    match layout::layout_of(target) {
        Ok(layout) => MemoryLayout {
            refusal: 0,
            size: layout.size as u64,
            align: layout.align as u64,
        },
        Err(refusal) => MemoryLayout {
            refusal: refusal.number() as u64,
            size: 0,
            align: 0,
        },
    }
}
