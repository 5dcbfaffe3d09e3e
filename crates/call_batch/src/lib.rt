// Document 02, request 01, and document 01's form for it: "A call takes one lent slice and a list of jobs". First a
// function for one job from plain numbers, then a thin walk over a lent slice of job structs.
#![tactic(auto)]

ghost use Rattle.std.specs.Prelude.{◌≡◌, ◌+◌, ◌≤◌, ◌<◌, length};
ghost use Rattle.meaning.specs.Batch.{parts_inside};
ghost use Rattle.error.specs.Refusals.{paper};
ghost use Rattle.call_batch.specs.Jobs.{job_of, Batched};
ghost use Rattle.call_batch.specs.Steps.{OneDone, inside_of, judgement, Ready, Stepped};

use error::{Answer, Refusal};

// A part of the lent slice: where it starts, and how many bytes it has.
#[repr(C)]
#[derive(Clone, Copy)]
pub struct Part {
    pub start: usize,
    pub len: usize,
}

// A job names its target's part, its arguments' part and its stage. Once the call is made its answer stands here too:
// what `call_ctor` answers, in numbers, and where its record begins in the result buffer (a refused job's is where the
// next record may begin).
#[repr(C)]
#[derive(Clone, Copy)]
pub struct Job {
    pub target: Part,
    pub args: Part,
    pub stage: u8,
    pub answer: Answer,
    pub at: usize,
}

// A job that was done, and where the next record may begin.
#[derive(Clone, Copy)]
struct Step {
    job: Job,
    next: usize,
}

#[derive(Clone, Copy)]
struct Limit;

impl Limit {
    // "more than 256 jobs"
    pub const JOBS: usize = 256;
}

// ---- one job

// One job, from plain numbers: exactly as it would alone with the buffer that is left, which is `out` from `at` on.
pub fn one_job(
    bytes: &[u8],
    target: usize,
    target_len: usize,
    args: usize,
    args_len: usize,
    stage: u8,
    out: &mut [u8],
    at: usize,
) -> Answer
    requires { (target + target_len ≤ length bytes.now) × (args + args_len ≤ length bytes.now) × (at ≤ length out.old) }
    ensures { OneDone bytes.now target target_len args args_len stage out.old at result out.new }
{
    let target_end = target + target_len;
    let args_end = args + args_len;
    Answer::from(builtin::call_ctor(
        stage,
        &bytes[target..target_end],
        &bytes[args..args_end],
        &mut out[at..],
    ))
}

// One job, by value: taken apart, done, and made anew with its answer.
fn do_job(bytes: &[u8], job: Job, out: &mut [u8], at: usize) -> Step
    requires { Ready bytes.now job out.old at }
    ensures { Stepped bytes.now job out.old at result out.new }
{
    let target = job.target;
    let args = job.args;
    let at_stage = job.stage;
    let answer = one_job(
        bytes,
        target.start,
        target.len,
        args.start,
        args.len,
        at_stage,
        out,
        at,
    );
    let done = Job {
        target: target,
        args: args,
        stage: at_stage,
        answer: answer,
        at: at,
    };
    Step {
        job: done,
        next: at + answer.value as usize,
    }
}

// ---- the refusals of the whole call, before anything is written

// Start and length are not added: their sum may be past 64 bits.
fn is_inside(room: usize, part: Part) -> bool
    ensures { result ≡ inside_of room part }
{
    if part.start > room {
        return false;
    }
    part.len <= room - part.start
}

// Whether both parts of a job are inside a slice of so many bytes.
fn parts_inside(room: usize, job: Job) -> bool
    ensures { result ≡ parts_inside room (job_of job) }
{
    let target = job.target;
    let args = job.args;
    is_inside(room, target) && is_inside(room, args)
}

// Whether the call is done at all: "more than 256 jobs" is 23, and then a part outside is 24.
fn judged(room: usize, jobs: &[Job]) -> Result<(), Refusal>
    ensures { paper result ≡ judgement room jobs.now }
{
    if jobs.len() > Limit::JOBS {
        return Err(Refusal::TooManyJobs);
    }
    for job in jobs {
        if !parts_inside(room, *job) {
            return Err(Refusal::PartOutside);
        }
    }
    Ok(())
}

// ---- the entry

// The thin walk: the jobs' parts are looked at first, and then, where no refusal was found, each job is done in its
// turn. Nothing is assumed of the bytes or of the jobs.
pub fn call_batch(bytes: &[u8], jobs: &mut [Job], out: &mut [u8]) -> Answer
    ensures { Batched bytes.now jobs.old out.old result jobs.new out.new }
{
    if let Err(refusal) = judged(bytes.len(), jobs) {
        return Answer::refused(refusal);
    }
    let mut at = 0;
    for k in 0..jobs.len() {
        let step = do_job(bytes, jobs[k], out, at);
        at = step.next;
        jobs[k] = step.job;
    }
    Answer::accepted(at as u64)
}
