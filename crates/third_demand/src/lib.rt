// The third demand about the two published entries: specs/ states it by what they return and leave in their buffers,
// proofs/ shows it. The one function here makes the two calls that the statement speaks of, so that `Calls` is what the
// entries' contracts say, and not a copy of it.
#![tactic(auto)]

ghost use Rattle.third_demand.specs.Entries.{Calls};

use error::Refusal;

#[derive(Clone, Copy)]
pub struct Results {
    pub typing: Result<usize, Refusal>,
    pub building: Result<usize, Refusal>,
}

// Typing, then building, each with its own buffer. Target, arguments and types are lent shared, so neither call writes them.
pub fn both(
    stage: u8,
    target: &[u8],
    args: &[u8],
    types: &[u8],
    named: &mut [u8],
    built: &mut [u8],
) -> Results
    ensures { Calls stage target.now args.now types.now
        named.old result.typing named.new built.old result.building built.new }
{
    let typing = typing::type_ctor(target, types, named);
    let building = builtin::call_ctor(stage, target, args, built);
    Results { typing, building }
}
