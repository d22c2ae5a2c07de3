// The plan of a request with cabinet offsets (02, 2026-06): in the lent list stands the second at which each signal turns green. specs/ has
// the call, and what the cabinets keep of a plan; that is proved here, from the plans' promises.
#![tactic(auto)]

ghost use Rattle.cabinets.specs.Calls.{InSeconds};

use plans::{Plan, Request};
use street::{Lists, Refusal, checks};

// The call for every kind of request: the plan's own answer, or the first fault of the checks, among which a cycle that is no whole number
// of seconds comes directly after the cycle's range. The first entries of the lent list become seconds; a refusal leaves the list as it was.
pub fn plan_for(request: Request, street: &Lists, seconds: &mut [u32]) -> Result<Plan, Refusal>
    ensures { InSeconds request street.now seconds.old seconds.new result }
{
    checks::opening(street, seconds.len())?;
    seconds::check(street.cycle)?;
    let plan = plans::plan_for(request, street, seconds)?;
    seconds::convert(street.cycle, 0, street.reds, seconds);
    Ok(plan)
}
