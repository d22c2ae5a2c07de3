// The plans: from a street's numbers and a request to the reference signal, the widths and each signal's offset (01, 'The equal plan' and
// 'Moving width').
#![tactic(auto)]

ghost use Rattle.std.specs.Prelude.{◌≡◌, ◌≤◌, ◌<◌, ◌^◌, pos, ◌-ℤ◌, IfOk};
ghost use Rattle.circle.specs.Method.{reference};
ghost use Rattle.street.specs.Steps.{max_halves, timed_street};
ghost use Rattle.offsets.specs.Moved.{moved_offset};
ghost use Rattle.plans.specs.Requests.{moved_plan, Requested};
ghost use Rattle.plans.specs.Volumes.{carried_plan, LargestFor, Carries};
ghost use Rattle.widths.specs.Steps.{shift_width};

use street::{Lists, Refusal, Street};
pub use widths::Request;
use widths::{Base, Shift};

// A plan's numbers. The reference c is counted from 1. B and the widths are in halves, and B can be negative. `rounded` is m,
// the number of links with a rounded time. `starts` and `ends` are instants at c, from 0 to H - 1: where the named outbound band
// starts, as c's red ends, and where the named inbound band ends, as c's red starts.
#[derive(Clone, Copy, Debug, PartialEq, Eq)]
pub struct Plan {
    pub reference: u32,
    pub b: i32,
    pub outbound: u32,
    pub inbound: u32,
    pub rounded: u32,
    pub starts: u32,
    pub ends: u32,
}

// A plan, and beside it for each direction the largest volume, in vehicles an hour, whose platoon fits the direction's width (02,
// 2026-03).
#[derive(Clone, Copy, Debug, PartialEq, Eq)]
pub struct Carried {
    pub plan: Plan,
    pub outbound: u32,
    pub inbound: u32,
}

// A raised width as the signed number that it stands for.
fn signed(raised: u32, h: u32) -> i32
    requires { (raised < 2 ^ 31) × (h < 2 ^ 31) }
    ensures { result ≡ pos raised -ℤ pos h }
{
    (raised as i32) - (h as i32)
}

// A plan's numbers, from what the search settled on, how far the request moves the equal plan, and the reference's own offset.
fn numbers(base: &Base, c: usize, shift: Shift, f: u32) -> Plan
    requires { (c ≡ reference (timed_street base.now.street.now)) × (shift_width shift ≤ max_halves) × (f ≡ moved_offset shift (timed_street base.now.street.now) (reference (timed_street base.now.street.now))) }
    ensures { result ≡ moved_plan shift (timed_street base.now.street.now) base.now.street.now.road.rounded }
{
    let s = base.street;
    let h = 2 * s.cycle;
    let red = s.reds[c];
    let reported = base.reported(shift);
    Plan {
        reference: (c + 1) as u32,
        b: signed(base.raised, h),
        outbound: reported.outbound,
        inbound: reported.inbound,
        rounded: s.road.rounded,
        starts: circle::remainder(h, f + red, 0),
        ends: circle::remainder(h, f, red),
    }
}

// The library's call: the plan of a request, or the first fault of the checks (01, 'The equal plan' and 'Moving width'). The first entries of
// the lent list become the offsets; a refusal leaves the list as it was. The search is made once, for every kind of request.
pub fn plan_for(request: Request, street: &Lists, offsets: &mut [u32]) -> Result<Plan, Refusal>
    ensures { Requested request street.now offsets.old offsets.new result }
{
    let s = Street::new(street, offsets.len())?;
    let anchors = search::reduce(&s);
    let found = search::search(&s, &anchors);
    let base = Base {
        street: &s,
        raised: found.raised,
    };
    base.check(request)?;
    let shift = base.settle(request);
    offsets::write(&base, &anchors, found.signal, shift, offsets);
    Ok(numbers(&base, found.signal, shift, offsets[found.signal]))
}

// An answer with the largest volumes that its widths take, at a cycle and a headway.
pub fn with_volumes(
    answer: Result<Plan, Refusal>,
    cycle: u32,
    headway: u32,
) -> Result<Carried, Refusal>
    ensures plan { carried_plan result ≡ answer }
    ensures volumes { IfOk result (LargestFor cycle headway) }
{
    let plan = answer?;
    Ok(Carried {
        plan,
        outbound: traffic::largest(cycle, headway, plan.outbound),
        inbound: traffic::largest(cycle, headway, plan.inbound),
    })
}

// The plan for volumes in vehicles an hour, whose platoons go by a headway in ticks, with the largest volumes that its widths take (02,
// 2026-03).
pub fn volumes(
    street: &Lists,
    outbound: u32,
    inbound: u32,
    headway: u32,
    offsets: &mut [u32],
) -> Result<Carried, Refusal>
    ensures { Carries outbound inbound headway street.now offsets.old offsets.new result }
{
    let request = Request::Volumes(outbound, inbound, headway);
    with_volumes(plan_for(request, street, offsets), street.cycle, headway)
}
