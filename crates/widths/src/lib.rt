// Requests, and the widths that they come to (01, 'Moving width'). Widths and platoons are in halves; B comes raised by the cycle H,
// so that it is never negative.
#![tactic(auto)]

ghost use Rattle.std.specs.Prelude.{◌≡◌, ◌*◌, ◌≤◌, ◌<◌, ◌^◌, pos, Ok};
ghost use Rattle.circle.specs.Moved.{g, other_width, found_width, platoon_width};
ghost use Rattle.street.specs.Limits.{max_cycle, max_platoon};
ghost use Rattle.street.specs.Steps.{max_halves, timed_street};
ghost use Rattle.widths.specs.Moved.{platoon_shift, shift_of};
ghost use Rattle.widths.specs.Steps.{Raised, portion_of, shift_width, widths_of};
ghost use Rattle.widths.specs.Checks.{platoon_check, traffic_check, width_check, request_check};

use std::cmp::Ordering;
use street::{Code, Refusal, Street, refused};

// What a caller asks for: the equal plan, a width for one direction, widths by the platoons' lengths, outbound and then inbound, or by
// their volumes and a headway (02, 2026-03). Widths and lengths are in halves, volumes in vehicles an hour, a headway is in ticks.
#[derive(Clone, Copy, Debug, PartialEq, Eq)]
pub enum Request {
    Equal,
    Outbound(u32),
    Inbound(u32),
    Platoons(u32, u32),
    Volumes(u32, u32, u32),
}

// What a request comes to: the equal plan as it is, or moved so that one direction has this width.
#[derive(Clone, Copy, Debug, PartialEq, Eq)]
pub enum Shift {
    Unmoved,
    Outbound(u32),
    Inbound(u32),
}

// The two widths that a plan reports.
#[derive(Clone, Copy, Debug, PartialEq, Eq)]
pub struct Widths {
    pub outbound: u32,
    pub inbound: u32,
}

// A street with its B, raised by the cycle H.
#[derive(Clone, Copy)]
pub struct Base<'a> {
    pub street: &'a Street,
    pub raised: u32,
    ghost base: { Raised (timed_street street.now) raised },
}

// Neither platoon is too long; the outbound one is judged first.
fn short_enough(outbound: u32, inbound: u32) -> Result<(), Refusal>
    ensures { result ≡ platoon_check outbound inbound }
{
    if Street::MAX_PLATOON < outbound {
        return refused(Code::Platoon, 1);
    }
    if Street::MAX_PLATOON < inbound {
        return refused(Code::Platoon, 2);
    }
    Ok(())
}

// Neither volume is too large, the headway is in its range, and then neither of the platoons is too long.
fn light_enough(cycle: u32, outbound: u32, inbound: u32, headway: u32) -> Result<(), Refusal>
    requires { cycle ≤ max_cycle }
    ensures { result ≡ traffic_check cycle outbound inbound headway }
{
    traffic::check(outbound, inbound, headway)?;
    short_enough(
        traffic::platoon(cycle, headway, outbound),
        traffic::platoon(cycle, headway, inbound),
    )
}

// A part of a whole, rounded down.
fn portion(whole: u32, part: u32, sum: u32) -> u32
    requires { (whole * part < 2 ^ 32) × (1 ≤ sum) }
    ensures { result ≡ portion_of whole part sum }
{
    whole * part / sum
}

impl Base<'_> {
    // g, the widest band that any signal lets through: the least H - 2r(j).
    fn widest(&self) -> u32
        ensures { pos result ≡ g (timed_street self.now.street.now) }
    {
        let s = self.street;
        let h = 2 * s.cycle;
        let mut low = h - 2 * s.reds[0];
        for j in 1..s.road.signals {
            low = low.min(h - 2 * s.reds[j]);
        }
        low
    }

    // A requested width lies from the larger of 1 and B up to g.
    fn in_range(&self, width: u32) -> Result<(), Refusal>
        ensures { result ≡ width_check (timed_street self.now.street.now) width }
    {
        let most = self.widest();
        if most < width {
            return refused(Code::Width, 0);
        }
        if width < 1 {
            return refused(Code::Width, 0);
        }
        let s = self.street;
        if width + 2 * s.cycle < self.raised {
            return refused(Code::Width, 0);
        }
        Ok(())
    }

    // The check of what a request adds to a plan's lists.
    pub fn check(&self, request: Request) -> Result<(), Refusal>
        ensures { result ≡ request_check request (timed_street self.now.street.now) }
    {
        match request {
            Request::Equal => Ok(()),
            Request::Outbound(width) | Request::Inbound(width) => self.in_range(width),
            Request::Platoons(outbound, inbound) => short_enough(outbound, inbound),
            Request::Volumes(outbound, inbound, headway) => {
                let s = self.street;
                light_enough(s.cycle, outbound, inbound, headway)
            }
        }
    }

    // The width that the platoon rule finds for the longer platoon, from its length and the sum of both: its part of 2B where both fit
    // into that, else its length; at most g.
    fn found(&self, most: u32, longer: u32, sum: u32) -> u32
        requires { (pos most ≡ g (timed_street self.now.street.now)) × (longer ≤ max_platoon) × (1 ≤ sum) × (sum ≤ 2 * max_platoon) }
        ensures { result ≡ found_width (timed_street self.now.street.now) longer sum }
    {
        let s = self.street;
        let h = 2 * s.cycle;
        let fits = sum + 2 * h <= 2 * self.raised;
        let asked = if fits {
            portion(2 * self.raised - 2 * h, longer, sum)
        } else {
            longer
        };
        asked.min(most)
    }

    // What a width for one direction leaves the other: 2B less it, or 0.
    fn other(&self, width: u32) -> u32
        requires { width ≤ max_halves }
        ensures { result ≡ other_width (timed_street self.now.street.now) width }
    {
        let s = self.street;
        (2 * self.raised).saturating_sub(4 * s.cycle + width)
    }

    // The width that the platoon rule gives the longer platoon: g where the width found leaves the other side 0, else the width found.
    fn share(&self, longer: u32, sum: u32) -> u32
        requires { (longer ≤ max_platoon) × (1 ≤ sum) × (sum ≤ 2 * max_platoon) }
        ensures { result ≡ platoon_width (timed_street self.now.street.now) longer sum }
    {
        let most = self.widest();
        let width = self.found(most, longer, sum);
        if self.other(width) == 0 {
            return most;
        }
        width
    }

    // The platoon rule: the longer platoon's direction is favoured, and neither when they are equal.
    fn favoured(&self, outbound: u32, inbound: u32) -> Shift
        requires { (outbound ≤ max_platoon) × (inbound ≤ max_platoon) }
        ensures { result ≡ platoon_shift (timed_street self.now.street.now) outbound inbound }
    {
        match outbound.cmp(&inbound) {
            Ordering::Equal => Shift::Unmoved,
            Ordering::Greater => Shift::Outbound(self.share(outbound, outbound + inbound)),
            Ordering::Less => Shift::Inbound(self.share(inbound, outbound + inbound)),
        }
    }

    // What a request that passed its check comes to.
    pub fn settle(&self, request: Request) -> Shift
        requires { request_check request (timed_street self.now.street.now) ≡ Ok tt }
        ensures { result ≡ shift_of request (timed_street self.now.street.now) }
    {
        match request {
            Request::Equal => Shift::Unmoved,
            Request::Outbound(width) => Shift::Outbound(width),
            Request::Inbound(width) => Shift::Inbound(width),
            Request::Platoons(outbound, inbound) => self.favoured(outbound, inbound),
            Request::Volumes(outbound, inbound, headway) => {
                let s = self.street;
                self.favoured(
                    traffic::platoon(s.cycle, headway, outbound),
                    traffic::platoon(s.cycle, headway, inbound),
                )
            }
        }
    }

    // The two widths of a plan.
    pub fn reported(&self, shift: Shift) -> Widths
        requires { shift_width shift ≤ max_halves }
        ensures { result ≡ widths_of shift (timed_street self.now.street.now) }
    {
        match shift {
            Shift::Unmoved => {
                let s = self.street;
                let equal = self.raised.saturating_sub(2 * s.cycle);
                Widths {
                    outbound: equal,
                    inbound: equal,
                }
            }
            Shift::Outbound(width) => Widths {
                outbound: width,
                inbound: self.other(width),
            },
            Shift::Inbound(width) => Widths {
                outbound: self.other(width),
                inbound: width,
            },
        }
    }
}
