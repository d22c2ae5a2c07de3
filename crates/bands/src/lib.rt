// The measure of given offsets: each direction's width, and the smallest start that attains it (01, 'Measuring').
#![tactic(auto)]

mod ends;

ghost use Rattle.std.specs.Prelude.{◌≡◌, ◌≤◌, length};
ghost use Rattle.road.specs.Limits.{max_signals};
ghost use Rattle.street.specs.Limits.{max_cycle};
ghost use Rattle.street.specs.Steps.{timed_street};
ghost use Rattle.street.specs.Verdicts.{answered};
ghost use Rattle.stretches.specs.Stretches.{band_of};
ghost use Rattle.bands.specs.Steps.{Placed, way_of};
ghost use Rattle.bands.specs.Measure.{offset_check, measured_of, measurement_of};

use street::{Code, Lists, Refusal, Street, refused};
pub use stretches::Band;

// Both directions' bands under given offsets.
#[derive(Clone, Copy, Debug, PartialEq, Eq)]
pub struct Measured {
    pub outbound: Band,
    pub inbound: Band,
}

// The two ways along the street.
#[derive(Clone, Copy, Debug, PartialEq, Eq)]
enum Direction {
    Outbound,
    Inbound,
}

// The check of the offsets: a fault where one is not below H.
fn offset(cycle: u32, offsets: &[u32]) -> Result<(), Refusal>
    requires { (cycle ≤ max_cycle) × (length offsets.now ≤ max_signals) }
    ensures { result ≡ offset_check cycle offsets.now }
{
    let h = 2 * cycle;
    for (j, offset) in offsets.iter().enumerate() {
        if h <= *offset {
            return refused(Code::Offset, (j + 1) as u32);
        }
    }
    Ok(())
}

// A direction's band: one search over the red ends, brought back to where the direction departs.
fn band(s: &Street, offsets: &[u32], direction: Direction) -> Band
    requires { Placed (timed_street s.now) offsets.now }
    ensures { result ≡ band_of (way_of direction (timed_street s.now) offsets.now) }
{
    let ends = ends::ends(s, offsets, direction);
    let n = s.road.signals;
    stretches::widest(2 * s.cycle, &s.reds[..n], &ends[..n])
}

// The measure on a street whose own checks have passed.
fn on_street(s: &Street, offsets: &[u32]) -> Result<Measured, Refusal>
    requires { length offsets.now ≡ s.now.road.signals }
    ensures { result ≡ answered (offset_check s.now.cycle offsets.now) (measured_of (timed_street s.now) offsets.now) }
{
    offset(s.cycle, offsets)?;
    Ok(Measured {
        outbound: band(s, offsets, Direction::Outbound),
        inbound: band(s, offsets, Direction::Inbound),
    })
}

// The measure (01, 'Measuring'), or the first fault of the checks. A list of offsets that is not as long as the reds is a fault of
// the count, like any other list's, so it is as good to find it first.
pub fn measure(street: &Lists, offsets: &[u32]) -> Result<Measured, Refusal>
    ensures { result ≡ measurement_of street.now offsets.now }
{
    if offsets.len() != street.reds.len() {
        return Err(Refusal {
            code: Code::Count,
            place: 0,
        });
    }
    let s = Street::new(street, street.reds.len())?;
    on_street(&s, offsets)
}
