// Where each red ends, seen from where a direction departs: the instant there of the car that comes to the signal as its red ends,
// reduced to the cycle once.
ghost use Rattle.std.specs.Prelude.{◌≡◌, ◌≤◌};
ghost use Rattle.road.specs.Steps.{max_time};
ghost use Rattle.street.specs.Steps.{timed_street};
ghost use Rattle.bands.specs.Steps.{lag_by, Placed, Ended};

use crate::Direction;
use street::Street;

// How long after its departure a car is at a signal, in halves. Outbound it departs at signal 1, inbound at signal n, whose inbound
// time is `last`.
fn lag(direction: Direction, out: u32, back: u32, last: u32) -> u32
    requires { (out ≤ max_time) × (back ≤ last) × (last ≤ max_time) }
    ensures { result ≡ lag_by direction out back last }
{
    match direction {
        Direction::Outbound => 2 * out,
        Direction::Inbound => 2 * (last - back),
    }
}

// Every signal's red end, under given offsets.
pub fn ends(s: &Street, offsets: &[u32], direction: Direction) -> [u32; Street::MAX_SIGNALS]
    requires { Placed (timed_street s.now) offsets.now }
    ensures { Ended direction (timed_street s.now) offsets.now result }
{
    let h = 2 * s.cycle;
    let last = s.road.inbound[s.road.signals - 1];
    let mut all = [0; Street::MAX_SIGNALS];
    for j in 0..street::bounded(s.road.signals) {
        let after = lag(direction, s.road.outbound[j], s.road.inbound[j], last);
        all[j] = circle::remainder(h, offsets[j] + s.reds[j], after);
    }
    all
}
