// The street: its limits, its refusal codes, each check, and the constructor (01, 'Units and the street' and 'Codes, in order of
// checking').
#![tactic(auto)]

pub mod checks;

ghost use Rattle.std.specs.Prelude.{◌≡◌, ◌≤◌, length, get_or};
ghost use Rattle.road.specs.Limits.{min_signals, max_signals, max_distance, min_speed, max_speed};
ghost use Rattle.road.specs.Steps.{padded};
ghost use Rattle.street.specs.Limits.{min_cycle, max_cycle, max_platoon, max_volume, min_headway, max_headway};
ghost use Rattle.street.specs.Lists.{typed};
ghost use Rattle.street.specs.Codes.{code_number};
ghost use Rattle.street.specs.Checks.{refuse};
ghost use Rattle.street.specs.Steps.{built};

use road::Road;
use std::marker::Model;

// The refusals of document 01, in the order of its table, and then those of 02; `From` gives the number of each.
#[derive(Clone, Copy, Debug, PartialEq, Eq)]
pub enum Code {
    Sheet,
    Count,
    Room,
    Cycle,
    Red,
    Distance,
    Speed,
    Platoon,
    Width,
    Offset,
    Volume,
    Survey,
    Seconds,
}

// A numbered refusal: what was wrong, and at which signal or link, counted from 1; 0 where the code has no place.
#[derive(Clone, Copy, Debug, PartialEq, Eq)]
pub struct Refusal {
    pub code: Code,
    pub place: u32,
}

// A refusal's number.
impl From<Code> for u32 {
    ghost from_gives = { λ code n. n ≡ code_number code };

    fn from(code: Code) -> u32 {
        match code {
            Code::Sheet => 1,
            Code::Count => 2,
            Code::Room => 3,
            Code::Cycle => 4,
            Code::Red => 5,
            Code::Distance => 6,
            Code::Speed => 7,
            Code::Platoon => 8,
            Code::Width => 9,
            Code::Offset => 10,
            Code::Volume => 11,
            Code::Survey => 12,
            Code::Seconds => 13,
        }
    }
}

// What a check that found a fault answers.
pub fn refused(code: Code, place: u32) -> Result<(), Refusal>
    ensures { result ≡ refuse code place }
{
    Err(Refusal { code, place })
}

// A number of signals, as it was. It is small enough already; once it is held against the most here, the compiler knows that too, and
// unrolls the loops that it bounds.
pub fn bounded(signals: usize) -> usize
    requires { signals ≤ max_signals }
    ensures { result ≡ signals }
{
    signals.min(Street::MAX_SIGNALS)
}

// The numbers that a caller hands over for a street, just as typed: the cycle in ticks, each signal's red in ticks and distance in mm,
// and each link's two speeds in mm/s.
#[derive(Drop)]
pub struct Lists<'a> {
    pub cycle: u32,
    pub reds: &'a [u32],
    pub distances: &'a [u32],
    pub outbound: &'a [u32],
    pub inbound: &'a [u32],
}

impl<'a> Model for Lists<'a> {
    ghost use Rattle.street.specs.Lists.{Lists, typed};

    ghost Value = { Lists };

    ghost view = { λ a. typed a.cycle a.reds.now a.distances.now a.outbound.now a.inbound.now };
}

impl<'a> Lists<'a> {
    // The lists of a street, one by one as a C caller hands them over.
    pub fn new(
        cycle: u32,
        reds: &'a [u32],
        distances: &'a [u32],
        outbound: &'a [u32],
        inbound: &'a [u32],
    ) -> Lists<'a>
        ensures { result ≡ typed cycle reds.now distances.now outbound.now inbound.now }
    {
        Lists {
            cycle,
            reds,
            distances,
            outbound,
            inbound,
        }
    }
}

// A street whose checks have all passed, as the search needs it: a road, the cycle in ticks, and each signal's red in ticks. What the
// checks tell of its numbers holds of every such street.
#[derive(Clone, Copy)]
pub struct Street {
    pub road: Road,
    pub cycle: u32,
    pub reds: [u32; Street::MAX_SIGNALS],
}

impl Model for Street {
    ghost use Rattle.street.specs.Steps.{Checked, Sound, timed_street};

    ghost Value = { Checked };

    ghost view = { λ a. record { road = a.road; cycle = a.cycle; reds = a.reds } };

    ghost invariant = { λ a. Sound (timed_street (record { road = a.road; cycle = a.cycle; reds = a.reds })) };

    ghost inverse = { λ s. record { road = s.road; cycle = s.cycle; reds = s.reds } };
}

// A list as the entries of a street: copied into an array of zeros.
fn padded(list: &[u32]) -> [u32; Street::MAX_SIGNALS]
    requires { length list.now ≤ max_signals }
    ensures { result ≡ padded (length list.now) (λ j. get_or list.now j 0) }
{
    let mut all = [0; Street::MAX_SIGNALS];
    all[..list.len()].copy_from_slice(list);
    all
}

impl Street {
    // Document 01's limits, written once. The largest red is the cycle less 1, and the least is none (02, 2026-05).
    pub const MIN_SIGNALS: usize = 1;

    pub const MAX_SIGNALS: usize = Road::MAX_SIGNALS;

    pub const MIN_CYCLE: u32 = 10;

    pub const MAX_CYCLE: u32 = 6_000;

    pub const MAX_DISTANCE: u32 = 20_000_000;

    pub const MIN_SPEED: u32 = 1_000;

    pub const MAX_SPEED: u32 = 40_000;

    pub const MAX_PLATOON: u32 = 100_000;

    // And those of 02, 2026-03: a volume in vehicles an hour, a headway in ticks.
    pub const MAX_VOLUME: u32 = 10_000;

    pub const MIN_HEADWAY: u32 = 1;

    pub const MAX_HEADWAY: u32 = 100;

    // The constructor: every check of a plan over a lent list of `lent` entries, in document 01's order, and then the street.
    pub fn new(street: &Lists, lent: usize) -> Result<Street, Refusal>
        ensures { result ≡ built street.now lent }
    {
        checks::judged(street, lent)?;
        Ok(Street {
            road: Road::new(street.distances, street.outbound, street.inbound),
            cycle: street.cycle,
            reds: padded(street.reds),
        })
    }
}

// The limits of the code are those of the definitions. The body is empty: the contract is all there is to this.
fn limits()
    ensures signals { (Street.MIN_SIGNALS ≡ min_signals) × (Street.MAX_SIGNALS ≡ max_signals) }
    ensures ticks { (Street.MIN_CYCLE ≡ min_cycle) × (Street.MAX_CYCLE ≡ max_cycle) }
    ensures roads { (Street.MAX_DISTANCE ≡ max_distance) × (Street.MIN_SPEED ≡ min_speed)
        × (Street.MAX_SPEED ≡ max_speed) × (Street.MAX_PLATOON ≡ max_platoon) }
    ensures traffic { (Street.MAX_VOLUME ≡ max_volume) × (Street.MIN_HEADWAY ≡ min_headway)
        × (Street.MAX_HEADWAY ≡ max_headway) }
{}
