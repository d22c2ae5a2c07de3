// Each check of a street by itself, in the order of document 01's code table; those with which a call opens, those of a street's
// numbers, and the first fault of a plan's checks, which are both.
ghost use Rattle.std.specs.Prelude.{◌≡◌, ◌≤◌, ◌<◌, not, length, Ok};
ghost use Rattle.circle.specs.Over.{◌or◌};
ghost use Rattle.road.specs.Limits.{max_signals, min_speed, max_speed};
ghost use Rattle.street.specs.Checks.{first_fault, within, bad_distance, count_check, room_check, cycle_check, red_check, distance_check, speed_check, counts, opening_checks, number_checks, plan_checks};

use crate::{Code, Lists, Refusal, Street, refused};

// The lists' lengths are judged before the number of links is formed, so no count of 0 loses 1.
pub fn count(
    signals: usize,
    distances: usize,
    outbound: usize,
    inbound: usize,
) -> Result<(), Refusal>
    ensures { result ≡ count_check signals distances outbound inbound }
{
    if signals < Street::MIN_SIGNALS {
        return refused(Code::Count, 0);
    }
    if signals > Street::MAX_SIGNALS {
        return refused(Code::Count, 0);
    }
    if distances != signals {
        return refused(Code::Count, 0);
    }
    let links = signals - 1;
    if outbound != links {
        return refused(Code::Count, 0);
    }
    if inbound != links {
        return refused(Code::Count, 0);
    }
    Ok(())
}

pub fn room(signals: usize, lent: usize) -> Result<(), Refusal>
    ensures { result ≡ room_check signals lent }
{
    if lent < signals {
        return refused(Code::Room, 0);
    }
    Ok(())
}

// Whether a number lies outside its range, both ends of which belong to it.
fn outside(low: u32, high: u32, x: u32) -> bool
    ensures { result ≡ not (within low high x) }
{
    !(low..=high).contains(&x)
}

pub fn cycle(ticks: u32) -> Result<(), Refusal>
    ensures { result ≡ cycle_check ticks }
{
    if outside(Street::MIN_CYCLE, Street::MAX_CYCLE, ticks) {
        return refused(Code::Cycle, 0);
    }
    Ok(())
}

pub fn red(ticks: u32, reds: &[u32]) -> Result<(), Refusal>
    requires { (1 ≤ ticks) × (length reds.now ≤ max_signals) }
    ensures { result ≡ red_check ticks reds.now }
{
    for (i, red) in reds.iter().enumerate() {
        if ticks - 1 < *red {
            return refused(Code::Red, (i + 1) as u32);
        }
    }
    Ok(())
}

fn misplaced(distances: &[u32], i: usize) -> bool
    requires { i < length distances.now }
    ensures { result ≡ bad_distance distances.now i }
{
    distances[i] > Street::MAX_DISTANCE || i > 0 && distances[i] <= distances[i - 1]
}

pub fn distance(distances: &[u32]) -> Result<(), Refusal>
    requires { length distances.now ≤ max_signals }
    ensures { result ≡ distance_check distances.now }
{
    for i in 0..distances.len() {
        if misplaced(distances, i) {
            return refused(Code::Distance, (i + 1) as u32);
        }
    }
    Ok(())
}

fn off_speed(outbound: u32, inbound: u32) -> bool
    ensures { result ≡ (not (within min_speed max_speed outbound) or not (within min_speed max_speed inbound)) }
{
    outside(Street::MIN_SPEED, Street::MAX_SPEED, outbound)
        || outside(Street::MIN_SPEED, Street::MAX_SPEED, inbound)
}

pub fn speed(outbound: &[u32], inbound: &[u32]) -> Result<(), Refusal>
    requires { (length outbound.now ≤ max_signals) × (length inbound.now ≡ length outbound.now) }
    ensures { result ≡ speed_check outbound.now inbound.now }
{
    for i in 0..outbound.len() {
        if off_speed(outbound[i], inbound[i]) {
            return refused(Code::Speed, (i + 1) as u32);
        }
    }
    Ok(())
}

// The check of the lists' lengths against each other.
fn counts(street: &Lists) -> Result<(), Refusal>
    ensures { result ≡ counts street.now }
{
    count(
        street.reds.len(),
        street.distances.len(),
        street.outbound.len(),
        street.inbound.len(),
    )
}

// The checks with which a call that lends a list opens: counts, room and cycle.
pub fn opening(street: &Lists, lent: usize) -> Result<(), Refusal>
    ensures { result ≡ first_fault (opening_checks street.now lent) }
{
    counts(street)?;
    room(street.reds.len(), lent)?;
    cycle(street.cycle)
}

// The numbers of a street whose counts and cycle have passed: reds, distances and speeds.
pub fn numbers(street: &Lists) -> Result<(), Refusal>
    requires { (1 ≤ street.now.cycle) × (counts street.now ≡ Ok tt) }
    ensures { result ≡ first_fault (number_checks street.now) }
{
    red(street.cycle, street.reds)?;
    distance(street.distances)?;
    speed(street.outbound, street.inbound)
}

// The first fault of a plan's checks, in their order.
pub fn judged(street: &Lists, lent: usize) -> Result<(), Refusal>
    ensures { result ≡ plan_checks street.now lent }
{
    opening(street, lent)?;
    numbers(street)
}
