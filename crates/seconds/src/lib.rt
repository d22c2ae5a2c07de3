// Whole seconds for a cabinet (02, 2026-06): which cycles have a whole number of them, the second nearest to the start of a signal's green,
// and a list of offsets turned into seconds. No street enters.
#![tactic(auto)]

ghost use Rattle.std.specs.Prelude.{◌≡◌, ◌++◌, ◌*◌, ◌≤◌, ◌<◌, length, drop, get_or, Ok};
ghost use Rattle.circle.specs.Over.{list_below};
ghost use Rattle.street.specs.Limits.{max_cycle};
ghost use Rattle.seconds.specs.Seconds.{second_ticks, second_halves, seconds_check, second_of};
ghost use Rattle.seconds.specs.Steps.{Offsets};

use street::{Code, Refusal, refused};

// A second in ticks and in halves, and half of it in halves.
const SECOND_TICKS: u32 = 10;

const SECOND_HALVES: u32 = 20;

const HALF_A_SECOND: u32 = 10;

// The numbers of the code are those of the definitions. The body is empty: the contract is all there is to this.
fn limits()
    ensures { (SECOND_TICKS ≡ second_ticks) × (SECOND_HALVES ≡ second_halves) × (2 * HALF_A_SECOND ≡ second_halves) }
{}

// Whether a cycle has a whole number of seconds.
pub fn check(cycle: u32) -> Result<(), Refusal>
    ensures { result ≡ seconds_check cycle }
{
    if cycle % SECOND_TICKS > 0 {
        return refused(Code::Seconds, 0);
    }
    Ok(())
}

// The second at which a signal turns green, from its offset and its red in a frame. Comparisons go round the cycle, so that nothing is
// divided by it.
fn second(cycle: u32, frame: u32, offset: u32, red: u32) -> u32
    requires { (cycle ≤ max_cycle) × (seconds_check cycle ≡ Ok tt) × (frame < 2 * cycle) × (offset < 2 * cycle) × (red < cycle) }
    ensures { result ≡ second_of cycle frame offset red }
{
    let h = 2 * cycle;
    let centre = circle::back(h, offset, frame);
    let green = circle::back(h, centre, circle::back(h, 0, red));
    let nearest = (green + HALF_A_SECOND) / SECOND_HALVES;
    if SECOND_TICKS * nearest == cycle {
        return 0;
    }
    nearest
}

// The offsets at the front of a list become seconds, where they stand; the entries behind them stay.
pub fn convert(cycle: u32, frame: u32, reds: &[u32], list: &mut [u32])
    requires { (cycle ≤ max_cycle) × (seconds_check cycle ≡ Ok tt) × (frame < 2 * cycle) × Offsets cycle reds.now list.old }
    ensures { list.new ≡ list_below (length reds.now) (λ j. second_of cycle frame (get_or list.old j 0) (get_or reds.now j 0)) ++ drop (length reds.now) list.old }
{
    for (j, red) in reds.iter().enumerate() {
        list[j] = second(cycle, frame, list[j], *red);
    }
}
