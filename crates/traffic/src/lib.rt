// Vehicles an hour and platoons (02, 2026-03): the platoon of a volume, the largest volume whose platoon fits a width, and the check of
// volumes and their headway. A volume is in vehicles an hour, a cycle and a headway are in ticks, platoons and widths in halves.
#![tactic(auto)]

ghost use Rattle.std.specs.Prelude.{◌≡◌, ◌≤◌};
ghost use Rattle.street.specs.Limits.{max_cycle, max_volume, max_headway};
ghost use Rattle.traffic.specs.Volumes.{platoon_of, Largest};
ghost use Rattle.traffic.specs.Checks.{volume_check};

use street::{Code, Refusal, Street, refused};

// Half an hour, in ticks.
const HALF_HOUR: u64 = 18_000;

// Neither volume is too large, and the headway is in its range; the outbound volume is judged first.
pub fn check(outbound: u32, inbound: u32, headway: u32) -> Result<(), Refusal>
    ensures { result ≡ volume_check outbound inbound headway }
{
    if Street::MAX_VOLUME < outbound {
        return refused(Code::Volume, 1);
    }
    if Street::MAX_VOLUME < inbound {
        return refused(Code::Volume, 2);
    }
    if headway < Street::MIN_HEADWAY {
        return refused(Code::Volume, 3);
    }
    if Street::MAX_HEADWAY < headway {
        return refused(Code::Volume, 3);
    }
    Ok(())
}

// The platoon of a volume that was judged: its vehicles of one cycle, one headway for each, rounded up to a half.
pub fn platoon(cycle: u32, headway: u32, volume: u32) -> u32
    requires { (cycle ≤ max_cycle) × (headway ≤ max_headway) × (volume ≤ max_volume) }
    ensures { result ≡ platoon_of cycle headway volume }
{
    let product = (volume as u64) * (cycle as u64) * (headway as u64);
    product.div_ceil(HALF_HOUR) as u32
}

// The largest volume whose platoon fits a width. Where a vehicle takes no time, every volume fits.
pub fn largest(cycle: u32, headway: u32, width: u32) -> u32
    ensures { Largest cycle headway width result }
{
    let each = (cycle as u64) * (headway as u64);
    if each == 0 {
        return Street::MAX_VOLUME;
    }
    let volume = HALF_HOUR * (width as u64) / each;
    volume.min(Street::MAX_VOLUME as u64) as u32
}
