// A link's times in ticks, each direction rounded by itself, and whether either was rounded (01, 'Travel time').
ghost use Rattle.std.specs.Prelude.{◌≡◌, not, ◌+◌, ◌-◌, ◌≤◌, ◌<◌, length, get_or};
ghost use Rattle.circle.specs.Over.{◌or◌};
ghost use Rattle.road.specs.Limits.{max_distance, min_speed, max_speed};
ghost use Rattle.road.specs.Times.{ticks, whole, link_length, link_ticks, rounded_link};
ghost use Rattle.road.specs.Steps.{Driveable};

// A link's time in one direction: the rounded ticks, and whether the exact time was whole already.
#[derive(Clone, Copy)]
struct LinkTime {
    ticks: u32,
    whole: bool,
}

// A link: its ticks in each direction, and whether either was rounded.
#[derive(Clone, Copy)]
pub struct Link {
    pub outbound: u32,
    pub inbound: u32,
    pub rounded: bool,
}

fn link_time(length: u32, speed: u32) -> LinkTime
    requires { (length ≤ max_distance) × (min_speed ≤ speed) × (speed ≤ max_speed) }
    ensures { (result.ticks ≡ ticks length speed) × (result.whole ≡ whole length speed) }
{
    let tenths = 10 * length;
    let quotient = tenths / speed;
    let rest = tenths - quotient * speed;
    LinkTime {
        ticks: if 2 * rest >= speed {
            quotient + 1
        } else {
            quotient
        },
        whole: rest == 0,
    }
}

fn link_length(distances: &[u32], k: usize) -> u32
    requires { (k + 1 < length distances.now) × (get_or distances.now k 0 ≤ get_or distances.now (k + 1) 0) }
    ensures { result ≡ link_length distances.now k }
{
    distances[k + 1] - distances[k]
}

// Whether a link's time was rounded in either direction.
fn rounded(outbound_whole: bool, inbound_whole: bool) -> bool
    ensures { result ≡ (not outbound_whole or not inbound_whole) }
{
    !outbound_whole || !inbound_whole
}

// Link k: its time in each direction, and whether either was rounded.
pub fn link_times(distances: &[u32], outbound: &[u32], inbound: &[u32], k: usize) -> Link
    requires { Driveable distances.now outbound.now × Driveable distances.now inbound.now × (k < length outbound.now) }
    ensures outbound { result.outbound ≡ link_ticks distances.now outbound.now k }
    ensures inbound { result.inbound ≡ link_ticks distances.now inbound.now k }
    ensures rounded { result.rounded ≡ rounded_link distances.now outbound.now inbound.now k }
{
    let long = link_length(distances, k);
    let there = link_time(long, outbound[k]);
    let home = link_time(long, inbound[k]);
    Link {
        outbound: there.ticks,
        inbound: home.ticks,
        rounded: rounded(there.whole, home.whole),
    }
}
