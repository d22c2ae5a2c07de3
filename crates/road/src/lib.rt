// The road: how long each link takes in either direction, in ticks, and how many links were rounded (01, 'Travel time'). No cycle
// enters.
#![tactic(auto)]

mod times;

ghost use Rattle.std.specs.Prelude.{◌≡◌, length};
ghost use Rattle.road.specs.Steps.{Driveable, road_of};

// A road: how many signals, for each the outbound ticks from signal 1 to it and the inbound ticks from it to signal 1, and the
// number of links with a rounded time. Entries from `signals` on are 0.
#[derive(Clone, Copy, Debug, PartialEq, Eq)]
pub struct Road {
    pub signals: usize,
    pub outbound: [u32; Road::MAX_SIGNALS],
    pub inbound: [u32; Road::MAX_SIGNALS],
    pub rounded: u32,
}

impl Road {
    // The most signals that a road can have: every array of a road or a street has as many entries.
    pub const MAX_SIGNALS: usize = 32;

    // The road of distances and speeds that passed their checks. Each link's two times are worked out once, and m is counted from the
    // same answers.
    pub fn new(distances: &[u32], outbound: &[u32], inbound: &[u32]) -> Road
        requires { Driveable distances.now outbound.now × Driveable distances.now inbound.now }
        ensures { result ≡ road_of (length distances.now) distances.now outbound.now inbound.now }
    {
        let mut there = [0; Road::MAX_SIGNALS];
        let mut home = [0; Road::MAX_SIGNALS];
        let mut out: u32 = 0;
        let mut back: u32 = 0;
        let mut rounded: u32 = 0;
        for k in 0..outbound.len() {
            let link = times::link_times(distances, outbound, inbound, k);
            out += link.outbound;
            back += link.inbound;
            rounded += u32::from(link.rounded);
            there[k + 1] = out;
            home[k + 1] = back;
        }
        Road {
            signals: distances.len(),
            outbound: there,
            inbound: home,
            rounded,
        }
    }
}
