// The search for the reference and B (01, 'The equal plan'). Widths are raised by the cycle H, so that none is negative. Each signal's
// sums are reduced to the cycle once; from there a pair costs comparisons and differences alone, no division.
#![tactic(auto)]

ghost use Rattle.std.specs.Prelude.{◌≡◌, ◌*◌, ◌≤◌, ◌<◌, pos, length};
ghost use Rattle.circle.specs.Over.{least_below};
ghost use Rattle.road.specs.Limits.{max_signals};
ghost use Rattle.street.specs.Limits.{max_cycle};
ghost use Rattle.street.specs.Steps.{timed_street};
ghost use Rattle.search.specs.Steps.{leaves_of, pair_of, Reduced, Turning, PairRow, wider, rank_of, settled_of, Searched, Finds};

use street::Street;

// What the search settles on: the reference's index, counted from 0, and B raised by H.
#[derive(Clone, Copy, Debug, PartialEq, Eq)]
pub struct Candidate {
    pub signal: usize,
    pub raised: u32,
}

// Each signal's anchor: its red less its two sums, reduced to the cycle.
pub fn reduce(s: &Street) -> [u32; Street::MAX_SIGNALS]
    ensures { Reduced (timed_street s.now) result }
{
    let h = 2 * s.cycle;
    let mut anchors = [0; Street::MAX_SIGNALS];
    for k in 0..street::bounded(s.road.signals) {
        anchors[k] = circle::remainder(h, s.reds[k], s.road.outbound[k] + s.road.inbound[k]);
    }
    anchors
}

// What a limit leaves, raised, where so much of the cycle is gone before its red: the whole cycle where it rests. The choice comes
// last, so that the compiler takes several limits at a time.
fn leaves(cycle: u32, red: u32, gone: u32) -> u32
    requires { (cycle ≤ max_cycle) × (gone < 2 * cycle) × (red < cycle) }
    ensures { result ≡ leaves_of cycle red gone }
{
    if red == 0 {
        return 4 * cycle;
    }
    4 * cycle - gone - 2 * red
}

// A pair's two raised widths, from the two signals' anchors and the limit's red.
pub fn pair(cycle: u32, from: u32, to: u32, red: u32) -> [u32; 2]
    requires { (1 ≤ cycle) × (cycle ≤ max_cycle) × (from < 2 * cycle) × (to < 2 * cycle) × (red < cycle) }
    ensures { result ≡ pair_of cycle from to red }
{
    let h = 2 * cycle;
    let even = circle::back(h, from, to);
    let odd = circle::back(h, even, cycle);
    [leaves(cycle, red, even), leaves(cycle, red, odd)]
}

// Fills the row of the candidate i: a pair of raised widths for each limit.
fn fill(
    cycle: u32,
    reds: &[u32],
    anchors: &[u32],
    i: usize,
    row: &mut [[u32; 2]; Street::MAX_SIGNALS],
)
    requires { (1 ≤ cycle) × (cycle ≤ max_cycle) × (i < length reds.now) × (length reds.now ≤ max_signals)
        × (length anchors.now ≡ length reds.now) × Turning cycle (length reds.now) reds.now anchors.now }
    ensures { PairRow cycle (length reds.now) reds.now anchors.now i row.new }
{
    let from = anchors[i];
    for j in 0..reds.len() {
        row[j] = pair(cycle, from, anchors[j], reds[j]);
    }
}

// The least over the limits of the larger width of each pair: a candidate's b(i), raised.
fn least(row: &[[u32; 2]]) -> u32
    requires { 1 ≤ length row.now }
    ensures { pos result ≡ least_below (length row.now) (λ j. pos (wider row.now j)) }
{
    let mut low = row[0][0].max(row[0][1]);
    for widths in row {
        low = low.min(widths[0].max(widths[1]));
    }
    low
}

// How a candidate ranks: by b(i), raised, and last where it rests.
fn rank(row: &[[u32; 2]], red: u32) -> u32
    requires { 1 ≤ length row.now }
    ensures { pos result ≡ rank_of (length row.now) row.now red }
{
    if red == 0 {
        return 0;
    }
    least(row)
}

// B, raised, from the greatest rank, which is 0 where every signal rests.
fn settled(cycle: u32, most: u32) -> u32
    requires { cycle ≤ max_cycle }
    ensures { result ≡ settled_of cycle most }
{
    if most == 0 {
        return 4 * cycle;
    }
    most
}

// The widths of every ordered pair under both phases, one row per candidate, filled once; and then the search over them for the
// first candidate with a red and the greatest b(i).
pub fn reference(cycle: u32, reds: &[u32], anchors: &[u32]) -> Candidate
    requires { (1 ≤ cycle) × (cycle ≤ max_cycle) × (1 ≤ length reds.now) × (length reds.now ≤ max_signals)
        × (length anchors.now ≡ length reds.now) × Turning cycle (length reds.now) reds.now anchors.now }
    ensures { Finds cycle (length reds.now) reds.now anchors.now result }
{
    let n = street::bounded(reds.len());
    let mut widths = [[[0; 2]; Street::MAX_SIGNALS]; Street::MAX_SIGNALS];
    for i in 0..n {
        fill(cycle, reds, anchors, i, &mut widths[i]);
    }
    let mut signal = 0;
    let mut most = rank(&widths[0][..n], reds[0]);
    for k in 1..n {
        let candidate = rank(&widths[k][..n], reds[k]);
        if most < candidate {
            most = candidate;
            signal = k;
        }
    }
    Candidate {
        signal,
        raised: settled(cycle, most),
    }
}

// The search on a street, from its signals' anchors.
pub fn search(s: &Street, anchors: &[u32; Street::MAX_SIGNALS]) -> Candidate
    requires { Reduced (timed_street s.now) anchors.now }
    ensures { Searched (timed_street s.now) result }
{
    let n = s.road.signals;
    reference(s.cycle, &s.reds[..n], &anchors[..n])
}
