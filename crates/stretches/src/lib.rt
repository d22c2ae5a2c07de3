// The longest stretch there is, from the red ends as they are seen where a direction departs. Only red ends need be tried as starts,
// and the instant 0 in case there is no red (02, 2026-05): each is held against every signal, by comparisons and differences alone.
#![tactic(auto)]

ghost use Rattle.std.specs.Prelude.{◌≡◌, ◌≤◌, ◌<◌, get_or, length};
ghost use Rattle.road.specs.Limits.{max_signals};
ghost use Rattle.street.specs.Limits.{max_cycle};
ghost use Rattle.street.specs.Steps.{max_halves};
ghost use Rattle.stretches.specs.Stretches.{band_of};
ghost use Rattle.stretches.specs.Steps.{Fitting, seen_by, left_by, longest_from, wider_of};

// A direction's band, in halves: its width, and the smallest start that attains it, an instant at signal 1 outbound and at
// signal n inbound. A width of 0 has start 0.
#[derive(Clone, Copy, Debug, PartialEq, Eq)]
pub struct Band {
    pub width: u32,
    pub start: u32,
}

// What a red leaves of the cycle for a stretch from x on. A red of no length leaves all of it. The room is worked out in either case:
// with nothing to pass over, the compiler holds x against several reds at once.
fn left(h: u32, x: u32, end: u32, red: u32) -> u32
    requires { (h ≤ max_halves) × (x < h) × (end < h) × (red ≤ max_cycle) }
    ensures { result ≡ left_by h x end red }
{
    let room = h.saturating_sub(2 * red + circle::back(h, x, end));
    if red == 0 { h } else { room }
}

// The longest stretch from x: the least that any red leaves.
fn longest(h: u32, reds: &[u32], ends: &[u32], x: u32) -> u32
    requires { (h ≤ max_halves) × Fitting h (length reds.now) (λ j. get_or reds.now j 0) ends.now × (length reds.now ≤ length ends.now) × (x < h) }
    ensures { result ≡ longest_from (seen_by h (length reds.now) (λ j. get_or reds.now j 0) ends.now) x }
{
    let mut least = h;
    for (j, red) in reds.iter().enumerate() {
        least = least.min(left(h, x, ends[j], *red));
    }
    least
}

// The wider of two bands, and of two as wide the one that starts sooner.
#[tactic(auto, unfolding(crate::specs::Steps::wider_of))]
fn wider(best: Band, other: Band) -> Band
    ensures { result ≡ wider_of best other }
{
    if best.width < other.width {
        return other;
    }
    if other.width < best.width {
        return best;
    }
    if other.start < best.start {
        return other;
    }
    best
}

// The band: the widest of the stretches from 0 and from the red ends, the smallest start among equals. A red of no length is passed
// over, and with no red at all the band is the whole cycle from 0.
pub fn widest(h: u32, reds: &[u32], ends: &[u32]) -> Band
    requires { (h ≤ max_halves) × (length reds.now ≤ max_signals) × Fitting h (length reds.now) (λ j. get_or reds.now j 0) ends.now × (length reds.now ≤ length ends.now) }
    ensures { result ≡ band_of (seen_by h (length reds.now) (λ j. get_or reds.now j 0) ends.now) }
{
    let reds = &reds[..street::bounded(reds.len())];
    let from_zero = longest(h, reds, ends, 0);
    let mut best = Band {
        width: from_zero,
        start: 0,
    };
    for (i, red) in reds.iter().enumerate() {
        if *red > 0 {
            let start = ends[i];
            let width = longest(h, reds, ends, start);
            best = wider(best, Band { width, start });
        }
    }
    best
}
