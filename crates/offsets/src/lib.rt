// Offsets against a reference (01, 'The equal plan' and 'Moving width'): each signal's phase, how far its offset is lowered, and the lent
// list's first entries.
#![tactic(auto)]

ghost use Rattle.std.specs.Prelude.{◌≡◌, ◌++◌, ◌*◌, ◌≤◌, ◌<◌, length, drop};
ghost use Rattle.circle.specs.Over.{list_below};
ghost use Rattle.road.specs.Steps.{max_time};
ghost use Rattle.street.specs.Limits.{max_cycle};
ghost use Rattle.street.specs.Steps.{max_halves, timed_street};
ghost use Rattle.widths.specs.Steps.{shift_width};
ghost use Rattle.offsets.specs.Moved.{moved_offset};
ghost use Rattle.offsets.specs.Steps.{Ready, choice_of, lowering_of, offset_at};

use street::Street;
use widths::{Base, Shift};

// A signal's phase against the reference, and the u of that phase.
#[derive(Clone, Copy, Debug, PartialEq, Eq)]
pub struct Choice {
    pub phase: u32,
    pub u: u32,
}

// The better phase of a signal against the reference, 0 on a tie, from the two anchors and the signal's red. A raised width is
// u + H - 2r.
fn better_phase(cycle: u32, from: u32, to: u32, red: u32) -> Choice
    requires { (1 ≤ cycle) × (cycle ≤ max_cycle) × (from < 2 * cycle) × (to < 2 * cycle) × (red < cycle) }
    ensures { result ≡ choice_of cycle from to red }
{
    let w = search::pair(cycle, from, to, red);
    if w[1] <= w[0] {
        return Choice {
            phase: 0,
            u: w[0] + 2 * red - 2 * cycle,
        };
    }
    Choice {
        phase: cycle,
        u: w[1] + 2 * red - 2 * cycle,
    }
}

// By how much an offset is lowered, from its signal's red and u. A signal that rests is never lowered.
fn lowered_by(raised: u32, shift: Shift, red: u32, u: u32) -> u32
    requires { (shift_width shift ≤ max_halves) × (red ≤ max_cycle) × (u ≤ max_halves) }
    ensures { result ≡ lowering_of shift raised red u }
{
    if red == 0 {
        return 0;
    }
    match shift {
        Shift::Unmoved => 0,
        Shift::Outbound(width) => (u + width).saturating_sub(raised),
        Shift::Inbound(width) => (width + 2 * red).saturating_sub(u),
    }
}

// An offset from the anchors of the reference and the signal, the signal's red and the offset's two sides. The lowering joins the side
// that is taken away, so that one remainder goes round the cycle.
fn offset_at(
    cycle: u32,
    raised: u32,
    shift: Shift,
    from: u32,
    to: u32,
    red: u32,
    ahead: u32,
    behind: u32,
) -> u32
    requires { (1 ≤ cycle) × (cycle ≤ max_cycle) × (from < 2 * cycle) × (to < 2 * cycle) × (red < cycle) × (shift_width shift ≤ max_halves) × (ahead ≤ 2 * max_time) × (behind ≤ 2 * max_time) }
    ensures { result ≡ offset_at cycle raised shift from to red ahead behind }
{
    let better = better_phase(cycle, from, to, red);
    let down = lowered_by(raised, shift, red, better.u);
    circle::remainder(2 * cycle, ahead + better.phase, behind + down)
}

// The first entries of the lent list become the offsets; the others stay.
pub fn write(
    base: &Base,
    anchors: &[u32; Street::MAX_SIGNALS],
    c: usize,
    shift: Shift,
    offsets: &mut [u32],
)
    requires { Ready (timed_street base.now.street.now) anchors.now c base.now.raised × (shift_width shift ≤ max_halves) × (base.now.street.now.road.signals ≤ length offsets.old) }
    ensures { offsets.new ≡ list_below base.now.street.now.road.signals (moved_offset shift (timed_street base.now.street.now)) ++ drop base.now.street.now.road.signals offsets.old }
{
    let s = base.street;
    let from = anchors[c];
    let out = s.road.outbound[c];
    let back = s.road.inbound[c];
    for j in 0..s.road.signals {
        offsets[j] = offset_at(
            s.cycle,
            base.raised,
            shift,
            from,
            anchors[j],
            s.reds[j],
            s.road.outbound[j] + back,
            out + s.road.inbound[j],
        );
    }
}
