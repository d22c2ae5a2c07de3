// What a circle of time is: remainders, choices over signals, and the published method's widths over any cycle, reds and times. specs/
// has the definitions and proofs/ the laws about them; the code is the two ways to go back on a circle, with a division and without.
#![tactic(auto)]

ghost use Rattle.std.specs.Prelude.{◌+◌, ◌-◌, ◌≤◌, ◌<◌, ◌^◌, ◌≡◌, pos, ◌-ℤ◌};
ghost use Rattle.circle.specs.Man.{man};

// The remainder of a - b by h, in 0 to h - 1.
pub fn remainder(h: u32, a: u32, b: u32) -> u32
    requires { (1 ≤ h) × (a + h < 2 ^ 32) }
    ensures { result ≡ man h (pos a -ℤ pos b) }
{
    (a + (h - b % h)) % h
}

// The same where both lie on the circle already: a comparison does for the division.
pub fn back(h: u32, a: u32, b: u32) -> u32
    requires { (a < h) × (b < h) × (a + h < 2 ^ 32) }
    ensures { result ≡ man h (pos a -ℤ pos b) }
{
    if b <= a { a - b } else { a + h - b }
}
