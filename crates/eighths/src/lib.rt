// A survey instrument's readings: 64-bit floats, in metres or metres a second, of which those are accepted that are a whole number of
// eighths (02, 2026-04). Wholeness is decided from the bits of eight times the reading, which is exact; then the cast loses nothing.
#![tactic(auto)]

ghost use Rattle.std.specs.Prelude.{◌≡◌, T};
ghost use Rattle.std.specs.Float.{binary64};
ghost use Rattle.std.specs.Float.Ieee.{le, of_bits};
ghost use Rattle.eighths.specs.Readings.{eighths_of};
ghost use Rattle.eighths.specs.Steps.{least, most, whole_of};

// A number from 1 to 160,000, if it is whole. The field above the 52 digits of its bits is 1,023 at 1 and one more at each doubling: so
// many of the digits stand above the point. A shift takes these and all before them away, and what is left stands below it.
fn whole(x: f64) -> Option<u32>
    requires { T (le least x) × T (le x most) }
    ensures { result ≡ whole_of x }
{
    let bits = f64::to_bits(x);
    let field = bits >> 52;
    let fraction = bits << (field - 1_011);
    if fraction != 0 {
        return None;
    }
    Some(x as u32)
}

// A reading in eighths, or nothing where it is outside the rules. Both zeros come first, and then what can be neither a NaN, an infinity,
// negative, too large nor too small to be an eighth: eight times such a number is a float again.
pub fn in_eighths(x: f64) -> Option<u32>
    ensures { result ≡ eighths_of x }
{
    if x == 0.0 {
        return Some(0);
    }
    if x >= 0.125 && x <= 20_000.0 {
        return whole(x * 8.0);
    }
    None
}

// The float of a pattern of bits, whichever pattern: those of all NaNs are one value, which is made here without them.
pub fn from_bits(bits: u64) -> f64
    ensures { result ≡ of_bits binary64 bits }
{
    if bits % 0x8000_0000_0000_0000 > 0x7ff0_0000_0000_0000 {
        return f64::NAN;
    }
    f64::from_bits(bits)
}
