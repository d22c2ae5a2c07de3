// Numbers as decimal digits, written into a list of bytes that the caller lends (01, 'The printed plan' and 'The street sheet').
#![tactic(auto)]

ghost use Rattle.std.specs.Prelude.{◌+◌, ◌≤◌, ◌≡◌, [], ◌∷◌, ◌++◌, length};
ghost use Rattle.decimal.specs.Decimal.{decimal, signed_decimal};
ghost use Rattle.decimal.specs.Steps.{Writes};

// The bytes that end a number: within a line and at its end.
pub const SPACE: u8 = b' ';

pub const LINE_END: u8 = b'\n';

// Writes a text from the list's start, and tells the place behind it.
pub fn copy(text: &[u8], bytes: &mut [u8]) -> usize
    requires { length text.now ≤ length bytes.old }
    ensures { Writes 0 text.now bytes.old bytes.new result }
{
    let count = text.len();
    bytes[..count].copy_from_slice(text);
    count
}

// How many digits a number has: one, and where it is ten or more those of its tenth.
pub fn size(x: u32) -> usize
    ensures { result ≡ length (decimal x) }
{
    if x < 10 { 1 } else { size(x / 10) + 1 }
}

// Writes a number's digits from a place on, the last digit first, and tells the place behind them.
pub fn write(bytes: &mut [u8], at: usize, x: u32) -> usize
    requires { at + length (decimal x) ≤ length bytes.old }
    ensures { Writes at (decimal x) bytes.old bytes.new result }
{
    let next = at + size(x);
    let mut rest = x;
    for place in (at..next).rev() {
        bytes[place] = b'0' + (rest % 10) as u8;
        rest /= 10;
    }
    next
}

// The same, and behind the digits the byte that ends the number.
pub fn write_ended(bytes: &mut [u8], at: usize, x: u32, end: u8) -> usize
    requires { at + length (decimal x ++ end ∷ []) ≤ length bytes.old }
    ensures { Writes at (decimal x ++ end ∷ []) bytes.old bytes.new result }
{
    let next = write(bytes, at, x);
    bytes[next] = end;
    next + 1
}

// The same for a signed number: its minus sign, where it has one, and its magnitude.
pub fn write_signed(bytes: &mut [u8], at: usize, z: i32, end: u8) -> usize
    requires { at + length (signed_decimal z ++ end ∷ []) ≤ length bytes.old }
    ensures { Writes at (signed_decimal z ++ end ∷ []) bytes.old bytes.new result }
{
    if z < 0 {
        bytes[at] = b'-';
        write_ended(bytes, at + 1, z.unsigned_abs(), end)
    } else {
        write_ended(bytes, at, z.unsigned_abs(), end)
    }
}
