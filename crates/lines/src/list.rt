// The numbers of a request line, as many as are kept.

ghost use Rattle.std.specs.Prelude.{◌≡◌, ◌≤◌, length, take};

use crate::Asked;

// An array with the line's numbers at its front, as many as are counted.
#[derive(Clone, Copy)]
pub struct Listed {
    pub(crate) entries: [u32; Asked::MAX_ENTRIES],
    pub(crate) count: usize,
    ghost count_fits: { count ≤ length entries },
}

impl Listed {
    // The line's numbers, without the entries behind them.
    pub fn as_slice(&self) -> &[u32]
        ensures { result.now ≡ take self.now.count self.now.entries }
    {
        &self.entries[..self.count]
    }
}
