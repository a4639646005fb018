//! Where a row is looked for.

ghost use Rattle.std.specs.Prelude.{◌≡◌, ◌+◌, ◌<◌, ◌≤◌};

/// How often a row is looked for by proportion, before that is done by halves.
const TRIES: u32 = 12;

/// Which rows may still be the one, and the fronts of the names at both ends.
#[derive(Clone, Copy, Drop)]
pub(crate) struct Span {
    pub(crate) low: u64,
    pub(crate) high: u64,
    pub(crate) least: u32,
    pub(crate) most: u32,
    pub(crate) tries: u32,
}

impl Span {
    /// A row among these: where the front of the name would stand if names were spread evenly, or at last the middle.
    pub(crate) fn guess(self, front: u32) -> u64
        requires { self.low < self.high }
        ensures low { self.low ≤ result }
        ensures high { result < self.high }
    {
        let rows = self.high - self.low;
        if self.tries >= TRIES {
            return self.low + rows / 2;
        }
        if front >= self.most {
            return self.high - 1;
        }
        if front <= self.least {
            return self.low;
        }
        let part = (front - self.least) as u64;
        let whole = (self.most - self.least) as u64;
        let share = rows.saturating_mul(part) / whole;
        self.low + share.min(rows - 1)
    }

    /// Those above a row, whose name has this front.
    pub(crate) fn above(self, row: u64, front: u32) -> Span
        requires { row < self.high }
        ensures low { result.low ≡ row + 1 }
        ensures high { result.high ≡ self.high }
    {
        Span {
            low: row + 1,
            high: self.high,
            least: front,
            most: self.most,
            tries: self.tries.saturating_add(1),
        }
    }

    /// Those below a row, whose name has this front.
    pub(crate) fn below(self, row: u64, front: u32) -> Span
        ensures low { result.low ≡ self.low }
        ensures high { result.high ≡ row }
    {
        Span {
            low: self.low,
            high: row,
            least: self.least,
            most: front,
            tries: self.tries.saturating_add(1),
        }
    }
}
