//! A table's rows.

ghost use Rattle.std.specs.Prelude.{◌≡◌, ◌<◌, length, drop, take};
ghost use Rattle.std.specs.Int.{from_be_bytes, w64};

/// How many bytes a row has.
pub(crate) const ROW: usize = 28;

/// How many of them are its name.
pub(crate) const NAME: usize = 20;

/// Where the rows of a table begin in a text, and how many they are.
#[derive(Clone, Copy, Debug, PartialEq, Eq, Drop)]
pub struct Table {
    pub at: u64,
    pub count: u64,
}

/// A row: a name, and the place that it stands for.
#[derive(Clone, Copy, Debug, PartialEq, Eq, Drop)]
pub struct Row {
    pub name: [u8; 20],
    pub place: u64,
}

impl Row {
    /// The row that 28 bytes are.
    pub(crate) fn read(bytes: &[u8]) -> Row
        requires { length bytes.now ≡ 28 }
        ensures name { result.name ≡ take 20 bytes.now }
        ensures place { result.place ≡ from_be_bytes w64 (drop 20 bytes.now) }
    {
        let mut name = [0; NAME];
        name.copy_from_slice(&bytes[..NAME]);
        let mut place = [0; ROW - NAME];
        place.copy_from_slice(&bytes[NAME..]);
        Row {
            name,
            place: u64::from_be_bytes(place),
        }
    }
}
