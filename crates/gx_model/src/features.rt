//! What a stream may ask for, and what may be asked for in its place.

/// A feature of a stream: `done`, `date-format=raw` and `force`. Source: git-fast-import(1), "feature".
#[derive(Clone, Copy, Debug, PartialEq, Eq)]
pub enum Feature {
    Done,
    RawDates,
    Force,
}

/// The features that are asked for as if a stream began with them: `done` and `force`.
/// Source: git-fast-import(1), "--done" and "--force".
#[derive(Clone, Copy, Debug, PartialEq, Eq)]
pub struct Features {
    /// The stream ends with the command `done`.
    pub done: bool,
    /// A published branch may lose commits.
    pub force: bool,
}

impl Features {
    ghost use Rattle.std.specs.Prelude.{◌≡◌};
    ghost use Rattle.gx_model.specs.Streams.Commands.{no_features};

    /// No feature.
    pub fn none() -> Features
        ensures { result ≡ no_features }
    {
        Features {
            done: false,
            force: false,
        }
    }
}
