//! How lines end.

ghost use Rattle.std.specs.Prelude.{◌≡◌};
ghost use Rattle.gx_batch.specs.Lines.{byte_of};

/// How lines end.
#[derive(Clone, Copy, Debug, PartialEq, Eq, Drop)]
pub enum LineEnding {
    /// With LF, or with CR LF.
    Lf,
    /// With NUL, as `git cat-file -z` takes them. A CR is part of its line.
    Nul,
}

impl LineEnding {
    /// The byte behind a line.
    pub(crate) fn byte(self) -> u8
        ensures { result ≡ byte_of self }
    {
        match self {
            LineEnding::Lf => b'\n',
            LineEnding::Nul => b'\0',
        }
    }
}
