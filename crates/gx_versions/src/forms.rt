//! The forms of stores' texts. Source: this project's own format.

ghost use Rattle.std.specs.Prelude.{◌≡◌};
ghost use Rattle.gx_versions.specs.Versions.{form_of, version_of};

/// The form of a store's text.
#[derive(Clone, Copy, Debug, PartialEq, Eq)]
pub enum StoreForm {
    /// Of version 1 or 2, or a text of none.
    Plain,
    /// Of version 3: a growing text.
    Growing,
}

/// The form of a text, by its first line. Takes no memory.
pub fn form_of(text: &[u8]) -> StoreForm
    ensures { result ≡ form_of text.now }
{
    if text.starts_with(b"gxstore 3\n") {
        StoreForm::Growing
    } else {
        StoreForm::Plain
    }
}

/// The version that the first line of a store's text says, where the text is one.
pub(crate) fn version_of(text: &[u8]) -> usize
    ensures { result ≡ version_of text.now }
{
    match form_of(text) {
        StoreForm::Growing => 3,
        StoreForm::Plain if text.starts_with(b"gxstore 1\n") => 1,
        StoreForm::Plain => 2,
    }
}
