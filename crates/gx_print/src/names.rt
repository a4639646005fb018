//! The name of what a revision gives, in a line. Source: git-rev-parse(1).

ghost use Rattle.std.specs.Prelude.{◌≡◌};
ghost use Rattle.gx_print.specs.Stored.{shown_line};

use gx_rev::Shown;

/// The line of an object's name, or of a submodule's digits. Takes no memory.
pub fn shown_line(shown: Shown) -> [u8; 41]
    ensures { result ≡ shown_line shown }
{
    let mut line = [b'\n'; 41];
    match shown {
        Shown::Object(_, name) | Shown::Submodule(name) => {
            line[..40].copy_from_slice(name.hex().as_slice());
        }
    }
    line
}
