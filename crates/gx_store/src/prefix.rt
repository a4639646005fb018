//! What digits begin.

ghost use Rattle.std.specs.Prelude.{◌≡◌, ◌≤◌, ◌++◌, drop, length, IfNone, IfSome};
ghost use Rattle.std.specs.Option.{option_map};
ghost use Rattle.gx_store.specs.Prefixes.{AreEnds, BeginNone, filled};

use gx_object::Name;

/// The name that some digits begin. Source: gitrevisions(7), on abbreviated object names.
#[derive(Clone, Copy, Debug, PartialEq, Eq)]
pub enum Prefix {
    /// They begin this name alone.
    Unique(Name),
    /// They begin no name.
    Absent,
    /// They begin more than one name.
    Ambiguous,
}

/// The least and the greatest of the names that begin with these digits, of either case; none where no name does.
///
/// Cost: constant. Takes no memory. Source: gitrevisions(7), "sha1".
pub fn names_begun_by(digits: &[u8]) -> Option<(Name, Name)>
    ensures within { IfSome result (λ ends. AreEnds digits.now ends.0 ends.1) }
    ensures none { IfNone result (BeginNone digits.now) }
{
    let least = filled(digits, b'0')?;
    let greatest = filled(digits, b'f')?;
    Some((least, greatest))
}

/// The name whose 40 digits are these and then others that are all alike.
fn filled(digits: &[u8], digit: u8) -> Option<Name>
    ensures { option_map (λ name. name.bytes) result ≡ filled digits.now digit }
{
    if digits.len() > 40 {
        return None;
    }
    let mut text = [digit; 40];
    overwrite(&mut text, digits);
    Name::read(text.as_slice())
}

/// Puts bytes in place of the first ones.
fn overwrite(text: &mut [u8], bytes: &[u8])
    requires { length bytes.now ≤ length text.old }
    ensures { text.new ≡ bytes.now ++ drop (length bytes.now) text.old }
{
    text[..bytes.len()].copy_from_slice(bytes);
}
