//! What a line wants of a ref. Source: git-push(1), "--force-with-lease" and "--delete".

ghost use Rattle.std.specs.Prelude.{◌≡◌};
ghost use Rattle.std.specs.Option.{option_map};
ghost use Rattle.gx_push.specs.Wants.{behind_space, fate_in, shown_fate, shown_want, value_in, shown_value, want_in, wanted};

use gx_object::Name;

/// What may become of a ref.
#[derive(Clone, Copy, Debug, PartialEq, Eq)]
pub enum Fate {
    /// It moves forward.
    Advance,
    /// It may lose commits.
    Lose,
    /// It is removed.
    Vanish,
}

/// The name of a ref, the object that it has to hold before, if any, and what may become of it.
#[derive(Clone, Copy, Debug)]
pub struct Want<'a> {
    pub fate: Fate,
    pub old: Option<Name>,
    pub name: &'a [u8],
}

/// What a line wants: a sign, where there is one, 40 digits, a space and a ref's name.
///
/// Cost: 42 bytes. Takes no memory.
pub fn want_in(line: &[u8]) -> Option<Want<'_>>
    ensures { option_map shown_want result ≡ want_in line.now }
{
    let (fate, text) = fate_in(line);
    let (digits, behind) = text.split_at(usize::min(40, text.len()));
    wanted(fate, value_in(digits), behind_space(behind))
}

/// What may become of a ref, where there is what it has to hold, and its name.
fn wanted<'a>(fate: Fate, old: Option<Option<Name>>, name: Option<&'a [u8]>) -> Option<Want<'a>>
    ensures { option_map shown_want result
        ≡ wanted fate (option_map shown_value old) (option_map (λ rest. rest.now) name.entry) }
{
    Some(Want {
        fate,
        old: old?,
        name: name?,
    })
}

/// What the sign at the front lets become of a ref, and what follows it.
fn fate_in(line: &[u8]) -> (Fate, &[u8])
    ensures { shown_fate result ≡ fate_in line.now }
{
    match line.split_first() {
        Some((b'+', rest)) => (Fate::Lose, rest),
        Some((b'-', rest)) => (Fate::Vanish, rest),
        _ => (Fate::Advance, line),
    }
}

/// What stands behind a space.
fn behind_space(text: &[u8]) -> Option<&[u8]>
    ensures { option_map (λ rest. rest.now) result ≡ behind_space text.now }
{
    match text.split_first() {
        Some((b' ', rest)) => Some(rest),
        _ => None,
    }
}

/// The object of 40 digits, which is none where they are zeros.
pub(crate) fn value_in(digits: &[u8]) -> Option<Option<Name>>
    ensures { option_map shown_value result ≡ value_in digits.now }
{
    let name = Name::read(digits)?;
    if name.bytes == [0; 20] {
        Some(None)
    } else {
        Some(Some(name))
    }
}
