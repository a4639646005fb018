//! What a line makes of a ref. Source: git-update-ref(1), "--stdin".

ghost use Rattle.std.specs.Prelude.{◌≡◌};
ghost use Rattle.std.specs.Option.{option_map};
ghost use Rattle.gx_push.specs.Settings.{created, deleted, setting_in, setting_of, shown_moves, shown_setting, updated, verified};
ghost use Rattle.gx_push.specs.Wants.{shown_value, value_in};

use crate::want::value_in;
use gx_object::Name;
use gx_text::cut;

/// What becomes of a ref.
#[derive(Clone, Copy, Debug, PartialEq, Eq)]
pub(crate) enum After {
    Same,
    Gone,
    Object(Name),
}

/// The name of a ref, the object that it has to hold before or that there is none, where that is told, and what becomes of it.
#[derive(Clone, Copy, Debug)]
pub(crate) struct Setting<'a> {
    pub(crate) name: &'a [u8],
    pub(crate) old: Option<Option<Name>>,
    pub(crate) after: After,
}

/// What a line makes of a ref: `update REF NEW [OLD]`, `create REF NEW`, `delete REF [OLD]` or `verify REF [OLD]`.
///
/// Cost: the line. Takes no memory.
pub(crate) fn setting_in(line: &[u8]) -> Option<Setting<'_>>
    ensures { option_map shown_setting result ≡ setting_in line.now }
{
    let (verb, text) = cut(line, b' ')?;
    match cut(text, b' ') {
        None => setting_of(verb, text, None, None),
        Some((name, digits)) => match cut(digits, b' ') {
            None => setting_of(verb, name, Some(digits), None),
            Some((first, second)) => setting_of(verb, name, Some(first), Some(second)),
        },
    }
}

/// What a verb makes of a ref, with the digits behind its name.
fn setting_of<'a>(
    verb: &[u8],
    name: &'a [u8],
    first: Option<&[u8]>,
    second: Option<&[u8]>,
) -> Option<Setting<'a>>
    ensures { option_map shown_setting result ≡ setting_of verb.now name.now
        (option_map (λ digits. digits.now) first.entry)
        (option_map (λ digits. digits.now) second.entry) }
{
    let (old, after) = if verb == b"update".as_slice() {
        updated(first?, second)?
    } else if verb == b"create".as_slice() {
        created(first?, second)?
    } else if verb == b"delete".as_slice() {
        deleted(first, second)?
    } else if verb == b"verify".as_slice() {
        verified(first, second)?
    } else {
        return None;
    };
    Some(Setting { name, old, after })
}

/// Zeros as the new object remove the ref. Without an old one it may be anything before.
fn updated(new: &[u8], old: Option<&[u8]>) -> Option<(Option<Option<Name>>, After)>
    ensures { option_map shown_moves result
        ≡ updated new.now (option_map (λ digits. digits.now) old.entry) }
{
    let after = match value_in(new)? {
        Some(object) => After::Object(object),
        None => After::Gone,
    };
    match old {
        Some(digits) => Some((Some(value_in(digits)?), after)),
        None => Some((None, after)),
    }
}

/// There is no such ref before.
fn created(new: &[u8], more: Option<&[u8]>) -> Option<(Option<Option<Name>>, After)>
    ensures { option_map shown_moves result
        ≡ created new.now (option_map (λ digits. digits.now) more.entry) }
{
    match (value_in(new)?, more) {
        (Some(object), None) => Some((Some(None), After::Object(object))),
        _ => None,
    }
}

/// Without an old object the ref may be anything before, or not be there.
fn deleted(old: Option<&[u8]>, more: Option<&[u8]>) -> Option<(Option<Option<Name>>, After)>
    ensures { option_map shown_moves result
        ≡ deleted (option_map (λ digits. digits.now) old.entry)
        (option_map (λ digits. digits.now) more.entry) }
{
    match (old, more) {
        (None, None) => Some((None, After::Gone)),
        (Some(digits), None) => {
            let object = value_in(digits)??;
            Some((Some(Some(object)), After::Gone))
        }
        _ => None,
    }
}

/// Without an old object there is no such ref.
fn verified(old: Option<&[u8]>, more: Option<&[u8]>) -> Option<(Option<Option<Name>>, After)>
    ensures { option_map shown_moves result
        ≡ verified (option_map (λ digits. digits.now) old.entry)
        (option_map (λ digits. digits.now) more.entry) }
{
    match (old, more) {
        (None, None) => Some((Some(None), After::Same)),
        (Some(digits), None) => Some((Some(value_in(digits)?), After::Same)),
        _ => None,
    }
}
