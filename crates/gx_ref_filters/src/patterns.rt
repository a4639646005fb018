//! Patterns of ref names. Source: git-for-each-ref(1).

ghost use Rattle.std.specs.Prelude.{◌≡◌};
ghost use Rattle.gx_text.specs.Lent.{lent_texts};
ghost use Rattle.gx_ref_filters.specs.Patterns.{is_front, is_named};

/// Whether one of the patterns matches a ref name, or there are none. Takes no memory.
pub(crate) fn is_named(patterns: &[&str], name: &[u8]) -> bool
    ensures { result ≡ is_named (lent_texts patterns.now) name.now }
{
    if patterns.is_empty() {
        return true;
    }
    for pattern in patterns {
        if is_front(pattern.as_bytes(), name) {
            return true;
        }
    }
    false
}

/// Whether a pattern is a whole name, or the front of it up to a slash.
fn is_front(pattern: &[u8], name: &[u8]) -> bool
    ensures { result ≡ is_front pattern.now name.now }
{
    match name.strip_prefix(pattern) {
        Some(rest) => rest.is_empty() || rest.starts_with(b"/") || pattern.ends_with(b"/"),
        None => false,
    }
}
