//! Ref names.

ghost use Rattle.std.specs.Prelude.{◌≡◌};
ghost use Rattle.std.specs.List.{list_all};
ghost use Rattle.gx_model.specs.Texts.{has_pair};
ghost use Rattle.gx_model.specs.Texts.RefNames.{is_ref_byte, is_ref_component, ref_components, is_ref_name};

/// Whether the bytes are a ref name. Names of one level are allowed.
///
/// Cost: the length. Takes no memory. Source: git-check-ref-format(1).
pub fn is_ref_name(bytes: &[u8]) -> bool
    ensures { result ≡ is_ref_name bytes.now }
{
    has_components(bytes)
        && has_ref_bytes(bytes)
        && !has_neighbours(bytes, b'.', b'.')
        && !has_neighbours(bytes, b'@', b'{')
        && !bytes.ends_with(b".")
        && bytes != b"@".as_slice()
}

// Whether each part between the slashes is a component.
fn has_components(bytes: &[u8]) -> bool
    ensures { result ≡ list_all is_ref_component (ref_components bytes.now) }
{
    bytes.split(|b| *b == b'/').all(is_component)
}

fn is_component(component: &[u8]) -> bool
    ensures { result ≡ is_ref_component component.now }
{
    !component.is_empty() && !component.starts_with(b".") && !component.ends_with(b".lock")
}

// Whether a ref name may hold each byte.
fn has_ref_bytes(bytes: &[u8]) -> bool
    ensures { result ≡ list_all is_ref_byte bytes.now }
{
    bytes.iter().all(|b| is_ref_byte(*b))
}

fn is_ref_byte(b: u8) -> bool
    ensures { result ≡ is_ref_byte b }
{
    b > b' ' && !matches!(b, 0x7f | b'~' | b'^' | b':' | b'?' | b'*' | b'[' | b'\\')
}

// Whether some two neighbours are these.
fn has_neighbours(bytes: &[u8], first: u8, second: u8) -> bool
    ensures { result ≡ has_pair first second bytes.now }
{
    for i in 1..bytes.len() {
        if bytes[i - 1] == first && bytes[i] == second {
            return true;
        }
    }
    false
}
