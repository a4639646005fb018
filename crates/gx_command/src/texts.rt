//! The texts of commands: names of refs and tags, identities, encodings and the digits of object names.

ghost use Rattle.std.specs.Prelude.{◌≡◌, IsTrue, Some, false, ◌==◌, not, nat_eq, IsOk, IsErrOf};
ghost use Rattle.std.specs.List.{list_all};
ghost use Rattle.gx_model.specs.Faults.{Gives};
ghost use Rattle.gx_model.specs.Texts.Idents.{is_ident};
ghost use Rattle.gx_model.specs.Texts.{is_line};
ghost use Rattle.gx_model.specs.Histories.Values.{is_optional_encoding};
ghost use Rattle.gx_model.specs.Texts.RefNames.{is_ref_name, is_tag_name};
ghost use Rattle.gx_model.specs.Streams.Lines.{ident_of, encoding_of, is_null};
ghost use Rattle.gx_model.specs.Texts.Digits.{is_any_name_text};
ghost use Rattle.gx_command.specs.CommandFaults.{fault_of};
ghost use Rattle.gx_command.specs.Lines.{shown_words};
ghost use Rattle.gx_command.specs.declared.fault.CommandFault.TheVariants.{OutOfMemory};

use crate::fault::CommandFault;
use crate::lines::Words;
use gx_text::{Ident, are_hex_digits};
use std::alloc::Allocator;

/// A ref name. Source: git-check-ref-format(1).
#[derive(Drop)]
pub struct RefName<A: Allocator> {
    pub bytes: Vec<u8, A>,
    pub ghost proper: { IsTrue (is_ref_name bytes.items) },
}

/// The name of a tag: `refs/tags/` followed by it is a ref name. Source: git-check-ref-format(1).
#[derive(Drop)]
pub struct TagName<A: Allocator> {
    pub bytes: Vec<u8, A>,
    pub ghost proper: { IsTrue (is_tag_name bytes.items) },
}

/// Who made a commit or a tag, and when, as written: name, email, seconds and offset. Source: git-fast-import(1), "author",
/// "committer", "tagger" and the date format `raw`.
#[derive(Drop)]
pub struct Identity<A: Allocator> {
    pub bytes: Vec<u8, A>,
    pub ghost proper: { IsTrue (is_ident bytes.items) },
}

/// The name of a message's encoding: a line, and not empty. Source: git-fast-import(1), "encoding".
#[derive(Drop)]
pub struct Encoding<A: Allocator> {
    pub name: Vec<u8, A>,
    pub ghost proper: { IsTrue (is_optional_encoding (Some name.items)) },
}

/// The name of an object, in forty hexadecimal digits of either case, not all of them zeros. Source: git-fast-import(1), "filemodify".
#[derive(Clone, Copy)]
pub struct Digits {
    pub digits: [u8; 40],
    pub ghost proper: { IsTrue (is_any_name_text digits) },
    pub ghost some: { is_null digits ≡ false },
}

impl<A: Allocator + Copy> RefName<A> {
    ghost use Rattle.gx_command.specs.Heads.{ref_named};

    /// The ref that a line with these words names.
    pub(crate) fn read(alloc: A, words: Words<'_>) -> Result<RefName<A>, CommandFault>
        ensures name { Gives fault_of (λ it. it.bytes.items) result
            (ref_named (shown_words words.entry)) }
        ensures memory { IsErrOf result OutOfMemory → IsOk (ref_named (shown_words words.entry)) }
    {
        let text = words.rest()?;
        if !gx_text::is_ref_name(text) {
            return Err(CommandFault::BadRefName);
        }
        let bytes = Vec::from_slice(alloc, text)?;
        Ok(RefName { bytes })
    }
}

impl<A: Allocator + Copy> TagName<A> {
    ghost use Rattle.gx_command.specs.Heads.{name_at};

    /// The name of a tag that a line with these words names.
    pub(crate) fn read(alloc: A, words: Words<'_>) -> Result<TagName<A>, CommandFault>
        ensures name { Gives fault_of (λ name. name.bytes.items) result
            (name_at (shown_words words.entry)) }
        ensures memory { IsErrOf result OutOfMemory → IsOk (name_at (shown_words words.entry)) }
    {
        let text = words.rest()?;
        if !is_tag_name(text) {
            return Err(CommandFault::BadRefName);
        }
        let bytes = Vec::from_slice(alloc, text)?;
        Ok(TagName { bytes })
    }
}

/// Whether the text makes a ref name behind `refs/tags/`: alone it is one, or `@`.
#[tactic(auto, using(crate::proofs::TagNames::tag_names))]
fn is_tag_name(text: &[u8]) -> bool
    ensures { result ≡ is_tag_name text.now }
{
    gx_text::is_ref_name(text) || text == b"@".as_slice()
}

impl<A: Allocator + Copy> Identity<A> {
    pub(crate) fn read(alloc: A, text: &[u8]) -> Result<Identity<A>, CommandFault>
        ensures ident { Gives fault_of (λ identity. identity.bytes.items) result
            (ident_of text.now) }
        ensures memory { IsErrOf result OutOfMemory → IsOk (ident_of text.now) }
    {
        let ident = Ident::read(text)?;
        let bytes = Vec::from_slice(alloc, ident.bytes())?;
        Ok(Identity { bytes })
    }
}

impl<A: Allocator + Copy> Encoding<A> {
    pub(crate) fn read(alloc: A, text: &[u8]) -> Result<Encoding<A>, CommandFault>
        ensures encoding { Gives fault_of (λ encoding. encoding.name.items) result
            (encoding_of text.now) }
        ensures memory { IsErrOf result OutOfMemory → IsOk (encoding_of text.now) }
    {
        if !is_encoding(text) {
            return Err(CommandFault::BadLine);
        }
        let name = Vec::from_slice(alloc, text)?;
        Ok(Encoding { name })
    }
}

/// Whether the text is a line, and not empty.
fn is_encoding(text: &[u8]) -> bool
    ensures { result ≡ is_optional_encoding (Some text.now) }
{
    !text.is_empty() && is_line(text)
}

fn is_line(text: &[u8]) -> bool
    ensures { result ≡ is_line text.now }
{
    text.iter().all(|b| *b != b'\n')
}

/// Whether the text is forty zeros, which name no object.
pub(crate) fn is_null(text: &[u8]) -> bool
    ensures { result ≡ is_null text.now }
{
    are_zeros(text) && text.len() == 40
}

fn are_zeros(text: &[u8]) -> bool
    ensures { result ≡ list_all (λ b. b == 48) text.now }
{
    text.iter().all(|b| *b == b'0')
}

/// Whether the text is forty hexadecimal digits of either case.
pub(crate) fn is_name(text: &[u8]) -> bool
    ensures { result ≡ is_any_name_text text.now }
{
    are_hex_digits(text) && text.len() == 40
}
