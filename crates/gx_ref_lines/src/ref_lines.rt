//! Refs by their lines. Source: git-show-ref(1).

ghost use Rattle.std.specs.Prelude.{◌≡◌, ◌++◌, List, IfOk, IfSome, IsTrue, Err, Some};
ghost use Rattle.std.specs.FinMap.Entries.{is_sorted};
ghost use Rattle.std.specs.List.{flat_map};
ghost use Rattle.std.specs.Option.{option_map};
ghost use Rattle.gx_model.specs.Objects.{is_name};
ghost use Rattle.gx_model.specs.Stores.StoreText.{stored_ref};
ghost use Rattle.gx_model.specs.Texts.{Bytes, byte_cmp};
ghost use Rattle.gx_model.specs.Texts.RefNames.{is_ref_name};
ghost use Rattle.gx_objects.specs.Answers.{AreRefs, SpellsRefs};
ghost use Rattle.gx_objects.specs.declared.fault.LookFault.TheVariants as faults;
ghost use Rattle.gx_ref_lines.specs.Refs.{shown_front, shown_refs};
ghost use Rattle.gx_repo.specs.Refs.{FindsObject, shown_lent_ref};

use gx_object::Name;
use gx_objects::LookFault;
use gx_text::cut;
use std::alloc::Allocator;

/// The refs of some lines, in their order.
#[derive(Drop)]
pub struct RefLines<'a, A: Allocator> {
    pub refs: Vec<(&'a [u8], Name), A>,
}

impl<'a, A: Allocator + Copy> RefLines<'a, A> {
    /// The refs of lines.
    ///
    /// OutOfMemory: a growth was refused. Damaged: the text isn't that of lines of refs.
    /// Cost: the text. Takes memory for the refs, whose names are lent. Source: git-show-ref(1).
    pub fn read(alloc: A, lines: &'a [u8]) -> Result<RefLines<'a, A>, LookFault>
        ensures lines { IfOk result
            (λ read. lines.now ≡ flat_map stored_ref (shown_refs read.refs.items)) }
        ensures all { (refs : List (Bytes × Bytes)) → lines.now ≡ flat_map stored_ref refs
            → AreRefs refs → IfOk result (λ read. shown_refs read.refs.items ≡ refs) }
        ensures damaged { result ≡ Err faults.Damaged → SpellsRefs lines.now → ⊥ }
        ensures read { result ≡ Err faults.ReadFailed → ⊥ }
    {
        let mut refs = Vec::new(alloc);
        let mut rest = lines;
        while !rest.is_empty() {
            let Some((held, behind)) = first_ref(rest) else {
                return Err(LookFault::Damaged);
            };
            refs.push(held)?;
            rest = behind;
        }
        Ok(RefLines { refs })
    }

    /// The object of the ref of this name, where the refs stand in the byte order of their names.
    ///
    /// Cost: a binary search. Takes no memory. Source: gitglossary(7), "ref".
    pub fn find(&self, name: &[u8]) -> Option<Name>
        ensures { IsTrue (is_sorted byte_cmp (shown_refs self.now.refs.items))
            → FindsObject (shown_refs self.now.refs.items) name.now result }
    {
        let refs = self.refs.as_slice();
        match refs.binary_search_by(|held| held.0.cmp(name)) {
            Ok(place) => Some(refs[place].1),
            Err(_) => None,
        }
    }
}

/// The ref in the first line, and what follows the line.
fn first_ref(text: &[u8]) -> Option<((&[u8], Name), &[u8])>
    ensures spelled { IfSome result
        (λ first. text.now ≡ stored_ref (shown_lent_ref first.0) ++ first.1.now) }
    ensures first { (ref : Bytes × Bytes) (rest : Bytes) → text.now ≡ stored_ref ref ++ rest
        → IsTrue (is_ref_name ref.0) → IsTrue (is_name ref.1)
        → option_map shown_front result ≡ Some (ref, rest) }
{
    let (line, rest) = cut(text, b'\n')?;
    let (digits, name) = cut(line, b' ')?;
    let object = Name::read_lower(digits)?;
    Some(((name, object), rest))
}
