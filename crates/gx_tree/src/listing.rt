//! The list of a directory's files.
ghost use Rattle.std.specs.Prelude.{◌≡◌, ◌++◌, ◌∷◌, [], OnOk, IfOk, IsTrue};
ghost use Rattle.gx_model.specs.Texts.Paths.{is_component, is_short};
ghost use Rattle.gx_tree.specs.Lists.{AppendsFiles, are_short, below};

use crate::directory::{Directory, Item};
use gx_object::{Mode, Name};
use gx_text::{TextFault, TreePath};
use std::alloc::{AllocError, Allocator};

impl<A: Allocator + Copy> Directory<A> {
    /// Appends the files, each by its path below `front`.
    pub(crate) fn list_into(
        &self,
        alloc: A,
        front: &TreePath<A>,
        out: &mut Vec<(TreePath<A>, Mode, Name), A>,
    ) -> Result<(), AllocError>
        requires { IsTrue (are_short (below front.now self.now.files)) }
        ensures { OnOk result (AppendsFiles (below front.now self.now.files)
            out.old.items out.new.items) }
    {
        for entry in self.entries.as_slice() {
            let path = child(alloc, front, entry.component())?;
            match &entry.item {
                Item::File(mode, name) => out.push((path, *mode, *name))?,
                Item::Folder(below) => below.list_into(alloc, &path, out)?,
            }
        }
        Ok(())
    }
}

/// The path with one more component.
///
/// Cost: the path's length. Memory: the path, and its text twice at most.
pub fn child<A: Allocator + Copy>(
    alloc: A,
    front: &TreePath<A>,
    component: &[u8],
) -> Result<TreePath<A>, AllocError>
    requires component { IsTrue (is_component component.now) }
    requires short { IsTrue (is_short (front.now ++ component.now ∷ [])) }
    ensures { IfOk result (λ path. path ≡ front.now ++ component.now ∷ []) }
{
    let mut text = Vec::from_slice(alloc, front.joined())?;
    if front.len() > 0 {
        text.push(b'/')?;
    }
    text.extend_from_slice(component)?;
    match TreePath::read(alloc, &text) {
        Ok(path) => Ok(path),
        Err(fault) => match fault {
            TextFault::OutOfMemory => Err(AllocError),
            _ => unreachable!(),
        },
    }
}
