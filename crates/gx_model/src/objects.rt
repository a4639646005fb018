//! What objects and the entries of trees are.

/// The kind of an object. Source: gitglossary(7), "object type".
#[derive(Clone, Copy, Debug, PartialEq, Eq)]
pub enum Kind {
    Blob,
    Tree,
    Commit,
    Tag,
}

impl Kind {
    ghost use Rattle.std.specs.Prelude.{◌≡◌};
    ghost use Rattle.gx_model.specs.Objects.Naming.{kind_word};

    /// The word that Git has for the kind, as it stands before a body that is hashed. Source: gitglossary(7), "object type".
    pub fn word(self) -> &'static str
        ensures { result.now ≡ kind_word self }
    {
        match self {
            Kind::Blob => "blob",
            Kind::Tree => "tree",
            Kind::Commit => "commit",
            Kind::Tag => "tag",
        }
    }
}

/// What a tree's entry is: 100644, 100755, 120000, 160000 and 40000, in this order.
/// Source: git-fast-import(1), "filemodify", and Pro Git, "Git Objects".
#[derive(Clone, Copy, Debug, PartialEq, Eq)]
pub enum Mode {
    File,
    Exec,
    Link,
    Gitlink,
    Dir,
}
