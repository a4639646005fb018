//! Changes of a store.

/// What a ref is to be: its name, what it becomes, and what it has to be before, where that is given.
#[derive(Clone, Copy, Debug, PartialEq, Eq)]
pub struct RefChange<'a> {
    pub name: &'a str,
    pub new: &'a str,
    pub old: Option<&'a str>,
}

/// A change of a store, or how one is made.
#[derive(Debug, Drop)]
pub enum Change<'a> {
    /// A new store is made, which with `growing` is of version 3.
    Init {
        growing: bool,
    },
    /// The store becomes one of version 3.
    Grow,
    /// A stream is imported. With `done` it has to end with that command, and with `force` branches may lose commits. With
    /// `report` the refs that it changed are told, and with `explain` what a refusal is about.
    Import {
        done: bool,
        force: bool,
        report: bool,
        explain: bool,
    },
    /// A text of refs and objects is imported, as `git for-each-ref` and `git cat-file --batch` print them. With `force` branches
    /// may lose commits. With `report` the refs that it changed are told, and with `explain` what a refusal is about.
    Objects {
        force: bool,
        report: bool,
        explain: bool,
    },
    /// A stream is imported, where the file `push` tells of each ref that changes what it was, and what may become of it.
    Push {
        push: &'a str,
        done: bool,
        report: bool,
        explain: bool,
    },
    /// Refs are dropped. With `stdin` further ones stand on standard input, one a line.
    Drop {
        refs: Vec<&'a str>,
        stdin: bool,
    },
    /// A ref is set or, where none is given, what standard input tells. With `force` branches may lose commits.
    SetRef {
        change: Option<RefChange<'a>>,
        force: bool,
    },
    /// A whole store's text on standard input becomes the store, where that is still the file with this stamp.
    Put {
        stamp: &'a str,
    },
    /// The objects go that no ref reaches. With `report` it is told how many. `keep` names a file of those that stay, with
    /// all that they reach.
    Gc {
        report: bool,
        keep: Option<&'a str>,
    },
}
