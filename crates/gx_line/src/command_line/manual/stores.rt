//! The pages of the commands on a store as a whole.

use super::Page;

/// The page of `init`.
pub(crate) const INIT: Page = Page {
    about: "Makes an empty store",
    description: "\
Makes an empty store, which has no objects and no refs.

With --growing it is of version 3, as gx grow makes one of another: what is
asked of a large store then costs little, and what is new is appended to it.",
    details: "\
Output:
  None.

Refusals:
  gx: store exists      FILE is there, and stays as it is
  gx: read failed       whether FILE is there can't be told
  gx: write failed
  gx: lock failed       as gx --help has it
  gx: name too long     as gx --help has it
  gx: out of memory",
};

/// The page of `grow`.
pub(crate) const GROW: Page = Page {
    about: "Makes a growing store of a store",
    description: "\
Makes a growing store of a store: one of version 3, in which tables say where
each object stands. Questions (show, ls, refs, log, rev-parse, archive and
batch) then read what they need, and not all of FILE. What import, drop and
set-ref bring is appended to it.

It has the same objects and refs, and all commands take it as they take others.
A store that is one already stays as it is. The next store is written to
FILE.new, which then takes the place of FILE.",
    details: "\
Output:
  None.

Refusals, each of which leaves FILE as it was:
  gx: read failed
  gx: lock failed       as gx --help has it
  gx: name too long     as gx --help has it
  gx: store: KIND       as gx --help has it
  gx: write failed
  gx: out of memory",
};

/// The page of `verify`.
pub(crate) const VERIFY: Page = Page {
    about: "Reads a store as a whole, and tells what it holds",
    description: "\
Reads a store of any version as a whole, and tells what it holds. Of a growing
store it looks at the tables, too, which other commands need not do.",
    details: "\
Output:
  Lines of a word and a number: version, objects, refs and bytes, which is how
  long FILE is.
  With --salvage instead a line for each ref that is lost: its name, the digits
  of the object that is damaged, and its cause: Missing, Damaged, ReadFailed,
  BadObject, Dangling or WrongKind.

Exit status:
  With --salvage 3 where refs are lost, or the last change.

Refusals:
  gx: read failed
  gx: store: KIND       the first fault of FILE, as gx --help has it
  gx: write failed
  gx: out of memory",
};

/// The page of `import`.
pub(crate) const IMPORT: Page = Page {
    about: "Imports the stream on standard input into a store",
    description: "\
Imports the stream on standard input into a store.

Where a command is refused, what the checkpoints before it published is kept
and nothing else: without a checkpoint FILE stays as it was. Where the stream
comes from a pipe, --done shows an end that came too early.

A branch that the store has already only moves forward: its new commit has to be
the old one or a descendant of it, unless --force is given or the stream has the
line 'feature force'. Neither outlives the import. The next store is written to
FILE.new, which then takes the place of FILE; to a growing store what is new is
appended.

With --push each line of F tells of one ref what FILE has to have of it, before
the stream is read, and what may become of it:
  OLD REF   the 40 digits that gx refs prints of REF, or forty zeros where there
            is no such ref. It only moves forward
  +OLD REF  the same, but it may lose commits
  -OLD REF  the ref is removed once the stream is read
No other ref changes, and nothing is published before all of the stream is read.

With --objects standard input has refs and objects in place of a stream, in any
order, as these commands print them:
  git for-each-ref --format='%(objectname) %(refname)'
  git cat-file --batch
An object keeps the name that stands there, which has to be that of its bytes.
What objects and refs name is there, too, or in FILE already. A ref of forty
zeros is dropped. All comes in, or nothing. --done and --push are for streams.",
    details: "\
Output:
  The lines of the stream's progress commands, as they come. What was printed
  stays where a later command is refused.

  With --report standard error gets a line for each ref that changed, in the
  order of their names' bytes, also behind checkpoints where a later command is
  refused: 40 digits of what it held, a space, 40 digits of what it holds, a
  space and its name. 40 zeros stand for nothing. Where the import is accepted,
  a line tells the numbers of commands, objects and refs, as at a terminal.

  With --explain, or at a terminal, lines behind that of a refused command tell
  what it is about:
    gx: line L, byte B: TEXT   where the faulty item stands: the number of its
                               line, from 1, the byte at which it begins, from
                               0, and the first 200 bytes of the line
    gx: change N: PATH         the Nth change of the commit, and its path
    gx: asked for NAME         the mark, the revision or the object that a from,
                               a merge or an M asks for in vain
    gx: REF: from OLD to NEW   the ref that would lose a commit, its commit and
                               the one to which it would move
    gx: REF: expected OLD, found NOW
                               the ref of the line of F that is refused, its OLD
                               there, and what FILE has: forty zeros for none
  TEXT and PATH are printed as gx ls prints a path.

Refusals, each of which leaves FILE as it was but for those checkpoints:
  gx: read failed
  gx: lock failed       as gx --help has it
  gx: name too long     as gx --help has it
  gx: store: KIND       as gx --help has it
  gx: command N: KIND   the Nth command, or the one that would follow the last.
                        KIND is OutOfMemory, ReadFailed, WriteFailed,
                        UnknownCommand, BadLine, BadNumber, TruncatedData,
                        BadPath, PathTooLong, BadMode, BadIdent, BadRefName,
                        UnknownMark, WrongKind, UnknownObject, NoSuchPath,
                        RootNotTree, FromItself, EmptyBranch, Unsupported,
                        LateOption, MissingDone, NotFastForward, NameHeld,
                        BadRevision, UnknownRef, Ambiguous or NoParent
  gx: object N: KIND    the Nth of what --objects brings. KIND is TruncatedData,
                        BadLine, BadNumber, Missing, BadRefName, NameMismatch,
                        BadObject, NameHeld, Dangling, WrongKind or
                        NotFastForward
  gx: push N: KIND      the Nth line of F. KIND is RefMoved where FILE has
                        another OLD, NotFastForward where the ref would lose
                        commits, or BadLine where it isn't such a line or its
                        ref is given before. Of a ref that changes and has no
                        line, it is RefMoved and the number of lines and one.
                        FILE stays as it was, also behind checkpoints
  gx: write failed
  gx: out of memory",
};

/// The page of `drop`.
pub(crate) const DROP: Page = Page {
    about: "Drops refs from a store",
    description: "\
Drops refs from a store: all of these, or none.

Each REF is a whole name, as gx refs prints it. With --stdin each line of
standard input is one more name, behind those of the command line. The other
refs stay, and so do all objects. The next store is written to FILE.new, which
then takes the place of FILE; to a growing store what is new is appended.",
    details: "\
Output:
  None.

Refusals, each of which leaves FILE as it was:
  gx: read failed       FILE or standard input can't be read
  gx: lock failed       as gx --help has it
  gx: name too long     as gx --help has it
  gx: store: KIND       as gx --help has it
  gx: revision N: UnknownRef
                        the Nth REF is no ref's name, or is given before:
                        those of the command line first
  gx: write failed
  gx: out of memory",
};

/// The page of `set-ref`.
pub(crate) const SET_REF: Page = Page {
    about: "Sets refs of a store",
    description: "\
Sets a ref of a store to an object that the store has, or removes it.

NEW and OLD are 40 digits, as gx refs prints them. Forty zeros as NEW remove the
ref. Where OLD is given, the ref has to be that, and with forty zeros there may
be none. A ref only moves forward: its new commit has to be the old one or a
descendant of it, unless --force is given. The next store is written to
FILE.new, which then takes the place of FILE; to a growing store what is new is
appended.

With --stdin each line of standard input is a change, as git update-ref --stdin
has them, and all are made, or none:
  update REF NEW [OLD]  as above
  create REF NEW        there may be no such ref
  delete REF [OLD]      the ref is removed, where it is there
  verify REF [OLD]      the ref stays. Without OLD there may be none",
    details: "\
Output:
  None.

Refusals, each of which leaves FILE as it was:
  gx: read failed       FILE or standard input can't be read
  gx: lock failed       as gx --help has it
  gx: name too long     as gx --help has it
  gx: store: KIND       as gx --help has it
  gx: ref N: KIND       the Nth change, from 1. KIND is
                        BadLine         it isn't such a change, or its ref is
                                        given before
                        BadRefName      REF is no name of a ref
                        RefMoved        the ref isn't OLD
                        UnknownObject   the store has no object NEW
                        WrongKind       NEW is neither a commit nor a tag whose
                                        own name makes REF
                        NotFastForward  the ref would lose commits
  gx: write failed
  gx: out of memory",
};

/// The page of `put`.
pub(crate) const PUT: Page = Page {
    about: "Puts a store's text on standard input into FILE's place",
    description: "\
Puts the store's text on standard input into the place of FILE, where that is
still the file that S tells. It is for programs that make the text of a store by
the library: they tell which file they read, and no other one is replaced.

S is DEVICE:INODE:SIZE:NANOSECONDS, numbers as stat has them of FILE, the last
one of its last modification. With new there is to be no FILE.",
    details: "\
Output:
  The new file's S, in a line.

Refusals, each of which leaves FILE as it was:
  gx: bad stamp         S is no such text
  gx: store changed     FILE is another file than S tells
  gx: store exists      FILE is there, and S is new
  gx: read failed       FILE or standard input can't be read
  gx: lock failed       as gx --help has it
  gx: name too long     as gx --help has it
  gx: store: KIND       as gx --help has it, of the text on standard input
  gx: write failed
  gx: out of memory",
};

/// The page of `gc`.
pub(crate) const GC: Page = Page {
    about: "Leaves out of a store what no ref reaches",
    description: "\
Leaves out of a store the objects that no ref reaches.

The others keep their order, and the refs stay: what revisions and ranges by
refs gave, they give. Of a growing store the tails and rows go, too, that were
replaced by later ones. The next store is written to FILE.new, which then takes
the place of FILE.

With --keep each line of F is the 40 digits of an object, which stays with all
that it reaches. Digits that no object has keep nothing.",
    details: "\
Output:
  None. At a terminal, or with --report, standard error tells how many objects
  went, and how many bytes their bodies had.

Refusals, each of which leaves FILE as it was:
  gx: read failed
  gx: lock failed       as gx --help has it
  gx: name too long     as gx --help has it
  gx: store: KIND       as gx --help has it
  gx: keep N: BadLine   the Nth line of F isn't 40 digits
  gx: write failed
  gx: out of memory",
};

/// The page of `export`.
pub(crate) const EXPORT: Page = Page {
    about: "Writes a store as a stream",
    description: "\
Writes a store as a stream that gx import and git fast-import take.

It has the commits that refs reach, each with all of its files, and the refs.
With --changes it is as long as what changed, and other readers see branches.
Importing it into an empty store gives the same refs and object names. A store
that holds a submodule of forty zeros is written, too, but no import takes it.

With RANGEs, as gx log takes them, it has these commits alone, and the refs at
what they include or exclude. A store that holds what is excluded takes it.",
    details: "\
Output:
  The stream, in the manner of git fast-export --full-tree: first
  feature done, then the commits in the order in which they were first made,
  each behind the blobs of its files that weren't written yet, then the refs
  in the order of their names' bytes, and done. With --changes a commit is on
  the first branch that reaches it, else on the first such ref, and has D and a
  path for each file that is gone, and then M for each that is new or another.

Refusals:
  gx: read failed
  gx: store: KIND       as gx --help has it
  gx: revision N: KIND  the Nth RANGE, as gx --help has it
  gx: export: KIND      KIND is OutOfMemory or WriteFailed. What was written
                        is the stream's beginning
  gx: write failed
  gx: out of memory",
};

/// The page of `bundle`.
pub(crate) const BUNDLE: Page = Page {
    about: "Writes a store as a bundle, as git bundle makes one",
    description: "\
Writes a store as a bundle, which git clone, git fetch and git bundle take as it
is. It has all refs, and the objects that they reach, under their names.

With RANGEs it has the refs that these are written as: REV, A..REV, REV^! and
REV^-N name a ref where REV is its name, whole or shorter, and A...B names two.
Commits that they exclude stand in the bundle as those that its reader needs,
and what these reach isn't written. With --all all refs are told.

With --head git clone checks REF out. Otherwise it needs --mirror, or --branch
and a name.",
    details: "\
Output:
  The bundle, of version 2, as in gitformat-bundle(5): the refs in the order of
  their names' bytes, and a pack with the objects in the order in which they
  came into the store. They aren't compressed. With --pack the pack alone.

Refusals:
  gx: read failed
  gx: store: KIND       as gx --help has it
  gx: revision N: KIND  the Nth RANGE, or behind them REF. KIND is UnknownRef
                        where REF is no ref of the store, and WrongKind where
                        it holds no commit
  gx: bundle: Empty     RANGEs name no ref. Nothing was written
  gx: bundle: Unsupported
                        2^32 objects or more would be written, as no pack can
                        have. Nothing was written
  gx: write failed      what was written is the bundle's beginning
  gx: out of memory     so it is here",
};

/// The page of `refs`.
pub(crate) const REFS: Page = Page {
    about: "Lists the refs",
    description: "\
Lists the refs, in the order of their names' bytes: all of them, or those that
each option asks for and that one of the PATTERNs matches.",
    details: "\
Operands and options:
  PATTERN  the name of a ref, or the front of names up to a slash: refs/heads
           lists the branches. There are no wildcards.
  A REV that refs point at may be any object. The commit of a ref is its object,
  or the one that its tag names.

Output:
  A line for each ref: 40 digits of the name of its commit or tag, a space and
  the name of the ref.

Refusals:
  gx: revision N: KIND  the Nth REV, in the order in which the options stand
                        above, as gx --help has it
  gx: read failed
  gx: store: KIND       as gx --help has it
  gx: write failed
  gx: out of memory",
};
