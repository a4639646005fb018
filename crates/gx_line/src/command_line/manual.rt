//! The manual of `gx`: what the help of each command says. Each page fits a terminal of 80 columns.

pub(super) mod commits;
pub(super) mod objects;
pub(super) mod stores;
pub(super) mod streams;

/// The page of a command.
#[derive(Clone, Copy)]
pub(super) struct Page {
    /// One line, as the list of commands has it.
    pub(super) about: &'static str,
    /// What the command does.
    pub(super) description: &'static str,
    /// What it prints, and what it refuses.
    pub(super) details: &'static str,
}

/// The page of `gx` itself, with what its commands have in common.
pub(super) const GX: Page = Page {
    about: "The core of a Git repository, fed by git fast-import streams",
    description: "\
The core of a Git repository, fed by git fast-import streams.

A repository is kept in one file, its store: blobs, trees, commits and
annotated tags, as Git's own object bytes and uncompressed, and the refs.
Streams have the form of git-fast-import(1).",
    details: "\
Operands:
  FILE   the store.
  REV    a revision, as in gitrevisions(7): a ref name, @ for HEAD, or an
         object's name, of which the first 4 digits are enough where no other
         object's begins so. Behind it, in any number:
           ^, ^N               the first parent, the Nth; ^0 is the commit
           ~, ~N               the first parent, N first parents up
           ^{}                 what a tag stands for
           ^{commit}, ^{blob}  the same, of this kind
           ^{tree}             the tree, or the commit's
           ^{object}, ^{tag}   the object itself, or a tag itself
         and last :PATH, what the tree has at this path.
  RANGE  commits, in all of the words together:
           REV      the commit and its ancestors
           ^REV     leaves these out
           A..B     those of B without those of A
           A...B    those of A and of B without those of both
           REV^@    those of its parents
           REV^!    the commit without those of its parents
           REV^-N   those of REV without those of its Nth parent; ^- is ^-1
         A side of .. or ... that's left out is HEAD.

  Each word behind -- is an operand, also where it begins with a hyphen.

Options before the command:
  --explain  tells the file and the system's cause of gx: read failed,
             gx: write failed and gx: lock failed in a further line, what helps
             with gx: store: Damaged, and of a refused stream what
             gx import --help has, as at a terminal
  --version  prints the version, where it stands alone

Exit status:
  0  the command was done, or help was asked for
  1  it was refused, for what standard error says in a line
  2  the command line isn't accepted
  3  it was done, but something is lost: of gx adapt lines that change refs, of
     gx verify --salvage refs; or the answer is no: gx merge-base found no common
     ancestor, or no ancestor, or gx diff --exit-code paths that differ

Refusals:
  gx: command N: KIND   the Nth command of the stream, from 1
  gx: object N: KIND    the Nth ref or object, as gx import --help has it
  gx: push N: KIND      the Nth line of F, as gx import --help has it
  gx: ref N: KIND       the Nth change of a ref, as gx set-ref --help has it
  gx: keep N: BadLine   the Nth line of F is no 40 digits
  gx: revision N: KIND  the Nth REV, RANGE or REF, from 1. KIND is BadRevision,
                        BadPath, PathTooLong, UnknownRef, UnknownObject,
                        Ambiguous, NoParent, WrongKind or NoSuchPath
  gx: store: KIND       the text of FILE. KIND is OutOfMemory, BadMagic,
                        BadVersion, Truncated, BadRecord, NameMismatch,
                        DuplicateObject, Dangling, BadObject, BadRef, RefOrder,
                        TrailingBytes or BadRows. Questions of a growing store,
                        exports of its ranges, bundle and gc tell Damaged:
                        gx verify tells the first fault, and
                        gx verify --salvage saves refs
  gx: export: KIND      OutOfMemory or WriteFailed
  gx: bundle: KIND      Empty or Unsupported
  gx: adapt: KIND       OutOfMemory, ReadFailed, WriteFailed, TruncatedData or
                        BadNumber
  gx: where: ...        as gx where --help has it
  gx: store exists      FILE is there, where a store is to be made
  gx: store changed     FILE is another than S tells, as gx put --help has it
  gx: bad stamp         S is no such text
  gx: read failed       FILE or standard input can't be read
  gx: write failed      FILE or standard output can't be written
  gx: random bytes failed
                        the system gave none
  gx: lock failed       FILE.new, where the next store is written, can't be
                        locked, or another run has it for longer than --wait
  gx: name too long     FILE's name leaves no room for .new behind it
  gx: out of memory",
};
