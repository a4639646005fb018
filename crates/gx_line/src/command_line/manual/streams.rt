//! The pages of the commands that read a stream and keep nothing.

use super::Page;

/// The page of `blobs`.
pub(crate) const BLOBS: Page = Page {
    about: "Prints the name of each blob of the stream on standard input",
    description: "\
Prints the name of each blob of the stream on standard input.

The stream has blob commands alone, and nothing of it is kept.",
    details: "\
Output:
  A blob's name, which is 40 hexadecimal digits, and a line feed, as soon as
  the blob was read. What was printed stays where a later command is refused.

Refusals:
  gx: command N: KIND   the Nth command. KIND is NotABlob, BadLine, BadNumber,
                        TruncatedData, NameHeld, ReadFailed, WriteFailed or
                        OutOfMemory",
};

/// The page of `try`.
pub(crate) const TRY: Page = Page {
    about: "Imports standard input into an empty store, and shows a revision",
    description: "\
Imports the stream on standard input into an empty store, and shows a revision.

The revision is read once the import was accepted, and nothing is kept. Where
the stream comes from a pipe, --done shows an end that came too early.",
    details: "\
Output:
  The lines of the stream's progress commands, as they come, and then what
  gx show prints of the revision.

Refusals:
  gx: command N: KIND   as gx import --help has it, also with --explain
  gx: revision 1: KIND  as gx --help has it
  gx: write failed
  gx: out of memory",
};

/// The page of `check`.
pub(crate) const CHECK: Page = Page {
    about: "Imports standard input, exports it, and imports it again",
    description: "\
Imports the stream on standard input into an empty store, exports that store's
changes, and imports the export into another empty one.

Where it is accepted, each ref has come back with its object's name, and with
all that it reaches: that is proved, and not compared. Nothing is kept. Where
the stream comes from a pipe, --done shows an end that came too early.",
    details: "\
Output:
  The lines of the stream's progress commands, as they come, and then how many
  commands the first import had, and how many objects and refs came back:
    commands: N, objects: N, refs: N, and all names came back

Refusals:
  gx: command N: KIND      as gx import --help has it, also with --explain
  gx: export: WriteFailed  the export has 2^63 bytes or more
  gx: write failed
  gx: out of memory",
};

/// The page of `adapt`.
pub(crate) const ADAPT: Page = Page {
    about: "Mends lines of a stream that converters write and import refuses",
    description: "\
Copies a stream from standard input to standard output, and mends lines of
commands that converters write and gx import refuses, or takes under other
names than git fast-import.

No byte of data is changed. With --drop-signatures the signatures of commits
are left out.",
    details: "\
Output:
  The stream, but for these lines of its commands:
    author, committer, tagger  an identity that begins with < gets a space
                               before it
    from                       forty zeros behind a reset: the line is left out
    M, D, C, R                 a path with an opening quote and no closing one
                               is quoted
    feature                    a line of marks, or that only asks for notes,
                               ls, cat-blob or get-mark, is left out
    get-mark                   the line is left out
    gpgsig                     with --drop-signatures the line is left out,
                               and the data behind it
  Comments go, and each block of data is announced by its length. Standard
  error tells how many lines of each kind were mended, and what stays that is
  refused later.

Exit status:
  3 where lines are lost by which git changes refs or files of marks.

Refusals:
  gx: adapt: KIND       KIND is ReadFailed, WriteFailed, TruncatedData,
                        BadNumber or OutOfMemory
  gx: write failed      the last bytes couldn't be written
  gx: out of memory     there was none to begin with",
};

/// The page of `where`.
pub(crate) const WHERE: Page = Page {
    about: "Tells where a stream's Nth command begins, or what is refused",
    description: "\
Tells where the Nth command of the stream on standard input begins, so that
what an import refused by its number is found.

The commands before it are read as an import reads them. Where N is one more
than there are commands, it is the end. The stream is held in memory.

With --fault the stream is imported into an empty store of which nothing is
kept, and what it is refused for is told as gx import --explain tells it.",
    details: "\
Output, with N:
  The number of its first line, from 1, the byte at which it begins, from 0,
  and that line, with colons between, as grep -bn prints a line.

Refusals:
  gx: command N: KIND          with --fault, as gx import --help has it
  gx: where: no such command   N is 0, or there are fewer commands
  gx: where: command M: KIND   the Mth command, before it, is refused
  gx: where: read failed       the stream has 2^63 bytes or more
  gx: where: out of memory
  gx: read failed              standard input can't be read
  gx: write failed
  gx: out of memory",
};
