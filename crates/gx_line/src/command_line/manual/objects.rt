//! The pages of the commands that show objects.

use super::Page;

/// The page of `show`.
pub(crate) const SHOW: Page = Page {
    about: "Shows what a revision gives",
    description: "Shows what a revision gives: a file, a tree, a commit or a tag.",
    details: "\
Output:
  of a blob             its bytes
  of a commit or a tag  its body
  of a tree             a line for each entry, as gx ls prints it
  of a submodule        the 40 digits of its commit

Refusals:
  gx: read failed
  gx: store: KIND       as gx --help has it
  gx: revision 1: KIND  as gx --help has it
  gx: write failed
  gx: out of memory",
};

/// The page of `ls`.
pub(crate) const LS: Page = Page {
    about: "Lists the entries of a revision's tree",
    description: "\
Lists the entries of the tree that a revision gives: the tree itself, that of a
commit, or that of a tag's commit.

With --recursive the files are printed as they are found, so that a refusal may
come when some of them are printed already.",
    details: "\
Output:
  A line for each entry, in the order of the tree: six digits of mode, a space,
  the kind (blob, tree, or commit for a submodule), a space, 40 digits of name,
  a tab and the path. A path with a control character, a double quote, a
  backslash or a byte outside of ASCII stands in double quotes, with the
  escapes of C.

Refusals:
  gx: read failed
  gx: store: KIND       as gx --help has it
  gx: revision 1: KIND  as gx --help has it
  gx: write failed
  gx: out of memory",
};

/// The page of `archive`.
pub(crate) const ARCHIVE: Page = Page {
    about: "Writes the tree of a revision as a tar archive",
    description: "\
Writes the tree that a revision gives as a tar archive: the tree itself, that of
a commit, or that of a tag's commit.

It is what git archive --format=tar writes where no attributes are set and
core.autocrlf isn't. Neither is applied here: no file is left out, no word in a
file is replaced, and no line ends otherwise. PREFIX is taken as it is given, as
bytes of UTF-8.",
    details: "\
Output:
  The archive, as it is made: the name of the commit, where there is one, and
  then the directories, files, links and submodules in the order of the tree.
  A submodule is an empty directory. The time of each is that of the commit,
  and 0 where REV gives a tree. Groups may write, as where git's tar.umask
  isn't set.

Refusals:
  gx: read failed
  gx: store: KIND       as gx --help has it
  gx: revision 1: KIND  as gx --help has it
  gx: write failed      what was written is the archive's beginning
  gx: out of memory     the same",
};

/// The page of `batch`.
pub(crate) const BATCH: Page = Page {
    about: "Answers each line of standard input: a revision or a command",
    description: "\
Shows what each line of standard input gives, which is a revision, as
git cat-file --batch does. With --command each line is a command.

The store is read once. Each answer is sent as soon as it is made. A read or a
write that fails ends the command.",
    details: "\
Output, for each line:
  of an object          its name's 40 digits, a space, its kind, a space, its
                        size in bytes and a line feed, and then its bytes and
                        a line feed, which --check leaves out
  where nothing is      the line, a space and missing
  of an abbreviation    the line, a space and ambiguous, where the names of
                        several objects begin so

FORMAT is what stands on the line of an object: text with %(objectname),
%(objecttype) and %(objectsize), and %% for a percent sign.

Commands, with --command:
  contents REV          what a batch prints of the line REV
  info REV              the same with --check
  flush                 nothing: each answer is sent at once
  ls REV, ls -r REV, refs, log RANGE..., rev-parse REV..., archive REV
                        the command, a space, the number of bytes, a line feed,
                        what gx prints for it, and a line feed; of a word that
                        gives nothing, what a batch prints of it
  any other             the line, a space and unknown

Refusals:
  gx: BadFormat         FORMAT has another name than these in %( and )
  gx: read failed       FILE or standard input can't be read
  gx: store: KIND       as gx --help has it
  gx: write failed
  gx: out of memory",
};
