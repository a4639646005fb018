//! The pages of the commands with a list of words.

use super::Page;

/// The page of `log`.
pub(crate) const LOG: Page = Page {
    about: "Lists the commits of ranges",
    description: "\
Lists the commits of ranges, the newest first: the one that was made last.

A commit is listed where one of the words includes it and none excludes it.
With --all each ref is one more word. With --stdin each line of standard input
is one more word, behind the others. Without both, a RANGE has to be given.

Of these commits --merges, --no-merges, --since and --until leave out some. A
commit was made at the seconds since 1970 of its committer. --skip passes over
the first of those that are left, and --max-count counts behind these.",
    details: "\
Output:
  A line for each commit: 40 digits of its name, and with --parents a space and
  40 digits for each parent, the first parent first. With --format=
    oneline  its name, a space and the subject
    raw      a line commit and its name, its header, an empty line and its
             message, indented by four spaces; an empty line stands between
    subject  the subject, which is the first paragraph of the message in a line
    author   its name, a space and the author's name and mail
    dates    its name, and the seconds of the author's and the committer's time
  With --count one line: how many commits there are.

Refusals:
  gx: read failed       FILE or standard input can't be read
  gx: store: KIND       as gx --help has it
  gx: revision N: KIND  the Nth RANGE, as gx --help has it: those of the command
                        line first, then those of standard input
  gx: write failed
  gx: out of memory",
};

/// The page of `rev-parse`.
pub(crate) const REV_PARSE: Page = Page {
    about: "Prints the names of what revisions give",
    description: "\
Prints the names of what revisions give.

All of them are looked up before the first name is printed.",
    details: "\
Output:
  A line for each revision: 40 digits of the name of what it gives.

Refusals:
  gx: read failed
  gx: store: KIND       as gx --help has it
  gx: revision N: KIND  the Nth REV, as gx --help has it
  gx: write failed
  gx: out of memory",
};

/// The page of `merge-base`.
pub(crate) const MERGE_BASE: Page = Page {
    about: "Prints the best common ancestors of commits",
    description: "\
Prints a best common ancestor of commits: one that no other common ancestor has
behind it.

A commit counts among its own ancestors. Without --octopus those are common that
are ancestors of REV and of any OTHER, as of a merge of the OTHERs.",
    details: "\
Output:
  A line: 40 digits of the name. Of several it is the one that was made last;
  with --all there is a line for each, the last first. With --is-ancestor none.

Exit status:
  3  there is no common ancestor, or REV is no ancestor of OTHER. Nothing is
     printed then

Refusals:
  gx: read failed
  gx: store: KIND       as gx --help has it
  gx: revision N: KIND  REV, which is the first, or an OTHER, as gx --help has it
  gx: write failed
  gx: out of memory",
};

/// The page of `diff`.
pub(crate) const DIFF: Page = Page {
    about: "Tells at which paths two revisions differ",
    description: "\
Tells at which paths the files of two revisions differ, as git diff-tree -r.

With PATHs it tells of the files at these paths and below them alone. A PATH that
ends with a slash is that of a directory: what stands below it.",
    details: "\
Output:
  A line for each path, in the byte order of paths: its status, a TAB and the
  path, quoted as gx ls has it. The status is
    A  NEW alone has a file there
    D  OLD alone has one
    T  they have files of other types: one, a symlink or a submodule
    M  they have files of other bytes or rights
  With --name-only the path alone. With --raw a colon and, each with a space
  behind it, the mode in OLD, that in NEW, and the 40 digits of both names come
  first; zeros stand for no file. With -z a NUL stands for the TAB and the line's
  end, and no path is quoted. With --count four lines: A, D, M and T, each with a
  TAB and how many there are.

  With --patch what git apply takes to make NEW of OLD, as git diff --full-index
  --no-renames writes it, but for a line of its function behind the head of a
  hunk. A file of type T goes and comes again. Of a file with a NUL among its
  first 8000 bytes it has the line that git has, which git apply doesn't take:
  Binary files a/F and b/F differ

Exit status:
  3  with --exit-code or --quiet: paths differ

Refusals:
  gx: read failed
  gx: store: KIND       as gx --help has it
  gx: revision N: KIND  OLD, which is the first, or NEW, as gx --help has it
  gx: write failed
  gx: out of memory",
};
