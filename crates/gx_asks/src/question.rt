//! Questions to a store, which leave it as it is.

/// What `log` prints of each commit.
#[derive(Clone, Copy, Debug, PartialEq, Eq)]
pub enum LogFormat {
    /// Its name.
    Names,
    /// Its name and its subject.
    Oneline,
    /// Its whole text.
    Raw,
    /// Its subject.
    Subject,
    /// Its name and its author.
    Author,
    /// Its name and the author's and the committer's time.
    Dates,
}

/// Which commits `log` keeps of those that range words list.
#[derive(Clone, Copy, Debug, PartialEq, Eq)]
pub struct CommitFilter {
    /// No commit but merges, which have two parents or more.
    pub merges: bool,
    /// No merge.
    pub no_merges: bool,
    /// No commit that was made before these seconds, by its committer.
    pub since: Option<u64>,
    /// No commit that was made after these seconds, by its committer.
    pub until: Option<u64>,
}

/// The options of `log`.
#[derive(Clone, Copy, Debug, PartialEq, Eq)]
pub struct LogOptions {
    /// The last commit of the list comes first.
    pub reverse: bool,
    /// Which commits are kept.
    pub only: CommitFilter,
    /// So many of these are passed over.
    pub skip: Option<u64>,
    /// So many commits at most, counted behind those that are passed over and before the list is reversed.
    pub max_count: Option<u64>,
    /// How many commits there are is printed, and nothing of them.
    pub count: bool,
    /// The names of a commit's parents stand behind its own.
    pub parents: bool,
    /// Each ref is one more word.
    pub all: bool,
    /// Further words stand on standard input, one a line.
    pub stdin: bool,
    /// What is printed of each commit. Behind another format than names stand no parents.
    pub format: LogFormat,
}

/// What `diff` prints of the paths at which two revisions differ.
#[derive(Clone, Copy, Debug, PartialEq, Eq)]
pub enum DiffForm {
    /// Of each its status, which is A, M, D or T, and the path.
    Status,
    /// The path alone.
    Paths,
    /// The modes and the names before and after, its status, and the path.
    Raw,
    /// How many there are of each status.
    Count,
    /// The lines that change at each, as a patch.
    Patch,
    /// Nothing.
    Quiet,
}

/// The options of `diff`.
#[derive(Clone, Copy, Debug, PartialEq, Eq)]
pub struct DiffOptions {
    /// What is printed.
    pub form: DiffForm,
    /// Each line of a path ends with a NUL, and the path isn't quoted. It changes no patch.
    pub nul: bool,
    /// The answer is no where paths differ. It is with the form that prints nothing, too.
    pub exit_code: bool,
}

/// What a batch is asked for.
#[derive(Clone, Copy, Debug, PartialEq, Eq)]
pub enum BatchForm {
    /// What each revision gives, with its bytes.
    Bytes,
    /// No more than its name, kind and size.
    Check,
    /// What each line asks for, which is a command.
    Commands,
}

/// What an export writes of each commit.
#[derive(Clone, Copy, Debug, PartialEq, Eq)]
pub enum ExportForm {
    /// All of its files.
    FullTree,
    /// What differs from its first parent. With `done` the stream begins with `feature done` and ends with `done`.
    Changes { done: bool },
}

/// How a ref has to stand to what a revision gives. The commit of a ref is its object, or the one that its tag names.
#[derive(Clone, Copy, Debug, PartialEq, Eq)]
pub enum RefTest {
    /// Its object or its commit is that object.
    PointsAt,
    /// Its commit is that commit, or has it behind it.
    Contains,
    /// Neither is so.
    NoContains,
    /// Its commit is that commit, or one that this has behind it.
    Merged,
    /// Neither is so.
    NoMerged,
}

/// A test of refs by what a revision gives.
#[derive(Clone, Copy, Debug, PartialEq, Eq)]
pub struct RefFilter<'a> {
    pub test: RefTest,
    pub revision: &'a str,
}

/// A question to a store.
#[derive(Debug, Drop)]
pub enum Question<'a> {
    /// The refs are listed.
    Refs,
    /// The refs are listed that pass all filters, and whose names match one of the patterns, where there are any.
    RefsThat {
        filters: Vec<RefFilter<'a>>,
        patterns: Vec<&'a str>,
    },
    /// What a revision gives is shown.
    Show {
        revision: &'a str,
    },
    /// The entries of a revision's tree are listed, or all of its files.
    Ls {
        recursive: bool,
        revision: &'a str,
    },
    /// The tree of a revision is written as an archive. The prefix stands before each path, and is empty where none is given.
    Archive {
        prefix: &'a str,
        revision: &'a str,
    },
    /// The names of what revisions give are printed.
    Names {
        revisions: Vec<&'a str>,
    },
    /// The commits of range words are listed, of which there may be none.
    Log {
        options: LogOptions,
        ranges: Vec<&'a str>,
    },
    /// The paths at which the files of two revisions differ are told: of all paths, or of those at or below the paths that are
    /// given. One that ends with a slash is that of a directory.
    Diff {
        options: DiffOptions,
        old: &'a str,
        new: &'a str,
        paths: Vec<&'a str>,
    },
    /// The best common ancestors of a revision and others are printed: with `all` each of them, and otherwise one. With `octopus`
    /// they are ancestors of all these, and otherwise of the first and of any of the others, as of a merge of them.
    MergeBase {
        octopus: bool,
        all: bool,
        revision: &'a str,
        others: Vec<&'a str>,
    },
    /// It is told whether a revision is another, or one of its ancestors.
    IsAncestor {
        revision: &'a str,
        descendant: &'a str,
    },
    /// The lines of standard input are answered, each of which is a revision or a command. The format is of the line that
    /// tells of an object. With `nul` each line of the input ends with a NUL.
    Batch {
        form: BatchForm,
        format: Option<&'a str>,
        nul: bool,
    },
    /// The store is exported as a stream.
    Export(ExportForm),
    /// The commits that range words give are exported as a stream, each by what differs from its first parent. With `done`
    /// it begins with `feature done` and ends with `done`.
    ExportRange {
        done: bool,
        ranges: Vec<&'a str>,
    },
}
