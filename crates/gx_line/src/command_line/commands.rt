//! The commands of `gx`, as clap is told of them. What was made so far is handed on as a result: `with_argument` and
//! `with_command` alone see whether memory ran out.

ghost use Rattle.std.specs.Prelude.{◌≡◌, IfOk, false};
ghost use Rattle.clap.specs.Words.{App, app_of, new_app, rule_of};
ghost use Rattle.clap.specs.declared.builder.command.Command.TheViews.{out-Command as fields_of};
ghost use Rattle.gx_line.specs.Arguments as rules;
ghost use Rattle.gx_line.specs.CommandLine as say;

use super::arguments::{
    any_word, any_words, flag, letter, number, one_word, revision, text, with_argument, words,
};
use super::manual::{self, Page, commits, objects, stores, streams};
use clap::{Arg, Command};
use std::alloc::{AllocError, Global};

/// The command line of `gx`, as clap is told of it.
pub(super) fn command_line<'a>(alloc: Global) -> Result<Command<'a>, AllocError>
    ensures app { IfOk result (λ c. app_of c ≡ say.gx) }
{
    let gx = with_stream_commands(alloc, top(alloc));
    let gx = with_store_commands(alloc, gx);
    let gx = with_tree_commands(alloc, gx);
    with_commit_commands(alloc, gx)
}

/// What stands above the commands.
fn top<'a>(alloc: Global) -> Result<Command<'a>, AllocError>
    ensures { say.Makes result say.top }
{
    command(alloc, "gx", manual::GX)
        .no_binary_name(true)
        .subcommand_required(true)
        .bin_name("gx")
}

/// The commands that read a stream and keep nothing.
fn with_stream_commands<'a>(
    alloc: Global,
    gx: Result<Command<'a>, AllocError>,
) -> Result<Command<'a>, AllocError>
    ensures { (a : App) → say.Makes gx.entry a → say.Makes result (say.with_stream_commands a) }
{
    let gx = with_command(gx, Ok(command(alloc, "blobs", streams::BLOBS)));
    let tried = with_argument(Ok(command(alloc, "try", streams::TRY)), revision(alloc));
    let try_command = with_argument(with_features(alloc, tried), explain(alloc));
    let gx = with_command(gx, try_command);
    let gx = with_command(gx, check_command(alloc));
    let gx = with_command(gx, adapt_command(alloc));
    with_command(gx, where_command(alloc))
}

fn check_command<'a>(alloc: Global) -> Result<Command<'a>, AllocError>
    ensures { say.Makes result say.check_command }
{
    let check = with_features(alloc, Ok(command(alloc, "check", streams::CHECK)));
    with_argument(check, explain(alloc))
}

fn adapt_command<'a>(alloc: Global) -> Result<Command<'a>, AllocError>
    ensures { say.Makes result say.adapt_command }
{
    let drop_signatures = flag(
        alloc,
        "drop-signatures",
        "Leaves out the signatures of commits, which then have other\n\
         names than in git",
    );
    with_argument(Ok(command(alloc, "adapt", streams::ADAPT)), drop_signatures)
}

fn where_command<'a>(alloc: Global) -> Result<Command<'a>, AllocError>
    ensures { say.Makes result say.where_command }
{
    let place = number(alloc, "number", "N", "The number of a command, from 1");
    let place = place.required_unless_present("fault")?;
    let fault = flag(
        alloc,
        "fault",
        "Tells what an import into an empty store is refused for",
    )
    .conflicts_with("number")?;
    let done = done(alloc).requires_arg("fault")?;
    let done = done.conflicts_with("number")?;
    let force = force(alloc).requires_arg("fault")?;
    let force = force.conflicts_with("number")?;
    let placed = with_argument(Ok(command(alloc, "where", streams::WHERE)), place);
    let placed = with_argument(placed, fault);
    let placed = with_argument(placed, done);
    with_argument(placed, force)
}

/// What a command that imports can be asked for, as if its stream began with it.
fn with_features<'a>(
    alloc: Global,
    command: Result<Command<'a>, AllocError>,
) -> Result<Command<'a>, AllocError>
    ensures { (a : App) → say.Makes command.entry a → say.Makes result (say.with_features a) }
{
    let with_done = with_argument(command, done(alloc));
    with_argument(with_done, force(alloc))
}

fn done<'a>(alloc: Global) -> Arg<'a>
    ensures rule { rule_of result ≡ rules.done }
    ensures local { result.global ≡ false }
{
    flag(
        alloc,
        "done",
        "The stream has to end with the command 'done', as if it began\n\
         with 'feature done'",
    )
}

fn force<'a>(alloc: Global) -> Arg<'a>
    ensures rule { rule_of result ≡ rules.force }
    ensures local { result.global ≡ false }
{
    flag(
        alloc,
        "force",
        "Branches may lose commits, as if the stream began\n\
         with 'feature force'",
    )
}

/// What a command that imports can be asked to tell.
fn explain<'a>(alloc: Global) -> Arg<'a>
    ensures rule { rule_of result ≡ rules.explain }
    ensures local { result.global ≡ false }
{
    flag(
        alloc,
        "explain",
        "Tells, behind a refusal, where its fault stands in the stream,\n\
         and what it is about, as at a terminal",
    )
}

/// The commands on a store as a whole.
fn with_store_commands<'a>(
    alloc: Global,
    gx: Result<Command<'a>, AllocError>,
) -> Result<Command<'a>, AllocError>
    ensures { (a : App) → say.Makes gx.entry a → say.Makes result (say.with_store_commands a) }
{
    let gx = with_command(gx, init_command(alloc));
    let gx = with_command(gx, grow_command(alloc));
    let gx = with_command(gx, verify_command(alloc));
    let gx = with_command(gx, import_command(alloc));
    let gx = with_command(gx, drop_command(alloc));
    let gx = with_command(gx, set_ref_command(alloc));
    let gx = with_command(gx, put_command(alloc));
    let gx = with_command(gx, gc_command(alloc));
    let gx = with_command(gx, export_command(alloc));
    let gx = with_command(gx, bundle_command(alloc));
    with_command(gx, refs_command(alloc))
}

fn refs_command<'a>(alloc: Global) -> Result<Command<'a>, AllocError>
    ensures { say.Makes result say.refs_command }
{
    let patterns = any_words(
        alloc,
        "pattern",
        "PATTERN",
        "Lists refs of this name, or whose names begin with it up to a\n\
         slash",
    );
    let refs = with_argument(file_command(alloc, "refs", stores::REFS), patterns);
    tested_command(alloc, refs)
}

/// How refs have to stand to revisions.
fn tested_command<'a>(
    alloc: Global,
    refs: Result<Command<'a>, AllocError>,
) -> Result<Command<'a>, AllocError>
    ensures { (a : App) → say.Makes refs.entry a → say.Makes result (say.tested_command a) }
{
    let points_at = "Lists refs to this object, or to a tag of it";
    let contains = "Lists refs whose commits are REV or have it behind them";
    let no_contains = "Leaves these out";
    let merged = "Lists refs whose commits are REV or one that it has behind it";
    let no_merged = "Leaves these out";
    let refs = with_argument(refs, text(alloc, "points-at", "REV", points_at));
    let refs = with_argument(refs, text(alloc, "contains", "REV", contains));
    let refs = with_argument(refs, text(alloc, "no-contains", "REV", no_contains));
    let refs = with_argument(refs, text(alloc, "merged", "REV", merged));
    with_argument(refs, text(alloc, "no-merged", "REV", no_merged))
}

fn init_command<'a>(alloc: Global) -> Result<Command<'a>, AllocError>
    ensures { say.Makes result say.init_command }
{
    let growing = flag(alloc, "growing", "Makes it of version 3, a growing store");
    let init = with_argument(file_command(alloc, "init", stores::INIT), growing);
    with_wait(alloc, init)
}

fn grow_command<'a>(alloc: Global) -> Result<Command<'a>, AllocError>
    ensures { say.Makes result say.grow_command }
{
    with_wait(alloc, file_command(alloc, "grow", stores::GROW))
}

fn verify_command<'a>(alloc: Global) -> Result<Command<'a>, AllocError>
    ensures { say.Makes result say.verify_command }
{
    let salvage = text(
        alloc,
        "salvage",
        "NEW",
        "Saves the refs whose whole history can be read into a new store\n\
         NEW, and tells which are lost",
    );
    with_argument(file_command(alloc, "verify", stores::VERIFY), salvage)
}

/// What a command that writes a store file can be asked for, where another run writes it, too.
fn with_wait<'a>(
    alloc: Global,
    command: Result<Command<'a>, AllocError>,
) -> Result<Command<'a>, AllocError>
    ensures { (a : App) → say.Makes command.entry a → say.Makes result (say.with_wait a) }
{
    let wait = number(
        alloc,
        "wait",
        "SECONDS",
        "Waits so long at most for another run that writes FILE, and is\n\
         then refused by gx: lock failed",
    )
    .long("wait");
    with_argument(command, wait)
}

fn import_command<'a>(alloc: Global) -> Result<Command<'a>, AllocError>
    ensures { say.Makes result say.import_command }
{
    let push = text(
        alloc,
        "push",
        "F",
        "Wants the refs to be as the lines of F have them, and changes\n\
         no others",
    );
    let objects = flag(
        alloc,
        "objects",
        "Imports refs and objects as git prints them, in place of a\n\
         stream",
    );
    let import = with_argument(telling_import(alloc), push);
    with_wait(alloc, with_argument(import, objects))
}

/// An import with what it can be asked to tell.
fn telling_import<'a>(alloc: Global) -> Result<Command<'a>, AllocError>
    ensures { say.Makes result say.telling_import }
{
    let report = flag(
        alloc,
        "report",
        "Tells the refs that changed, and the counts, on standard error",
    );
    let import = with_features(alloc, file_command(alloc, "import", stores::IMPORT));
    let import = with_argument(import, report);
    with_argument(import, explain(alloc))
}

fn drop_command<'a>(alloc: Global) -> Result<Command<'a>, AllocError>
    ensures { say.Makes result say.drop_command }
{
    let refs = any_words(
        alloc,
        "ref",
        "REF",
        "Names of refs, as gx refs prints them",
    ).required_unless_present("stdin")?;
    let stdin = flag(
        alloc,
        "stdin",
        "Takes further names from standard input, one a line",
    );
    let dropping = with_argument(file_command(alloc, "drop", stores::DROP), refs);
    with_wait(alloc, with_argument(dropping, stdin))
}

fn set_ref_command<'a>(alloc: Global) -> Result<Command<'a>, AllocError>
    ensures { say.Makes result say.set_ref_command }
{
    let stdin = flag(
        alloc,
        "stdin",
        "Takes lines of git update-ref --stdin from standard input",
    )
    .conflicts_with("ref")?;
    let force = flag(alloc, "force", "Refs may lose commits");
    let changed = with_argument(changed_command(alloc), stdin);
    with_wait(alloc, with_argument(changed, force))
}

/// `set-ref` with its words.
fn changed_command<'a>(alloc: Global) -> Result<Command<'a>, AllocError>
    ensures { say.Makes result say.changed_command }
{
    let name = any_word(
        alloc,
        "ref",
        "REF",
        "The name of a ref, as gx refs prints it",
    )
    .required_unless_present("stdin")?;
    let new = any_word(
        alloc,
        "new",
        "NEW",
        "The 40 digits of what it becomes; forty zeros remove it",
    )
    .required_unless_present("stdin")?;
    let old = any_word(
        alloc,
        "old",
        "OLD",
        "The 40 digits of what it is; forty zeros where there is none",
    );
    let changed = with_argument(file_command(alloc, "set-ref", stores::SET_REF), name);
    let changed = with_argument(changed, new);
    with_argument(changed, old)
}

fn put_command<'a>(alloc: Global) -> Result<Command<'a>, AllocError>
    ensures { say.Makes result say.put_command }
{
    let stamp = text(
        alloc,
        "expect-stamp",
        "S",
        "Which file FILE has to be: DEVICE:INODE:SIZE:NANOSECONDS, as\n\
         stat has them, or new where there is to be none",
    )
    .required(true);
    let putting = with_argument(file_command(alloc, "put", stores::PUT), stamp);
    with_wait(alloc, putting)
}

fn gc_command<'a>(alloc: Global) -> Result<Command<'a>, AllocError>
    ensures { say.Makes result say.gc_command }
{
    let report = flag(
        alloc,
        "report",
        "Tells how many objects and bytes went, on standard error",
    );
    let keep = text(
        alloc,
        "keep",
        "F",
        "Keeps the objects with the names in F, too, one a line, and all\n\
         that they reach",
    );
    let collecting = with_argument(file_command(alloc, "gc", stores::GC), report);
    with_wait(alloc, with_argument(collecting, keep))
}

fn export_command<'a>(alloc: Global) -> Result<Command<'a>, AllocError>
    ensures { say.Makes result say.export_command }
{
    let changes = flag(
        alloc,
        "changes",
        "Writes of each commit what differs from its first parent, on a\n\
         ref that reaches it",
    );
    let no_done = flag(
        alloc,
        "no-done",
        "Leaves out 'feature done' and 'done', for readers that don't\n\
         know them",
    )
    .requires_arg("changes")?;
    let ranges = any_words(
        alloc,
        "range",
        "RANGE",
        "Commits, as gx --help has it: with --changes these alone",
    )
    .requires_arg("changes")?;
    let export = with_argument(file_command(alloc, "export", stores::EXPORT), changes);
    let export = with_argument(export, no_done);
    with_argument(export, ranges)
}

fn bundle_command<'a>(alloc: Global) -> Result<Command<'a>, AllocError>
    ensures { say.Makes result say.bundle_command }
{
    let ranges = any_words(
        alloc,
        "range",
        "RANGE",
        "Refs, and commits that aren't written, as above",
    );
    let all = flag(alloc, "all", "Tells all refs, whatever the RANGEs name");
    let head = text(
        alloc,
        "head",
        "REF",
        "Tells this ref as HEAD, too, so that git clone checks it out",
    );
    let pack = flag(alloc, "pack", "Writes the pack alone");
    let bundle = with_argument(file_command(alloc, "bundle", stores::BUNDLE), ranges);
    let bundle = with_argument(bundle, all);
    let bundle = with_argument(bundle, head);
    with_argument(bundle, pack)
}

/// The commands that show objects.
fn with_tree_commands<'a>(
    alloc: Global,
    gx: Result<Command<'a>, AllocError>,
) -> Result<Command<'a>, AllocError>
    ensures { (a : App) → say.Makes gx.entry a → say.Makes result (say.with_tree_commands a) }
{
    let show = with_argument(file_command(alloc, "show", objects::SHOW), revision(alloc));
    let gx = with_command(gx, show);
    let gx = with_command(gx, ls_command(alloc));
    let gx = with_command(gx, archive_command(alloc));
    with_command(gx, batch_command(alloc))
}

fn ls_command<'a>(alloc: Global) -> Result<Command<'a>, AllocError>
    ensures { say.Makes result say.ls_command }
{
    let recursive = flag(
        alloc,
        "recursive",
        "Lists all files below the tree by their paths, and no trees",
    )
    .short('r');
    let ls = file_command(alloc, "ls", objects::LS);
    let ls = with_argument(ls, revision(alloc));
    with_argument(ls, recursive)
}

fn archive_command<'a>(alloc: Global) -> Result<Command<'a>, AllocError>
    ensures { say.Makes result say.archive_command }
{
    let prefix = text(
        alloc,
        "prefix",
        "PREFIX",
        "Stands before each path; one that ends with a slash is a\n\
         directory of its own",
    );
    let archive = file_command(alloc, "archive", objects::ARCHIVE);
    let archive = with_argument(archive, revision(alloc));
    with_argument(archive, prefix)
}

fn batch_command<'a>(alloc: Global) -> Result<Command<'a>, AllocError>
    ensures { say.Makes result say.batch_command }
{
    let check = flag(
        alloc,
        "check",
        "Leaves out the bytes of each object and the line feed behind them",
    );
    let commands = flag(
        alloc,
        "command",
        "Takes each line for a command, as the list below has them",
    )
    .conflicts_with("check")?;
    let format = text(
        alloc,
        "format",
        "FORMAT",
        "What is told of each object, in place of its name, kind and size",
    );
    let nul = letter(alloc, "nul", 'z', "Each line of the input ends with a NUL");
    let batch = with_argument(file_command(alloc, "batch", objects::BATCH), check);
    let batch = with_argument(batch, commands);
    let batch = with_argument(batch, format);
    with_argument(batch, nul)
}

/// The commands with a list of words.
fn with_commit_commands<'a>(
    alloc: Global,
    gx: Result<Command<'a>, AllocError>,
) -> Result<Command<'a>, AllocError>
    ensures { (a : App) → say.Makes gx.entry a → say.Makes result (say.with_commit_commands a) }
{
    let gx = with_command(gx, log_command(alloc));
    let revisions = words(alloc, "rev", "REV", "Revisions, as gx --help has it");
    let rev_parse = file_command(alloc, "rev-parse", commits::REV_PARSE);
    let rev_parse = with_argument(rev_parse, revisions);
    let gx = with_command(gx, rev_parse);
    let gx = with_command(gx, merge_base_command(alloc));
    with_command(gx, diff_command(alloc))
}

fn diff_command<'a>(alloc: Global) -> Result<Command<'a>, AllocError>
    ensures { say.Makes result say.diff_command }
{
    let quiet = flag(
        alloc,
        "quiet",
        "Prints nothing, and tells by the exit status",
    );
    let exit_code = flag(alloc, "exit-code", "Ends with status 3 where paths differ");
    let nul = letter(
        alloc,
        "nul",
        'z',
        "Ends the line of a path with a NUL, and quotes no path",
    );
    let diff = with_argument(patched_command(alloc), quiet);
    let diff = with_argument(diff, exit_code);
    with_argument(diff, nul)
}

/// The lines that change, which are refused beside the other forms and beside paths that end with a NUL.
fn patched_command<'a>(alloc: Global) -> Result<Command<'a>, AllocError>
    ensures { say.Makes result say.patched_command }
{
    let patch = flag(
        alloc,
        "patch",
        "Prints the lines that change at each, as git apply takes them",
    );
    let patch = patch.short('p').visible_short_alias('u')?;
    let patch = patch.conflicts_with("name-status")?;
    let patch = patch.conflicts_with("name-only")?;
    let patch = patch.conflicts_with("raw")?;
    let patch = patch.conflicts_with("count")?;
    let patch = patch.conflicts_with("nul")?;
    with_argument(formed_command(alloc), patch)
}

/// What `diff` prints. Each form is refused beside the others.
fn formed_command<'a>(alloc: Global) -> Result<Command<'a>, AllocError>
    ensures { say.Makes result say.formed_command }
{
    let name_status = flag(
        alloc,
        "name-status",
        "Prints the status and the path of each, as without it",
    );
    let name_status = name_status.conflicts_with("name-only")?;
    let name_status = name_status.conflicts_with("raw")?;
    let name_status = name_status.conflicts_with("count")?;
    let name_only = flag(alloc, "name-only", "Prints the path of each alone");
    let name_only = name_only.conflicts_with("raw")?;
    let name_only = name_only.conflicts_with("count")?;
    let raw = flag(alloc, "raw", "Prints the modes and the names of each, too");
    let raw = raw.conflicts_with("count")?;
    let count = flag(alloc, "count", "Prints how many there are of each status");
    let diff = with_argument(told_command(alloc), name_status);
    let diff = with_argument(diff, name_only);
    let diff = with_argument(diff, raw);
    with_argument(diff, count)
}

/// What `diff` compares.
fn told_command<'a>(alloc: Global) -> Result<Command<'a>, AllocError>
    ensures { say.Makes result say.told_command }
{
    let before = one_word(
        alloc,
        "before",
        "OLD",
        "The revision before, as gx --help has it",
    );
    let after = one_word(alloc, "after", "NEW", "The revision after");
    let paths = any_words(
        alloc,
        "path",
        "PATH",
        "A path, with all below it. One that begins with a hyphen\n\
         stands behind --",
    );
    let diff = with_argument(file_command(alloc, "diff", commits::DIFF), before);
    let diff = with_argument(diff, after);
    with_argument(diff, paths)
}

fn merge_base_command<'a>(alloc: Global) -> Result<Command<'a>, AllocError>
    ensures { say.Makes result say.merge_base_command }
{
    let all = flag(alloc, "all", "Prints all of them, in place of one");
    let octopus = flag(
        alloc,
        "octopus",
        "Wants ancestors of all revisions, in place of ancestors of REV\n\
         and of a merge of the OTHERs",
    );
    let is_ancestor = flag(
        alloc,
        "is-ancestor",
        "Tells by the exit status whether REV is OTHER or one of its\n\
         ancestors, and prints nothing",
    );
    let is_ancestor = is_ancestor.conflicts_with("all")?;
    let is_ancestor = is_ancestor.conflicts_with("octopus")?;
    let base = with_argument(compared_command(alloc), all);
    let base = with_argument(base, octopus);
    with_argument(base, is_ancestor)
}

/// The revisions of `merge-base`.
fn compared_command<'a>(alloc: Global) -> Result<Command<'a>, AllocError>
    ensures { say.Makes result say.compared_command }
{
    let others = words(alloc, "other", "OTHER", "Other revisions");
    let base = file_command(alloc, "merge-base", commits::MERGE_BASE);
    let base = with_argument(base, revision(alloc));
    with_argument(base, others)
}

fn log_command<'a>(alloc: Global) -> Result<Command<'a>, AllocError>
    ensures { say.Makes result say.log_command }
{
    let reverse = flag(
        alloc,
        "reverse",
        "Turns the list, so that the oldest commit comes first",
    );
    let count = flag(alloc, "count", "Prints how many commits there are");
    let parents = flag(
        alloc,
        "parents",
        "Prints the names of its parents behind each commit",
    )
    .conflicts_with("format")?;
    let format = text(
        alloc,
        "format",
        "FORMAT",
        "What is printed of each commit, in place of its name: oneline,\n\
         raw, subject, author or dates",
    );
    let log = with_argument(filtered_command(alloc), reverse);
    let log = with_argument(log, count);
    let log = with_argument(log, parents);
    with_argument(log, format)
}

/// The arguments of `log` that leave out commits, behind those that choose them.
fn filtered_command<'a>(alloc: Global) -> Result<Command<'a>, AllocError>
    ensures { say.Makes result say.filtered_command }
{
    let merges = flag(
        alloc,
        "merges",
        "Lists merges alone, which have two parents or more",
    );
    let no_merges = flag(alloc, "no-merges", "Lists no merges");
    let since = number(
        alloc,
        "since",
        "SECONDS",
        "Lists no commits that were made before, by the committer",
    )
    .long("since");
    let until = number(
        alloc,
        "until",
        "SECONDS",
        "Lists no commits that were made after, by the committer",
    )
    .long("until");
    let skip = number(
        alloc,
        "skip",
        "N",
        "Passes over N commits, before --max-count counts",
    )
    .long("skip");
    let log = with_argument(chosen_command(alloc), merges);
    let log = with_argument(log, no_merges);
    let log = with_argument(log, since);
    let log = with_argument(log, until);
    with_argument(log, skip)
}

/// The arguments of `log` that choose commits.
fn chosen_command<'a>(alloc: Global) -> Result<Command<'a>, AllocError>
    ensures { say.Makes result say.chosen_command }
{
    let ranges = any_words(alloc, "range", "RANGE", "Commits, as gx --help has it");
    // one of the two is enough
    let ranges = ranges.required_unless_present("all")?;
    let ranges = ranges.required_unless_present("stdin")?;
    let all = flag(alloc, "all", "Lists the commits of all refs, too");
    let stdin = flag(
        alloc,
        "stdin",
        "Takes further RANGEs from standard input, one a line",
    );
    let max_count = number(
        alloc,
        "max-count",
        "N",
        "Lists N commits at most, counted before --reverse turns them",
    )
    .long("max-count")
    .short('n');
    let log = with_argument(file_command(alloc, "log", commits::LOG), ranges);
    let log = with_argument(log, all);
    let log = with_argument(log, stdin);
    with_argument(log, max_count)
}

/// A command whose first word is the store file.
fn file_command<'a>(alloc: Global, name: &'a str, page: Page) -> Result<Command<'a>, AllocError>
    ensures { say.Makes result (say.file_command name.entry.now) }
{
    let file = one_word(alloc, "file", "FILE", "The store");
    with_argument(Ok(command(alloc, name, page)), file)
}

/// A command with its page of the manual.
fn command<'a>(alloc: Global, name: &'a str, page: Page) -> Command<'a>
    ensures app { app_of result ≡ new_app name.entry.now }
    ensures local { (fields_of result).has_globals ≡ false }
{
    Command::new(alloc, name)
        .about(page.about)
        .long_about(page.description)
        .after_long_help(page.details)
}

/// A command with one more command under it, where there was memory for both.
fn with_command<'a>(
    command: Result<Command<'a>, AllocError>,
    sub: Result<Command<'a>, AllocError>,
) -> Result<Command<'a>, AllocError>
    ensures { say.AddsCommand command.entry sub.entry result }
{
    match command {
        Ok(command) => match sub {
            Ok(sub) => command.subcommand(sub),
            Err(error) => Err(error),
        },
        Err(error) => Err(error),
    }
}
