//! Words, and the lines that they give.

use crate::commands::is_text;
use crate::steps::{halves, words_of};
use gx_cli::{LineFault, read_line};
use std::alloc::Global;

/// Words with bars between them, and the line that they give, as it prints for debugging.
const LINES: &str = "
$ blobs % Stream(Blobs)
$ try|main % Stream(Try { revision: \"main\", done: false, force: false, explain: false })
$ try|--done|--|-x % Stream(Try { revision: \"-x\", done: true, force: false, explain: false })
$ try|--explain|x % Stream(Try { revision: \"x\", done: false, force: false, explain: true })
$ check % Stream(Check { done: false, force: false, explain: false })
$ check|--done % Stream(Check { done: true, force: false, explain: false })
$ check|--explain|--force % Stream(Check { done: false, force: true, explain: true })
$ adapt % Stream(Adapt { drop_signatures: false })
$ adapt|--drop-signatures % Stream(Adapt { drop_signatures: true })
$ where|7 % Stream(Where(7))
$ where|18446744073709551615 % Stream(Where(18446744073709551615))
$ where|--fault % Stream(WhereFault { done: false, force: false })
$ where|--done|--fault % Stream(WhereFault { done: true, force: false })
$ where|--fault|--force|--done % Stream(WhereFault { done: true, force: true })
$ init|f % Change { file: \"f\", wait: None, change: Init { growing: false } }
$ init|--growing|f % Change { file: \"f\", wait: None, change: Init { growing: true } }
$ grow|f|--wait=2 % Change { file: \"f\", wait: Some(2), change: Grow }
$ verify|f % Verify { file: \"f\", salvage: None }
$ import|f % Change { file: \"f\", wait: None, change: Import { done: false, force: false, report: false, explain: false } }
$ import|--force|f|--done % Change { file: \"f\", wait: None, change: Import { done: true, force: true, report: false, explain: false } }
$ import|f|--report % Change { file: \"f\", wait: None, change: Import { done: false, force: false, report: true, explain: false } }
$ import|f|--explain % Change { file: \"f\", wait: None, change: Import { done: false, force: false, report: false, explain: true } }
$ import|--wait|3|f % Change { file: \"f\", wait: Some(3), change: Import { done: false, force: false, report: false, explain: false } }
$ import|--push=p|f|--done % Change { file: \"f\", wait: None, change: Push { push: \"p\", done: true, report: false, explain: false } }
$ import|--objects|f % Change { file: \"f\", wait: None, change: Objects { force: false, report: false, explain: false } }
$ import|--wait=1|--force|f|--objects % Change { file: \"f\", wait: Some(1), change: Objects { force: true, report: false, explain: false } }
$ import|--report|--objects|f|--explain % Change { file: \"f\", wait: None, change: Objects { force: false, report: true, explain: true } }
$ put|f|--expect-stamp=new % Change { file: \"f\", wait: None, change: Put { stamp: \"new\" } }
$ drop|f|refs/heads/a|b % Change { file: \"f\", wait: None, change: Drop { refs: [\"refs/heads/a\", \"b\"], stdin: false } }
$ drop|f|--stdin % Change { file: \"f\", wait: None, change: Drop { refs: [], stdin: true } }
$ drop|--stdin|f|a % Change { file: \"f\", wait: None, change: Drop { refs: [\"a\"], stdin: true } }
$ gc|f % Change { file: \"f\", wait: None, change: Gc { report: false, keep: None } }
$ gc|--report|f % Change { file: \"f\", wait: None, change: Gc { report: true, keep: None } }
$ gc|--keep|k|f|--wait=0 % Change { file: \"f\", wait: Some(0), change: Gc { report: false, keep: Some(\"k\") } }
$ export|f % Ask { file: \"f\", question: Export(FullTree) }
$ export|--changes|f % Ask { file: \"f\", question: Export(Changes { done: true }) }
$ export|f|--no-done|--changes % Ask { file: \"f\", question: Export(Changes { done: false }) }
$ export|--changes|f|a..b % Ask { file: \"f\", question: ExportRange { done: true, ranges: [\"a..b\"] } }
$ export|f|^a|--no-done|b|--changes % Ask { file: \"f\", question: ExportRange { done: false, ranges: [\"^a\", \"b\"] } }
$ export|--changes|--|f|-x|--no-done % Ask { file: \"f\", question: ExportRange { done: true, ranges: [\"-x\", \"--no-done\"] } }
$ show|f|main:a b % Ask { file: \"f\", question: Show { revision: \"main:a b\" } }
$ show|-|x % Ask { file: \"-\", question: Show { revision: \"x\" } }
$ ls|f|x % Ask { file: \"f\", question: Ls { recursive: false, revision: \"x\" } }
$ ls|-r|f|x % Ask { file: \"f\", question: Ls { recursive: true, revision: \"x\" } }
$ ls|f|x|--recursive % Ask { file: \"f\", question: Ls { recursive: true, revision: \"x\" } }
$ archive|f|x % Ask { file: \"f\", question: Archive { prefix: \"\", revision: \"x\" } }
$ archive|--prefix=p/|f|x % Ask { file: \"f\", question: Archive { prefix: \"p/\", revision: \"x\" } }
$ archive|f|x|--prefix|p % Ask { file: \"f\", question: Archive { prefix: \"p\", revision: \"x\" } }
$ batch|f % Ask { file: \"f\", question: Batch { form: Bytes, format: None, nul: false } }
$ batch|--check|f % Ask { file: \"f\", question: Batch { form: Check, format: None, nul: false } }
$ batch|f|--command|-z % Ask { file: \"f\", question: Batch { form: Commands, format: None, nul: true } }
$ batch|--check|--format=a b|f % Ask { file: \"f\", question: Batch { form: Check, format: Some(\"a b\"), nul: false } }
$ batch|-z|--format||f % Ask { file: \"f\", question: Batch { form: Bytes, format: Some(\"\"), nul: true } }
$ refs|f % Ask { file: \"f\", question: Refs }
";

/// The same of `log`.
const LOGS: &str = "
$ log|f|main % Ask { file: \"f\", question: Log { options: LogOptions { reverse: false, only: CommitFilter { merges: false, no_merges: false, since: None, until: None }, skip: None, max_count: None, count: false, parents: false, all: false, stdin: false, format: Names }, ranges: [\"main\"] } }
$ log|f|^main % Ask { file: \"f\", question: Log { options: LogOptions { reverse: false, only: CommitFilter { merges: false, no_merges: false, since: None, until: None }, skip: None, max_count: None, count: false, parents: false, all: false, stdin: false, format: Names }, ranges: [\"^main\"] } }
$ log|f|b|a..b|r^! % Ask { file: \"f\", question: Log { options: LogOptions { reverse: false, only: CommitFilter { merges: false, no_merges: false, since: None, until: None }, skip: None, max_count: None, count: false, parents: false, all: false, stdin: false, format: Names }, ranges: [\"b\", \"a..b\", \"r^!\"] } }
$ log|f|--|-x|--|^main % Ask { file: \"f\", question: Log { options: LogOptions { reverse: false, only: CommitFilter { merges: false, no_merges: false, since: None, until: None }, skip: None, max_count: None, count: false, parents: false, all: false, stdin: false, format: Names }, ranges: [\"-x\", \"--\", \"^main\"] } }
$ log|--reverse|f|a % Ask { file: \"f\", question: Log { options: LogOptions { reverse: true, only: CommitFilter { merges: false, no_merges: false, since: None, until: None }, skip: None, max_count: None, count: false, parents: false, all: false, stdin: false, format: Names }, ranges: [\"a\"] } }
$ log|f|a|--parents|b % Ask { file: \"f\", question: Log { options: LogOptions { reverse: false, only: CommitFilter { merges: false, no_merges: false, since: None, until: None }, skip: None, max_count: None, count: false, parents: true, all: false, stdin: false, format: Names }, ranges: [\"a\", \"b\"] } }
$ log|--reverse|--max-count|3|--parents|f|a % Ask { file: \"f\", question: Log { options: LogOptions { reverse: true, only: CommitFilter { merges: false, no_merges: false, since: None, until: None }, skip: None, max_count: Some(3), count: false, parents: true, all: false, stdin: false, format: Names }, ranges: [\"a\"] } }
$ log|--max-count=3|f|a|--parents|--reverse % Ask { file: \"f\", question: Log { options: LogOptions { reverse: true, only: CommitFilter { merges: false, no_merges: false, since: None, until: None }, skip: None, max_count: Some(3), count: false, parents: true, all: false, stdin: false, format: Names }, ranges: [\"a\"] } }
$ log|--max-count|0|f|a % Ask { file: \"f\", question: Log { options: LogOptions { reverse: false, only: CommitFilter { merges: false, no_merges: false, since: None, until: None }, skip: None, max_count: Some(0), count: false, parents: false, all: false, stdin: false, format: Names }, ranges: [\"a\"] } }
$ log|--max-count|007|f|a % Ask { file: \"f\", question: Log { options: LogOptions { reverse: false, only: CommitFilter { merges: false, no_merges: false, since: None, until: None }, skip: None, max_count: Some(7), count: false, parents: false, all: false, stdin: false, format: Names }, ranges: [\"a\"] } }
$ log|--max-count|+4|f|a % Ask { file: \"f\", question: Log { options: LogOptions { reverse: false, only: CommitFilter { merges: false, no_merges: false, since: None, until: None }, skip: None, max_count: Some(4), count: false, parents: false, all: false, stdin: false, format: Names }, ranges: [\"a\"] } }
$ log|--max-count|18446744073709551615|f|a % Ask { file: \"f\", question: Log { options: LogOptions { reverse: false, only: CommitFilter { merges: false, no_merges: false, since: None, until: None }, skip: None, max_count: Some(18446744073709551615), count: false, parents: false, all: false, stdin: false, format: Names }, ranges: [\"a\"] } }
";

/// The same with its choices of words and of a format.
const CHOICES: &str = "
$ log|--all|f % Ask { file: \"f\", question: Log { options: LogOptions { reverse: false, only: CommitFilter { merges: false, no_merges: false, since: None, until: None }, skip: None, max_count: None, count: false, parents: false, all: true, stdin: false, format: Names }, ranges: [] } }
$ log|f|a|--all % Ask { file: \"f\", question: Log { options: LogOptions { reverse: false, only: CommitFilter { merges: false, no_merges: false, since: None, until: None }, skip: None, max_count: None, count: false, parents: false, all: true, stdin: false, format: Names }, ranges: [\"a\"] } }
$ log|--stdin|f % Ask { file: \"f\", question: Log { options: LogOptions { reverse: false, only: CommitFilter { merges: false, no_merges: false, since: None, until: None }, skip: None, max_count: None, count: false, parents: false, all: false, stdin: true, format: Names }, ranges: [] } }
$ log|--stdin|f|^a % Ask { file: \"f\", question: Log { options: LogOptions { reverse: false, only: CommitFilter { merges: false, no_merges: false, since: None, until: None }, skip: None, max_count: None, count: false, parents: false, all: false, stdin: true, format: Names }, ranges: [\"^a\"] } }
$ log|-n|3|f|a % Ask { file: \"f\", question: Log { options: LogOptions { reverse: false, only: CommitFilter { merges: false, no_merges: false, since: None, until: None }, skip: None, max_count: Some(3), count: false, parents: false, all: false, stdin: false, format: Names }, ranges: [\"a\"] } }
$ log|-n3|f|a % Ask { file: \"f\", question: Log { options: LogOptions { reverse: false, only: CommitFilter { merges: false, no_merges: false, since: None, until: None }, skip: None, max_count: Some(3), count: false, parents: false, all: false, stdin: false, format: Names }, ranges: [\"a\"] } }
$ log|--format=oneline|f|a % Ask { file: \"f\", question: Log { options: LogOptions { reverse: false, only: CommitFilter { merges: false, no_merges: false, since: None, until: None }, skip: None, max_count: None, count: false, parents: false, all: false, stdin: false, format: Oneline }, ranges: [\"a\"] } }
$ log|--format|raw|f|a % Ask { file: \"f\", question: Log { options: LogOptions { reverse: false, only: CommitFilter { merges: false, no_merges: false, since: None, until: None }, skip: None, max_count: None, count: false, parents: false, all: false, stdin: false, format: Raw }, ranges: [\"a\"] } }
$ log|f|a|--format=subject % Ask { file: \"f\", question: Log { options: LogOptions { reverse: false, only: CommitFilter { merges: false, no_merges: false, since: None, until: None }, skip: None, max_count: None, count: false, parents: false, all: false, stdin: false, format: Subject }, ranges: [\"a\"] } }
$ log|--format=author|f|a % Ask { file: \"f\", question: Log { options: LogOptions { reverse: false, only: CommitFilter { merges: false, no_merges: false, since: None, until: None }, skip: None, max_count: None, count: false, parents: false, all: false, stdin: false, format: Author }, ranges: [\"a\"] } }
$ log|--format=dates|--reverse|f|a % Ask { file: \"f\", question: Log { options: LogOptions { reverse: true, only: CommitFilter { merges: false, no_merges: false, since: None, until: None }, skip: None, max_count: None, count: false, parents: false, all: false, stdin: false, format: Dates }, ranges: [\"a\"] } }
$ log|--merges|f|a % Ask { file: \"f\", question: Log { options: LogOptions { reverse: false, only: CommitFilter { merges: true, no_merges: false, since: None, until: None }, skip: None, max_count: None, count: false, parents: false, all: false, stdin: false, format: Names }, ranges: [\"a\"] } }
$ log|--no-merges|--count|f|a % Ask { file: \"f\", question: Log { options: LogOptions { reverse: false, only: CommitFilter { merges: false, no_merges: true, since: None, until: None }, skip: None, max_count: None, count: true, parents: false, all: false, stdin: false, format: Names }, ranges: [\"a\"] } }
$ log|--since=5|--until|7|f|a % Ask { file: \"f\", question: Log { options: LogOptions { reverse: false, only: CommitFilter { merges: false, no_merges: false, since: Some(5), until: Some(7) }, skip: None, max_count: None, count: false, parents: false, all: false, stdin: false, format: Names }, ranges: [\"a\"] } }
$ log|--skip|2|-n1|f|a % Ask { file: \"f\", question: Log { options: LogOptions { reverse: false, only: CommitFilter { merges: false, no_merges: false, since: None, until: None }, skip: Some(2), max_count: Some(1), count: false, parents: false, all: false, stdin: false, format: Names }, ranges: [\"a\"] } }
";

/// The same of `rev-parse`, whose revisions stay in their order.
const REVISIONS: &str = "
$ rev-parse|f|main % Ask { file: \"f\", question: Names { revisions: [\"main\"] } }
$ rev-parse|f|b|a^{tree}|b % Ask { file: \"f\", question: Names { revisions: [\"b\", \"a^{tree}\", \"b\"] } }
$ rev-parse|f|--|-x % Ask { file: \"f\", question: Names { revisions: [\"-x\"] } }
";

/// Words that end with status two.
const REFUSED: &str = "
$ % refused
$ grow|--growing|f % refused
$ verify|f|--wait=2 % refused
$ blob % refused
$ blobs|f % refused
$ --version % refused
$ try % refused
$ try|-x % refused
$ try|a|b % refused
$ adapt|f % refused
$ where % refused
$ where|x % refused
$ where|18446744073709551616 % refused
$ where|1|f % refused
$ import|--push=p|--force|f % refused
$ import|f|--push % refused
$ import|--objects|--done|f % refused
$ import|--push=p|--objects|f % refused
$ import|--objects|f|--objects % refused
$ import|--objects % refused
$ put|f % refused
$ gc|f|--wait=x % refused
$ where|1|--fault % refused
$ where|--fault|--fault % refused
$ where|--done % refused
$ where|--force % refused
$ where|1|--done % refused
$ where|--force|1 % refused
$ where|1|--fault|--done % refused
$ init % refused
$ import % refused
$ import|--report|--report|f % refused
$ drop|f % refused
$ gc % refused
$ gc|f|main % refused
$ export % refused
$ export|--no-done|f % refused
$ export|--changes|--changes|f % refused
$ export|--changes=yes|f % refused
$ export|f|a % refused
$ export|--no-done|f|a % refused
$ export|--changes|f|-x % refused
$ show|f % refused
$ show|f|a|b % refused
$ ls|f % refused
$ ls|-r|f % refused
$ ls|-x|f|a % refused
$ ls|-r|-r|f|a % refused
$ archive|f % refused
$ archive|--prefix|f|a % refused
$ archive|--prefix=a|--prefix=b|f|a % refused
$ batch % refused
$ batch|--check|--command|f % refused
$ batch|-z|-z|f % refused
$ batch|--nul|f % refused
$ batch|--format|f % refused
$ batch|f|main % refused
$ refs % refused
$ log % refused
$ log|f % refused
$ log|--reverse|--parents|-n|1|f % refused
$ log|--format=raw|f % refused
$ log|f|-x % refused
$ log|--format=names|f % refused
$ log|--format=Raw|f % refused
$ log|--format=|f % refused
$ log|--format=raw|--format=raw|f % refused
$ log|--format=raw|--parents|f % refused
$ log|-n|f % refused
$ log|-n|1|--max-count|1|f % refused
$ log|--max-count|f|a % refused
$ log|--max-count|-1|f|a % refused
$ log|--max-count=-1|f|a % refused
$ log|--max-count|18446744073709551616|f|a % refused
$ log|--max-count||f|a % refused
$ log|--reverse=yes|f|a % refused
$ rev-parse|f % refused
$ rev-parse|f|-x % refused
";

/// Words that end with status zero, and what stands in the text that they print.
const HELP: &str = "
$ --help % help %
Usage: gx <COMMAND>
$ --help % help %

Exit status:
$ -h % help %
  rev-parse   Prints the names%
$ help % help %
Usage: gx <COMMAND>
$ help|show % help %
Usage: gx show <FILE> <REV>
$ blobs|--help % help %
Usage: gx blobs
$ try|--help % help %
Usage: gx try [OPTIONS] <REV>
$ adapt|--help % help %
Usage: gx adapt [OPTIONS]
$ where|--help % help %
Usage: gx where [OPTIONS] [N]
$ init|--help % help %
Usage: gx init [OPTIONS] <FILE>
$ drop|--help % help %
Usage: gx drop [OPTIONS] <FILE> [REF]...
$ put|--help % help %
Usage: gx put [OPTIONS] --expect-stamp <S> <FILE>
$ gc|--help % help %
Usage: gx gc [OPTIONS] <FILE>
$ export|--help % help %
Usage: gx export [OPTIONS] <FILE> [RANGE]...
$ import|--help % help %
Usage: gx import [OPTIONS] <FILE>
$ import|-h % help %
      --report          Tells the refs that changed%
$ show|--help % help %
Usage: gx show <FILE> <REV>
$ ls|--help % help %
Usage: gx ls [OPTIONS] <FILE> <REV>
$ ls|--help % help %
  -r, --recursive
$ archive|--help % help %
Usage: gx archive [OPTIONS] <FILE> <REV>
$ batch|--help % help %
Usage: gx batch [OPTIONS] <FILE>
$ refs|--help % help %
Usage: gx refs [OPTIONS] <FILE> [PATTERN]...
$ log|--help % help %
Usage: gx log [OPTIONS] <FILE> [RANGE]...
$ log|--help % help %
  -n, --max-count <N>
$ log|-h % help %
  -n, --max-count <N>    Lists N commits%
$ rev-parse|--help % help %
Usage: gx rev-parse <FILE> <REV>...
$ rev-parse|--help % help %

Refusals:
";

/// Whether what is to come of words comes of them.
fn is_right(alloc: Global, row: &str) -> bool {
    let (words, wanted) = halves(row, '%');
    match words_of(alloc, words.trim(), '|') {
        Ok(words) => match read_line(alloc, words.as_slice()) {
            Ok(line) => is_text(format!(in alloc; "{line:?}"), wanted.trim()),
            Err(LineFault::Status { status, text }) => is_end(status, text.as_str(), wanted),
            Err(LineFault::OutOfMemory) => false,
        },
        Err(_) => false,
    }
}

/// Whether words are to end with this status and text.
fn is_end(status: u8, text: &str, wanted: &str) -> bool {
    let (end, part) = halves(wanted, '%');
    let (_, part) = halves(part, '\n');
    match end.trim() {
        "refused" => status == 2,
        "help" => status == 0 && text.contains(halves(part, '%').0),
        _ => false,
    }
}

#[test]
fn words_give_their_line_or_end_with_their_status(rt: HostRuntime) {
    for rows in [LINES, LOGS, CHOICES, REVISIONS, REFUSED, HELP] {
        for row in rows.split('$').skip(1) {
            assert!(rt; is_right(rt.alloc(), row), "{row}");
        }
    }
}
