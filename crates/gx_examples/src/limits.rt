//! Commands for which memory and room for what they print end at each place.

use crate::commands::{Task, ran, stored, tried};
use crate::steps::{Step, step_of};
use gx_adapt::AdaptFault;
use gx_asks::{Question, Trial};
use gx_cli::{BlobsFault, BlobsKind, CliFault, Line};
use gx_export::ExportFault;
use gx_import::{ImportFault, ImportKind};
use gx_text::{Bytes, Held};
use std::alloc::Global;
use std::hash::RandomState;

/// Commands, what they print, how many growths each has at least, and the stream of the store that they are run on.
const COMMANDS: &str = "
$ rev-parse store main main %%
02d6adf1689e06135d2b4b4d471f1ae489887b53
02d6adf1689e06135d2b4b4d471f1ae489887b53
% 6 % root
$ rev-parse store %%% 1 % root
$ refs store %% ref of first % 4 % root
$ refs store %% refs of version % 8 % version
$ import store % tagged %% 21 % root
$ import store %%% 12 % version
$ init store %%% 1
$ export store %% export of two branches % 21 % two branches
$ export store %% export of modes % 21 % modes
$ export --changes store %% changes of two branches % 21 % two branches
$ drop store refs/heads/main %%% 9 % root
$ drop --stdin store %
refs/heads/main%% 9 % root
$ gc store %%% 8 % root
$ adapt % rough % mended % 2
$ where 2 % mended %
5:22:commit refs/heads/m
% 3
$ where --fault % version %% 4
$ batch store %
main:test.txt%
83baae61804e65cc73a7201a7252750c76066a30 blob 10
version 1

% 6 % root
$ batch --check store %
main:test.txt
main:test.txt
%
83baae61804e65cc73a7201a7252750c76066a30 blob 10
83baae61804e65cc73a7201a7252750c76066a30 blob 10
% 6 % root
$ try main^{tree} % wide % lines of wide % 21
$ try main % version % commit of version % 1
$ check % version %
progress x
commands: 3, objects: 4, refs: 2, and all names came back
% 20
$ blobs % three blobs % three names % 5
";

/// The same of a stream with lines of many kinds.
const ROUGH_LINES: &str = "$ adapt % rough lines % mended lines % 3";

/// Whether what is to come of a step's command comes of it, on the store of the step's stream.
fn is_right(alloc: Global, part: &str, task: Task, state: RandomState) -> bool {
    let step = step_of(part);
    match stored(alloc, step.stream, state) {
        Some(store) => tried(alloc, &step, &store, task, state),
        None => false,
    }
}

/// Scripts, and what their commands are tried for. A text that is lent is copied once, whatever it holds, and one that is given
/// isn't.
const GROWTHS: [(&str, Task); 4] = [
    (COMMANDS, Task::Growths),
    (ROUGH_LINES, Task::Growths),
    ("$ refs store %% ref of first %% root", Task::Copies(1)),
    (
        "$ refs store %% refs of version %% version",
        Task::Copies(1),
    ),
];

#[test]
fn each_refused_growth_of_a_command_is_out_of_memory(rt: HostRuntime) {
    let Ok(state) = RandomState::new(&rt) else {
        return assert!(rt; false);
    };
    for (script, task) in GROWTHS {
        for part in script.split('$').skip(1) {
            assert!(rt; is_right(rt.alloc(), part, task, state), "{part}");
        }
    }
}

#[test]
fn failed_write_keeps_a_front_of_the_output(rt: HostRuntime) {
    let Ok(state) = RandomState::new(&rt) else {
        return assert!(rt; false);
    };
    for script in [COMMANDS, ROUGH_LINES] {
        for part in script.split('$').skip(1) {
            assert!(rt; is_right(rt.alloc(), part, Task::Stop, state), "{part}");
        }
    }
}

/// Whether a command stops as it has to where its sink takes no more bytes, at each byte that it prints.
pub(crate) fn stops_everywhere(
    alloc: Global,
    line: &Line<'_>,
    step: &Step<'_>,
    store: &[u8],
    state: RandomState,
) -> bool {
    for room in 0..step.printed.len() {
        if !stops_at(alloc, line, step, store, room, state) {
            return false;
        }
    }
    true
}

/// Whether a command stops as it has to behind so many bytes.
fn stops_at(
    alloc: Global,
    line: &Line<'_>,
    step: &Step<'_>,
    store: &[u8],
    room: usize,
    state: RandomState,
) -> bool {
    let source = Bytes::new(step.input, 7, false);
    let Ok(mut sink) = Held::new(alloc, room) else {
        return false;
    };
    let outcome = ran(alloc, line, store, source, &mut sink, state);
    let (status, fault) = (outcome.status, outcome.fault);
    let is_front = sink.bytes().len() == room && step.printed.starts_with(sink.bytes());
    is_front && status == 1 && fault == Some(refusal_at(line, step.printed, room))
}

/// Why a command that prints this is refused whose sink has room for so many bytes: a try's import may be in its progress.
fn refusal_at(line: &Line<'_>, printed: &[u8], room: usize) -> CliFault {
    match line {
        Line::Ask {
            question: Question::Export(_),
            ..
        } => CliFault::Export(ExportFault::WriteFailed {
            written: room as u64,
        }),
        Line::Stream(Trial::Adapt { .. }) => CliFault::Adapt(AdaptFault::WriteFailed),
        Line::Stream(Trial::Try { .. } | Trial::Check { .. })
            if room < 11 && printed.starts_with(b"progress x\n") => {
            CliFault::Import(ImportFault {
                command: 1,
                kind: ImportKind::WriteFailed,
                checkpoints: 0,
            })
        }
        Line::Stream(Trial::Blobs) => CliFault::Blobs(BlobsFault {
            command: (room as u64 / 41).saturating_add(1),
            kind: BlobsKind::WriteFailed,
        }),
        _ => CliFault::WriteFailed,
    }
}
