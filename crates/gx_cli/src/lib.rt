//! The commands of the program `gx`, as functions of words, bytes and devices.
//! Files, standard streams and the exit status are the program's own.
#![tactic(auto)]

mod adapt;
mod archive;
mod batch;
mod check;
mod commands;
mod drop_refs;
mod explaining;
mod export;
mod export_range;
mod fault;
mod forms;
mod gathering;
mod gc;
mod import;
mod lines;
mod log;
mod ls;
mod next_text;
mod opening;
mod pushing;
mod questions;
mod ref_report;
mod refs;
mod refused_push;
mod rev_parse;
mod sending;
mod serving;
mod set_refs;
mod show;
mod stored;
mod trips;
mod try_stream;
mod where_fault;
mod where_place;
mod words;

pub use adapt::{adapt_status, adapt_stream, lost_lines};
pub use batch::{batch_opened, ending_of, read_format};
pub use check::check_stream;
pub use drop_refs::{drop_named, drop_store};
pub use explaining::{explanation_lines, item_line};
pub use fault::CliFault;
pub use gc::{collect_opened, collect_store, collect_store_keeping, names_in};
pub use gx_adapt::{Adapted, Report as AdaptReport};
pub use gx_asks::{
    BatchForm, Change, CommitFilter, ExportForm, LogFormat, LogOptions, RefChange, Trial,
};
pub use gx_blobs::{BlobsFault, BlobsKind, blobs};
pub use gx_import::{Asked, Explanation, ImportFault, ImportKind, RefLoss, Report as ImportReport};
pub use gx_line::{Line, LineFault, read_line};
pub use gx_model::Features;
pub use gx_print::printed_path;
pub use gx_push::{Pushed, RefFault};
pub use gx_repo::{Pruned, Repo};
pub use import::{import_opened, import_store};
pub use lines::lines_from;
pub use next_text::send_store;
pub use pushing::{push_opened, push_store};
pub use questions::{CommitFields, Question, Reply, commit_in, list_in};
pub use ref_report::{import_store_reporting, report_opened};
pub use refused_push::{refused_line, refused_text};
pub use serving::{Outcome, serve, serve_owned};
pub use set_refs::{set_store, set_told};
pub use stored::answer;
pub use trips::{RoundTrip, RoundTripOptions, round_trip};
pub use try_stream::{import_alone, look_in, try_revision};
pub use where_fault::find_fault;
