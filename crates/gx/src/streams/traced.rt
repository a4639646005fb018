//! The stream of an import, given out line by line where a refusal is to be explained: what came last then is what the reader
//! of the stream is at.

use super::devices::Noted;
use super::progress::ProgressLine;
use super::trail::Trail;
use crate::run::Run;
use std::io::{self, Read, Stdin};

/// So many bytes are read at once.
const BUFFER: usize = 1 << 16;

/// What was read and isn't given out yet, and the trail of what is.
#[derive(Drop)]
struct Lines {
    buffer: Vec<u8>,
    start: usize,
    end: usize,
    trail: Trail,
}

/// A stream, with the trail of its items where a refusal is to be explained and there is memory for it.
#[derive(Drop)]
pub(crate) struct Traced<D> {
    input: D,
    lines: Option<Lines>,
}

impl<'a> Traced<Noted<'a, Stdin>> {
    /// Standard input. It is counted, too, what is told of its lines in a report, where that is asked for.
    pub(crate) fn input(
        run: &'a Run<'a>,
        progress: &'a ProgressLine<'a>,
        is_counted: bool,
    ) -> Traced<Noted<'a, Stdin>> {
        Traced::new(run, Noted::input(run).shown_by(progress), is_counted)
    }
}

impl<D> Traced<D> {
    /// That of a device.
    pub(crate) fn new(run: &Run<'_>, input: D, is_counted: bool) -> Traced<D> {
        let lines = if is_counted || run.explains() {
            Lines::new(run)
        } else {
            None
        };
        Traced { input, lines }
    }

    /// The trail of what was given out.
    pub(crate) fn trail(&self) -> Option<&Trail> {
        match &self.lines {
            Some(lines) => Some(&lines.trail),
            None => None,
        }
    }
}

impl Lines {
    fn new(run: &Run<'_>) -> Option<Lines> {
        let mut buffer = Vec::new(run.rt.alloc());
        buffer.resize(BUFFER, 0).ok()?;
        Some(Lines {
            buffer,
            start: 0,
            end: 0,
            trail: Trail::new(run.rt.alloc()),
        })
    }
}

impl<D: Read> Read for Traced<D> {
    fn read(&mut self, buf: &mut [u8]) -> io::Result<usize> {
        let Some(lines) = &mut self.lines else {
            return self.input.read(buf);
        };
        if lines.start >= lines.end {
            lines.start = 0;
            lines.end = 0;
            lines.end = self.input.read(&mut lines.buffer)?;
        }
        let there = lines.buffer.get(lines.start..lines.end).unwrap_or(b"");
        if there.is_empty() {
            lines.trail.end()?;
            return Ok(0);
        }
        let room = there.len().min(buf.len());
        let count = lines.trail.pass(&there[..room])?.min(room);
        buf[..count].copy_from_slice(&there[..count]);
        lines.start = lines.start.saturating_add(count);
        Ok(count)
    }
}
