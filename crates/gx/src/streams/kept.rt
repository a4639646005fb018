//! The stream on standard input, whose front is kept in memory, so that it can be read once more.

ghost use Rattle.std.specs.Prelude.{◌≤◌, length};
ghost use Rattle.std.specs.Io.{ReadsAtMost};

use super::devices::Noted;
use super::reports::tell_typed_stream;
use super::steps::steps_of;
use super::traced::Traced;
use crate::run::Run;
use crate::stores::process::reads_a_file;
use gx_cli::Features;
use gx_command::{Command, CommandReader};
use gx_text::{FromRead, Source};
use std::alloc::Global;
use std::io::{self, ErrorKind, Read, Stdin};

/// So many bytes are kept at most.
const MOST: usize = 1 << 26;

/// Over a small repository texts go so many steps at most: each is a commit that is read once more.
const MOST_STEPS: u64 = 1 << 16;

/// What was read of the stream and is kept. Once it is to be read again, that is given out first, and then what still comes.
#[derive(Drop)]
pub(crate) struct Kept<'a> {
    input: Noted<'a, Stdin>,
    front: Vec<u8>,
    /// So many bytes of the front were given out.
    given: usize,
    keeps: bool,
    /// So many bytes are kept at most.
    most: usize,
    /// How the stream ended behind the front, once it has.
    end: Option<io::Result<()>>,
    has_told: bool,
}

impl<'a> Kept<'a> {
    /// A stream of which nothing was read.
    pub(crate) fn new(alloc: Global, input: Noted<'a, Stdin>) -> Kept<'a> {
        Kept {
            input,
            front: Vec::new(alloc),
            given: 0,
            keeps: true,
            most: MOST,
            end: None,
            has_told: false,
        }
    }

    /// Tells somebody at a terminal, once, that the stream is to be typed.
    pub(crate) fn tell_typed(&mut self, run: &Run<'_>) {
        if !self.has_told {
            tell_typed_stream(run);
            self.has_told = true;
        }
    }

    /// What was read of it.
    pub(crate) fn front(&self) -> &[u8] {
        self.front.as_slice()
    }

    /// Begins anew: what was read comes once more. From now on nothing is kept.
    pub(crate) fn read_again(&mut self) {
        self.given = 0;
        self.keeps = false;
    }

    /// Reads all commands of a stream with fewer bytes than these, and answers how many identities have no name, where they are
    /// counted; none where not all of the stream can be kept, where a command is none, where texts go too many steps, or at a `progress`,
    /// for whose line the program that writes the stream may wait.
    pub(crate) fn read_commands(
        &mut self,
        run: &Run<'_>,
        features: Features,
        counts: bool,
        most: u64,
    ) -> Option<u64> {
        self.most = self.most.min(most as usize);
        let mut input = Traced::new(run, self, counts);
        let source = FromRead::new(&mut input);
        let commands = CommandReader::asking(run.rt.alloc(), source, features);
        if !are_read(commands, reads_a_file(run.rt)) {
            return None;
        }
        Some(input.trail().map_or(0, |trail| trail.nameless()))
    }

    /// Gives of what was kept what comes next, and answers how many bytes that is.
    fn give_kept(&mut self, buf: &mut [u8]) -> usize
        ensures bound { result ≤ length buf.new }
    {
        let Some(left) = self.front.get(self.given..) else {
            return 0;
        };
        let count = left.len().min(buf.len());
        buf[..count].copy_from_slice(&left[..count]);
        self.given = self.given.saturating_add(count);
        count
    }

    /// Reads, and keeps what comes. Where no more can be kept, that is a failure of this reading alone.
    fn read_kept(&mut self, buf: &mut [u8]) -> io::Result<usize>
        ensures bound { ReadsAtMost result buf.new }
    {
        let room = buf.len().min(self.most.saturating_sub(self.front.len()));
        if room == 0 {
            return Err(io::Error::from(ErrorKind::OutOfMemory));
        }
        self.front.reserve(room)?;
        let answer = self.input.read(&mut buf[..room]);
        if let Ok(count) = answer {
            self.front.extend_from_slice(&buf[..count.min(room)])?;
        }
        self.given = self.front.len();
        self.end = end_of(&answer);
        answer
    }
}

impl Read for Kept<'_> {
    fn read(&mut self, buf: &mut [u8]) -> io::Result<usize> {
        if self.given < self.front.len() {
            return Ok(self.give_kept(buf));
        }
        match self.end {
            Some(Ok(())) => Ok(0),
            Some(Err(error)) => Err(error),
            None if self.keeps => self.read_kept(buf),
            None => self.input.read(buf),
        }
    }
}

/// How the input ended, where it did: a call that a signal interrupted is made again.
fn end_of(answer: &io::Result<usize>) -> Option<io::Result<()>> {
    match answer {
        Ok(0) => Some(Ok(())),
        Err(error) if error.kind() != ErrorKind::Interrupted => Some(Err(*error)),
        _ => None,
    }
}

/// Reads commands up to the end. Answers whether it was reached, and no `progress` met before it, unless these are taken, nor more
/// steps gone than can be.
fn are_read<R: Source + Drop>(
    mut commands: CommandReader<R, Global>,
    takes_progress: bool,
) -> bool {
    let mut steps = 0u64;
    // no command has less than a byte
    for _command in 0..MOST {
        match commands.next() {
            Ok(None) => return true,
            Ok(Some(Command::Progress(_))) if !takes_progress => return false,
            Ok(Some(command)) => steps = steps.saturating_add(steps_of(&command)),
            Err(_) => return false,
        }
        if steps > MOST_STEPS {
            return false;
        }
    }
    false
}
