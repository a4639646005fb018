//! A repository that is open.

ghost use Rattle.std.specs.Prelude.{◌≡◌, IfSome};
ghost use Rattle.gx_model.specs.Revisions.{range_of};
ghost use Rattle.gx_growing_file.specs.Grown.{ReadsGrown};
ghost use Rattle.gx_versions.specs.Versions.{opened_of};
ghost use Rattle.gx_c.specs.Called.{git_name};
ghost use Rattle.gx_c.specs.Called as called;
ghost use Rattle.gx_c.specs.Calls.{IsNew};

use crate::answer::{Answer, Why};
use crate::asking::commits;
use crate::bundling::bundle;
use crate::importing::import;
use crate::keys::hashing_state;
use crate::objects::{refusal, taken_into, with_objects};
use crate::writing::range;
use gx_model::FileFault;
use gx_object::Sha1Namer;
use gx_repo::Repo;
use gx_rev::{Range, RevFault};
use gx_versions::{GrowingFault, StoreForm, form_of, open_store};
use std::alloc::Global;
use std::hash::RandomState;
use std::mem::replace;

/// A repository and the form of the text that it is of, the range words that were given for the next walk, and what the
/// last call answered.
#[derive(Drop)]
pub struct Opened {
    pub repo: Repo<Sha1Namer, Global>,
    pub form: StoreForm,
    pub state: RandomState,
    pub words: Vec<Range<Global>>,
    pub answer: Answer<Global>,
}

impl Opened {
    /// One of no objects and no refs, if there is memory for it. Its hashes are keyed by the first sixteen of these
    /// bytes.
    pub(crate) fn new(alloc: Global, key: &[u8]) -> Option<Box<Opened>>
        ensures { IfSome result (λ opened. IsNew opened.value) }
    {
        let state = hashing_state(key).ok()?;
        let opened = Opened {
            repo: Repo::new(alloc, Sha1Namer, state),
            form: StoreForm::Plain,
            state,
            words: Vec::new(alloc),
            answer: Answer::given(Vec::new(alloc), 0),
        };
        Box::new(alloc, opened).ok()
    }

    /// Replaces the repository by that of a store text of any version, and the form by that of the text; where the text
    /// is refused both stay.
    pub(crate) fn load(&mut self, alloc: Global, text: &[u8])
        ensures { called.Loads text.now self.old self.new }
    {
        match read(alloc, text, self.state) {
            Ok(repo) => {
                self.repo = repo;
                self.form = form_of(text);
                self.answer = Answer::given(Vec::new(alloc), 0);
            }
            Err(fault) => self.answer = Answer::refused(alloc, Why::Store(fault), 0),
        }
    }

    /// Imports a stream.
    pub(crate) fn import(&mut self, alloc: Global, stream: &[u8], done: bool, force: bool)
        ensures { called.Imports done force stream.now self.old self.new }
    {
        self.answer = import(alloc, &mut self.repo, stream, done, force);
    }

    /// Takes a text of refs and objects into the repository, which stays as it is where the text is refused.
    pub(crate) fn import_objects(&mut self, alloc: Global, text: &[u8], force: bool)
        ensures { called.ImportsObjects force text.now self.old self.new }
    {
        match with_objects(alloc, &self.repo, self.state, text, force) {
            Ok(taken) => {
                self.answer = taken_into(alloc, &self.repo, &taken);
                self.repo = taken;
            }
            Err(fault) => self.answer = refusal(alloc, &fault),
        }
    }

    /// Puts a range word behind the others.
    pub(crate) fn add_word(&mut self, alloc: Global, word: &[u8])
        ensures { called.Word word.now self.old self.new }
    {
        self.answer = match read_word(alloc, &mut self.words, word) {
            Ok(()) => Answer::given(Vec::new(alloc), 0),
            Err(fault) => Answer::refused(alloc, Why::Revision(fault), 0),
        };
    }

    /// Walks from the words, and forgets them.
    pub(crate) fn walk(&mut self, alloc: Global)
        ensures { called.Walk self.old self.new }
    {
        let words = replace(&mut self.words, Vec::new(alloc));
        self.answer = commits(alloc, &self.repo, &words);
    }

    /// Exports the changes of what the words list, and forgets them.
    pub(crate) fn export_range(&mut self, alloc: Global, closed: bool)
        ensures { called.Range closed self.old self.new }
    {
        let words = replace(&mut self.words, Vec::new(alloc));
        self.answer = range(alloc, &self.repo, &words, closed);
    }

    /// Bundles what the words name, and forgets them. The ref of a name that isn't empty is HEAD, too.
    pub(crate) fn bundle(&mut self, alloc: Global, head: &[u8])
        ensures { called.Bundles head.now self.old self.new }
    {
        let words = replace(&mut self.words, Vec::new(alloc));
        self.answer = bundle(alloc, &self.repo, self.state, &words, head);
    }
}

/// The repository of a store text of any version, which is copied.
fn read(
    alloc: Global,
    text: &[u8],
    state: RandomState,
) -> Result<Repo<Sha1Namer, Global>, GrowingFault>
    ensures { ReadsGrown (λ repo. repo.1) result (opened_of git_name text.now) }
{
    match Vec::from_slice(alloc, text) {
        Ok(copy) => open_store(alloc, Sha1Namer, copy, state),
        Err(_) => Err(GrowingFault::Text(FileFault::OutOfMemory)),
    }
}

/// Puts the range word that a text gives behind others.
fn read_word(alloc: Global, words: &mut Vec<Range<Global>>, word: &[u8]) -> Result<(), RevFault>
    ensures { called.Adds (range_of word.now) words.old.items words.new.items result }
{
    let range = Range::read(alloc, word)?;
    match words.push(range) {
        Ok(()) => Ok(()),
        Err(_) => Err(RevFault::OutOfMemory),
    }
}
