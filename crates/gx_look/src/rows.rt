//! Where objects stand, and which names digits begin, by the rows of live runs.

ghost use Rattle.std.specs.Prelude.{◌≡◌, ◌+◌, ◌*◌, ◌<◌, ◌^◌, [], ◌∷◌, IfOk};
ghost use Rattle.gx_store.specs.NameOrder.{is_within};
ghost use Rattle.gx_store.specs.declared.prefix.Prefix.TheVariants.{Unique};
ghost use Rattle.gx_look.specs.Rows.{AreNear, BegunIn, Joins, PlacesIn};

use gx_at::ReadAt;
use gx_growing_parts::Run;
use gx_object::Name;
use gx_rows::{Table, find_row, first_from};
use gx_store::Prefix;
use gx_text::Failed;

/// The place in the row of a name, of the first run that has one.
pub(crate) fn find_place<S: ReadAt>(
    source: &S,
    runs: &[Run],
    name: &Name,
) -> Result<Option<u64>, Failed>
    requires { AreNear runs.now }
    ensures { IfOk result (PlacesIn (S.text source.now) runs.now name.now.bytes) }
{
    for run in runs {
        let table = Table {
            at: run.place,
            count: run.count,
        };
        if let Some(found) = find_row(source, table, &name.bytes)? {
            return Ok(Some(found.place));
        }
    }
    Ok(None)
}

/// What the rows of all runs have between two names, both included.
pub(crate) fn find_begun<S: ReadAt>(
    source: &S,
    runs: &[Run],
    ends: &(Name, Name),
) -> Result<Prefix, Failed>
    requires { AreNear runs.now }
    ensures { IfOk result (BegunIn (S.text source.now) runs.now ends.now) }
{
    let mut found = Prefix::Absent;
    for run in runs {
        let more = begun_in_run(source, run, ends)?;
        found = joined(found, more);
    }
    Ok(found)
}

/// What the rows of a run have between two names: the first that isn't before them tells, and the next.
fn begun_in_run<S: ReadAt>(source: &S, run: &Run, ends: &(Name, Name)) -> Result<Prefix, Failed>
    requires { run.now.place + 28 * run.now.count < 2 ^ 64 }
    ensures { IfOk result (BegunIn (S.text source.now) (run.now ∷ []) ends.now) }
{
    let table = Table {
        at: run.place,
        count: run.count,
    };
    let front = first_from(source, table, &ends.0.bytes)?;
    let Some(first) = front.first else {
        return Ok(Prefix::Absent);
    };
    let bytes = first.name;
    let name = Name { bytes };
    if !is_between(&name, ends) {
        return Ok(Prefix::Absent);
    }
    let Some(second) = front.second else {
        return Ok(Prefix::Unique(name));
    };
    let bytes = second.name;
    let next = Name { bytes };
    if is_between(&next, ends) {
        Ok(Prefix::Ambiguous)
    } else {
        Ok(Prefix::Unique(name))
    }
}

/// Whether a name lies between two, both included.
fn is_between(name: &Name, ends: &(Name, Name)) -> bool
    ensures { result ≡ is_within ends.now.0.bytes ends.now.1.bytes name.now.bytes }
{
    ends.0.cmp(name).is_le() && ends.1.cmp(name).is_ge()
}

/// What is found in two parts of the runs together.
fn joined(found: Prefix, more: Prefix) -> Prefix
    ensures { Joins found more result }
{
    match found {
        Prefix::Absent => more,
        Prefix::Unique(name) => match more {
            Prefix::Absent => Prefix::Unique(name),
            Prefix::Unique(other) => one_of(name, other),
            Prefix::Ambiguous => Prefix::Ambiguous,
        },
        Prefix::Ambiguous => Prefix::Ambiguous,
    }
}

/// What two names are together.
fn one_of(name: Name, other: Name) -> Prefix
    ensures { Joins (Unique name) (Unique other) result }
{
    if name == other {
        Prefix::Unique(name)
    } else {
        Prefix::Ambiguous
    }
}
