//! Segments that are appended to a growing text on a disk in memory, calls that fail, and stops of the machine. There are tests alone
//! here.
#![tactic(auto)]

#[cfg(test)]
mod appended;
#[cfg(test)]
mod growing;
#[cfg(test)]
mod objects;
#[cfg(test)]
mod stopped;
#[cfg(test)]
mod texts;
#[cfg(test)]
mod told;
