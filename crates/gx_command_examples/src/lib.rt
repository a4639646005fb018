//! Items and commands of streams, with their parts, in pieces of any size and up to failures. There are tests alone here.
#![tactic(auto)]

#[cfg(test)]
mod commands;
#[cfg(test)]
mod items;
#[cfg(test)]
mod spelling;
