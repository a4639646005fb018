//! Bodies of commits and tags with further headers. There are tests alone here.
#![tactic(auto)]

#[cfg(test)]
mod commits;
#[cfg(test)]
mod tags;
