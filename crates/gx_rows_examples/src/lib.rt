//! Look-ups in tables that stand in texts, in pieces of any size, and how many reads they take. There are tests alone here.
#![tactic(auto)]

#[cfg(test)]
mod counted;
#[cfg(test)]
mod rows;
#[cfg(test)]
mod tables;
