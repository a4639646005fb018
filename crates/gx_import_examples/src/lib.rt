//! What no command shows of imports, store texts and batches, and hostile use. There are tests alone here.
#![tactic(auto)]

#[cfg(test)]
mod batches;
#[cfg(test)]
mod given;
#[cfg(test)]
mod hostile;
#[cfg(test)]
mod imports;
