//! Texts of what is kept of random stores, and of plain ones that are grown, beside those that repositories in memory give, and of
//! stores that are damaged. There are tests alone here.
#![tactic(auto)]

#[cfg(test)]
mod collected;
#[cfg(test)]
mod damaged;
#[cfg(test)]
mod plain;
#[cfg(test)]
mod stores;
