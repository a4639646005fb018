//! Files of marks as git 2.39's fast-import writes and reads them, and what is refused of others. There are tests alone here.
#![tactic(auto)]

#[cfg(test)]
mod marks;
