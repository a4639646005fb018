//! Looks into growing texts, also damaged ones. There are tests alone here.
#![tactic(auto)]

#[cfg(test)]
mod asked;
#[cfg(test)]
mod counted;
#[cfg(test)]
mod damaged;
#[cfg(test)]
mod endings;
#[cfg(test)]
mod listed;
#[cfg(test)]
mod looks;
#[cfg(test)]
mod refs;
#[cfg(test)]
mod texts;
