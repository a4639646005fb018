//! The commands of `gx` where memory or a device ends, and what no command prints. There are tests alone here. What commands print
//! is shown by the sessions of `gx_sessions`.
#![tactic(auto)]

#[cfg(test)]
mod commands;
#[cfg(test)]
mod fault_lines;
#[cfg(test)]
mod growths;
#[cfg(test)]
mod limits;
#[cfg(test)]
mod lines;
#[cfg(test)]
mod reporting;
#[cfg(test)]
mod round_trips;
#[cfg(test)]
mod steps;
#[cfg(test)]
mod texts;
#[cfg(test)]
mod trip_growths;
#[cfg(test)]
mod trips;
