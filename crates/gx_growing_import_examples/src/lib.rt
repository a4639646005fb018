//! Imports and pushes over small repositories, beside those over the whole ones, and what they stand on. There are tests alone here.
#![tactic(auto)]

#[cfg(test)]
mod asked;
#[cfg(test)]
mod imports;
#[cfg(test)]
mod pushes;
#[cfg(test)]
mod ref_lines;
#[cfg(test)]
mod small;
#[cfg(test)]
mod ways;
