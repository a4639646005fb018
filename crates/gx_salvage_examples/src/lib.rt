//! Stores of which objects can't be read, salvaged, and growing stores by their other slot. There are tests alone here.
#![tactic(auto)]

#[cfg(test)]
mod cases;
#[cfg(test)]
mod histories;
#[cfg(test)]
mod holed;
#[cfg(test)]
mod reaching;
#[cfg(test)]
mod salvaged;
#[cfg(test)]
mod slots;
