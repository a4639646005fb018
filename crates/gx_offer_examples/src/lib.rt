//! Texts of refs and objects as git 2.39 printed them, what they offer, and what their objects name. There are tests alone here.
#![tactic(auto)]

#[cfg(test)]
mod links;
#[cfg(test)]
mod offers;
#[cfg(test)]
mod printed;
