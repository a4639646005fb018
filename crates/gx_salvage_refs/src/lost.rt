//! What is lost of a store, and why.

use gx_object::{Name, Namer};
use gx_reached::Damage;
use gx_repo::Repo;
use std::alloc::Allocator;

/// A ref that is lost: its name, the object that it holds, and what is damaged of what that reaches.
#[derive(Drop)]
pub struct Lost<A: Allocator> {
    pub name: Vec<u8, A>,
    pub target: Name,
    pub damage: Damage,
}

/// What is saved of a store, and the refs that are lost, in the byte order of their names.
#[derive(Drop)]
pub struct Salvaged<N: Namer, A: Allocator> {
    pub repo: Repo<N, A>,
    pub lost: Vec<Lost<A>, A>,
}
