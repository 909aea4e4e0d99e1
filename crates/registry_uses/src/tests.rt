//! The functions of this crate and the calls of a registry, each with ample memory.

mod calls;
mod components;
mod groups;
mod lifecycle;
mod listeners;
mod packing;
mod queries;
mod refusals;
mod running;
mod samples;
mod scenes;
mod sorting;
