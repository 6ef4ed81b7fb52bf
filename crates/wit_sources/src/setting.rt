//! What stays the same while sources are collected.
use cir_frame::ComponentEntry;
use cir_known::Touched;
use std::alloc::Global;
use wit_sourced::CallValue;

/// The components of the body, the variables whose numbers change while the task is
/// done, and its calls.
#[derive(Drop)]
pub struct Setting<'a> {
    pub alloc: Global,
    pub components: &'a [Option<ComponentEntry>],
    pub changed: Option<&'a Touched>,
    pub calls: &'a [CallValue<'a>],
}
