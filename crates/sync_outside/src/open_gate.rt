//! A gate that does nothing.
use crate::gate::Gate;
use std::sync::Wait;

/// Lets each call pass at once.
#[derive(Clone, Copy)]
pub struct OpenGate;

impl Gate for OpenGate {
    fn before<R: Wait>(&self, _rt: &R, _worker: u32, _index: u32) {}

    fn after<R: Wait>(&self, _rt: &R, _worker: u32, _index: u32) {}
}
