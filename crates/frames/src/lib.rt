//! Frames of blocks and activations of organization blocks.
#![tactic(auto)]

mod activation;
mod bindings;
mod frame;
mod laws;
mod locals;
mod relay;
mod running;

pub use activation::{Activation, Below, FrameFault};
pub use bindings::{Binding, Bindings};
pub use frame::Frame;
pub use laws::{law_of_local_bytes, law_of_local_operands};
pub use locals::Locals;
pub use relay::{Relay, Zones};
pub use running::Running;
