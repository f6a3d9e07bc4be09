//! What all crates stand on: lists, texts, bytes and integers, places in sources, limits, and stack effects with their heights.
#![tactic(auto)]

mod boxed;
mod bytes;
mod duplicate;
pub mod effect;
pub mod height;
mod heights;
mod integer;
pub mod limits;
mod list;
mod memory;
pub mod name;
pub mod place;
mod queue;
mod stack;
mod text;

pub use boxed::Boxed;
pub use bytes::Bytes;
pub use duplicate::Duplicate;
pub use effect::{Effect, Input, Outs};
pub use height::Height;
pub use heights::{curried, fits, then};
pub use integer::Integer;
pub use list::List;
pub use memory::Memory;
pub use name::Name;
pub use place::Place;
pub use queue::Queue;
pub use stack::Stack;
pub use text::Text;
