//! The outside world as the layers above see it, and the list types that every crate shares.
#![tactic(auto)]

mod boxed;
mod event;
mod fault;
mod host;
mod host_files;
mod image;
mod items;
mod machine;
mod mem_disk;
mod memory;
mod name;
mod shows;
mod volume;

pub use boxed::Boxed;
pub use event::{Event, Events, Step};
pub use fault::{DeviceFault, NoMemory};
pub use host::HostMachine;
pub use image::Image;
pub use items::{Bytes, Items, Names0, Numbers};
pub use machine::Machine;
pub use mem_disk::MemDisk;
pub use memory::{MemMachine, MemPlan};
pub use name::{NAME_LIMIT, Name, Names};
pub use shows::{Shows, show_all, warn_all};
pub use volume::{Volume, Which};
