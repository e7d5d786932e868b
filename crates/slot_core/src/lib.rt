//! A store that survives a crash: two slots of a device, of which a gate byte picks one.
#![tactic(auto)]

mod device;
mod disk;
mod examine;
mod fault;
mod fields;
mod formatting;
mod laws;
mod memory;
mod recording;
mod slots;
mod switch;

pub use device::MAX_CAPACITY;
pub use disk::Disk;
pub use fault::SlotFault;
pub use formatting::format;
pub use laws::attach_and_replace;
pub use memory::MemoryDisk;
pub use slots::Slots;
