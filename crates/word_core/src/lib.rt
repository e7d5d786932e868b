//! The words of a call: what they ask for, and which files the command reads and writes.
#![tactic(auto)]

mod bounded;
pub mod command;
mod device;
mod reading;
mod words;

pub use bounded::{Capacity, Count, Listed, SampleCount, Workers};
pub use device::{DeviceCommand, Format, InstallPart, read_device_words};
pub use reading::read_words;
