//! The commands on a device, which holds a store in two slots.

ghost use Rattle.std.specs.Prelude.{◌≡◌, ◌∷◌, IfOk, map, string_bytes};
ghost use Rattle.word_core.specs.Devices.{capacity_of, device_command_of, format_of, install_part_of};

use crate::bounded::Capacity;
use crate::command::{FileName, Query};
use crate::reading::read_query;
use crate::words::{number_word, read_name};
use octets_core::NoMemory;
use slot_core::MAX_CAPACITY;
use std::alloc::Global;

/// A device that is made, to hold the store in a file.
#[derive(Debug, Drop)]
pub struct Format<'a> {
    pub device: FileName<'a>,
    pub capacity: Capacity,
    pub store: FileName<'a>,
}

/// A part that is added to the store of a device.
#[derive(Debug, Drop)]
pub struct InstallPart<'a> {
    pub device: FileName<'a>,
    pub part: FileName<'a>,
}

/// What the words of a call ask of a device. The words lend the names.
#[derive(Debug, Drop)]
pub enum DeviceCommand<'a> {
    /// The words are no command on a device.
    Usage,
    /// To make a device of a store.
    Format(Format<'a>),
    /// To add a part to the store of a device.
    Install(InstallPart<'a>),
    /// What the parts of the store of a device say of a certificate: the query's store is the device.
    Query(Query<'a>),
}

/// The capacity that a word spells, 1 to `MAX_CAPACITY`.
fn capacity_word(word: &str) -> Option<Capacity>
    ensures { result ≡ capacity_of word.now }
{
    let bytes = number_word(word)?;
    if bytes < 1 || bytes > MAX_CAPACITY {
        return None;
    }
    Some(Capacity::new(bytes))
}

/// The device that words spell, if they spell one.
fn read_format(words: &[String]) -> Option<Format<'_>>
    ensures { result ≡ format_of (map string_bytes words.now) }
{
    let [device, capacity, store] = words else {
        return None;
    };
    let device = read_name(device.as_str())?;
    let capacity = capacity_word(capacity.as_str())?;
    let store = read_name(store.as_str())?;
    if device.as_str() == store.as_str() {
        return None;
    }
    Some(Format {
        device,
        capacity,
        store,
    })
}

/// The part for a device that words spell, if they spell one.
fn read_install_part(words: &[String]) -> Option<InstallPart<'_>>
    ensures { result ≡ install_part_of (map string_bytes words.now) }
{
    let [device, part] = words else {
        return None;
    };
    let device = read_name(device.as_str())?;
    let part = read_name(part.as_str())?;
    if device.as_str() == part.as_str() {
        return None;
    }
    Some(InstallPart { device, part })
}

/// What a word and those behind it ask of a device.
fn read_device_command<'a>(
    alloc: Global,
    command: &str,
    rest: &'a [String],
) -> Result<DeviceCommand<'a>, NoMemory>
    ensures { IfOk result (λ c. c ≡ device_command_of (command.now ∷ map string_bytes rest.now)) }
{
    match command {
        "device-format" => Ok(read_format(rest).map_or(
            DeviceCommand::Usage,
            DeviceCommand::Format,
        )),
        "device-install" => Ok(read_install_part(rest).map_or(
            DeviceCommand::Usage,
            DeviceCommand::Install,
        )),
        "device-query" => Ok(read_query(alloc, rest)?.map_or(
            DeviceCommand::Usage,
            DeviceCommand::Query,
        )),
        _ => Ok(DeviceCommand::Usage),
    }
}

/// What words ask of a device. The words lend the names; room is taken for the sightings of a query, and for nothing
/// else.
pub fn read_device_words(alloc: Global, words: &[String]) -> Result<DeviceCommand<'_>, NoMemory>
    ensures { IfOk result (λ c. c ≡ device_command_of (map string_bytes words.now)) }
{
    match words {
        [command, rest @ ..] => read_device_command(alloc, command.as_str(), rest),
        [] => Ok(DeviceCommand::Usage),
    }
}
