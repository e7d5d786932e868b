//! Lines about a device.

ghost use Rattle.std.specs.Prelude.{◌≡◌};
ghost use Rattle.line_core.specs.Devices.{device_line, full_line};

use crate::about::Message;
use crate::line::Line;

/// `device AT DEVICE`: the field of the device at this offset is short or fails its test.
pub fn device_line(at: u64, name: &str) -> Message<'_>
    ensures { result ≡ device_line at name.now }
{
    let mut line = Line::new();
    line.push_count(b"device ", at);
    line.push(b" ");
    Message::about(line, name)
}

/// `device-full CAPACITY DEVICE`: there are more bytes than a slot of the device holds.
pub fn full_line(capacity: u64, name: &str) -> Message<'_>
    ensures { result ≡ full_line capacity name.now }
{
    let mut line = Line::new();
    line.push_count(b"device-full ", capacity);
    line.push(b" ");
    Message::about(line, name)
}
