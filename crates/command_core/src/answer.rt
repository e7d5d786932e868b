//! What is answered, before it is sent.

use crate::output::{Output, SampleOutput};
use part_codec::Sealed;
use reply_core::Reply;

/// What a command answers.
#[derive(Drop)]
pub enum Answer<'a> {
    /// One line.
    Reply(Reply<'a>),
    /// Lines that were made ahead, of a command that was done.
    Lines(Vec<u8>),
    /// All that a part holds, a line each.
    Part(Sealed),
    /// Files that are written first, and one line once they are whole.
    Files(Vec<Output<'a>>, Reply<'a>),
    /// A job that is written as it is made, and one line once it is whole.
    Sample(SampleOutput<'a>, Reply<'a>),
}
