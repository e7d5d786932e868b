//! The command that tells places: what it answers, with no file.

ghost use Rattle.std.specs.Prelude.{◌≡◌};
ghost use Rattle.command_core.specs.Commands.{place_done};
ghost use Rattle.command_core.specs.Answering.{reply_fields};
ghost use Rattle.command_core.specs.Replies.{done};

use crate::answer::Answer;
use line_core::placed;
use place_core::place_in;
use reply_core::Reply;
use word_core::command::Place;

/// The answer of `place`. No memory is taken.
pub fn answer_place<'a>(asked: &Place) -> Answer<'a>
    ensures { reply_fields result ≡ done (place_done asked.now) }
{
    let place = place_in(asked.by, &asked.id, asked.count);
    Answer::Reply(Reply::done(placed(place, asked.count.get())))
}
