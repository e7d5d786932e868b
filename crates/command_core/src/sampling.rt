//! The generator's command: what it answers. Its job is written when the answer is sent.

ghost use Rattle.std.specs.Prelude.{◌≡◌, IfOk};
ghost use Rattle.command_core.specs.Commands.{sample_done};
ghost use Rattle.command_core.specs.Answering.{reply_fields};
ghost use Rattle.command_core.specs.Replies.{done};

use crate::answer::Answer;
use crate::output::SampleOutput;
use line_core::sampled;
use octets_core::NoMemory;
use reply_core::Reply;
use sample_core::SampleJob;
use std::alloc::Global;
use word_core::command::Sample;

/// The answer of `sample`.
pub fn answer_sample<'a>(alloc: Global, sample: &Sample<'a>) -> Result<Answer<'a>, NoMemory>
    ensures { IfOk result (λ a. reply_fields a ≡ done (sample_done sample.now)) }
{
    let count = sample.count.get();
    let job = SampleJob::new(alloc, sample.number, count)?;
    let line = sampled(sample.number, count, job.revoked(), job.bytes());
    let output = SampleOutput::new(sample.job.as_str(), job);
    Ok(Answer::Sample(output, Reply::done(line)))
}
