//! The lines of `show`, written one by one: no memory is taken, and no more than one line is held.

ghost use Rattle.std.specs.Prelude.{◌≡◌, ◌++◌, flat_map};
ghost use Rattle.part_text.specs.PartText.{version_of as version_in};
ghost use Rattle.line_core.specs.Lines.{head_line, range_line, shard_lines, body_lines, block_lines, show_text};
ghost use Rattle.line_core.specs.Sending.{Sends};

use crate::line::{Line, block_shown, head_shown, range_shown, shard_shown, trailer_shown};
use card_core::{Block, Body, Leaf, Part};
use ident_core::{Head, Range};
use outside_core::{Failed, Sink, write_all};
use part_codec::{Sealed, version_of};

/// Writes a text.
pub(crate) fn write_text<K: Sink>(text: &[u8], out: &mut K) -> Result<(), Failed>
    ensures { Sends (K.written out.old) (K.written out.new) (K.faults out.old) (K.faults out.new) result text.now }
{
    write_all(out, text)
}

fn write_line<K: Sink>(line: &Line, out: &mut K) -> Result<(), Failed>
    ensures { Sends (K.written out.old) (K.written out.new) (K.faults out.old) (K.faults out.new) result line.now }
{
    write_text(line.text(), out)
}

fn write_ranges<K: Sink>(ranges: &[Range], out: &mut K) -> Result<(), Failed>
    ensures { Sends (K.written out.old) (K.written out.new) (K.faults out.old) (K.faults out.new) result
        (flat_map range_line ranges.now) }
{
    for range in ranges {
        write_line(&range_shown(range), out)?;
    }
    Ok(())
}

fn write_shards<K: Sink>(leaves: &[Leaf], out: &mut K) -> Result<(), Failed>
    ensures { Sends (K.written out.old) (K.written out.new) (K.faults out.old) (K.faults out.new) result
        (shard_lines 0 leaves.now) }
{
    for place in 0..leaves.len() {
        write_line(&shard_shown(place, &leaves[place]), out)?;
    }
    Ok(())
}

fn write_body<K: Sink>(body: &Body, out: &mut K) -> Result<(), Failed>
    ensures { Sends (K.written out.old) (K.written out.new) (K.faults out.old) (K.faults out.new) result
        (body_lines body.now) }
{
    match body {
        Body::Sharded(sharded) => write_shards(sharded.leaves(), out),
        Body::Clean | Body::Every | Body::Mixed(_) => Ok(()),
    }
}

fn write_block<K: Sink>(block: &Block, out: &mut K) -> Result<(), Failed>
    ensures { Sends (K.written out.old) (K.written out.new) (K.faults out.old) (K.faults out.new) result
        (block_lines block.now) }
{
    write_line(&block_shown(block), out)?;
    write_body(&block.body, out)
}

fn write_blocks<K: Sink>(blocks: &[Block], out: &mut K) -> Result<(), Failed>
    ensures { Sends (K.written out.old) (K.written out.new) (K.faults out.old) (K.faults out.new) result
        (flat_map block_lines blocks.now) }
{
    for block in blocks {
        write_block(block, out)?;
    }
    Ok(())
}

fn write_head<K: Sink>(version: u8, head: &Head, out: &mut K) -> Result<(), Failed>
    ensures { Sends (K.written out.old) (K.written out.new) (K.faults out.old) (K.faults out.new) result
        (head_line version head.now ++ flat_map range_line head.now.ranges) }
{
    write_line(&head_shown(version, head), out)?;
    write_ranges(head.ranges(), out)
}

fn write_part<K: Sink>(part: &Part, out: &mut K) -> Result<(), Failed>
    ensures { Sends (K.written out.old) (K.written out.new) (K.faults out.old) (K.faults out.new) result
        (head_line (version_in part.now.blocks) part.now.head ++ flat_map range_line part.now.head.ranges
        ++ flat_map block_lines part.now.blocks) }
{
    let blocks = part.blocks();
    write_head(version_of(blocks), part.head(), out)?;
    write_blocks(blocks, out)
}

/// Writes all that a part holds.
pub fn write_sealed<K: Sink>(sealed: &Sealed, out: &mut K) -> Result<(), Failed>
    ensures { Sends (K.written out.old) (K.written out.new) (K.faults out.old) (K.faults out.new) result
        (show_text sealed.now) }
{
    write_part(sealed.part(), out)?;
    write_line(&trailer_shown(&sealed.trailer()), out)
}
