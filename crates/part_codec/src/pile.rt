//! What a part that is read in pieces is collected into.

ghost use Rattle.std.specs.Prelude.{◌≡◌, ◌<◌, ◌≤◌, ◌+◌, ◌++◌, [], IfOk, OnOk, true};
ghost use Rattle.part_codec.specs.Collecting.{nothing_piled, with_bytes, with_whole, with_body, with_shard, with_leaf, IsLast};
ghost use Rattle.part_codec.specs.Collecting.{stage_by, cleared, pile_mode, pile_plane, pile_exact};
ghost use Rattle.part_codec.specs.Collecting.{pile_after, pile_passed, CanCollect, IsPile};
ghost use Rattle.part_codec.specs.ReadPlanes.{AreStageBytes};

use crate::collector::Collector;
use crate::fields::{Kept, LEAST_BLOCK, Open};
use card_core::{Block, Body, Leaf, Mixed, Sharded, Stage};
use ident_core::{RANGE_BYTES, Range};
use octets_core::NoMemory;
use ribbon_core::Planes;
use std::alloc::Global;
use std::marker::Model;
use std::mem;

/// The ranges and blocks that came whole, and of the open block its shards and stages.
#[derive(Drop)]
pub(crate) struct Pile {
    alloc: Global,
    ranges: Vec<Range>,
    blocks: Vec<Block>,
    /// The leaves of the open block, where it is sharded.
    leaves: Vec<Leaf>,
    approx: Option<Stage>,
    /// The bytes of the open stage's planes, and how many of these are whole.
    bytes: Vec<u8>,
    done: u8,
}

impl Model for Pile {
    ghost use Rattle.part_codec.specs.PileFields.{PileFields};

    ghost Value = { PileFields };

    ghost view = { λ p. record {
      ranges = p.ranges.items;
      blocks = p.blocks.items;
      leaves = p.leaves.items;
      approx = p.approx;
      bytes = p.bytes.items;
      done = p.done;
    } };
}

impl Pile {
    pub(crate) fn new(alloc: Global) -> Pile
        ensures { result ≡ nothing_piled }
    {
        Pile {
            alloc,
            ranges: Vec::new(alloc),
            blocks: Vec::new(alloc),
            leaves: Vec::new(alloc),
            approx: None,
            bytes: Vec::new(alloc),
            done: 0,
        }
    }

    /// Collects the bytes of a plane.
    fn pass(&mut self, field: Open, piece: &[u8]) -> Result<(), NoMemory>
        ensures { OnOk result (self.new ≡ pile_passed field self.old piece.now) }
    {
        match field {
            Open::ApproxPlane | Open::ExactPlane => {
                self.bytes.extend_from_slice(piece)?;
                Ok(())
            }
            _ => Ok(()),
        }
    }

    /// Collects the open plane, which ends with these bytes.
    #[inline(always)]
    fn close_plane(&mut self, last: &[u8]) -> Result<(), NoMemory>
        requires { self.old.done < 255 }
        ensures { OnOk result (self.new ≡ with_whole (with_bytes self.old last.now)) }
    {
        self.bytes.extend_from_slice(last)?;
        self.done += 1;
        Ok(())
    }

    fn stage(&self, kept: &Kept) -> Result<Stage, NoMemory>
        requires { AreStageBytes kept.now.starts self.now.done self.now.bytes }
        ensures { IfOk result (λ s. s ≡ stage_by kept.now self.now) }
    {
        let planes = Planes::of_bytes(self.alloc, kept.starts, self.done, &self.bytes)?;
        Ok(Stage {
            seed: kept.seed,
            planes,
        })
    }

    #[inline(always)]
    fn push_body(&mut self, kept: &Kept, body: Body) -> Result<(), NoMemory>
        ensures { OnOk result (self.new ≡ with_body kept.now body self.old) }
    {
        self.blocks.push(Block {
            issuer: kept.key,
            body,
        })?;
        Ok(())
    }

    /// The leaf of a shard. With the last one the block is whole.
    fn push_shard(&mut self, kept: &Kept, leaf: Leaf) -> Result<(), NoMemory>
        requires some { 1 ≤ kept.now.shift }
        requires last { IsLast kept.now self.old }
        ensures { OnOk result (self.new ≡ with_shard kept.now.leaves kept.now leaf self.old) }
    {
        self.leaves.push(leaf)?;
        match kept.leaves {
            0 => {
                let leaves = mem::replace(&mut self.leaves, Vec::new(self.alloc));
                self.push_body(kept, Body::Sharded(Sharded::new(kept.shift, leaves)))
            }
            _ => Ok(()),
        }
    }

    #[inline(always)]
    fn push_leaf(&mut self, kept: &Kept, leaf: Leaf) -> Result<(), NoMemory>
        requires { IsLast kept.now self.old }
        ensures { OnOk result (self.new ≡ with_leaf kept.now leaf self.old) }
    {
        match kept.shift {
            0 => self.push_body(kept, Body::from(leaf)),
            _ => self.push_shard(kept, leaf),
        }
    }

    #[inline(always)]
    fn approx_plane(&mut self, kept: &Kept, last: &[u8]) -> Result<(), NoMemory>
        requires { AreStageBytes kept.now.starts (self.old.done + 1) (self.old.bytes ++ last.now) }
        ensures { OnOk result (self.new ≡ pile_plane kept.now.planes kept.now (with_whole (with_bytes self.old last.now))) }
    {
        self.close_plane(last)?;
        if kept.planes == 0 {
            self.approx = Some(self.stage(kept)?);
        }
        Ok(())
    }

    fn exact_plane(&mut self, kept: &Kept, last: &[u8]) -> Result<(), NoMemory>
        requires planes { AreStageBytes kept.now.starts (self.old.done + 1) (self.old.bytes ++ last.now) }
        requires one { self.old.done ≡ 0 }
        requires last { IsLast kept.now self.old }
        ensures { OnOk result (self.new ≡ pile_exact kept.now (with_bytes self.old last.now)) }
    {
        self.close_plane(last)?;
        let exact = self.stage(kept)?;
        let approx = self.approx.take();
        self.push_leaf(kept, Leaf::Mixed(Mixed::new(approx, exact)))
    }

    #[inline(always)]
    fn plain(&mut self, kept: &Kept) -> Result<(), NoMemory>
        requires { IsLast kept.now self.old }
        ensures { OnOk result (self.new ≡ pile_mode kept.now.mode kept.now self.old) }
    {
        match kept.mode {
            0 => self.push_leaf(kept, Leaf::Clean),
            1 => self.push_leaf(kept, Leaf::Every),
            _ => Ok(()),
        }
    }

    /// Room for so many ranges, but for no more than so many bytes can hold.
    fn clear_ranges(&mut self, count: u16, bytes: usize) -> Result<(), NoMemory>
        ensures { OnOk result (self.new ≡ record self.old { ranges = [] }) }
    {
        self.ranges.clear();
        self.ranges
            .reserve((count as usize).min(bytes / RANGE_BYTES))?;
        Ok(())
    }

    /// Room for so many blocks, but for no more than so many bytes can hold.
    fn clear_blocks(&mut self, count: u32, bytes: usize) -> Result<(), NoMemory>
        ensures { OnOk result (self.new ≡ record self.old { blocks = [] }) }
    {
        self.blocks.clear();
        self.blocks
            .reserve((count as usize).min(bytes / LEAST_BLOCK))?;
        Ok(())
    }

    /// Room for so many leaves, but for no more than so many bytes can hold.
    fn clear_leaves(&mut self, count: u16, bytes: usize) -> Result<(), NoMemory>
        ensures { OnOk result (self.new ≡ record self.old { leaves = [] }) }
    {
        self.leaves.clear();
        self.leaves.reserve((count as usize).min(bytes))?;
        Ok(())
    }

    fn clear_stage(&mut self)
        ensures { self.new ≡ cleared self.old }
    {
        self.bytes.clear();
        self.done = 0;
    }

    /// Collects what a field made whole, of which these are the last bytes. So many are at hand behind them.
    #[inline(always)]
    fn collect(
        &mut self,
        field: Open,
        kept: &Kept,
        piece: &[u8],
        bytes: usize,
    ) -> Result<(), NoMemory>
        requires { CanCollect field kept.now (pile_passed field self.old piece.now) }
        ensures { OnOk result (self.new ≡ pile_after field kept.now (pile_passed field self.old piece.now)) }
    {
        match field {
            Open::Ranges => self.clear_ranges(kept.ranges, bytes)?,
            Open::RangeTo => self.ranges.push(Range {
                log: kept.key,
                from: kept.from,
                to: kept.to,
            })?,
            Open::Issuers => self.clear_blocks(kept.issuers, bytes)?,
            Open::BlockMode | Open::ShardMode => self.plain(kept)?,
            Open::BlockShift => self.clear_leaves(kept.leaves, bytes)?,
            Open::BlockK => self.approx = None,
            Open::ApproxStarts | Open::ExactStarts => self.clear_stage(),
            Open::ApproxPlane => self.approx_plane(kept, piece)?,
            Open::ExactPlane => self.exact_plane(kept, piece)?,
            _ => {}
        }
        Ok(())
    }

    pub(crate) fn lists(self) -> (Vec<Range>, Vec<Block>)
        ensures ranges { result.0.items ≡ self.ranges }
        ensures blocks { result.1.items ≡ self.blocks }
    {
        (self.ranges, self.blocks)
    }
}

impl Collector for Pile {
    ghost holds = { IsPile };

    ghost wants = { Unit {0} };

    #[inline(always)]
    fn put(
        &mut self,
        field: Open,
        kept: &Kept,
        piece: &[u8],
        whole: bool,
        bytes: usize,
    ) -> Result<(), NoMemory> {
        match whole {
            true => self.collect(field, kept, piece, bytes),
            false => self.pass(field, piece),
        }
    }

    fn put_planes(&mut self, kept: &Kept, count: u8, bytes: &[u8]) -> Result<(), NoMemory> {
        self.bytes.extend_from_slice(bytes)?;
        self.done += count;
        self.approx = Some(self.stage(kept)?);
        Ok(())
    }
}
