ghost use Rattle.builder_core.specs.Outcomes.{IsAssembled};

use crate::BuildFault;
use crate::built::{Built, ShardLeaf};
use card_core::{Block, Body, Sharded};
use std::alloc::Global;
use std::mem;

/// The blocks of the groups whose leaves these are, in order, or the first fault. There are about so many groups.
pub(crate) fn assemble(
    alloc: Global,
    groups: usize,
    outcomes: Vec<Result<Built, BuildFault>>,
) -> Result<Vec<Block>, BuildFault>
    ensures { IsAssembled outcomes.items result }
{
    let mut blocks = Vec::with_capacity(alloc, groups)?;
    let mut leaves = Vec::new(alloc);
    for outcome in outcomes {
        match outcome {
            Ok(Built::Block(block)) => blocks.push(block)?,
            Ok(
                Built::Leaf(
                    ShardLeaf {
                        issuer,
                        shift,
                        leaf,
                    },
                ),
            ) => {
                leaves.push(leaf)?;
                if leaves.len() == 1 << shift {
                    let all = mem::replace(&mut leaves, Vec::new(alloc));
                    let body = Body::Sharded(Sharded::new(shift, all));
                    blocks.push(Block { issuer, body })?;
                }
            }
            Err(fault) => return Err(fault),
        }
    }
    Ok(blocks)
}
