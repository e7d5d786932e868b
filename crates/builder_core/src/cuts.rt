ghost use Rattle.std.specs.Prelude.{◌≡◌, ◌≤◌, All, map, length, filter, IfOk};
ghost use Rattle.std.specs.List.{flat_map};
ghost use Rattle.equation_core.specs.declared.shards.TheConstants.{MAX_SHIFT};
ghost use Rattle.universe_core.specs.Groups.{group_fields};
ghost use Rattle.builder_core.specs.Building.{shift_in};
ghost use Rattle.builder_core.specs.Cutting.{IsReady};
ghost use Rattle.builder_core.specs.Tasks.{tasks_in, tasks_of, tasks_of_cut};

use crate::Format;
use crate::drawing::{shards_alone, shards_in_threads};
use crate::task::Cut;
use octets_core::NoMemory;
use stage_core::shift_for;
use std::alloc::Global;
use std::thread::Threads;
use universe_core::Group;

// How many flags are set.
fn count(flags: &[bool]) -> usize
    ensures value { result ≡ length (filter (λ flag. flag) flags.now) }
    ensures few { result ≤ length flags.now }
{
    flags.iter().filter(|flag| **flag).count()
}

// By how many bits the block of a group is cut.
fn shift_of(group: &Group, format: Format) -> u8
    requires { IsReady group.now }
    ensures value { result ≡ shift_in format (group_fields group.now) }
    ensures few { result ≤ MAX_SHIFT }
{
    match format {
        Format::Plain => 0,
        Format::Sharded => shift_for(group.universe.len() as u32, count(&group.revoked) as u32),
    }
}

// Where `wide` allows it several threads draw the shards.
fn cut_of<'a, R: Threads + Sync>(
    rt: &R,
    alloc: Global,
    group: &'a Group,
    wide: bool,
    format: Format,
) -> Result<Cut<'a>, NoMemory>
    requires { IsReady group.now }
    ensures { IfOk result (λ c. tasks_of_cut c ≡ tasks_of format (group_fields group.now)) }
{
    let shift = shift_of(group, format);
    let shards = if shift == 0 {
        Vec::new(alloc)
    } else if wide {
        shards_in_threads(rt, alloc, &group.universe, shift)?
    } else {
        shards_alone(alloc, &group.universe, shift)?
    };
    Ok(Cut {
        group,
        shift,
        shards,
    })
}

/// How each group is cut. Each identity of a group that is cut is hashed once.
pub(crate) fn cuts_of<'a, R: Threads + Sync>(
    rt: &R,
    alloc: Global,
    groups: &'a [Group],
    wide: bool,
    format: Format,
) -> Result<Vec<Cut<'a>>, NoMemory>
    requires ready { All IsReady groups.now }
    ensures { IfOk result (λ v. flat_map tasks_of_cut v.items ≡ tasks_in format (map group_fields groups.now)) }
{
    let mut cuts = Vec::with_capacity(alloc, groups.len())?;
    for group in groups {
        cuts.push(cut_of(rt, alloc, group, wide, format)?)?;
    }
    Ok(cuts)
}
