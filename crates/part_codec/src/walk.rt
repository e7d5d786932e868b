//! The walk over a part's bytes, piece by piece, which puts the fields that pass to a collector.

ghost use Rattle.std.specs.Prelude.{◌≡◌, ◌<◌, length, true, false, IfOk, IfErr};
ghost use Rattle.part_codec.specs.declared.fields.Open.TheVariants as opens;
ghost use Rattle.part_codec.specs.Stepping.{in_front, leads_on};
ghost use Rattle.part_codec.specs.Taking.{CanRead, CanHash, Takes, Steps, ReadsOn, FailsRead, FailsHashed};

use crate::collector::Collector;
use crate::fields::{Open, is_front};
use crate::machine::Machine;
use part_text::PartFault;
use sha2::{Digest, Sha256};

/// Takes bytes up to the end of the open field, which isn't the trailer, and puts what they make whole.
#[inline(always)]
fn step<C: Collector>(machine: &mut Machine, to: &mut C, piece: &[u8]) -> Result<usize, PartFault>
    requires { CanRead C.holds machine.old to.old }
    ensures ok { IfOk result (Steps C.holds machine.old machine.new to.old to.new piece.now) }
    ensures err { IfErr result (FailsRead C.holds C.wants machine.old to.old piece.now) }
{
    let field = machine.field;
    let (n, whole) = machine.advance(piece)?;
    to.put(field, &machine.kept, &piece[..n], whole, piece.len() - n)?;
    Ok(n)
}

/// `step`, which isn't copied to where this is called.
#[inline(never)]
fn step_apart<C: Collector>(
    machine: &mut Machine,
    to: &mut C,
    piece: &[u8],
) -> Result<usize, PartFault>
    requires { CanRead C.holds machine.old to.old }
    ensures ok { IfOk result (Steps C.holds machine.old machine.new to.old to.new piece.now) }
    ensures err { IfErr result (FailsRead C.holds C.wants machine.old to.old piece.now) }
{
    step(machine, to, piece)
}

/// `step` at this field of a mixed leaf, which isn't a plane. Where it is whole in the piece, nothing goes by the open
/// field.
#[inline(always)]
fn step_field<C: Collector>(
    machine: &mut Machine,
    to: &mut C,
    field: Open,
    piece: &[u8],
) -> Result<usize, PartFault>
    requires field { machine.old.field ≡ field }
    requires leads { leads_on field ≡ true }
    requires can { CanRead C.holds machine.old to.old }
    ensures ok { IfOk result (Steps C.holds machine.old machine.new to.old to.new piece.now) }
    ensures err { IfErr result (FailsRead C.holds C.wants machine.old to.old piece.now) }
{
    let n = machine.whole_field(field, piece);
    if n == 0 {
        return step_apart(machine, to, piece);
    }
    let left = piece.len() - n;
    to.put(field, &machine.kept, &piece[..n], true, left)?;
    Ok(n)
}

/// `step` at an approximate plane. Where all that are left of the stage are whole in the piece, they are taken at once.
#[inline(always)]
fn step_planes<C: Collector>(
    machine: &mut Machine,
    to: &mut C,
    piece: &[u8],
) -> Result<usize, PartFault>
    requires field { machine.old.field ≡ opens.ApproxPlane }
    requires can { CanRead C.holds machine.old to.old }
    ensures ok { IfOk result (Steps C.holds machine.old machine.new to.old to.new piece.now) }
    ensures err { IfErr result (FailsRead C.holds C.wants machine.old to.old piece.now) }
{
    let count = machine.kept.planes;
    let n = machine.whole_planes(piece);
    if n == 0 {
        return step_apart(machine, to, piece);
    }
    to.put_planes(&machine.kept, count, &piece[..n])?;
    Ok(n)
}

/// `step` at the issuer of a block, and at its mode where both are at hand and more than the trailer follows.
#[inline(always)]
fn step_block<C: Collector>(
    machine: &mut Machine,
    to: &mut C,
    piece: &[u8],
) -> Result<usize, PartFault>
    requires field { machine.old.field ≡ opens.BlockIssuer }
    requires can { CanRead C.holds machine.old to.old }
    ensures ok { IfOk result (Steps C.holds machine.old machine.new to.old to.new piece.now) }
    ensures err { IfErr result (FailsRead C.holds C.wants machine.old to.old piece.now) }
{
    let n = machine.whole_field(Open::BlockIssuer, piece);
    if n == 0 {
        return step_apart(machine, to, piece);
    }
    let rest = &piece[n..];
    let more = machine.whole_mode(rest);
    if more == 0 {
        return Ok(n);
    }
    let left = rest.len() - more;
    to.put(Open::BlockMode, &machine.kept, &rest[..more], true, left)?;
    Ok(n + more)
}

/// Takes bytes of a field, of a block's issuer and mode, or of planes that stand together.
#[inline(always)]
fn walk<C: Collector>(machine: &mut Machine, to: &mut C, piece: &[u8]) -> Result<usize, PartFault>
    requires { CanRead C.holds machine.old to.old }
    ensures ok { IfOk result (Steps C.holds machine.old machine.new to.old to.new piece.now) }
    ensures err { IfErr result (FailsRead C.holds C.wants machine.old to.old piece.now) }
{
    match machine.field {
        Open::BlockIssuer => step_block(machine, to, piece),
        Open::BlockK => step_field(machine, to, Open::BlockK, piece),
        Open::ApproxSeed => step_field(machine, to, Open::ApproxSeed, piece),
        Open::ApproxStarts => step_field(machine, to, Open::ApproxStarts, piece),
        Open::ApproxPlane => step_planes(machine, to, piece),
        Open::ExactSeed => step_field(machine, to, Open::ExactSeed, piece),
        Open::ExactStarts => step_field(machine, to, Open::ExactStarts, piece),
        _ => step(machine, to, piece),
    }
}

/// Takes the bytes of the piece before the trailer.
fn read_fields<C: Collector>(
    machine: &mut Machine,
    to: &mut C,
    piece: &[u8],
) -> Result<usize, PartFault>
    requires { CanRead C.holds machine.old to.old }
    ensures ok { IfOk result (Takes C.holds machine.old machine.new to.old to.new piece.now) }
    ensures err { IfErr result (FailsRead C.holds C.wants machine.old to.old piece.now) }
    ensures all { IfOk result (λ n. n < length piece.now → in_front machine.new.field ≡ false) }
{
    let mut taken = 0;
    while taken < piece.len() {
        if !is_front(machine.field) {
            return Ok(taken);
        }
        let n = walk(machine, to, &piece[taken..])?;
        taken += n;
    }
    Ok(taken)
}

/// Takes the bytes of the piece before the trailer, and hashes them at once.
fn read_front<C: Collector>(
    machine: &mut Machine,
    to: &mut C,
    hasher: &mut Sha256,
    piece: &[u8],
) -> Result<usize, PartFault>
    requires { CanHash C.holds machine.old to.old hasher.old }
    ensures ok { IfOk result (ReadsOn C.holds machine.old machine.new to.old to.new hasher.old hasher.new piece.now) }
    ensures err { IfErr result (FailsHashed C.holds C.wants machine.old to.old hasher.old piece.now) }
    ensures all { IfOk result (λ n. n < length piece.now → in_front machine.new.field ≡ false) }
{
    if !is_front(machine.field) {
        return Ok(0);
    }
    let taken = read_fields(machine, to, piece)?;
    hasher.update(&piece[..taken]);
    Ok(taken)
}

/// Takes the bytes of the piece that belong to the part, and puts what they make whole.
pub(crate) fn read_on<C: Collector>(
    machine: &mut Machine,
    to: &mut C,
    hasher: &mut Sha256,
    piece: &[u8],
) -> Result<usize, PartFault>
    requires { CanHash C.holds machine.old to.old hasher.old }
    ensures ok { IfOk result (ReadsOn C.holds machine.old machine.new to.old to.new hasher.old hasher.new piece.now) }
    ensures err { IfErr result (FailsHashed C.holds C.wants machine.old to.old hasher.old piece.now) }
    ensures all { IfOk result (λ n. n < length piece.now → machine.new.field ≡ opens.Done) }
{
    let taken = read_front(machine, to, hasher, piece)?;
    if is_front(machine.field) {
        return Ok(taken);
    }
    let (last, _) = machine.end(hasher, &piece[taken..])?;
    Ok(taken + last)
}
