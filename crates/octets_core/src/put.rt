ghost use Rattle.std.specs.Prelude.{◌≡◌, ◌<◌, ◌^◌, ◌++◌, OnOk, OnErr};
ghost use Rattle.std.specs.Int.{w8, w16, w32, w64, to_be_bytes};
ghost use Rattle.octets_core.specs.Numbers.{three_bytes};

use crate::memory::NoMemory;

/// Appends the bytes. After want of memory the bytes of `out` are as before.
pub fn put_bytes(out: &mut Vec<u8>, bytes: &[u8]) -> Result<(), NoMemory>
    ensures ok { OnOk result (out.new.items ≡ out.old.items ++ bytes.now) }
    ensures err { OnErr result (out.new.items ≡ out.old.items) }
{
    out.extend_from_slice(bytes)?;
    Ok(())
}

/// Appends the number in one byte. After want of memory the bytes of `out` are as before.
pub fn put_u8(out: &mut Vec<u8>, v: u8) -> Result<(), NoMemory>
    ensures ok { OnOk result (out.new.items ≡ out.old.items ++ to_be_bytes w8 v) }
    ensures err { OnErr result (out.new.items ≡ out.old.items) }
{
    put_bytes(out, &v.to_be_bytes())
}

/// Appends the number in two bytes, greatest first. After want of memory the bytes of `out` are as before.
pub fn put_u16(out: &mut Vec<u8>, v: u16) -> Result<(), NoMemory>
    ensures ok { OnOk result (out.new.items ≡ out.old.items ++ to_be_bytes w16 v) }
    ensures err { OnErr result (out.new.items ≡ out.old.items) }
{
    put_bytes(out, &v.to_be_bytes())
}

/// Appends the number in three bytes, greatest first. After want of memory the bytes of `out` are as before.
pub fn put_u24(out: &mut Vec<u8>, v: u32) -> Result<(), NoMemory>
    requires { v < 2 ^ 24 }
    ensures ok { OnOk result (out.new.items ≡ out.old.items ++ three_bytes v) }
    ensures err { OnErr result (out.new.items ≡ out.old.items) }
{
    put_bytes(out, &v.to_be_bytes()[1..])
}

/// Appends the number in four bytes, greatest first. After want of memory the bytes of `out` are as before.
pub fn put_u32(out: &mut Vec<u8>, v: u32) -> Result<(), NoMemory>
    ensures ok { OnOk result (out.new.items ≡ out.old.items ++ to_be_bytes w32 v) }
    ensures err { OnErr result (out.new.items ≡ out.old.items) }
{
    put_bytes(out, &v.to_be_bytes())
}

/// Appends the number in eight bytes, greatest first. After want of memory the bytes of `out` are as before.
pub fn put_u64(out: &mut Vec<u8>, v: u64) -> Result<(), NoMemory>
    ensures ok { OnOk result (out.new.items ≡ out.old.items ++ to_be_bytes w64 v) }
    ensures err { OnErr result (out.new.items ≡ out.old.items) }
{
    put_bytes(out, &v.to_be_bytes())
}
