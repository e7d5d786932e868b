ghost use Rattle.std.specs.Prelude.{◌≡◌, ◌-◌, length, min, take};
ghost use Rattle.outside_core.specs.Files.{IsPiece};
ghost use Rattle.outside_core.specs.Feeding.{most_at_once};

/// The most bytes that one call offers.
const PIECE: usize = 4096;

/// What the next call offers of the bytes that aren't taken.
pub fn next_piece(left: &[u8]) -> &[u8]
    ensures { result.now ≡ take most_at_once left.now }
{
    &left[..left.len().min(PIECE)]
}

/// Copies the bytes from a place on into the front of the buffer, as many as there are and fit.
pub fn copy_from(bytes: &[u8], at: u64, buf: &mut [u8]) -> usize
    ensures count { result ≡ min (length buf.old) (length bytes.now - at) }
    ensures piece { IsPiece bytes.now at buf.new result }
{
    let len = bytes.len() as u64;
    if at >= len {
        return 0;
    }
    let rest = &bytes[at as usize..];
    let n = rest.len().min(buf.len());
    buf[..n].copy_from_slice(&rest[..n]);
    n
}
