//! Records of entries.

ghost use Rattle.std.specs.Prelude.{◌≡◌};
ghost use Rattle.job_core.specs.JobText.{entry_record};
ghost use Rattle.sample_core.specs.Sample.{entry};

use crate::digests::{Keys, digest_of_entry};

/// The time of the first entry, in milliseconds since 1970-01-01 00:00:00 UTC.
pub const MOMENT: u64 = 1_700_000_000_000;

/// How many bytes the record of an entry has.
pub const RECORD: usize = 108;

/// The record of an entry: its kind, the log, the length of the leaf and the leaf, and that there is no extra data. Of
/// the leaf: its version and type, the time, the type of a precertificate, the issuer, the length of the TBS, the TBS
/// with the serial alone, and that there are no extensions. It is written as one array, since each piece costs a call.
pub fn record_of(keys: &Keys, index: u32) -> [u8; RECORD]
    ensures { result ≡ entry_record (entry keys.now index) }
{
    let l = keys.log().bytes();
    let t = (MOMENT + index as u64).to_be_bytes();
    let k = keys.issuer((index % 4) as u8).bytes();
    let d = digest_of_entry(keys.number(), index);
    [
        3, l[0], l[1], l[2], l[3], l[4], l[5], l[6], l[7], l[8], l[9], l[10], l[11], l[12], l[13],
        l[14], l[15], l[16], l[17], l[18], l[19], l[20], l[21], l[22], l[23], l[24], l[25], l[26],
        l[27], l[28], l[29], l[30], l[31], 0, 0, 69, 0, 0, t[0], t[1], t[2], t[3], t[4], t[5],
        t[6], t[7], 0, 1, k[0], k[1], k[2], k[3], k[4], k[5], k[6], k[7], k[8], k[9], k[10], k[11],
        k[12], k[13], k[14], k[15], k[16], k[17], k[18], k[19], k[20], k[21], k[22], k[23], k[24],
        k[25], k[26], k[27], k[28], k[29], k[30], k[31], 0, 0, 20, 0x30, 0x12, 0x02, 0x10, 0x01,
        d[0], d[1], d[2], d[3], d[4], d[5], d[6], d[7], d[8], d[9], d[10], d[11], d[12], d[13],
        d[14], 0, 0, 0, 0, 0,
    ]
}
