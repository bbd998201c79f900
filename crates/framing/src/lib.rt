// The records that `hallrender` reads, kinds 5 to 8, as laid out. Document 01, "`hallrender` reads 40-byte records".
#![tactic(auto)]

ghost use Rattle.std.specs.Prelude.{◌≡◌, true, ◌≤◌, length};
ghost use Rattle.framing.specs.Framing.{in_limits, is_frame, is_plain, is_pcm, record_bytes};
ghost use Rattle.framing.specs.PcmTaken.{Taken, Unpacked};

use fields::bytes::zeros;

pub mod header;
pub mod request;

// A record that is not as laid out.
#[derive(Clone, Copy, Debug, PartialEq, Eq)]
pub struct BadRecord;

// Whether a header's counts are within the program's limits.
#[tactic(auto, unfolding(crate::specs::Framing::in_limits))]
fn in_limits(rec: &[u8; 40]) -> bool
    ensures { result ≡ in_limits rec.now }
{
    words::u16_at(rec, 8) <= 256 && rec[10] <= 18 && rec[11] <= 16 && words::u16_at(rec, 12) <= 1200
}

// Whether a record is a frame's header within those limits.
#[tactic(auto, using(crate::proofs::Limits::few_beds), unfolding(crate::specs::Framing::is_frame))]
pub fn is_frame(rec: &[u8; 40]) -> bool
    ensures { result ≡ is_frame rec.now }
{
    let used = usize::from(rec[10]);
    rec[0] == 5 && in_limits(rec) && zeros(rec, 1, 3) && zeros(rec, 14 + used, 26 - used)
}

// Whether a record is a flush or a reset.
#[tactic(auto, unfolding(crate::specs::Framing::is_plain))]
pub fn is_plain(rec: &[u8; 40]) -> bool
    ensures { result ≡ is_plain rec.now }
{
    7 <= rec[0] && rec[0] <= 8 && zeros(rec, 1, 39)
}

// Whether a record is one of PCM with n bytes in use.
#[tactic(auto, unfolding(crate::specs::Framing::is_pcm))]
fn is_pcm(rec: &[u8], n: usize) -> bool
    requires { (length rec.now ≡ 40) × (n ≤ 36) }
    ensures { result ≡ is_pcm n rec.now }
{
    rec[0] == 6 && zeros(rec, 1, 3) && zeros(rec, 4 + n, 36 - n)
}

// The bytes of the records that hold n bytes of PCM.
pub fn record_bytes(n: usize) -> usize
    requires { n ≤ 34816 }
    ensures { (result ≡ record_bytes n) × (result ≤ 38720) }
{
    40 * n.div_ceil(36)
}

// The samples of one record of PCM to the front of `rest`: nine, or as many as are left.
fn take_nine(rec: &[u8], rest: &mut [u8]) -> Result<(), BadRecord>
    requires { length rec.now ≡ 40 }
    ensures { Taken rec.now rest.old result rest.new }
{
    let n = rest.len().min(36);
    if !is_pcm(rec, n) {
        return Err(BadRecord);
    }
    rest[..n].copy_from_slice(&rec[4..4 + n]);
    Ok(())
}

// Fills `pcm` from its records. By number, since of parts that `chunks_mut` lends a proof knows how long they are and not what they hold.
pub fn unpack(records: &[u8], pcm: &mut [u8]) -> Result<(), BadRecord>
    requires { (length records.now ≡ record_bytes (length pcm.old)) × (length pcm.old ≤ 34816) }
    ensures { Unpacked records.now (length pcm.old) result pcm.new }
{
    for k in 0..pcm.len().div_ceil(36) {
        take_nine(&records[40 * k..40 * k + 40], &mut pcm[36 * k..])?;
    }
    Ok(())
}
