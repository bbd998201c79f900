// A frame's header: what it says of the frame's body.
ghost use Rattle.std.specs.Prelude.{◌≡◌, true, false, ◌≤◌, MatchResult};
ghost use Rattle.framing.specs.Framing.{is_frame, bed_count, metadata_bytes, pcm_bytes};

use crate::BadRecord;

// A record that is a frame's header within the program's limits.
#[derive(Clone, Copy)]
pub struct Header {
    pub rec: [u8; 40],
    ghost laid: { is_frame rec ≡ true },
}

impl TryFrom<[u8; 40]> for Header {
    type Error = BadRecord;

    ghost try_from_gives = { λ rec r. MatchResult r (λ h. h.rec ≡ rec) (λ _. is_frame rec ≡ false) };

    fn try_from(rec: [u8; 40]) -> Result<Header, BadRecord> {
        if crate::is_frame(&rec) {
            Ok(Header { rec })
        } else {
            Err(BadRecord)
        }
    }
}

impl Header {
    #[tactic(auto, using(crate::proofs::Limits::frame_beds))]
    pub fn beds(&self) -> usize
        ensures { (result ≡ bed_count self.now.rec) × (result ≤ 18) }
    {
        usize::from(self.rec[10])
    }

    // The bytes of the frame's metadata.
    #[tactic(auto, using(crate::proofs::Limits::frame_metadata))]
    pub fn metadata_bytes(&self) -> usize
        ensures { (result ≡ metadata_bytes self.now.rec) × (result ≤ 48000) }
    {
        40 * usize::from(words::u16_at(&self.rec, 12))
    }

    // The bytes of the frame's PCM.
    #[tactic(auto, using(crate::proofs::Limits::frame_pcm))]
    pub fn pcm_bytes(&self) -> usize
        ensures { (result ≡ pcm_bytes self.now.rec) × (result ≤ 34816) }
    {
        let channels = usize::from(self.rec[10]) + usize::from(self.rec[11]);
        4 * (channels * usize::from(words::u16_at(&self.rec, 8)))
    }
}
