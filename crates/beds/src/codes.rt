// A list of few bed codes.
ghost use Rattle.std.specs.Prelude.{◌≡◌, ◌≤◌, length};
ghost use Rattle.beds.specs.Matching.{counted};

use crate::bed_channel_matches_input;

// At most 18 bed codes: of a push's inputs, or of the beds of an update.
#[derive(Clone, Copy)]
pub struct Codes<'a> {
    pub list: &'a [u8],
    ghost few: { length list.now ≤ 18 },
}

impl Codes<'_> {
    // How many of the codes match a bed: the counts of `BedChannelCountMismatch`.
    pub fn count_matching(self, requested: u8) -> u32
        ensures { result ≡ counted requested self.entry.list.now }
    {
        self.list
            .iter()
            .filter(|provided| bed_channel_matches_input(requested, **provided))
            .count() as u32
    }
}
