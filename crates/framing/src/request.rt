// What a record asks for.
ghost use Rattle.framing.specs.Requested.{Requested};

use crate::BadRecord;
use crate::header::Header;

// A call that is asked for by a record alone.
#[derive(Clone, Copy, Debug, PartialEq, Eq)]
pub enum Plain {
    Flush,
    Reset,
}

// A frame, whose body follows its header; or a flush or a reset.
#[derive(Clone, Copy)]
pub enum Request {
    Frame(Header),
    Plain(Plain),
}

impl TryFrom<[u8; 40]> for Request {
    type Error = BadRecord;

    ghost try_from_gives = { Requested };

    #[tactic(auto, unfolding(crate::specs::Framing::is_frame, crate::specs::Framing::is_plain, crate::specs::Requested::plain_of))]
    fn try_from(rec: [u8; 40]) -> Result<Request, BadRecord> {
        if rec[0] == 5 {
            return Ok(Request::Frame(Header::try_from(rec)?));
        }
        if !crate::is_plain(&rec) {
            return Err(BadRecord);
        }
        Ok(Request::Plain(if rec[0] == 7 {
            Plain::Flush
        } else {
            Plain::Reset
        }))
    }
}
