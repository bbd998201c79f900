// `hallrender`: records of 40 bytes from standard input, each answer to standard output. Document 01, "`hallrender` reads 40-byte records".
#![tactic(auto)]

ghost use Rattle.std.specs.Prelude.{◌≡◌, ◌≤◌, length};
ghost use Rattle.hallrender.specs.ProgramRun.{new_block, Ran};
ghost use Rattle.hallrender.specs.RunResults.{FrameTaken, Handled, RecordTaken};

use framing::BadRecord;
use framing::header::Header;
use framing::request::Request;
use listing::text::Text;
use std::io;
use std::io::{Read, Write};

// The layout that it renders for: 7.1.4. Document 01 fixes the records, and none says another.
const LAYOUT: u32 = 0;

// Why the program ends.
#[derive(Clone, Copy)]
enum End {
    // No record is left.
    Input,
    BadRecord,
    // An answer cannot be written.
    Output,
}

impl From<BadRecord> for End {
    fn from(_: BadRecord) -> End {
        End::BadRecord
    }
}

impl From<io::Error> for End {
    fn from(_: io::Error) -> End {
        End::Output
    }
}

// What a frame's body is read into, and the PCM that it holds.
type Body = [u8; 86720];

type Pcm = [u8; 34816];

// The renderer's block, the output that its calls are lent, and the text of an answer.
#[derive(Drop)]
struct Program {
    state: [u8; hall::STATE_BYTES],
    out: [u8; 12288],
    text: Text,
}

// Fills `bytes` from standard input, as far as it goes; how many were read. Where a read fails, the input ends.
// It stays beside `read_exact`, which says neither how many there were nor that no bytes are always read.
fn read_full(rt: &HostRuntime, bytes: &mut [u8]) -> usize
    ensures { result ≤ length bytes.new }
{
    let mut input = rt.stdin();
    let mut done = 0;
    while done < bytes.len() {
        match input.read(&mut bytes[done..]) {
            Ok(0) | Err(_) => break,
            Ok(n) => done += n,
        }
    }
    done
}

// Writes all of `bytes`; where that fails, standard error says so, and the program's status stays 0.
fn say(rt: &HostRuntime, bytes: &[u8]) -> io::Result<()> {
    rt.stdout().write_all(bytes).inspect_err(|_| {
        let _ = rt
            .stderr()
            .write_all(b"hallrender: cannot write to standard output\n");
    })
}

impl Program {
    // The push of a frame, and its answer's text.
    // All that belongs to a frame is read at once, and nothing of a frame that is cut is pushed.
    fn frame(
        &mut self,
        rt: &HostRuntime,
        body: &mut Body,
        pcm: &mut Pcm,
        header: Header,
    ) -> Result<(), End>
        ensures { FrameTaken header.rec body.new self.old self.new result }
    {
        let m = header.metadata_bytes();
        let n = header.pcm_bytes();
        let size = m + framing::record_bytes(n);
        if read_full(rt, &mut body[..size]) < size {
            return Err(End::BadRecord);
        }
        framing::unpack(&body[m..size], &mut pcm[..n])?;
        calls::push(
            &mut self.state,
            &body[..m],
            &pcm[..n],
            &mut self.out,
            &mut self.text,
            &header,
        );
        Ok(())
    }

    // What a record asks for, and its answer's text.
    fn handle(
        &mut self,
        rt: &HostRuntime,
        body: &mut Body,
        pcm: &mut Pcm,
        rec: [u8; 40],
    ) -> Result<(), End>
        ensures { Handled rec body.new self.old self.new result }
    {
        match Request::try_from(rec)? {
            Request::Frame(header) => self.frame(rt, body, pcm, header),
            Request::Plain(call) => {
                calls::plain(&mut self.state, &mut self.out, &mut self.text, call);
                Ok(())
            }
        }
    }

    // One record and what belongs to it, and its answer's text.
    fn one(&mut self, rt: &HostRuntime, body: &mut Body, pcm: &mut Pcm) -> Result<(), End>
        ensures { RecordTaken body.new self.old self.new result }
    {
        let mut rec = [0u8; 40];
        match read_full(rt, &mut rec) {
            0 => Err(End::Input),
            40 => self.handle(rt, body, pcm, rec),
            _ => Err(End::BadRecord),
        }
    }

    // Its budget of turns is more than any input has. An answer is one write.
    // What a frame is read into is made here, once: made for each frame, all of it would be cleared for each.
    fn run(&mut self, rt: &HostRuntime) -> Result<(), End>
        requires { self.old.state ≡ new_block }
        ensures { Ran self.old.state self.old.out self.new.state self.new.out }
    {
        let mut body = [0; 86720];
        let mut pcm = [0; 34816];
        for _ in 0..u64::MAX {
            self.one(rt, &mut body, &mut pcm)?;
            say(rt, self.text.as_bytes())?;
        }
        Ok(())
    }
}

#[tactic(auto, unfolding(crate::specs::ProgramRun::new_block, store::specs::Layout::decode))]
fn main(rt: HostRuntime) {
    let mut program = Program {
        state: [0; hall::STATE_BYTES],
        out: [0; 12288],
        text: Text::new(),
    };
    let _ = hall::make(&mut program.state, LAYOUT);
    if let Err(End::BadRecord) = program.run(&rt) {
        let _ = say(&rt, b"bad record\n");
    }
}
