// The text that `hallrender` prints of an answer. Document 01, "It prints `ready N` and N lines".
#![tactic(auto)]

ghost use Rattle.std.specs.Prelude.{◌≡◌, length};
ghost use Rattle.listing.specs.Text.{ready_text, refused_text, none_text, reset_text};

use text::Text;

pub mod text;

// `ready N` and its lines. No more than the output holds, whatever is asked for.
#[tactic(auto, using(crate::proofs::Spelling::no_line, crate::proofs::Spelling::line_more))]
pub fn ready(text: &mut Text, count: usize, out: &[u8; 12288])
    ensures { text.new ≡ ready_text count out.now }
{
    text.clear();
    text.put(b"ready ");
    text.put_decimal(count as u64);
    text.put(b"\n");
    for i in 0..count.min(256) {
        text.put_line(out, i);
    }
}

// "`refused K A B` in decimal". Three numbers and no `refusals::Stop`: of this crate's callers one has it, and the crate knows no refusals.
pub fn refused(text: &mut Text, number: u32, first: u32, second: u32)
    ensures { text.new ≡ refused_text number first second }
{
    text.clear();
    text.put(b"refused ");
    text.put_decimal(u64::from(number));
    text.put(b" ");
    text.put_decimal(u64::from(first));
    text.put(b" ");
    text.put_decimal(u64::from(second));
    text.put(b"\n");
}

// (d) `none` and `reset` are two functions: a parameter would be the word that each puts.
pub fn none(text: &mut Text)
    ensures { text.new ≡ none_text }
{
    text.clear();
    text.put(b"none\n");
}

pub fn reset(text: &mut Text)
    ensures { text.new ≡ reset_text }
{
    text.clear();
    text.put(b"reset\n");
}
