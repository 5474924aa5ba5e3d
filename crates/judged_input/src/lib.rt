// An input judged block by block as it is read, and held as far as there is room. For the programs above.
#![tactic(auto)]

ghost use Rattle.lister_facts.specs.Held.{Kept};

use digits::Text;
use judging::Judging;
use std::io::{Read, Write};
use system::{read_in, tell};

// A short read is the end of the input or a failure; only at the end does one more give nothing. A failure's reason is told on standard error.
fn at_end<R: Read, E: Write>(from: &mut R, errors: &mut E) -> bool {
    let mut more = [0u8; 1];
    match from.read(&mut more) {
        Ok(got) => got == 0,
        Err(why) => {
            tell(b"lister: the input", &why, errors);
            false
        }
    }
}

// Judges all that the reader gives, and holds its first blocks, as many as there is room for. What cannot be read to its end counts as empty.
pub fn judge_input<R: Read, E: Write>(from: &mut R, held: &mut [u8], errors: &mut E) -> Judging
    ensures { Kept result held.new }
{
    let mut block = [0u8; 512];
    let mut judging = Judging::new();
    let mut text = Text::new(held);
    // No input has as many blocks. (A reader does not say how many it has, so a `for` would count beside `next`.)
    while judging.next < usize::MAX {
        let read = read_in(from, &mut block);
        if read.len() < 512 {
            if at_end(from, errors) {
                return judging.feed(read);
            }
            return Judging::new();
        }
        judging = judging.feed(read);
        text.put_text(read);
    }
    judging
}
