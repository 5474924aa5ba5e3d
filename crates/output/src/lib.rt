// What a program writes to standard output.
#![tactic(auto)]

ghost use Rattle.std.specs.Prelude.{OnOk};
ghost use Rattle.std.specs.Io.KnownBytes.{Appends};

use std::io;
use std::io::Write;
use system::{Streams, tell};

// Writes the text. Where not all of it can be written, as on a full disc, a line on standard error has the program's name and the reason.
pub fn put<W: Write, E: Write>(text: &[u8], name: &[u8], to: &mut Streams<W, E>) -> io::Result<()>
    ensures { OnOk result (Appends (W.contents to.old.out) (W.contents to.new.out) text.now) }
{
    let written = to.out.write_all(text);
    if let Err(why) = &written {
        tell(name, why, &mut to.errors);
    }
    written
}
