// Reads rows of levels, as many to a row as its argument says, and writes their stored table; a refusal is a line on standard error.
#![tactic(auto)]

use system::{Streams, only_argument};
use tabulate_io::run;

fn main(rt: HostRuntime) {
    let mut to = Streams {
        out: rt.stdout(),
        errors: rt.stderr(),
    };
    let mut word = [0u8; 4096];
    // Where there is not just one argument, no word names bands.
    let word = only_argument(&rt, &mut word).unwrap_or(b"");
    run(&mut rt.stdin(), word, &mut rt.stderr(), &mut to);
}
