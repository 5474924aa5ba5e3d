// Lists the stored table in the file that its argument names, or without one that on standard input: its lines, or the one line of a refusal.
#![tactic(auto)]

use lister_io::{no_file, run, run_file};
use system::{Streams, is_given, only_argument};

fn main(rt: HostRuntime) {
    let mut to = Streams {
        out: rt.stdout(),
        errors: rt.stderr(),
    };
    if !is_given(&rt, 1) {
        run(&mut rt.stdin(), &mut to);
        return;
    }
    let mut name = [0u8; 4096];
    match only_argument(&rt, &mut name) {
        Some(path) => run_file(&rt, path, &mut to),
        None => no_file(&mut to),
    }
}
