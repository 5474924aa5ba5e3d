// What the programs over `lister_core` share: a table from a reader or a file, block by block, and its lines or the one line of a refusal to
// standard output.
#![tactic(auto)]

ghost use Rattle.std.specs.Prelude.{◌≤◌, length};
ghost use Rattle.answer.specs.Limits.{table_limit};

mod again;
mod listing;

use crate::again::list_again;
use crate::listing::Listing;
use answer::Refusal;
use answer::limits::TABLE_LIMIT;
use block::layout::Layout;
use judged_input::judge_input;
use std::io;
use std::io::{Read, Seek, SeekFrom, Write};
use std::rt::Files;
use system::{Streams, open, tell};

fn list_held<R: Read, W: Write, E: Write>(
    from: &mut R,
    held: &mut [u8],
    listing: &mut Listing<'_, W, E>,
) -> io::Result<()>
    requires { table_limit ≤ length held.old }
{
    let j = judge_input(from, held, &mut listing.to.errors);
    if let Err(why) = j.finish() {
        return listing.refuse(why);
    }
    let t = Layout {
        form: j.form,
        bands: j.bands,
        rows: j.rows,
    };
    listing.show_held(t, held)
}

// Lists the table that the reader gives, which is read once: no more of it is held than the largest table has.
pub fn run<R: Read, W: Write, E: Write>(from: &mut R, to: &mut Streams<W, E>) {
    let mut held = [0u8; TABLE_LIMIT];
    let _ = list_held(from, &mut held, &mut Listing::new(to));
}

// Lists the table that two readings give: the first is judged and nothing of it is held, the second, from its beginning, is shown.
pub fn run_twice<R: Read, S: Read + Seek, W: Write, E: Write>(
    first: &mut R,
    second: &mut S,
    to: &mut Streams<W, E>,
) {
    let j = judge_input(first, &mut [], &mut to.errors);
    let _ = list_again(j, second, &mut Listing::new(to));
}

// The same where one file gives both readings.
fn run_again<S: Read + Seek, W: Write, E: Write>(file: &mut S, to: &mut Streams<W, E>) {
    let j = judge_input(file, &mut [], &mut to.errors);
    let _ = list_again(j, file, &mut Listing::new(to));
}

// No file can be opened: how the program is called on standard error, and the one line of the refusal.
pub fn no_file<W: Write, E: Write>(to: &mut Streams<W, E>) {
    let _ = to.errors.write_all(b"usage: lister [FILE]\n");
    let _ = Listing::new(to).refuse(Refusal::StoredLength);
}

// The same after why it cannot, where it has a name.
fn not_opened<W: Write, E: Write>(path: &[u8], why: &io::Error, to: &mut Streams<W, E>) {
    if !path.is_empty() {
        let _ = to.errors.write_all(b"lister: ");
        tell(path, why, &mut to.errors);
    }
    no_file(to);
}

// What has no beginning to go back to, such as a pipe, is read once, as standard input is.
fn list_file<S: Read + Seek, W: Write, E: Write>(file: &mut S, to: &mut Streams<W, E>) {
    match file.seek(SeekFrom::Current(0)) {
        Ok(_) => run_again(file, to),
        Err(_) => run(file, to),
    }
}

// Lists the table in a file.
pub fn run_file<F: Files, W: Write, E: Write>(files: &F, path: &[u8], to: &mut Streams<W, E>) {
    match open(files, path) {
        Ok(mut file) => list_file(&mut file, to),
        Err(why) => not_opened(path, &why, to),
    }
}
