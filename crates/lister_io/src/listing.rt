// Where a listing goes, and the room for its lines.
ghost use Rattle.std.specs.Prelude.{◌≡◌, ◌-◌, ◌*◌, ◌<◌, ◌≤◌, length, OnOk};
ghost use Rattle.std.specs.Io.KnownBytes.{Appends};
ghost use Rattle.block.specs.Block.{blocks};
ghost use Rattle.block.specs.Kind.{left_out};

use answer::Refusal;
use answer::limits::BLOCK_ROOM;
use block::layout::Layout;
use digits::Text;
use lister_core::{put_block, put_head, put_refused};
use output::put;
use std::io;
use std::io::Write;
use system::Streams;

#[derive(Drop)]
pub struct Listing<'a, W, E> {
    pub to: &'a mut Streams<W, E>,
    room: [u8; BLOCK_ROOM],
}

// The text, to standard output.
fn show<W: Write, E: Write>(text: &[u8], to: &mut Streams<W, E>) -> io::Result<()>
    ensures { OnOk result (Appends (W.contents to.old.out) (W.contents to.new.out) text.now) }
{
    put(text, b"lister: standard output", to)
}

impl<'a, W: Write, E: Write> Listing<'a, W, E> {
    pub fn new(to: &'a mut Streams<W, E>) -> Listing<'a, W, E> {
        Listing {
            to,
            room: [0; BLOCK_ROOM],
        }
    }

    // The one line of a refusal.
    pub fn refuse(&mut self, why: Refusal) -> io::Result<()> {
        let mut line = Text::new(&mut self.room);
        put_refused(why.number(), why.place(), &mut line);
        show(line.as_bytes(), self.to)
    }

    // The first line, which goes before block 0.
    fn show_head(&mut self, t: Layout) -> io::Result<()> {
        let mut line = Text::new(&mut self.room);
        put_head(t.bands, t.rows, &mut line);
        show(line.as_bytes(), self.to)
    }

    pub fn show_block(&mut self, t: Layout, k: usize, block: &[u8]) -> io::Result<()>
        requires { (k < blocks (t.bands - left_out t.form) t.rows) × (length block.now ≡ 512) }
    {
        if k == 0 {
            self.show_head(t)?;
        }
        let mut lines = Text::new(&mut self.room);
        put_block(t, k, block, &mut lines);
        show(lines.as_bytes(), self.to)
    }

    // Shows the blocks of a table that was judged and is held, as far as they can be written.
    pub fn show_held(&mut self, t: Layout, held: &[u8]) -> io::Result<()>
        requires { 512 * blocks (t.bands - left_out t.form) t.rows ≤ length held.now }
    {
        for k in 0..t.blocks() {
            let at = 512 * k;
            self.show_block(t, k, &held[at..at + 512])?;
        }
        Ok(())
    }
}
