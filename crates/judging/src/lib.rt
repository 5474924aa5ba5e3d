// A table judged block by block, with nothing held but a few numbers. For the programs above.
#![tactic(auto)]

ghost use Rattle.std.specs.Prelude.{◌≡◌, ◌<◌, length};
ghost use Rattle.std.specs.Result.{IfOk};
ghost use Rattle.answer.specs.Answer.{judged, or_else};
ghost use Rattle.block.specs.Kind.{left_out};
ghost use Rattle.block.specs.Read.{bytes_from, bands_of, rows_of, block_tests_by};
ghost use Rattle.table.specs.Table.{answer_of};
ghost use Rattle.table.specs.Release.{rules_of, drop_in};
ghost use Rattle.judging.specs.Judging.{new_judging, first_tests, first_of, more_of, fed_of, finished};

use answer::{Answer, Refusal};
use block::form::Form;
use block::layout::Layout;
use block::word::{checks_ok, word_at};
use table::judge::{block, form_in, head_ok};

// How many whole blocks were fed; how many the first header calls for, its form, bands and rows, which may be none that a `Layout` holds; whether
// every feeding was a whole block; the first header's answer, and that of all blocks so far.
#[derive(Clone, Copy)]
pub struct Judging {
    pub next: usize,
    pub want: usize,
    pub form: Form,
    pub bands: usize,
    pub rows: usize,
    pub whole: bool,
    pub head: Answer,
    pub body: Answer,
}

// The table that block 0 says: its 10 and 11.
fn first_table(bytes: &[u8], form: Form) -> Result<Layout, Refusal>
    requires { (length bytes.now ≡ 512) × (left_out form ≡ drop_in (bytes_from bytes.now 0)) }
    ensures answer { answer_of result ≡ judged (first_tests (bytes_from bytes.now 0)) }
    ensures table { IfOk result (λ t. (t.form ≡ form) × (t.bands ≡ bands_of (bytes_from bytes.now 0)) × (t.rows ≡ rows_of (bytes_from bytes.now 0))) }
{
    if !checks_ok(bytes) {
        return Err(Refusal::Check(0));
    }
    head_ok(bytes, 0, form).ok_or(Refusal::Header(0))
}

impl Judging {
    pub fn new() -> Judging
        ensures { result ≡ new_judging }
    {
        Judging {
            next: 0,
            want: 0,
            form: Form::One,
            bands: 0,
            rows: 0,
            whole: true,
            head: Ok(()),
            body: Ok(()),
        }
    }

    fn first(self, bytes: &[u8]) -> Judging
        requires { length bytes.now ≡ 512 }
        ensures { result ≡ first_of self.whole (bytes_from bytes.now 0) }
    {
        let form = form_in(bytes);
        let (want, head) = match first_table(bytes, form) {
            Ok(table) => (table.blocks(), Ok(())),
            Err(r) => (0, Err(r)),
        };
        let bands = word_at(bytes, 4);
        let rows = word_at(bytes, 6);
        let body = block(bytes, 0, form, bands, rows);
        Judging {
            next: 1,
            want,
            form,
            bands,
            rows,
            head,
            body,
            ..self
        }
    }

    // The answer so far, and where that is no refusal the next block's.
    fn go_on(self, bytes: &[u8]) -> Answer
        requires { length bytes.now ≡ 512 }
        ensures { result ≡ or_else self.body (judged (block_tests_by (rules_of self.form) self.bands self.rows (bytes_from bytes.now 0) self.next)) }
    {
        self.body?;
        block(bytes, self.next, self.form, self.bands, self.rows)
    }

    // Feeds the next 512 bytes, or at the end the fewer that are left; no bytes change nothing.
    pub fn feed(self, bytes: &[u8]) -> Judging
        requires { self.next < 18446744073709551615 }
        ensures { result ≡ fed_of self bytes.now }
    {
        match bytes.len() {
            0 => self,
            512 if self.next == 0 => self.first(bytes),
            512 => Judging {
                next: self.next + 1,
                body: self.go_on(bytes),
                ..self
            },
            _ => Judging {
                whole: false,
                ..self
            },
        }
    }

    // The answer to all that was fed.
    pub fn finish(self) -> Answer
        ensures { result ≡ finished self }
    {
        if !self.whole || self.next == 0 {
            return Err(Refusal::StoredLength);
        }
        self.head?;
        if self.next != self.want {
            return Err(Refusal::StoredLength);
        }
        self.body
    }
}
