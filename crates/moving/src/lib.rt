// Moves a stored table from one form to the other (RULES, Moving), a block of the result at a time.
#![tactic(auto)]

ghost use Rattle.std.specs.Prelude.{◌≡◌};
ghost use Rattle.answer.specs.Answer.{told_of};
ghost use Rattle.moving.specs.Moving.{move_told, move_out, length_in};

use answer::Answer;
use block::form::Form;
use block::layout::Layout;

mod moves;

pub use moves::to_form;

// Moves a table to form 1, or copies it if it has that form. (C has a function for each form.)
pub fn to_form_1(bytes: &[u8], res: &mut [u8]) -> Answer
    ensures told { told_of result ≡ move_told 0 bytes.now res.old }
    ensures written { res.new ≡ move_out 0 bytes.now res.old }
{
    to_form(Form::One, bytes, res)
}

// Moves a table to form 2, or copies it if it has that form.
pub fn to_form_2(bytes: &[u8], res: &mut [u8]) -> Answer
    ensures told { told_of result ≡ move_told 1 bytes.now res.old }
    ensures written { res.new ≡ move_out 1 bytes.now res.old }
{
    to_form(Form::Two, bytes, res)
}

// The bytes of a table of this form, bands and rows; 0 where there is no such table, as RULES has it (`Layout::length` tells those of one that is there).
pub fn length_in(form: u32, bands: u32, rows: u32) -> usize
    ensures told { result ≡ length_in form bands rows }
{
    let Ok(form) = Form::try_from(form as usize) else {
        return 0;
    };
    match Layout::new(form, bands as usize, rows as usize) {
        Some(t) => t.length(),
        None => 0,
    }
}
