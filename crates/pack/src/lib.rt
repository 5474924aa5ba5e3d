// An answer in one word: the number (RULES, Numbers) in the low 8 bits, the place above.
#![tactic(auto)]

ghost use Rattle.std.specs.Prelude.{◌≡◌, ◌^◌, ◌<◌};
ghost use Rattle.answer.specs.Answer.{place_of, told_of};
ghost use Rattle.pack.specs.Pack.{packed};

use answer::{Answer, number, place};

pub fn pack(a: Answer) -> u64
    requires { place_of a < 2 ^ 56 }
    ensures { result ≡ packed (told_of a) }
{
    number(a) as u64 + 256 * (place(a) as u64)
}
