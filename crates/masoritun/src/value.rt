// A number that is part of the answer, for the calls that have one.
ghost use Rattle.std.specs.Prelude.{◌≡◌, ◌^◌, ◌<◌};
ghost use Rattle.answer.specs.Answer.{value_told};
ghost use Rattle.floats.specs.Values.{zero_f};
ghost use Rattle.pack.specs.Pack.{packed};

use answer::Refusal;
use pack::pack;

// Hands the number back, +0 where refused, and answers the word.
pub fn give(told: Result<f32, Refusal>, res: &mut f32) -> u64
    requires { (value_told zero_f told).0.1 < 2 ^ 56 }
    ensures told { result ≡ packed (value_told zero_f told).0 }
    ensures value { res.new ≡ (value_told zero_f told).1 }
{
    match told {
        Ok(value) => {
            *res = value;
            0
        }
        Err(why) => {
            *res = 0.0;
            pack(Err(why))
        }
    }
}
