// The two forms of a stored table. For the crates above.
ghost use Rattle.std.specs.Prelude.{◌≡◌, ◌+◌};
ghost use Rattle.std.specs.Result.{MatchResult};
ghost use Rattle.block.specs.Kind.{left_out};

// Form 1 stores all gains of a row, form 2 all but the last.
#[derive(Clone, Copy, PartialEq, Eq)]
pub enum Form {
    One,
    Two,
}

impl Form {
    // Its number in a header, which is its least bands too.
    pub fn number(self) -> usize
        ensures { result ≡ 1 + left_out self }
    {
        match self {
            Form::One => 1,
            Form::Two => 2,
        }
    }

    // How many gains of a row it does not store.
    pub fn left_out(self) -> usize
        ensures { result ≡ left_out self }
    {
        match self {
            Form::One => 0,
            Form::Two => 1,
        }
    }
}

// A number that is neither form's.
#[derive(Clone, Copy)]
pub struct NoForm;

impl TryFrom<usize> for Form {
    type Error = NoForm;

    ghost try_from_gives = { λ n r. MatchResult r (λ f. n ≡ 1 + left_out f) (λ _. (n ≡ 1 → ⊥) × (n ≡ 2 → ⊥)) };

    fn try_from(number: usize) -> Result<Form, NoForm> {
        match number {
            1 => Ok(Form::One),
            2 => Ok(Form::Two),
            _ => Err(NoForm),
        }
    }
}
