// What an operation answers beside its record: accepted, or why not.
#![tactic(auto)]

ghost use Rattle.std.specs.Prelude.{◌≡◌};
ghost use Rattle.answers.specs.Numbers.{number_of, is_refusal};

#[derive(Clone, Copy, Debug, PartialEq, Eq)]
pub enum Answer {
    Accepted,
    InvalidSequenceHeader,
    InvalidTileInfo,
    InvalidTrailingBits,
    WrongArguments,
    ShortBuffer,
    TooManyTiles,
    InvalidFilmGrainData,
    NoSuchLayout,
}

pub fn number(a: Answer) -> u32
    ensures { result ≡ number_of a }
{
    a as u32
}

pub fn is_refusal(a: Answer) -> bool
    ensures { result ≡ is_refusal a }
{
    a != Answer::Accepted
}
