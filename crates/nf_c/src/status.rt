/// What became of a call.
#[derive(Clone, Copy, Debug, PartialEq, Eq)]
pub enum Status {
    Done,
    /// The number stands for no form.
    NoForm,
    /// The number stands for no policy.
    NoPolicy,
    /// The output has no room for what is next.
    Full,
    BadByte,
    Cut,
    Unassigned,
    /// An earlier call ended the text.
    Spent,
    /// The memory holds no state that a call has left.
    NoState,
    TooLong,
    /// The text is not in the Stream-Safe Text Format.
    Unsafe,
    /// The text is not in the form, or not stream-safe.
    NotNormalized,
}

impl Status {
    ghost use Rattle.std.specs.Prelude.{◌≡◌};
    ghost use Rattle.nf_c.specs.Status.{code_of};

    /// Its number for C.
    pub fn code(self) -> u32
        ensures { result ≡ code_of self }
    {
        match self {
            Status::Done => 0,
            Status::NoForm => 1,
            Status::NoPolicy => 2,
            Status::Full => 3,
            Status::BadByte => 4,
            Status::Cut => 5,
            Status::Unassigned => 6,
            Status::Spent => 7,
            Status::NoState => 8,
            Status::TooLong => 9,
            Status::Unsafe => 10,
            Status::NotNormalized => 11,
        }
    }
}
