//! Why a text is refused.
ghost use Rattle.std.specs.Prelude.{◌≡◌};

/// What is wrong with a line, or with the text as a whole.
#[derive(Clone, Copy, Debug, PartialEq, Eq)]
pub enum Reason {
    /// The first significant line doesn't begin with `workers`, or there is none.
    NoWorkersLine,
    /// A line has more than 200 bytes.
    LineTooLong,
    /// A byte isn't a space to a tilde.
    BadByte,
    /// The first word is none that the language has.
    UnknownWord,
    /// The line has more words than its form, or fewer.
    WrongNumberOfWords,
    /// A name or a key isn't of the form of one.
    BadName,
    /// A name is declared already, or the `workers` line comes again.
    NameTaken,
    /// No object of the name is declared before.
    UnknownName,
    /// The object has no such call.
    WrongKind,
    /// A number isn't of the form of one, or is out of range.
    BadNumber,
    /// A worker's number isn't below the number of workers.
    NoSuchWorker,
    /// A call comes before any `worker` line.
    CallOutsideWorker,
    /// The line passes a limit.
    LimitReached,
    /// The text has more than 8,388,608 bytes.
    InputTooLong,
    /// A call starts a worker that no `dormant` line before it names.
    NotDormant,
}

impl Reason {
    ghost use Rattle.workload.specs.Reason.{reason_text};

    /// What the program says of the reason, behind the line's number.
    pub fn text(self) -> &'static str
        ensures { result.now ≡ reason_text self }
    {
        match self {
            Reason::NoWorkersLine => "no workers line",
            Reason::LineTooLong => "line too long",
            Reason::BadByte => "bad byte",
            Reason::UnknownWord => "unknown word",
            Reason::WrongNumberOfWords => "wrong number of words",
            Reason::BadName => "bad name",
            Reason::NameTaken => "name taken",
            Reason::UnknownName => "unknown name",
            Reason::WrongKind => "wrong kind",
            Reason::BadNumber => "bad number",
            Reason::NoSuchWorker => "no such worker",
            Reason::CallOutsideWorker => "call outside a worker",
            Reason::LimitReached => "limit reached",
            Reason::InputTooLong => "input too long",
            Reason::NotDormant => "worker not dormant",
        }
    }
}
