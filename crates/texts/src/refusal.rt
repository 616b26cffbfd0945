ghost use Rattle.std.specs.Prelude.{◌≡◌, ◌≤◌, length};
ghost use Rattle.texts.specs.Fields.{fault_at};
ghost use Rattle.texts.specs.Lines.{at};
ghost use Rattle.texts.specs.Refusals.{code_of, fault_text};

/// Why a call is refused. Each entry has its number in the refusal table.
#[derive(Clone, Copy, PartialEq, Eq, Debug)]
pub enum Refusal {
    /// The text is longer than allowed.
    TextTooLong = 1,
    /// The text is empty, or its last line has no end.
    Unfinished = 2,
    /// A field is not a number, or an operator letter is unknown.
    NotANumber = 3,
    /// The first field is not one that is due here.
    NotDue = 4,
    /// The line has another number of fields.
    FieldCount = 5,
    /// A number is outside its range.
    OutOfRange = 10,
    /// A number is not the one due, or lines do not rise.
    OutOfOrder = 11,
    /// The text ends before its last S or L line.
    EndsEarly = 12,
    /// The written text would be longer than a text may be.
    WrittenTooLong = 13,
    /// No state is a start.
    NoStart = 14,
    /// A state has no move.
    NoMove = 15,
    /// There are more lines of this kind than allowed.
    TooManyLines = 16,
    /// An operand or an action is not an earlier line.
    NotEarlier = 17,
    /// The debtor and the creditor share no channel.
    NoSharedChannel = 18,
    /// The call is not allowed while an amendment is open.
    AmendmentOpen = 20,
    /// The ticket bears another sheet's number, or no amendment is open.
    WrongTicket = 21,
    /// A number of an edit is outside its range.
    EditOutOfRange = 22,
    /// The party does not hold the channel.
    ChannelNotHeld = 23,
    /// The move is there already.
    MovePresent = 24,
    /// The move is not there.
    MoveAbsent = 25,
    /// The move is the last that leaves its state.
    LastMove = 26,
    /// There are as many moves as allowed.
    MovesFull = 27,
    /// There are as many edits as an amendment may have.
    EditsFull = 28,
    /// The sheet is blank.
    Blank = 29,
    /// There is no such line.
    NoSuchLine = 30,
    /// There is no such state.
    NoSuchState = 31,
    /// A lent buffer is too short.
    ShortBuffer = 32,
    /// The sheet has more states than the set can hold.
    SetTooSmall = 33,
    /// The operator has no evidence to show.
    NoEvidence = 34,
    /// The formula is false at the state, so nothing shows it true.
    FalseThere = 35,
    /// The commitment is true at the state, so nothing shows it false.
    TrueThere = 36,
}

impl Refusal {
    /// The number in the refusal table.
    pub fn code(self) -> u8
        ensures { result ≡ code_of self }
    {
        self as u8
    }
}

/// Where a text is at fault: the line, from 1, and the field in it, from 1; 0 where none is meant, as the
/// line `E,number,line,field` has it.
#[derive(Clone, Copy, PartialEq, Eq, Debug)]
pub struct Place {
    pub line: usize,
    pub field: usize,
}

/// A refusal with its place in the text.
#[derive(Clone, Copy, PartialEq, Eq, Debug)]
pub struct Fault {
    pub refusal: Refusal,
    pub place: Place,
}

impl Fault {
    /// A refusal at `field` of `line`. Written, it is a line of at most 70 bytes.
    pub fn new(refusal: Refusal, line: usize, field: usize) -> Fault
        ensures value { result ≡ fault_at refusal (at line field) }
        ensures short { length (fault_text result) ≤ 70 }
    {
        Fault {
            refusal,
            place: Place { line, field },
        }
    }
}
