ghost use Rattle.std.specs.Prelude.{◌≡◌};
ghost use Rattle.sheets.specs.Operators.{operator_of, operator_field, letter_of, kinds_of};

/// What a formula line says of a state.
#[derive(Clone, Copy, PartialEq, Eq, Debug)]
pub enum Operator {
    /// The state has a mark.
    Mark,
    /// The operand is false.
    Not,
    /// One of the two operands is true.
    Or,
    /// Some endless path has the operand true at its next state.
    Next,
    /// Some endless path has the operand true at every state.
    Globally,
    /// Some endless path has the second operand true at a state, and the first at all states before.
    Until,
    /// The debtor is committed to the creditor to bring about the content.
    Commitment,
    /// That commitment is fulfilled.
    Fulfilment,
}

/// What an operand is the number of.
#[derive(Clone, Copy, PartialEq, Eq, Debug)]
pub enum Kind {
    Absent,
    Mark,
    Party,
    Line,
}

/// The operator that a letter stands for, and how many fields its lines have.
pub fn operator_of(letter: char) -> Option<(Operator, usize)>
    ensures { result ≡ operator_of letter }
{
    match letter {
        'M' => Some((Operator::Mark, 4)),
        'N' => Some((Operator::Not, 4)),
        'O' => Some((Operator::Or, 5)),
        'X' => Some((Operator::Next, 4)),
        'G' => Some((Operator::Globally, 4)),
        'U' => Some((Operator::Until, 5)),
        'C' => Some((Operator::Commitment, 6)),
        'K' => Some((Operator::Fulfilment, 6)),
        _ => None,
    }
}

/// The operator in a field, which must be its letter alone.
pub fn operator_field(bytes: &[u8]) -> Option<(Operator, usize)>
    ensures { result ≡ operator_field bytes.now }
{
    match bytes {
        [letter] => operator_of(char::from(*letter)),
        _ => None,
    }
}

impl Operator {
    /// The letter that stands for the operator.
    pub fn letter(self) -> u8
        ensures { result ≡ letter_of self }
    {
        match self {
            Operator::Mark => b'M',
            Operator::Not => b'N',
            Operator::Or => b'O',
            Operator::Next => b'X',
            Operator::Globally => b'G',
            Operator::Until => b'U',
            Operator::Commitment => b'C',
            Operator::Fulfilment => b'K',
        }
    }

    /// What its three operands are numbers of.
    pub fn kinds(self) -> [Kind; 3]
        ensures { result ≡ kinds_of self }
    {
        match self {
            Operator::Mark => [Kind::Mark, Kind::Absent, Kind::Absent],
            Operator::Not | Operator::Next | Operator::Globally => [
                Kind::Line,
                Kind::Absent,
                Kind::Absent,
            ],
            Operator::Or | Operator::Until => [Kind::Line, Kind::Line, Kind::Absent],
            Operator::Commitment | Operator::Fulfilment => [Kind::Party, Kind::Party, Kind::Line],
        }
    }
}
