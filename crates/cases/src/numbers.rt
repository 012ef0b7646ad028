// What the numbers of a record name: an operation, one of the memories, or a field of the state.
ghost use Rattle.std.specs.Prelude.{◌≤◌, ◌↔◌, IsOk};

// A number that names nothing.
#[derive(Clone, Copy)]
pub struct UnknownNumber;

// What a record is for.
#[derive(Clone, Copy)]
pub enum Operation {
    Label,
    Prepare,
    Open,
    Append,
    Close,
    SetState,
    SetBytes,
    SetLength,
    Keep,
    Audit,
    Lookup,
    Plan,
    Restart,
}

impl TryFrom<u8> for Operation {
    type Error = UnknownNumber;

    ghost try_from_gives = { λ number r. IsOk r ↔ (number ≤ 12) };

    fn try_from(number: u8) -> Result<Operation, UnknownNumber> {
        match number {
            0 => Ok(Operation::Label),
            1 => Ok(Operation::Prepare),
            2 => Ok(Operation::Open),
            3 => Ok(Operation::Append),
            4 => Ok(Operation::Close),
            5 => Ok(Operation::SetState),
            6 => Ok(Operation::SetBytes),
            7 => Ok(Operation::SetLength),
            8 => Ok(Operation::Keep),
            9 => Ok(Operation::Audit),
            10 => Ok(Operation::Lookup),
            11 => Ok(Operation::Plan),
            12 => Ok(Operation::Restart),
            _ => Err(UnknownNumber),
        }
    }
}

// One of the memories.
#[derive(Clone, Copy)]
pub enum Part {
    Store,
    Logs,
    Seal,
    Auditor,
}

impl TryFrom<u8> for Part {
    type Error = UnknownNumber;

    ghost try_from_gives = { λ number r. IsOk r ↔ (number ≤ 3) };

    fn try_from(number: u8) -> Result<Part, UnknownNumber> {
        match number {
            0 => Ok(Part::Store),
            1 => Ok(Part::Logs),
            2 => Ok(Part::Seal),
            3 => Ok(Part::Auditor),
            _ => Err(UnknownNumber),
        }
    }
}

// A field of the state, or one of its log lengths.
#[derive(Clone, Copy)]
pub enum Field {
    Chunk,
    Offset,
    SealLength,
    LogLength,
    Key,
}

impl TryFrom<u8> for Field {
    type Error = UnknownNumber;

    ghost try_from_gives = { λ number r. IsOk r ↔ (number ≤ 4) };

    fn try_from(number: u8) -> Result<Field, UnknownNumber> {
        match number {
            0 => Ok(Field::Chunk),
            1 => Ok(Field::Offset),
            2 => Ok(Field::SealLength),
            3 => Ok(Field::LogLength),
            4 => Ok(Field::Key),
            _ => Err(UnknownNumber),
        }
    }
}
