// Floor 2: what is kept of one neighbour's route table. The rules of updates and of withholding are the definitions of
// specs/, with laws in proofs/; the code that meets them is crate tablereader. Nothing here knows of lines or
// neighbours.
#![tactic(auto)]

ghost use Rattle.std.specs.Prelude.{◌≡◌};
ghost use Rattle.tables.specs.Marks.{byte_of, mark_named};
ghost use Rattle.tables.specs.Tables.{no_table};

// The marks of a table (RULES 4.7): no RESET has come; RESET and no number yet; inside a run; a whole run done; an update
// was refused. A table that is waiting, running or settled takes a PATCH.
#[derive(Clone, Copy, Debug, PartialEq, Eq, Hash)]
pub enum Mark {
    NoTable = 0,
    Waiting = 1,
    Running = 2,
    Settled = 3,
    Broken = 4,
}

// The mark of a settled table, as its byte.
pub const SETTLED: u8 = 3;

// A byte that is no mark.
#[derive(Clone, Copy, Debug, PartialEq, Eq, Hash)]
pub struct UnknownMark(pub u8);

impl From<Mark> for u8 {
    ghost from_gives = { λ mark byte. byte ≡ byte_of mark };

    fn from(mark: Mark) -> u8 {
        mark as u8
    }
}

impl TryFrom<u8> for Mark {
    type Error = UnknownMark;

    ghost try_from_gives = { λ byte outcome. outcome ≡ mark_named byte };

    fn try_from(byte: u8) -> Result<Mark, UnknownMark> {
        match byte {
            0 => Ok(Mark::NoTable),
            1 => Ok(Mark::Waiting),
            2 => Ok(Mark::Running),
            3 => Ok(Mark::Settled),
            4 => Ok(Mark::Broken),
            _ => Err(UnknownMark(byte)),
        }
    }
}

// What is kept of a table beside its entries, which stand in the lent part, one byte an entry. The mark is a number, since
// the C interface lends the table (lunozhar_table) and any byte may stand there.
#[repr(C)]
#[derive(Clone, Copy)]
pub struct Table {
    pub mark: u8,
    pub length: u32,
    pub infinity: u8,
    pub nextplace: u8,
    pub runsize: u8,
    pub runbits: u8,
    pub nextentry: u32,
}

// No table: nothing has come yet.
pub fn no_table() -> Table
    ensures { result ≡ no_table }
{
    Table {
        mark: u8::from(Mark::NoTable),
        length: 0,
        infinity: 0,
        nextplace: 0,
        runsize: 0,
        runbits: 0,
        nextentry: 0,
    }
}
