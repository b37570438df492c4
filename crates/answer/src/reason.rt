// The reasons of refusals: the rows of document 01's table, in its order.
ghost use Rattle.std.specs.Prelude.{◌≡◌};
ghost use Rattle.answer.specs.Reasons.{number_of};

use crate::Refusal;
use std::fmt;

#[derive(Clone, Copy, Debug, PartialEq, Eq)]
pub enum Reason {
    FileTooLong = 1,
    FileTooShort,
    NoLibrary,
    ExecutableCount,
    FileCutOff,
    NoProgram,
    TableSizes,
    MisplacedProgramTable,
    UnknownOpcode,
    BadOperator,
    MissingDescriptor,
    BadRegister,
    MisplacedExecutable,
    NoExecutable,
    UnknownType,
    BadEntry,
    MisplacedTable,
    BadConstant,
    BadLabel,
    BadOutput,
    BadUniform,
    EmitInVertex,
    BreakOutsideLoop,
    BadBounds,
    TooDeep,
    BadJump,
    TooLong,
    BadEnd,
    NotThere,
    BufferTooShort,
    NotEncodable,
}

impl Reason {
    // The number of its row.
    pub fn number(self) -> u32
        ensures { result ≡ number_of self }
    {
        self as u32
    }

    // The refusal for this reason, at a place.
    pub fn at(self, place: u32) -> Refusal
        ensures { result ≡ record { reason = self; place = place } }
    {
        Refusal {
            reason: self,
            place,
        }
    }
}

// A few words of what is wrong.
impl fmt::Display for Reason {
    fn fmt<W: fmt::Write>(&self, f: &mut fmt::Formatter<W>) -> fmt::Result {
        f.write_str(match self {
            Reason::FileTooLong => "file over 65,536 bytes",
            Reason::FileTooShort => "file under 8 bytes",
            Reason::NoLibrary => "no DVLB at the start",
            Reason::ExecutableCount => "no executable, or over 16",
            Reason::FileCutOff => "file ends inside the header or the DVLP",
            Reason::NoProgram => "no DVLP after the header",
            Reason::TableSizes => "no words or over 512, or over 128 descriptors",
            Reason::MisplacedProgramTable =>
                "DVLP table unaligned, outside the file or overlapping the opcode table",
            Reason::UnknownOpcode => "unknown opcode",
            Reason::BadOperator => "compare operator 6 or 7",
            Reason::MissingDescriptor => "descriptor ID not in the table",
            Reason::BadRegister => "LOOP register over 3",
            Reason::MisplacedExecutable =>
                "DVLE unaligned, outside the file or overlapping the opcode table",
            Reason::NoExecutable => "no DVLE at its offset",
            Reason::UnknownType => "type neither 0 nor 1",
            Reason::BadEntry => "main not before endmain, or endmain over the word count",
            Reason::MisplacedTable =>
                "DVLE table unaligned, outside the file or overlapping the opcode table",
            Reason::BadConstant => "bad constant",
            Reason::BadLabel => "bad label",
            Reason::BadOutput => "bad output",
            Reason::BadUniform => "bad uniform",
            Reason::EmitInVertex => "EMIT or SETEMIT in a vertex shader",
            Reason::BreakOutsideLoop =>
                "BREAK or BREAKC with no LOOP open in the same main or called region",
            Reason::BadBounds => "bad bounds of an IF, a LOOP or a CALL",
            Reason::TooDeep => "one more CALL, IF or LOOP open than allowed",
            Reason::BadJump => "bad jump",
            Reason::TooLong => "total over 4,000,000",
            Reason::BadEnd => "main's last word not END, or not an own word of main",
            Reason::NotThere => "executable or constant not there",
            Reason::BufferTooShort => "lent buffer too short",
            Reason::NotEncodable => "fields that no word has",
        })
    }
}
