// Commands: what a line of the console's input asks for, and the line that asks for it.
// Tickets and limits are numbers of 32 bits.
ghost use Rattle.lines.specs.CommandTexts.{command_text};

use keys::CodeKey;
use page::{OpenLine, PageRefusal, Piece};
use text::FaultRecord;

#[derive(Clone, Copy)]
pub enum Command {
    // `R`
    BeginReport,
    // `J`
    BeginJob,
    // `E t`: end of a report
    End {
        ticket: u32,
    },
    // `G t key`
    Read {
        ticket: u32,
        key: CodeKey,
    },
    // `N t` to the first key, `N t key` to the first one after the key
    Walk {
        ticket: u32,
        after: Option<CodeKey>,
    },
    // `L t key`
    Look {
        ticket: u32,
        key: CodeKey,
    },
    // `P t key status occurrences speed coolant`
    Put {
        ticket: u32,
        key: CodeKey,
        fault: FaultRecord,
    },
    // `D t key`
    Remove {
        ticket: u32,
        key: CodeKey,
    },
    // `C t`
    Commit {
        ticket: u32,
    },
    // `A t`
    Abort {
        ticket: u32,
    },
    // `S limit`
    Age {
        limit: u32,
    },
}

impl Piece for Command {
    ghost text = { command_text };

    fn put(self, line: &mut OpenLine) -> Result<(), PageRefusal> {
        match self {
            Command::BeginReport => (*b"R").put(line),
            Command::BeginJob => (*b"J").put(line),
            Command::End { ticket } => (*b"E", ticket).put(line),
            Command::Read { ticket, key } => (*b"G", (ticket, key)).put(line),
            Command::Walk {
                ticket,
                after: None,
            } => (*b"N", ticket).put(line),
            Command::Walk {
                ticket,
                after: Some(key),
            } => (*b"N", (ticket, key)).put(line),
            Command::Look { ticket, key } => (*b"L", (ticket, key)).put(line),
            Command::Put { ticket, key, fault } => (*b"P", (ticket, (key, fault))).put(line),
            Command::Remove { ticket, key } => (*b"D", (ticket, key)).put(line),
            Command::Commit { ticket } => (*b"C", ticket).put(line),
            Command::Abort { ticket } => (*b"A", ticket).put(line),
            Command::Age { limit } => (*b"S", limit).put(line),
        }
    }
}
