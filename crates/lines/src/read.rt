// Command lines read: a letter, and fields parted by one space each.
// Relies on the texts of numbers, keys and records; a line is read just where it is the text of a command.
ghost use Rattle.lines.specs.CommandTexts.{command_text, CommandFits};
ghost use Rattle.lines.specs.Commands.{command_of, put_of, ticket_key_of, walk_of, with_fields, without_fields};
ghost use Rattle.std.specs.Prelude.{◌≡◌};
ghost use Rattle.text.specs.Fields.{one_field};

use crate::command::Command;
use keys::CodeKey;
use text::{FaultRecord, FromText, split_field};

// The command that a line stands for: a line is read just where it is the line of a command.
#[tactic(auto, using(crate::proofs::CommandLines::own_command, crate::proofs::Fields::command_fields))]
impl FromText for Command {
    ghost text = { command_text };

    ghost Fits = { CommandFits };

    ghost value = { command_of };

    fn from_text(s: &[u8]) -> Option<Command> {
        match s {
            [letter] => without_fields(*letter),
            [letter, b' ', fields @ ..] => with_fields(*letter, fields),
            _ => None,
        }
    }
}

// Commands of a letter alone.
fn without_fields(letter: u8) -> Option<Command>
    ensures answer { result ≡ without_fields letter }
{
    match letter as char {
        'R' => Some(Command::BeginReport),
        'J' => Some(Command::BeginJob),
        _ => None,
    }
}

// Commands of a letter and fields.
fn with_fields(letter: u8, fields: &[u8]) -> Option<Command>
    ensures answer { result ≡ with_fields letter fields.now }
{
    match letter as char {
        'E' => u32::from_text(fields).map(|ticket| Command::End { ticket }),
        'G' => ticket_key_of(fields).map(|(ticket, key)| Command::Read { ticket, key }),
        'N' => walk_of(fields),
        'L' => ticket_key_of(fields).map(|(ticket, key)| Command::Look { ticket, key }),
        'P' => put_of(fields),
        'D' => ticket_key_of(fields).map(|(ticket, key)| Command::Remove { ticket, key }),
        'C' => u32::from_text(fields).map(|ticket| Command::Commit { ticket }),
        'A' => u32::from_text(fields).map(|ticket| Command::Abort { ticket }),
        'S' => u32::from_text(fields).map(|limit| Command::Age { limit }),
        _ => None,
    }
}

// A ticket's number and a key.
fn ticket_key_of(fields: &[u8]) -> Option<(u32, CodeKey)>
    ensures answer { result ≡ ticket_key_of fields.now }
{
    let (ticket, key) = split_field(fields);
    // by `?` and no `zip`, which would read the key also where the ticket is none
    Some((u32::from_text(ticket)?, CodeKey::from_text(key)?))
}

// A walk to the first key, or to the first one after a key.
fn walk_of(fields: &[u8]) -> Option<Command>
    ensures answer { result ≡ walk_of fields.now }
{
    if is_one_field(fields) {
        u32::from_text(fields).map(|ticket| Command::Walk {
            ticket,
            after: None,
        })
    } else {
        ticket_key_of(fields).map(|(ticket, key)| Command::Walk {
            ticket,
            after: Some(key),
        })
    }
}

// Whether there is no second field.
#[tactic(auto, using(crate::proofs::Fields::one_field_any))]
fn is_one_field(s: &[u8]) -> bool
    ensures answer { result ≡ one_field s.now }
{
    !s.contains(&b' ')
}

// A put: a ticket's number, a key, and the four fields of the record.
fn put_of(fields: &[u8]) -> Option<Command>
    ensures answer { result ≡ put_of fields.now }
{
    let (ticket, rest) = split_field(fields);
    let (key, fault) = split_field(rest);
    Some(Command::Put {
        ticket: u32::from_text(ticket)?,
        key: CodeKey::from_text(key)?,
        fault: FaultRecord::from_text(fault)?,
    })
}
