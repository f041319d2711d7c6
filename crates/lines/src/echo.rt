// The echo run: each line of an input as it was understood, onto a page.
// Relies on the page to write whole lines; keeps what stood on the page before.
ghost use Rattle.keys.specs.Refusals.{told};
ghost use Rattle.lines.specs.Echoes.{echo_lines, echo_text};
ghost use Rattle.lines.specs.Inputs.{input_lines};
ghost use Rattle.page.specs.Pages.{Grown, Lined, Printed, fitting, fitting_answer, room};
ghost use Rattle.page.specs.Refusals.{code};
ghost use Rattle.page.specs.Texts.{ended};
ghost use Rattle.std.specs.Prelude.{◌≡◌, map};

use crate::command::Command;
use crate::refusal::RefusalLine;
use crate::split::InputLines;
use page::{Page, PageRefusal};
use text::{FromText, TextRefusal};

// The longest input that is read.
pub const MAX_INPUT: usize = 16_384;

// Writes each line of the input as it was understood, or `no 12`, as many as fit; for an input that is too long, `no 12` alone.
#[tactic(auto, using(page::proofs::Printing::fit_one, page::proofs::Printing::fitted_one))]
pub fn echo_input(input: &[u8], page: &mut Page) -> Result<(), PageRefusal>
    ensures answer { told code result ≡ fitting_answer (room page.old) (echo_lines input.now) }
    ensures after { Grown page.old (fitting (room page.old) (echo_lines input.now)) page.new }
{
    if input.len() <= MAX_INPUT {
        echo_lines(input, page)
    } else {
        page.write_line(RefusalLine(TextRefusal::Malformed))
    }
}

// An echo for each line, as many as fit.
fn echo_lines(input: &[u8], page: &mut Page) -> Result<(), PageRefusal>
    ensures printed { Printed page.old (map echo_text (input_lines input.now)) page.new result }
{
    for line in InputLines::new(input) {
        echo_line(line, page)?;
    }
    Ok(())
}

// One line as it was understood.
#[tactic(auto, using(crate::proofs::Echoing::echo_refused))]
fn echo_line(line: &[u8], page: &mut Page) -> Result<(), PageRefusal>
    ensures lined { Lined page.old (ended (echo_text line.now)) page.new result }
{
    match Command::read(line) {
        Ok(command) => page.write_line(command),
        Err(refusal) => page.write_line(RefusalLine(refusal)),
    }
}
