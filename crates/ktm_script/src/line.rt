// Lines.
ghost use Rattle.std.specs.Prelude.{◌≡◌, ◌≤◌, ◌⊎◌, IfOk, IfSome, None, Ok, Err, option_map};
ghost use Rattle.ktm_script.specs.Reading.{Gives, command_at, last_count_at, line_at, process_at};
ghost use Rattle.ktm_script.specs.Spelling.{IsLine, spelling};
ghost use Rattle.ktm_world.specs.declared.command.Line.TheVariants.{Process};

use crate::LineFault::{self, BadLine};
use crate::command::command;
use crate::parts::{end, read_count, read_process};
use ktm_base::{MOST_LINE_BYTES, Pid};
use ktm_codec::strip_word;
use ktm_world::Line;
use std::alloc::Global;

// A number behind a space, which nothing follows.
#[tactic(auto, unfolding(crate::specs::Reading::last_count_at))]
fn last_count(most: u64, text: &[u8]) -> Option<u64>
    ensures value { result ≡ last_count_at most text.now }
    ensures within { IfSome result (λ number. number ≤ most) }
{
    let (number, rest) = read_count(most, text)?;
    end(rest)?;
    Some(number)
}

// A line of no process.
#[tactic(auto, unfolding(crate::specs::Reading::line_at, crate::specs::Reading::process_line_at))]
fn line_of_no_process(text: &[u8]) -> Option<Line>
    requires { process_at text.now ≡ None }
    ensures { result ≡ line_at text.now }
{
    if let Some(rest) = strip_word(text, b"tick") {
        let milliseconds = last_count(u64::from(u32::MAX), rest)?;
        Some(Line::Tick(milliseconds as u32))
    } else if let Some(rest) = strip_word(text, b"cut") {
        Some(Line::Cut(last_count(u64::MAX, rest)?))
    } else if let Some(rest) = strip_word(text, b"crash") {
        end(rest)?;
        Some(Line::Crash)
    } else if let Some(rest) = strip_word(text, b"restart") {
        Some(Line::Restart(last_count(u64::MAX, rest)?))
    } else {
        None
    }
}

// A line of this process, which is a command.
fn process_line(alloc: Global, process: Pid, text: &[u8]) -> Result<Line, LineFault>
    ensures { Gives result (option_map (λ command. Process process command) (command_at text.now)) }
{
    Ok(Line::Process(process, command(alloc, text)?))
}

// A line, however long. Most are of a process.
fn line_of_any_length(alloc: Global, text: &[u8]) -> Result<Line, LineFault>
    ensures { Gives result (line_at text.now) }
{
    match read_process(text) {
        Some((process, rest)) => process_line(alloc, process, rest),
        None => line_of_no_process(text).ok_or(BadLine),
    }
}

/// Two lines of the grammar with one spelling are one line.
pub fn law_of_one_meaning()
    ensures { (x y : Line) → IsLine x → IsLine y → spelling x ≡ spelling y → x ≡ y }
{}

/// The line that the bytes spell, without a newline.
pub fn read_line(alloc: Global, line: &[u8]) -> Result<Line, LineFault>
    // what is read is a line of the grammar, and the bytes are its spelling
    ensures value { IfOk result (λ x. IsLine x × (spelling x ≡ line.now)) }
    // each such line is read, so a line is bad only where the bytes spell none
    ensures exact { (x : Line) → IsLine x → spelling x ≡ line.now → (result ≡ Ok x) ⊎ (result ≡ Err LineFault.NoMemory) }
{
    if line.len() > MOST_LINE_BYTES {
        return Err(BadLine);
    }
    line_of_any_length(alloc, line)
}
