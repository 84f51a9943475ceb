// The lines of a cycle.
ghost use Rattle.std.specs.Prelude.{◌≡◌, ◌<◌, ◌≤◌, ◌++◌, OnOk, replicate, slice_index_or, [], codes, decimal};
ghost use Rattle.ktm_codec.specs.Hex.{hex_of};
ghost use Rattle.ktm_gen.specs.Script.{chosen, crashes, cycle_lines, end_line, last_line, open_line, pause_line, rolls_back, set_line, write_line, written_size, written_value};

use ktm_base::NoMemory;
use ktm_codec::{put_hex, put_number};

/// The most bytes that a line has.
pub const LONGEST_LINE: usize = 8210;

const MOST_WRITTEN: usize = 4096;

// Which file is written, and which key is set.
fn chosen(word: u32) -> u64
    ensures { result ≡ chosen word }
{
    u64::from(word % 16)
}

// How many bytes are written.
fn written_size(word: u32) -> usize
    ensures value { result ≡ written_size word }
    ensures most { result ≤ 4096 }
{
    (word / 16 % 4096 + 1) as usize
}

// The value of each byte that is written.
fn written_value(word: u32) -> u8
    ensures { result ≡ written_value word }
{
    (word / 65536 % 256) as u8
}

fn rolls_back(word: u32) -> bool
    ensures { result ≡ rolls_back word }
{
    word / 16777216 % 4 == 0
}

// Does the cycle end with a loss of power.
fn crashes(cycle: u32) -> bool
    ensures { result ≡ crashes cycle }
{
    cycle % 16 == 15
}

fn put_open(line: &mut Vec<u8>, word: u32) -> Result<(), NoMemory>
    ensures { OnOk result (line.new.items ≡ line.old.items ++ open_line word) }
{
    line.extend_from_slice(b"p1 CreateFileTransacted h2 \"\\f")?;
    put_number(line, chosen(word))?;
    line.extend_from_slice(b"\" rw - OPEN_ALWAYS h1")?;
    Ok(())
}

// Puts so many bytes of this value, in hexadecimal digits.
fn put_written(line: &mut Vec<u8>, value: u8, size: usize) -> Result<(), NoMemory>
    requires { size ≤ 4096 }
    ensures { OnOk result (line.new.items ≡ line.old.items ++ hex_of (replicate size value)) }
{
    let written = [value; MOST_WRITTEN];
    put_hex(line, &written[..size])?;
    Ok(())
}

fn put_write(line: &mut Vec<u8>, word: u32) -> Result<(), NoMemory>
    ensures { OnOk result (line.new.items ≡ line.old.items ++ write_line word) }
{
    line.extend_from_slice(b"p1 WriteFile h2 0 ")?;
    put_written(line, written_value(word), written_size(word))
}

fn put_set(line: &mut Vec<u8>, word: u32) -> Result<(), NoMemory>
    ensures { OnOk result (line.new.items ≡ line.old.items ++ set_line word) }
{
    line.extend_from_slice(b"p1 KvSet h1 \"k")?;
    put_number(line, chosen(word))?;
    line.extend_from_slice(b"\" ")?;
    put_written(line, written_value(word), 4)
}

fn put_end(line: &mut Vec<u8>, word: u32) -> Result<(), NoMemory>
    ensures { OnOk result (line.new.items ≡ line.old.items ++ end_line word) }
{
    if rolls_back(word) {
        line.extend_from_slice(b"p1 RollbackTransaction h1")?;
    } else {
        line.extend_from_slice(b"p1 CommitTransaction h1")?;
    }
    Ok(())
}

fn put_pause(line: &mut Vec<u8>, cycle: u32) -> Result<(), NoMemory>
    ensures { OnOk result (line.new.items ≡ line.old.items ++ pause_line cycle) }
{
    if crashes(cycle) {
        line.extend_from_slice(b"crash")?;
    } else {
        line.extend_from_slice(b"tick 1")?;
    }
    Ok(())
}

fn put_restart(line: &mut Vec<u8>, word: u32) -> Result<(), NoMemory>
    ensures { OnOk result (line.new.items ≡ line.old.items ++ (codes "restart " ++ decimal word)) }
{
    line.extend_from_slice(b"restart ")?;
    put_number(line, u64::from(word))
}

fn put_get(line: &mut Vec<u8>, word: u32) -> Result<(), NoMemory>
    ensures { OnOk result (line.new.items ≡ line.old.items ++ (codes "p1 KvGet - \"k" ++ decimal (chosen word) ++ codes "\"")) }
{
    line.extend_from_slice(b"p1 KvGet - \"k")?;
    put_number(line, chosen(word))?;
    line.extend_from_slice(b"\"")?;
    Ok(())
}

fn put_last(line: &mut Vec<u8>, cycle: u32, word: u32) -> Result<(), NoMemory>
    ensures { OnOk result (line.new.items ≡ line.old.items ++ last_line cycle word) }
{
    if crashes(cycle) {
        put_restart(line, word)
    } else {
        put_get(line, word)
    }
}

/// Puts the line at a place of a cycle that drew this word, where places count from 0, in place of a text.
pub fn put_line(line: &mut Vec<u8>, cycle: u32, word: u32, place: u32) -> Result<(), NoMemory>
    requires { place < 9 }
    ensures { OnOk result (line.new.items ≡ slice_index_or (cycle_lines cycle word) place []) }
{
    line.clear();
    match place {
        0 => line.extend_from_slice(b"p1 CreateTransaction h1 0")?,
        1 => put_open(line, word)?,
        2 => put_write(line, word)?,
        3 => put_set(line, word)?,
        4 => put_end(line, word)?,
        5 => line.extend_from_slice(b"p1 CloseHandle h2")?,
        6 => line.extend_from_slice(b"p1 CloseHandle h1")?,
        7 => put_pause(line, cycle)?,
        _ => put_last(line, cycle, word)?,
    }
    Ok(())
}
