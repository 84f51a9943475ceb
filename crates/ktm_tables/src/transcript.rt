// Scripts with the replies that are wanted.
use ktm_base::NoMemory;
use std::alloc::Global;
use std::mem::replace;

#[derive(Drop)]
pub struct Transcript {
    pub script: Vec<u8>,
    pub replies: Vec<u8>,
    /// The exit status of the run.
    pub status: u8,
}

fn put_line(text: &mut Vec<u8>, line: &str) -> Result<(), NoMemory> {
    text.extend_from_slice(line.as_bytes())?;
    text.push(b'\n')?;
    Ok(())
}

/// The number that a text begins with, up to a blank, and what stands behind that.
pub fn number_before(text: &str) -> (u64, &str) {
    let (number, rest) = text.split_once(' ').unwrap_or((text, ""));
    (number.parse::<u64>().unwrap_or(0), rest)
}

// The text with this number for each `$`, its twelve hexadecimal digits for each `&`, and N times X for `^N X` at its end.
fn expanded(alloc: Global, text: &str, number: u64) -> Result<String, NoMemory> {
    let mut line = String::new(alloc);
    let decimal = format!(in alloc; "{number}")?;
    let hexadecimal = format!(in alloc; "{number:012x}")?;
    put_expanded(&mut line, text, &decimal, &hexadecimal)?;
    Ok(line)
}

// Puts the text with these digits in place of its signs.
fn put_expanded(
    line: &mut String,
    text: &str,
    decimal: &str,
    hexadecimal: &str,
) -> Result<(), NoMemory> {
    let (front, back) = text.split_once('^').unwrap_or((text, ""));
    for letter in front.chars() {
        match letter {
            '$' => line.push_str(decimal)?,
            '&' => line.push_str(hexadecimal)?,
            _ => line.push(letter)?,
        }
    }
    let (count, repeated) = number_before(back);
    for _ in 0..count {
        line.push_str(repeated)?;
    }
    Ok(())
}

// Adds the text to the lines, expanded for the number.
fn put_line_for(
    alloc: Global,
    lines: &mut Vec<u8>,
    text: &str,
    number: u64,
) -> Result<(), NoMemory> {
    put_line(lines, &expanded(alloc, text, number)?)
}

impl Transcript {
    pub fn new(alloc: Global) -> Self {
        Transcript {
            script: Vec::new(alloc),
            replies: Vec::new(alloc),
            status: 0,
        }
    }

    /// Adds a line and its reply.
    pub fn add(&mut self, line: &str, reply: &str) -> Result<(), NoMemory> {
        put_line(&mut self.script, line)?;
        put_line(&mut self.replies, reply)
    }

    fn add_row(&mut self, row: &str) -> Result<(), NoMemory> {
        match row.split_once(" => ") {
            Some((line, reply)) => self.add(line, reply),
            None => put_line(&mut self.script, row),
        }
    }

    // Adds `FROM TO ROW | ROW`: the rows for each number.
    fn add_each(&mut self, alloc: Global, each: &str) -> Result<(), NoMemory> {
        let (from, rest) = number_before(each);
        let (to, rows) = number_before(rest);
        for number in from..=to {
            for row in rows.split(" | ") {
                let (line, reply) = row.split_once(" => ").unwrap_or((row, ""));
                put_line_for(alloc, &mut self.script, line, number)?;
                if !reply.is_empty() {
                    put_line_for(alloc, &mut self.replies, reply, number)?;
                }
            }
        }
        Ok(())
    }

    /// Adds rows: `LINE => REPLY`, or a line alone, or `each FROM TO ROW | ROW`, or `status N` for a run that does not end
    /// with 0.
    pub fn add_rows(&mut self, alloc: Global, rows: &str) -> Result<(), NoMemory> {
        for row in rows.lines() {
            if let Some(each) = row.strip_prefix("each ") {
                self.add_each(alloc, each)?;
            } else if let Some(status) = row.strip_prefix("status ") {
                self.status = status.parse::<u8>().unwrap_or(0);
            } else {
                self.add_row(row)?;
            }
        }
        Ok(())
    }

    /// No script, and these rows as what is written.
    pub fn written(alloc: Global, rows: &str) -> Result<Self, NoMemory> {
        let mut written = Transcript::of(alloc, rows)?;
        written.replies = replace(&mut written.script, Vec::new(alloc));
        Ok(written)
    }

    /// The lines and replies of these rows.
    pub fn of(alloc: Global, rows: &str) -> Result<Self, NoMemory> {
        let mut transcript = Transcript::new(alloc);
        transcript.add_rows(alloc, rows)?;
        Ok(transcript)
    }
}
