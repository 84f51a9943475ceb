// Lines of scripts and replies, as texts.
use ktm_base::{Bytes, NoMemory};
use ktm_reply::{ReplyFault, read_reply, write_reply};
use ktm_script::{LineFault, read_line, write_line};
use ktm_world::{Line, Reply};
use std::alloc::Global;

// What is read of the text was written so.
fn told(written: &Bytes, text: &str) -> &'static str {
    if written.as_slice() == text.as_bytes() {
        "read"
    } else {
        "written in another way"
    }
}

fn told_line(
    alloc: Global,
    read: &Result<Line, LineFault>,
    text: &str,
) -> Result<&'static str, NoMemory> {
    match read {
        Ok(line) => Ok(told(&write_line(alloc, line)?, text)),
        Err(LineFault::BadLine) => Ok("BAD_LINE"),
        Err(LineFault::NoMemory) => Err(NoMemory),
    }
}

fn told_reply(
    alloc: Global,
    read: &Result<Reply, ReplyFault>,
    text: &str,
) -> Result<&'static str, NoMemory> {
    match read {
        Ok(reply) => Ok(told(&write_reply(alloc, reply)?, text)),
        Err(ReplyFault::NotAReply) => Ok("NOT_A_REPLY"),
        Err(ReplyFault::NoMemory) => Err(NoMemory),
    }
}

/// Whether a text is a line of a script, which is then written as it was read.
pub fn line_of(alloc: Global, text: &str) -> Result<&'static str, NoMemory> {
    told_line(alloc, &read_line(alloc, text.as_bytes()), text)
}

/// Whether a text is a reply, which is then written as it was read.
pub fn reply_of(alloc: Global, text: &str) -> Result<&'static str, NoMemory> {
    told_reply(alloc, &read_reply(alloc, text.as_bytes()), text)
}
