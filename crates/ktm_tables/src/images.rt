// The bytes of images that a script leaves, and what is read of them when some are changed.
use crate::run::{NO_FAIL, block_of, follow, is_bad, run, small_image, text_of};
use crate::transcript::number_before;
use ktm_base::NoMemory;
use ktm_run::Status;
use std::alloc::Global;

// So many bytes at a place, as digits.
fn digits_at(alloc: Global, image: &[u8], at: usize, len: usize) -> Result<String, NoMemory> {
    let mut digits = String::new(alloc);
    for byte in image.iter().skip(at).take(len) {
        digits.push_str(&format!(in alloc; "{byte:02x}")?)?;
    }
    Ok(digits)
}

/// Where the pages of an image of 16 units begin.
const PAGES_AT: usize = 790_528;

/// Where a page of an image of 16 units begins.
pub fn page_at(page: u64) -> usize {
    PAGES_AT.saturating_add((page as usize).saturating_mul(4096))
}

// The number in four bytes at a place.
fn number_at(image: &[u8], at: usize) -> u64 {
    let mut number: u64 = 0;
    let mut worth: u64 = 1;
    for byte in image.iter().skip(at).take(4) {
        number = number.saturating_add((*byte as u64).saturating_mul(worth));
        worth = worth.saturating_mul(256);
    }
    number
}

// The place that a row names: `at N`, or `page N` for the begin of the page whose number stands at N.
fn place_of(image: &[u8], row: &str) -> Option<usize> {
    let (what, place) = row.split_once(' ').unwrap_or((row, ""));
    let place = place.parse::<usize>().unwrap_or(0);
    match what {
        "at" => Some(place),
        "page" => Some(page_at(number_at(image, place))),
        _ => None,
    }
}

// Are these the digits that are wanted, of which each `.` may be any.
fn are_wanted(digits: &str, wanted: &str) -> bool {
    let mut digits = digits.chars();
    for wanted in wanted.chars() {
        let Some(digit) = digits.next() else {
            return false;
        };
        if wanted != '.' && digit != wanted {
            return false;
        }
    }
    true
}

// The row without its blanks.
fn joined(alloc: Global, row: &str) -> Result<String, NoMemory> {
    let mut digits = String::new(alloc);
    for word in row.split_whitespace() {
        digits.push_str(word)?;
    }
    Ok(digits)
}

/// What does not hold of a table of bytes. Its second part has comments, lines `at N` with the place of the bytes that follow,
/// lines `page N` where that is the page whose number stands at N, and lines of bytes, in digits with blanks between them. A
/// digit `.` may be any.
pub fn bytes_found(alloc: Global, table: &str) -> Result<Option<String>, NoMemory> {
    let (script, rows) = table.split_once("\n\n").unwrap_or((table, ""));
    let (left, what) = follow(alloc, script, small_image(alloc)?)?;
    match what {
        None => wrong_bytes(alloc, left.bytes(), rows),
        Some(what) => Ok(Some(what)),
    }
}

// The first bytes that are not those of the rows.
fn wrong_bytes(alloc: Global, image: &[u8], rows: &str) -> Result<Option<String>, NoMemory> {
    let mut at: usize = 0;
    for row in rows.lines() {
        if row.starts_with('#') {
            continue;
        }
        if let Some(place) = place_of(image, row) {
            at = place;
            continue;
        }
        let wanted = joined(alloc, row)?;
        let len = wanted.len() / 2;
        let digits = digits_at(alloc, image, at, len)?;
        if !are_wanted(&digits, &wanted) {
            return Ok(Some(format!(in alloc; "at {at} stands {digits}, not {wanted}")?));
        }
        at = at.saturating_add(len);
    }
    Ok(None)
}

// Changes bytes, or the length: `AT BYTE ..` or `len N`, or several of them with ` | ` between each two.
fn change(image: &mut Vec<u8>, what: &str) -> Result<(), NoMemory> {
    for what in what.split(" | ") {
        match what.strip_prefix("len ") {
            Some(len) => image.resize(len.parse::<usize>().unwrap_or(0), 0)?,
            None => put_at(image, what),
        }
    }
    Ok(())
}

/// Puts bytes at a place: `AT BYTE ..`.
pub fn put_at(image: &mut [u8], what: &str) {
    let (at, bytes) = number_before(what);
    for (place, byte) in bytes.split(' ').enumerate() {
        put(
            image,
            (at as usize).saturating_add(place),
            byte.parse::<u8>().unwrap_or(0),
        );
    }
}

/// Puts a byte at a place, if the image has it.
pub fn put(image: &mut [u8], at: usize, byte: u8) {
    if at < image.len() {
        image[at] = byte;
    }
}

/// What does not hold of a table of images. Its second part has comments, and rows of changes of the image and what a plain
/// KvGet of "k" is answered then, or that the image is bad, which whatever opens it then says.
pub fn found(alloc: Global, table: &str) -> Result<Option<String>, NoMemory> {
    let (script, rows) = table.split_once("\n\n").unwrap_or((table, ""));
    let (left, what) = follow(alloc, script, small_image(alloc)?)?;
    match what {
        None => wrong_row(alloc, left.bytes(), rows),
        Some(what) => Ok(Some(what)),
    }
}

// The first row that does not hold.
fn wrong_row(alloc: Global, image: &[u8], rows: &str) -> Result<Option<String>, NoMemory> {
    for row in rows.lines() {
        if row.starts_with('#') {
            continue;
        }
        let (what, reply) = row.split_once(" => ").unwrap_or((row, ""));
        if !is_answered(alloc, image, what, reply)? {
            return Ok(Some(String::from_str(alloc, row)?));
        }
    }
    Ok(None)
}

// Is this the reply where the image is changed so.
fn is_answered(alloc: Global, image: &[u8], what: &str, reply: &str) -> Result<bool, NoMemory> {
    let mut image = image.to_vec(alloc)?;
    change(&mut image, what)?;
    if reply.starts_with("bad image") {
        return is_bad(alloc, &image, reply);
    }
    let block = block_of(alloc, &image, 0)?;
    let outcome = run(alloc, b"p1 KvGet - \"k\"", block, NO_FAIL)?;
    let replies = text_of(outcome.sink.bytes());
    Ok(outcome.status == Status::Done && replies.lines().next() == Some(reply))
}
