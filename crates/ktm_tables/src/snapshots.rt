// Snapshots of states, piece by piece, and what is made of those of which some pieces are others.
use crate::images::{page_at, put};
use crate::run::{NO_FAIL, block_of, difference, follow, is_bad, opens, run_line, small_image};
use crate::transcript::{Transcript, number_before};
use ktm_base::{Bytes, NoMemory};
use ktm_codec::read_hex_or_dash;
use std::alloc::Global;

/// Where the area of the snapshot of a new image begins.
const AREA: usize = 4096;

/// How many bytes the length of a snapshot takes.
const LENGTH: usize = 8;

/// The last of them, which has the top bit alone.
const TOP_BIT: u8 = 128;

/// What `$` stands for: so much more than the number of the time.
const FROM: u64 = 64;

/// What is said of a bad one.
const BAD: &str = "bad image at 4096";

// Adds the digits without the blanks between them, with two for each `$`.
fn put_words(alloc: Global, digits: &mut String, words: &str, time: u64) -> Result<(), NoMemory> {
    for word in words.split_whitespace() {
        if word == "$" {
            let byte = time.saturating_add(FROM);
            digits.push_str(&format!(in alloc; "{byte:02x}")?)?;
        } else {
            digits.push_str(word)?;
        }
    }
    Ok(())
}

// Adds the digits of a piece; what stands behind `^N` comes N times.
fn put_piece(alloc: Global, digits: &mut String, piece: &str) -> Result<(), NoMemory> {
    let (front, back) = piece.split_once('^').unwrap_or((piece, ""));
    put_words(alloc, digits, front, 0)?;
    let (count, repeated) = number_before(back);
    for time in 1..=count {
        put_words(alloc, digits, repeated, time)?;
    }
    Ok(())
}

// What a row says of the piece with this name.
fn said<'a>(row: &'a str, name: &str) -> Option<&'a str> {
    for other in row.split(" | ") {
        let (piece, bytes) = other.split_once(' ').unwrap_or((other, ""));
        if piece == name {
            return Some(bytes);
        }
    }
    None
}

// The bytes of the snapshot that a row makes of these pieces, if its digits are pairs.
fn bytes_of(alloc: Global, pieces: &str, row: &str) -> Result<Option<Bytes>, NoMemory> {
    let mut digits = String::new(alloc);
    for line in pieces.lines() {
        let (name, bytes) = line.split_once(' ').unwrap_or((line, ""));
        if name != "#" && name != "page" {
            put_piece(alloc, &mut digits, said(row, name).unwrap_or(bytes))?;
        }
    }
    read_hex_or_dash(alloc, digits.as_bytes())
}

// Puts bytes at a place.
fn put_all(image: &mut [u8], at: usize, bytes: &[u8]) {
    for (place, byte) in bytes.iter().enumerate() {
        put(image, at.saturating_add(place), *byte);
    }
}

// Puts the bytes of the pages that the pieces name into an image.
fn put_pages(alloc: Global, image: &mut [u8], pieces: &str) -> Result<(), NoMemory> {
    for line in pieces.lines() {
        let Some(page) = line.strip_prefix("page ") else {
            continue;
        };
        let (page, digits) = number_before(page);
        if let Some(bytes) = read_hex_or_dash(alloc, digits.as_bytes())? {
            put_all(image, page_at(page), bytes.as_slice());
        }
    }
    Ok(())
}

// A new image of 16 units with that snapshot.
fn image_of(alloc: Global, pieces: &str, row: &str) -> Result<Option<Vec<u8>>, NoMemory> {
    let Some(bytes) = bytes_of(alloc, pieces, row)? else {
        return Ok(None);
    };
    let mut image = small_image(alloc)?.bytes().to_vec(alloc)?;
    let mut length = (bytes.len() as u64).to_le_bytes();
    length[LENGTH - 1] = TOP_BIT;
    put_all(&mut image, AREA, &length);
    put_all(&mut image, AREA + LENGTH, bytes.as_slice());
    put_pages(alloc, &mut image, pieces)?;
    Ok(Some(image))
}

// What is not as it is wanted of the dump of the good snapshot, and of a run on it.
fn wrong_of_good(
    alloc: Global,
    pieces: &str,
    dump: &str,
    rows: &str,
) -> Result<Option<String>, NoMemory> {
    let Some(image) = image_of(alloc, pieces, "")? else {
        return Ok(Some(String::from_str(alloc, "the pieces are no bytes")?));
    };
    let block = block_of(alloc, &image, 0)?;
    let dumped = run_line(alloc, "dump image", &[], block, NO_FAIL)?;
    let what = difference(alloc, &dumped, &Transcript::written(alloc, dump)?)?;
    if what.is_some() {
        return Ok(what);
    }
    let (_, what) = follow(alloc, rows, dumped.block)?;
    Ok(what)
}

// Is the snapshot that a row makes of the pieces as good, or as bad, as it should be.
fn holds(alloc: Global, pieces: &str, row: &str, is_good: bool) -> Result<bool, NoMemory> {
    let Some(image) = image_of(alloc, pieces, row)? else {
        return Ok(false);
    };
    if is_good {
        opens(alloc, &image)
    } else {
        is_bad(alloc, &image, BAD)
    }
}

// The first of these rows that does not hold.
fn wrong_row(
    alloc: Global,
    pieces: &str,
    rows: &str,
    is_good: bool,
) -> Result<Option<String>, NoMemory> {
    for row in rows.lines() {
        if !row.starts_with('#') && !holds(alloc, pieces, row, is_good)? {
            return Ok(Some(String::from_str(alloc, row)?));
        }
    }
    Ok(None)
}

/// What does not hold of a table of snapshots, which has five parts, with comments: the pieces of a good snapshot in their order, each
/// `NAME BYTES`, and pages, each `page N BYTES` with what it begins with; what a dump says of it; rows of a run on it; rows that make a bad snapshot of it, and rows that leave it
/// good, each `NAME BYTES | NAME BYTES` of pieces that are others. Bytes are in digits, with blanks between them; those behind
/// `^N` come N times, with the byte 65 for `$` the first time, 66 the second, and so on.
pub fn found(alloc: Global, table: &str) -> Result<Option<String>, NoMemory> {
    let (pieces, rest) = table.split_once("\n\n").unwrap_or((table, ""));
    let (dump, rest) = rest.split_once("\n\n").unwrap_or((rest, ""));
    let (run, rest) = rest.split_once("\n\n").unwrap_or((rest, ""));
    let (bad, good) = rest.split_once("\n\n").unwrap_or((rest, ""));
    let what = wrong_of_good(alloc, pieces, dump, run)?;
    if what.is_some() {
        return Ok(what);
    }
    let what = wrong_row(alloc, pieces, bad, false)?;
    if what.is_some() {
        return Ok(what);
    }
    wrong_row(alloc, pieces, good, true)
}
