// The words of rows: numbers, and bytes in digits.
use ktm_base::NoMemory;
use std::alloc::Global;

/// The numbers at the head of a text, with zeros for those that it has not.
pub fn numbers(text: &str) -> [u32; 4] {
    let mut words = text.split(' ');
    let mut numbers = [0; 4];
    for number in numbers.iter_mut() {
        *number = words.next().unwrap_or("").parse::<u32>().unwrap_or(0);
    }
    numbers
}

/// The digits of bytes.
pub fn digits(alloc: Global, bytes: &[u8]) -> Result<String, NoMemory> {
    let mut digits = String::new(alloc);
    for byte in bytes {
        digits.push_str(&format!(in alloc; "{byte:02x}")?)?;
    }
    Ok(digits)
}

/// A text of its own.
pub fn owned(alloc: Global, text: &str) -> Result<String, NoMemory> {
    Ok(String::from_str(alloc, text)?)
}

/// Fills a buffer with bytes that count from a first one on, and begin at 0 again behind 250.
pub fn fill(bytes: &mut [u8], first: u32) {
    for (i, byte) in bytes.iter_mut().enumerate() {
        *byte = ((first as usize + i % 251) % 251) as u8;
    }
}

/// So many such bytes.
pub fn counted(alloc: Global, len: u32, first: u32) -> Result<Vec<u8>, NoMemory> {
    let mut bytes = vec![in alloc; 0u8; len as usize]?;
    fill(&mut bytes, first);
    Ok(bytes)
}

/// Puts an answer behind the others.
pub fn say(text: &mut String, answer: &str) -> Result<(), NoMemory> {
    if !text.is_empty() {
        text.push_str(", ")?;
    }
    text.push_str(answer)?;
    Ok(())
}
