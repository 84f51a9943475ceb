//! How values are spelled in a text: a number in decimal digits, bytes in pairs of hexadecimal digits, a GUID, a text
//! between quotation marks. Each value has one spelling, which the functions here write and read.
#![tactic(auto)]

mod guid;
mod hex;
mod little_endian;
mod number;
mod quoted;
mod word;

pub use guid::{law_of_guids, put_guid, read_guid};
pub use hex::{law_of_hex, put_hex, put_hex_or_dash, read_hex_or_dash};
pub use little_endian::{
    bytes_at, law_of_spellings, put_bytes, put_text, put_u8, put_u16, put_u32, put_u64, put_value,
    text_at, u8_at, u16_at, u16_in, u32_at, u32_in, u64_at, value_at,
};
pub use number::{law_of_numbers, put_number, read_last_number, read_number};
pub use quoted::{law_of_quoted, put_quoted, read_quoted};
pub use word::{is_word, law_of_words, split_long_word, split_word, strip_word};
