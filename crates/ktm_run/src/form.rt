// The words of the program.
ghost use Rattle.std.specs.Prelude.{◌≡◌, ◌≤◌, IfSome, map};
ghost use Rattle.std.specs.String.{string_bytes};
ghost use Rattle.ktm_base.specs.declared.limits.TheConstants.{LEAST_UNITS, MOST_UNITS};
ghost use Rattle.ktm_run.specs.Form.{form_of, form_of_four, form_of_three, form_of_two, lines_in, units_in};
ghost use Rattle.ktm_run.specs.Forms.{IsWithin};

use ktm_base::{LEAST_UNITS, MOST_UNITS};
use ktm_codec::read_last_number;
use ktm_gen::MOST_LINES;

/// What the words of the program ask for.
#[derive(Clone, Copy)]
pub enum Form {
    /// A script is run on an image.
    Run,
    /// An image is made new, with so many units.
    Format { units: u32 },
    /// What an image holds is written.
    Dump,
    /// So many lines of the generated script of a number are run on an image.
    Gen { number: u64, lines: u32 },
}

// As many units as an image may have, in decimal digits.
fn units_in(word: &[u8]) -> Option<u32>
    ensures units { result ≡ units_in word.now }
    ensures within { IfSome result (λ units. (LEAST_UNITS ≤ units) × (units ≤ MOST_UNITS)) }
{
    let units = read_last_number(u64::from(MOST_UNITS), word)? as u32;
    if LEAST_UNITS <= units {
        Some(units)
    } else {
        None
    }
}

// As many lines as are taken of a generated script, in decimal digits.
fn lines_in(word: &[u8]) -> Option<u32>
    ensures value { result ≡ lines_in word.now }
    ensures within { IfSome result (λ lines. lines ≤ MOST_LINES) }
{
    let lines = read_last_number(u64::from(MOST_LINES), word)? as u32;
    if 1 <= lines { Some(lines) } else { None }
}

fn form_of_two(form: &[u8]) -> Option<Form>
    ensures form { result ≡ form_of_two form.now }
    ensures within { IfSome result IsWithin }
{
    if form == b"dump".as_slice() {
        Some(Form::Dump)
    } else {
        None
    }
}

fn form_of_three(form: &[u8], last: &[u8]) -> Option<Form>
    ensures form { result ≡ form_of_three form.now last.now }
    ensures within { IfSome result IsWithin }
{
    if form == b"run".as_slice() {
        return Some(Form::Run);
    }
    if form != b"format".as_slice() {
        return None;
    }
    let units = units_in(last)?;
    Some(Form::Format { units })
}

fn form_of_four(form: &[u8], number: &[u8], lines: &[u8]) -> Option<Form>
    ensures form { result ≡ form_of_four form.now number.now lines.now }
    ensures within { IfSome result IsWithin }
{
    if form != b"gen".as_slice() {
        return None;
    }
    let number = read_last_number(u64::MAX, number)?;
    let lines = lines_in(lines)?;
    Some(Form::Gen { number, lines })
}

/// The form that the words are, if they are one.
pub fn form_of(words: &[String]) -> Option<Form>
    ensures form { result ≡ form_of (map string_bytes words.now) }
    ensures within { IfSome result IsWithin }
{
    match words {
        [form, _] => form_of_two(form.as_bytes()),
        [form, _, last] => form_of_three(form.as_bytes(), last.as_bytes()),
        [form, _, number, lines] => {
            form_of_four(form.as_bytes(), number.as_bytes(), lines.as_bytes())
        }
        _ => None,
    }
}
