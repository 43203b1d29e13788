// "field = (escaped / non-escaped)". A field here is the RFC's, a part of a line. It is read where it stands, and its value is looked at as a time only.
ghost use Rattle.std.specs.Prelude.{◌≡◌, ◌≤◌, ◌<◌, IfSome, length, take, drop};
ghost use Rattle.model.specs.Calls as Calls;
ghost use Rattle.calls.specs.Meaning.{field_as_time, closed_at, field_of, after_comma, is_first};

use crate::letters;
use crate::letters::{COMMA, DQUOTE};
use crate::time::{Time, read_time};

// A field's value as a time, and the place after the field.
#[derive(Clone, Copy, Debug, PartialEq, Eq)]
pub struct Field {
    pub time: Time,
    pub next: usize,
}

// How many bytes at the start of the text are TEXTDATA.
fn plain_length(text: &[u8]) -> usize
    ensures within { result ≤ length text.now }
    ensures plain { Calls.plain text.now ≡ Calls.found (take result text.now) (drop result text.now) }
{
    text.iter()
        .position(|&b| !letters::is_textdata(b))
        .unwrap_or(text.len())
}

// "non-escaped = *TEXTDATA"
fn non_escaped(text: &[u8]) -> Field
    ensures read { field_of text.now (Some result) ≡ field_as_time (Calls.plain text.now) }
    ensures within { result.next ≤ length text.now }
{
    let next = plain_length(text);
    Field {
        time: read_time(&text[..next]),
        next,
    }
}

// The place of the closing quote, after the opening one.
fn quoted_length(text: &[u8]) -> Option<usize>
    ensures closed { closed_at text.now result ≡ field_as_time (Calls.quoted text.now) }
    ensures within { IfSome result (λ i. i < length text.now) }
{
    let mut i = 0;
    while i < text.len() {
        let b = text[i];
        if b == DQUOTE {
            if stands(text, i + 1, DQUOTE) {
                i += 2;
            } else {
                return Some(i);
            }
        } else if letters::is_alone(b) {
            i += 1;
        } else {
            return None;
        }
    }
    None
}

// Whether a byte stands at a place.
#[tactic(auto, using(crate::proofs::Places::stands_there, crate::proofs::Places::none_there))]
pub fn stands(text: &[u8], i: usize, b: u8) -> bool
    ensures { result ≡ is_first b (drop i text.now) }
{
    i < text.len() && text[i] == b
}

// "escaped = DQUOTE *(TEXTDATA / COMMA / CR / LF / 2DQUOTE) DQUOTE": the first quote stands at the text's start.
fn escaped(text: &[u8]) -> Option<Field>
    requires { 1 ≤ length text.now }
    ensures read { field_of text.now result ≡ field_as_time (Calls.quoted (drop 1 text.now)) }
    ensures within { IfSome result (λ field. field.next ≤ length text.now) }
{
    let size = quoted_length(&text[1..])?;
    Some(Field {
        time: read_time(&text[1..1 + size]),
        next: size + 2,
    })
}

// The field at the text's start.
pub fn read_field(text: &[u8]) -> Option<Field>
    ensures read { field_of text.now result ≡ field_as_time (Calls.field text.now) }
    ensures within { IfSome result (λ field. field.next ≤ length text.now) }
{
    if stands(text, 0, DQUOTE) {
        escaped(text)
    } else {
        Some(non_escaped(text))
    }
}

// The field from a place on.
fn read_from(text: &[u8], at: usize) -> Option<Field>
    requires { at ≤ length text.now }
    ensures read { field_of text.now result ≡ field_as_time (Calls.field (drop at text.now)) }
    ensures within { IfSome result (λ field. field.next ≤ length text.now) }
{
    let Field { time, next } = read_field(&text[at..])?;
    Some(Field {
        time,
        next: at + next,
    })
}

// The field after a comma, where one follows the field before.
pub fn read_next(text: &[u8], before: Field) -> Option<Field>
    ensures read { field_of text.now result ≡ after_comma (field_of text.now (Some before)) }
    ensures within { IfSome result (λ field. field.next ≤ length text.now) }
{
    if stands(text, before.next, COMMA) {
        read_from(text, before.next + 1)
    } else {
        None
    }
}
