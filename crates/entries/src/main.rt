// Runs the cases of standard input through the small entries, and prints each case with its answer. A case is 112 bytes, as
// reference/src/case.rs has it: 28 words of 4 bytes, little-endian.
#![tactic(auto)]

ghost use Rattle.std.specs.Prelude.{◌+◌, ◌*◌, ◌%◌, ◌^◌, ◌≤◌, ◌<◌, min, ◌≡◌, eqb, length, IfSome};
ghost use Rattle.field.specs.Signed.{signed_of};
ghost use Rattle.entries.specs.Words.{word_of, words_of};

use field::coding;
use refusals::number;
use report::cases::each_case;
use report::text::{Spaced, line, put};

fn main() {
    let mut input = [0u8; 131072];
    let got = io::read_full(0, &mut input);
    each_case(&input[..got], run_case);
}

// Answers what follows the case, where it is all there.
fn run_case(s: &[u8]) -> Option<&[u8]>
    ensures { IfSome result (λ rest. length rest.now < length s.now) }
{
    let (case, rest) = s.split_at_checked(112)?;
    run_entry(case);
    Some(rest)
}

fn run_entry(s: &[u8])
    requires { length s.now ≡ 112 }
{
    match word(s, 0) {
        0 => share(s),
        1 => recover(s),
        2 => encode(s),
        3 => decode(s),
        _ => sum(s),
    }
}

// Word i of a case.
fn word(s: &[u8], i: usize) -> u32
    requires { (length s.now ≡ 112) × (i ≤ 27) }
    ensures { result ≡ word_of s.now i }
{
    words::word(s, 4 * i)
}

// The nine words of a case from word i on.
#[tactic(auto, using(algebra::proofs::Rows::is_tab))]
fn words(s: &[u8], i: usize) -> [u32; 9]
    requires { (length s.now ≡ 112) × (i ≤ 19) }
    ensures { (result ≡ words_of s.now i) × (9 ≡ length result) }
{
    let mut out = [0u32; 9];
    for j in 0..9 {
        out[j] = word(s, i + j);
    }
    out
}

// The length of a list of at most nine numbers, at word i.
fn length_at(s: &[u8], i: usize) -> usize
    requires { (length s.now ≡ 112) × (i ≤ 27) }
    ensures { (result ≡ min (word_of s.now i) 9) × (result ≤ 9) }
{
    (word(s, i) as usize).min(9)
}

// The entry, and the arguments with which most cases begin.
fn arguments(name: &str, s: &[u8])
    requires { length s.now ≡ 112 }
{
    put(format_args!(
        "{name} field {} parties {} threshold {}",
        word(s, 1),
        word(s, 2),
        word(s, 3),
    ));
}

fn share(s: &[u8])
    requires { length s.now ≡ 112 }
{
    let given = words(s, 9);
    let coefficients = &given[..length_at(s, 8)];
    let mut buffer = words(s, 19);
    let lent = &mut buffer[..length_at(s, 18)];
    arguments("share", s);
    put(format_args!(
        " secret {} coefficients{} lent{}",
        word(s, 4),
        Spaced(coefficients),
        Spaced(&*lent),
    ));
    let answer = sharing::share(
        word(s, 1),
        word(s, 2),
        word(s, 3),
        word(s, 4),
        coefficients,
        lent,
    );
    line(format_args!(" : number {} left{}", number(&answer), Spaced(&*lent),));
}

fn recover(s: &[u8])
    requires { length s.now ≡ 112 }
{
    let given = words(s, 9);
    let row = &given[..length_at(s, 8)];
    let mut buffer = words(s, 19);
    let lent = &mut buffer[..length_at(s, 18)];
    arguments("recover", s);
    put(format_args!(" row{} lent{}", Spaced(row), Spaced(&*lent)));
    let answer = sharing::recover(word(s, 1), word(s, 2), word(s, 3), row, lent);
    line(format_args!(
        " : number {} value {} left{}",
        number(&answer),
        answer.unwrap_or(0),
        Spaced(&*lent),
    ));
}

fn encode(s: &[u8])
    requires { length s.now ≡ 112 }
{
    let a = signed_at(s);
    let answer = field::encode(word(s, 1), word(s, 2), a);
    line(format_args!(
        "encode field {} k {} signed {a} : number {} value {}",
        word(s, 1),
        word(s, 2),
        number(&answer),
        answer.unwrap_or(0),
    ));
}

// The signed number at words 5 to 7: m, or -(m + 1) where word 5 is not 0.
fn signed_at(s: &[u8]) -> i64
    requires { length s.now ≡ 112 }
    ensures { result ≡ signed_of (eqb (word_of s.now 5) 0) (word_of s.now 7 % 2 ^ 31 * 2 ^ 32 + word_of s.now 6) }
{
    let high = u64::from(word(s, 7) % 2147483648);
    let m = high * 4294967296 + u64::from(word(s, 6));
    coding::signed(word(s, 5) == 0, m)
}

fn decode(s: &[u8])
    requires { length s.now ≡ 112 }
{
    let answer = field::decode(word(s, 1), word(s, 4));
    line(format_args!(
        "decode field {} value {} : number {} signed {}",
        word(s, 1),
        word(s, 4),
        number(&answer),
        answer.unwrap_or(0),
    ));
}

fn sum(s: &[u8])
    requires { length s.now ≡ 112 }
{
    let given = words(s, 9);
    let row = &given[..length_at(s, 8)];
    arguments("sum", s);
    let answer = sharing::sum(word(s, 1), word(s, 2), word(s, 3), row);
    line(format_args!(
        " row{} : number {} sum {}",
        Spaced(row),
        number(&answer),
        answer.unwrap_or(0),
    ));
}
