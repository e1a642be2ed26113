//! Tokens: integers, keywords, symbols, and the words `nil`, `true` and `false`.
ghost use Rattle.std.specs.Prelude.{◌≡◌, ◌<◌, ◌≤◌, ◌^◌, length, drop, Ok, pos, FitsSigned, IfOk, IfSome, IfNone, IsTrue};
ghost use Rattle.std.specs.Int.{w64};
ghost use Rattle.std.proofs.Math.IntN.{neg_ℤ};
ghost use Rattle.std.specs.Option.{SomeIff};
ghost use Rattle.ref_value.specs.Edn.{int, nesting};
ghost use Rattle.ref_edn.specs.Bytes.{all_digits, is_numeral as is_numeral_text, is_integer as is_integer_text, digits_value, integer_value};
ghost use Rattle.ref_edn.specs.Faults.{Gives};
ghost use Rattle.ref_edn.specs.Fronts.{front_value, StandsFirst};
ghost use Rattle.ref_edn.specs.Grammar.{Ends};
ghost use Rattle.ref_edn.specs.ReadTokens.{starts_number as starts_number_text, after_digits as after_digits_text, after_numeral as after_numeral_text, after_integer as after_integer_text, marks_left_out as marks_left_out_text, fits_i64, number_value, keyword_value, word_value, token_value as value_of_token, token_at};

use crate::bytes::{after, is_delimiter, is_digit, token_end};
use crate::faults::{Flaw, ReadError};
use crate::interner::Interner;
use ref_value::names::{is_keyword, is_same, is_symbol};
use ref_value::{Node, Value};
use std::alloc::{AllocError, Global};

fn are_digits(digits: &[u8]) -> bool
    ensures { result ≡ all_digits digits.now }
{
    digits.iter().all(|b| is_digit(*b))
}

fn is_numeral(digits: &[u8]) -> bool
    ensures { result ≡ is_numeral_text digits.now }
{
    match digits {
        [] => false,
        [b] => is_digit(*b),
        [b'0', ..] => false,
        _ => are_digits(digits),
    }
}

fn is_integer(word: &[u8]) -> bool
    ensures { result ≡ is_integer_text word.now }
{
    match word {
        [b'+' | b'-', digits @ ..] => is_numeral(digits),
        _ => is_numeral(word),
    }
}

// The number that digits write, unless it takes more than 64 bits.
#[tactic(auto, using(crate::proofs::Runs::all_digits_at, crate::proofs::Runs::value_after_at, crate::proofs::Runs::value_grows))]
fn magnitude(digits: &[u8]) -> Option<u64>
    requires { IsTrue (all_digits digits.now) }
    ensures some { IfSome result (λ n. n ≡ digits_value digits.now) }
    ensures none { IfNone result (2 ^ 64 ≤ digits_value digits.now) }
{
    let mut n: u64 = 0;
    for b in digits {
        n = n.checked_mul(10)?.checked_add(u64::from(*b - b'0'))?;
    }
    Some(n)
}

// The number that an integer writes, where it has 64 bits with its sign.
fn integer(word: &[u8]) -> Option<i64>
    requires { IsTrue (is_integer_text word.now) }
    ensures { SomeIff result (IsTrue (fits_i64 (integer_value word.now))) (integer_value word.now) }
{
    match word {
        [b'-', digits @ ..] => 0i64.checked_sub_unsigned(magnitude(digits)?),
        [b'+', digits @ ..] => 0i64.checked_add_unsigned(magnitude(digits)?),
        _ => 0i64.checked_add_unsigned(magnitude(word)?),
    }
}

// The greatest number that has room for one more digit in 64 bits with a sign.
const MOST_BEFORE_A_DIGIT: u64 = 922_337_203_685_477_579;

// The number that the digits at the front write, and what follows them; none where they may take too many bits.
#[tactic(auto, using(crate::proofs::Runs::after_digits_at, crate::proofs::Runs::after_digits_all, crate::proofs::Numerals::front_value_at, crate::proofs::Numerals::front_value_all))]
fn front_number(text: &[u8]) -> Option<(u64, &[u8])>
    ensures number { IfSome result (λ r. r.0 ≡ front_value 0 text.now) }
    ensures rest { IfSome result (λ r. r.1.now ≡ after_digits_text text.now) }
{
    let mut n: u64 = 0;
    for (i, b) in text.iter().enumerate() {
        if !is_digit(*b) {
            return Some((n, after(text, i)));
        }
        if n > MOST_BEFORE_A_DIGIT {
            return None;
        }
        n = n * 10 + u64::from(*b - b'0');
    }
    Some((n, after(text, text.len())))
}

fn ends_token(rest: &[u8]) -> bool
    ensures { IsTrue result → Ends rest.now }
{
    match rest {
        [] => true,
        [b, ..] => is_delimiter(*b),
    }
}

// The number of a numeral at the front that ends its token, and what follows it. It looks at each byte once, and leaves
// what this doesn't decide to others.
#[inline(always)]
#[tactic(auto, using(crate::proofs::Numerals::numeral_0, crate::proofs::Numerals::numeral_front, crate::proofs::Numerals::first_shorter))]
fn front_numeral(text: &[u8]) -> Option<(u64, &[u8])>
    ensures value { IfSome result (λ r. StandsFirst r.0 text.now r.1.now) }
    ensures shorter { IfSome result (λ r. length r.1.now < length text.now) }
{
    match text {
        [] => None,
        [b'0', rest @ ..] => {
            if ends_token(rest) {
                Some((0, rest))
            } else {
                None
            }
        }
        [b, ..] => {
            if !is_digit(*b) {
                return None;
            }
            let (n, rest) = front_number(text)?;
            if ends_token(rest) {
                Some((n, rest))
            } else {
                None
            }
        }
    }
}

fn positive(n: u64) -> Option<i64>
    ensures value { IfSome result (λ z. z ≡ pos n) }
    ensures fits { IfSome result (λ z. FitsSigned w64 z) }
{
    0i64.checked_add_unsigned(n)
}

fn negative(n: u64) -> Option<i64>
    ensures value { IfSome result (λ z. z ≡ neg_ℤ (pos n)) }
    ensures fits { IfSome result (λ z. FitsSigned w64 z) }
{
    0i64.checked_sub_unsigned(n)
}

// The integer at the front, and what follows it, where one look at each byte is enough: most integers are such.
#[tactic(auto, using(crate::proofs::Numerals::unsigned_at, crate::proofs::Numerals::plus_at, crate::proofs::Numerals::minus_at))]
fn front_integer(text: &[u8]) -> Option<(i64, &[u8])>
    ensures value { IfSome result (λ r. token_at text.now ≡ Ok (int r.0, r.1.now)) }
    ensures fits { IfSome result (λ r. FitsSigned w64 r.0) }
    ensures shorter { IfSome result (λ r. length r.1.now < length text.now) }
{
    match text {
        [b'-', digits @ ..] => {
            let (n, rest) = front_numeral(digits)?;
            let z = negative(n)?;
            Some((z, rest))
        }
        [b'+', digits @ ..] => {
            let (n, rest) = front_numeral(digits)?;
            let z = positive(n)?;
            Some((z, rest))
        }
        _ => {
            let (n, rest) = front_numeral(text)?;
            let z = positive(n)?;
            Some((z, rest))
        }
    }
}

fn starts_number(word: &[u8]) -> bool
    ensures { result ≡ starts_number_text word.now }
{
    match word {
        [b'+' | b'-', b, ..] => is_digit(*b),
        [b, ..] => is_digit(*b),
        [] => false,
    }
}

#[tactic(auto, using(crate::proofs::Runs::after_digits_at, crate::proofs::Runs::after_digits_all))]
fn after_digits(text: &[u8]) -> &[u8]
    ensures { result.now ≡ after_digits_text text.now }
{
    for (i, b) in text.iter().enumerate() {
        if !is_digit(*b) {
            return after(text, i);
        }
    }
    after(text, text.len())
}

fn after_numeral(text: &[u8]) -> &[u8]
    ensures { result.now ≡ after_numeral_text text.now }
{
    match text {
        [b'0', rest @ ..] => rest,
        _ => after_digits(text),
    }
}

fn after_integer(word: &[u8]) -> &[u8]
    ensures { result.now ≡ after_integer_text word.now }
{
    match word {
        [b'+' | b'-', rest @ ..] => after_numeral(rest),
        _ => after_numeral(word),
    }
}

// Whether these bytes behind an integer make it a ratio, a float or a number in another notation.
fn marks_left_out(rest: &[u8]) -> bool
    ensures { result ≡ marks_left_out_text rest.now }
{
    matches!(
        rest,
        [b'.' | b'/' | b'e' | b'E' | b'N' | b'M' | b'r' | b'x', ..]
    )
}

#[tactic(auto, unfolding(crate::specs::ReadTokens::number_value))]
fn number(word: &[u8]) -> Result<Value, Flaw>
    ensures { result ≡ number_value word.now }
{
    if is_integer(word) {
        match integer(word) {
            Some(n) => Ok(Value::of_lawful(Node::Int(n))),
            None => Err(Flaw::TooLarge),
        }
    } else if marks_left_out(after_integer(word)) {
        Err(Flaw::LeftOut)
    } else {
        Err(Flaw::BadNumber)
    }
}

// The value of a keyword, of which this is what stands behind the colon.
#[tactic(auto, using(crate::proofs::AsciiNames::name_utf8), unfolding(crate::specs::ReadTokens::keyword_value))]
fn keyword(
    alloc: Global,
    interner: &mut Interner,
    name: &[u8],
) -> Result<Result<Value, Flaw>, AllocError>
    ensures { IfOk result (λ r. r ≡ keyword_value name.now) }
{
    if let Some(value) = interner.keyword(name)? {
        return Ok(Ok(value));
    }
    if !is_keyword(name) {
        return Ok(Err(Flaw::BadName));
    }
    let node = Node::keyword_of_bytes(alloc, name)?;
    Ok(Ok(interner.kept(name, Value::of_lawful(node))?))
}

// The value of a symbol, or of a word that is a value of its own.
#[tactic(auto, using(crate::proofs::AsciiNames::symbol_utf8, crate::proofs::Tokens::symbol_word), unfolding(crate::specs::ReadTokens::word_value))]
fn symbol(
    alloc: Global,
    interner: &mut Interner,
    word: &[u8],
) -> Result<Result<Value, Flaw>, AllocError>
    ensures { IfOk result (λ r. r ≡ word_value word.now) }
{
    if let Some(value) = interner.symbol(word)? {
        return Ok(Ok(value));
    }
    Ok(Ok(if is_same(word, b"nil") {
        Value::of_lawful(Node::Nil)
    } else if is_same(word, b"true") {
        Value::of_lawful(Node::Bool(true))
    } else if is_same(word, b"false") {
        Value::of_lawful(Node::Bool(false))
    } else if is_symbol(word) {
        let node = Node::symbol_of_bytes(alloc, word)?;
        interner.kept(word, Value::of_lawful(node))?
    } else {
        return Ok(Err(Flaw::BadName));
    }))
}

#[tactic(auto, unfolding(crate::specs::ReadTokens::token_value))]
fn token_value(
    alloc: Global,
    interner: &mut Interner,
    word: &[u8],
) -> Result<Result<Value, Flaw>, AllocError>
    ensures { IfOk result (λ r. r ≡ value_of_token word.now) }
{
    if starts_number(word) {
        return Ok(number(word));
    }
    match word {
        [b':', name @ ..] => keyword(alloc, interner, name),
        _ => symbol(alloc, interner, word),
    }
}

/// The value of the token at the front of a text, and what follows it.
#[tactic(auto, using(crate::proofs::Tokens::value_flat), unfolding(crate::specs::ReadTokens::token_at))]
pub(crate) fn token<'a>(
    alloc: Global,
    interner: &mut Interner,
    text: &'a [u8],
) -> Result<(Value, &'a [u8]), ReadError>
    ensures value { Gives (λ r. (r.0, r.1.now)) result (token_at text.now) }
    ensures shorter { IfOk result (λ r. length r.1.now < length text.now) }
    ensures depth { IfOk result (λ r. nesting r.0 ≡ 0) }
{
    if let Some((n, rest)) = front_integer(text) {
        return Ok((Value::of_lawful(Node::Int(n)), rest));
    }
    let (word, rest) = text.split_at(token_end(text));
    match token_value(alloc, interner, word)? {
        Ok(value) => Ok((value, rest)),
        Err(kind) => Err(ReadError::at(kind, text)),
    }
}
