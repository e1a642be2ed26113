//! Bytes of a text by what they do.
ghost use Rattle.std.specs.Prelude.{◌≡◌, ◌≤◌, length, drop, position};
ghost use Rattle.ref_edn.specs.Bytes.{is_space as is_space_byte, is_close as is_close_byte, is_delimiter as is_delimiter_byte, is_digit as is_digit_byte, token_len};
ghost use Rattle.ref_edn.specs.ReadTokens.{starts_token as starts_token_byte};

pub(crate) fn is_space(b: u8) -> bool
    ensures { result ≡ is_space_byte b }
{
    matches!(b, b' ' | b'\t' | b'\n' | b'\r' | b'\x0c' | b',')
}

pub(crate) fn is_close(b: u8) -> bool
    ensures { result ≡ is_close_byte b }
{
    matches!(b, b')' | b']' | b'}')
}

pub(crate) fn is_digit(b: u8) -> bool
    ensures { result ≡ is_digit_byte b }
{
    b.is_ascii_digit()
}

/// Whether a token ends in front of this byte.
#[tactic(auto, unfolding(crate::specs::Bytes::is_delimiter))]
pub(crate) fn is_delimiter(b: u8) -> bool
    ensures { result ≡ is_delimiter_byte b }
{
    // Most bytes of a token are letters.
    if matches!(b, b'a'..=b'z') {
        return false;
    }
    match b {
        b' ' | b'\t' | b'\n' | b'\r' | b'\x0c' | b',' => true,
        b'"' | b';' | b'(' | b'[' | b'{' | b')' | b']' | b'}' => true,
        _ => false,
    }
}

/// Whether a token may begin with this byte.
#[tactic(auto, unfolding(crate::specs::ReadTokens::starts_token))]
pub(crate) fn starts_token(b: u8) -> bool
    ensures { result ≡ starts_token_byte b }
{
    match b {
        b'0'..=b'9' | b':' | b'a'..=b'z' | b'A'..=b'Z' => true,
        b'.' | b'*' | b'+' | b'!' | b'-' | b'_' | b'?' => true,
        b'$' | b'%' | b'&' | b'=' | b'<' | b'>' | b'/' => true,
        _ => false,
    }
}

fn first_delimiter(text: &[u8]) -> Option<usize>
    ensures { result ≡ position is_delimiter_byte text.now }
{
    text.iter().position(|b| is_delimiter(*b))
}

/// How many bytes stand before what ends a token.
#[tactic(auto, using(crate::proofs::Runs::token_len_found, crate::proofs::Runs::token_len_all))]
pub(crate) fn token_end(text: &[u8]) -> usize
    ensures value { result ≡ token_len text.now }
    ensures bound { result ≤ length text.now }
{
    first_delimiter(text).unwrap_or(text.len())
}

// The bytes from a place on.
pub(crate) fn after(s: &[u8], i: usize) -> &[u8]
    requires { i ≤ length s.now }
    ensures { result.now ≡ drop i s.now }
{
    &s[i..]
}
