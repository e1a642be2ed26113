//! Which texts are names of symbols and of keywords.
ghost use Rattle.std.specs.Prelude.{◌≡◌, ◌≤◌, ◌&&◌, length, drop, position};
ghost use Rattle.std.specs.List.{list_all};
ghost use Rattle.ref_value.specs.Letters.{begins_with_digit as begins_with_digit_byte};
ghost use Rattle.ref_value.specs.Names.{is_name_byte as is_name_byte_of, begins_part as begins_part_of, is_part as is_part_of, is_name as is_name_of, is_word as is_word_of, is_keyword as is_keyword_of, is_symbol as is_symbol_of, bytes_eq, is_slash};

#[tactic(auto, unfolding(crate::specs::Names::is_name_byte))]
fn is_name_byte(b: u8) -> bool
    ensures { result ≡ is_name_byte_of b }
{
    match b {
        b'a'..=b'z' | b'A'..=b'Z' | b'0'..=b'9' => true,
        b'.' | b'*' | b'+' | b'!' | b'-' | b'_' | b'?' => true,
        b'$' | b'%' | b'&' | b'=' | b'<' | b'>' | b':' | b'#' => true,
        _ => false,
    }
}

fn begins_with_digit(s: &[u8]) -> bool
    ensures { result ≡ begins_with_digit_byte s.now }
{
    match s {
        [] => false,
        [b, ..] => b.is_ascii_digit(),
    }
}

fn begins_part(s: &[u8]) -> bool
    ensures { result ≡ begins_part_of s.now }
{
    match s {
        [] => false,
        [b'-' | b'+' | b'.', rest @ ..] => !begins_with_digit(rest),
        [b, ..] => !b.is_ascii_digit() && *b != b':' && *b != b'#',
    }
}

fn are_name_bytes(s: &[u8]) -> bool
    ensures { result ≡ list_all is_name_byte_of s.now }
{
    s.iter().all(|b| is_name_byte(*b))
}

fn is_part(s: &[u8]) -> bool
    ensures { result ≡ is_part_of s.now }
{
    begins_part(s) && are_name_bytes(s)
}

fn are_parts(a: &[u8], b: &[u8]) -> bool
    ensures { result ≡ (is_part_of a.now && is_part_of b.now) }
{
    is_part(a) && is_part(b)
}

fn first_slash(s: &[u8]) -> Option<usize>
    ensures { result ≡ position is_slash s.now }
{
    s.iter().position(|b| *b == b'/')
}

// The bytes from a place on.
fn behind(s: &[u8], i: usize) -> &[u8]
    requires { i ≤ length s.now }
    ensures { result.now ≡ drop i s.now }
{
    &s[i..]
}

#[tactic(auto, using(crate::proofs::NameParts::name_without_slash, crate::proofs::NameParts::name_of_part))]
fn is_name(s: &[u8]) -> bool
    ensures { result ≡ is_name_of s.now }
{
    if is_part(s) {
        return true;
    }
    match first_slash(s) {
        Some(slash) => are_parts(&s[..slash], behind(s, slash + 1)),
        None => false,
    }
}

/// Whether two texts have the same bytes.
pub fn is_same(a: &[u8], b: &[u8]) -> bool
    ensures { result ≡ bytes_eq a.now b.now }
{
    a == b
}

fn is_word(s: &[u8]) -> bool
    ensures { result ≡ is_word_of s.now }
{
    is_same(s, b"nil") || is_same(s, b"true") || is_same(s, b"false")
}

/// Whether a text is the name of a keyword, the colon left out.
pub fn is_keyword(s: &[u8]) -> bool
    ensures { result ≡ is_keyword_of s.now }
{
    is_name(s)
}

/// Whether a text is the name of a symbol. `nil`, `true` and `false` are values of their own.
pub fn is_symbol(s: &[u8]) -> bool
    ensures { result ≡ is_symbol_of s.now }
{
    is_name(s) && !is_word(s) || is_same(s, b"/")
}
