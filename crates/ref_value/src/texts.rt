//! Texts: the content of a string, the name of a keyword or of a symbol.
ghost use Rattle.std.specs.Prelude.{◌≡◌, ◌≤◌, ◌<◌, ℕ, List, take, drop, IfOk, IfSome, IfNone, IsTrue, IsUtf8, length, string_bytes};
ghost use Rattle.std.specs.Int.{w16, w32, w64, to_le_bytes};
ghost use Rattle.ref_value.specs.Texts.{content};

use std::alloc::{AllocError, Global};
use std::marker::Model;
use std::sync::Arc;

// As many bytes as a node takes, less one for its kind and one for the length.
pub(crate) const MOST_IN_NODE: usize = 14;

// As many bytes as a `String` takes without its content, less one for the length.
const MOST_SHORT: usize = 23;

/// A text in UTF-8 of up to 14 bytes, which lies in the node itself and takes no block of memory. Contracts see its bytes.
#[derive(Drop)]
pub struct ShortText {
    len: u8,
    bytes: [u8; MOST_IN_NODE],
}

impl Model for ShortText {
    ghost use Rattle.std.specs.Prelude.{List, ℕ, IsUtf8, take};

    ghost Value = { List ℕ };

    ghost view = { λ a. take a.len a.bytes };

    ghost invariant = { λ a. IsUtf8 (take a.len a.bytes) };
}

// The first eight bytes as one number, and so the four behind them, and the last two: a processor compares each pair at once.
#[inline(always)]
fn first_word(x: &[u8; MOST_IN_NODE]) -> u64
    ensures { to_le_bytes w64 result ≡ take 8 x.now }
{
    u64::from_le_bytes([x[0], x[1], x[2], x[3], x[4], x[5], x[6], x[7]])
}

#[inline(always)]
fn next_word(x: &[u8; MOST_IN_NODE]) -> u32
    ensures { to_le_bytes w32 result ≡ take 4 (drop 8 x.now) }
{
    u32::from_le_bytes([x[8], x[9], x[10], x[11]])
}

#[inline(always)]
fn last_word(x: &[u8; MOST_IN_NODE]) -> u16
    ensures { to_le_bytes w16 result ≡ drop 12 x.now }
{
    u16::from_le_bytes([x[12], x[13]])
}

#[inline(always)]
fn are_same(x: &[u8; MOST_IN_NODE], y: &[u8; MOST_IN_NODE]) -> bool
    ensures { IsTrue result → x.now ≡ y.now }
{
    first_word(x) == first_word(y) && next_word(x) == next_word(y) && last_word(x) == last_word(y)
}

impl ShortText {
    /// The text of these bytes, or `None` if there are more than 14. It takes no memory.
    pub fn of(text: &str) -> Option<ShortText>
        ensures some { IfSome result (λ t. t ≡ text.now) }
        ensures none { IfNone result (14 < length text.now) }
    {
        if text.len() <= MOST_IN_NODE {
            Some(ShortText::of_bytes(text.as_bytes()))
        } else {
            None
        }
    }

    /// The text of at most 14 bytes that are known to be UTF-8. It takes no memory.
    pub fn of_bytes(text: &[u8]) -> ShortText
        requires utf8 { IsUtf8 text.now }
        requires short { length text.now ≤ 14 }
        ensures { result ≡ text.now }
    {
        let mut bytes = [0; MOST_IN_NODE];
        bytes[..text.len()].copy_from_slice(text);
        ShortText {
            len: text.len() as u8,
            bytes,
        }
    }

    /// It costs a look at each byte.
    pub fn as_str(&self) -> &str
        ensures { result.now ≡ self.now }
    {
        str::from_utf8(self.as_bytes()).unwrap()
    }

    /// Constant time.
    pub fn as_bytes(&self) -> &[u8]
        ensures value { result.now ≡ self.now }
        ensures utf8 { IsUtf8 self.now }
    {
        let len = usize::from(self.len).min(MOST_IN_NODE);
        &self.bytes[..len]
    }

    /// The same text once more. It takes no memory, and can't fail.
    pub fn copy(&self) -> ShortText
        ensures { result ≡ self.now }
    {
        ShortText {
            len: self.len,
            bytes: self.bytes,
        }
    }

    /// Whether both have the same bytes. It looks at all 14 bytes at once.
    #[inline(always)]
    pub(crate) fn is_same(&self, other: &ShortText) -> bool
        ensures { IsTrue result → self.now ≡ other.now }
    {
        self.len == other.len && are_same(&self.bytes, &other.bytes)
    }
}

// Short texts lie next to the count of their owners, so that they take one block and not two.
#[derive(Drop)]
enum Chars {
    Short(u8, [u8; MOST_SHORT]),
    Long(String),
}

/// A text in UTF-8 that may have several owners. Contracts see its bytes. One of up to 23 bytes takes one block of
/// memory, and a longer one takes two.
#[derive(Drop)]
pub struct Text {
    chars: Arc<Chars>,
}

impl Model for Text {
    ghost use Rattle.std.specs.Prelude.{List, ℕ, IsUtf8};
    ghost use Rattle.ref_value.specs.Texts.{content};

    ghost Value = { List ℕ };

    ghost view = { λ a. content a.chars.value };

    ghost invariant = { λ a. IsUtf8 (content a.chars.value) };
}

// The front of the bytes.
fn front(bytes: &[u8; MOST_SHORT], len: u8) -> &[u8]
    ensures { result.now ≡ take len bytes.now }
{
    let len = usize::from(len).min(MOST_SHORT);
    &bytes[..len]
}

fn short(text: &[u8]) -> Chars
    requires { length text.now ≤ 23 }
    ensures { content result ≡ text.now }
{
    let mut bytes = [0; MOST_SHORT];
    bytes[..text.len()].copy_from_slice(text);
    Chars::Short(text.len() as u8, bytes)
}

// One owner of a text.
fn owner(alloc: Global, chars: Chars) -> Result<Text, AllocError>
    requires { IsUtf8 (content chars) }
    ensures { IfOk result (λ t. t ≡ content chars) }
{
    Ok(Text {
        chars: Arc::new(alloc, chars)?,
    })
}

impl Text {
    /// The text of a `String`, which isn't copied where it is longer than 23 bytes.
    pub fn of(alloc: Global, text: String) -> Result<Text, AllocError>
        ensures { IfOk result (λ t. t ≡ string_bytes text) }
    {
        if text.len() <= MOST_SHORT {
            Text::copy_of(alloc, &text)
        } else {
            owner(alloc, Chars::Long(text))
        }
    }

    /// A copy of a text.
    pub fn copy_of(alloc: Global, text: &str) -> Result<Text, AllocError>
        ensures { IfOk result (λ t. t ≡ text.now) }
    {
        if text.len() <= MOST_SHORT {
            owner(alloc, short(text.as_bytes()))
        } else {
            owner(alloc, Chars::Long(String::from_str(alloc, text)?))
        }
    }

    /// A copy of bytes that are known to be UTF-8.
    pub fn of_bytes(alloc: Global, bytes: &[u8]) -> Result<Text, AllocError>
        requires { IsUtf8 bytes.now }
        ensures { IfOk result (λ t. t ≡ bytes.now) }
    {
        if bytes.len() <= MOST_SHORT {
            owner(alloc, short(bytes))
        } else {
            Text::copy_of(alloc, str::from_utf8(bytes).unwrap())
        }
    }

    /// It costs a look at each byte of a text of up to 23 bytes, and else constant time.
    pub fn as_str(&self) -> &str
        ensures { result.now ≡ self.now }
    {
        match &*self.chars {
            Chars::Short(len, bytes) => str::from_utf8(front(bytes, *len)).unwrap(),
            Chars::Long(text) => text,
        }
    }

    /// Constant time.
    pub fn as_bytes(&self) -> &[u8]
        ensures value { result.now ≡ self.now }
        ensures utf8 { IsUtf8 self.now }
    {
        match &*self.chars {
            Chars::Short(len, bytes) => front(bytes, *len),
            Chars::Long(text) => text.as_bytes(),
        }
    }

    /// Whether both are stored alike and have the same bytes. Of two short texts it looks at the whole blocks at once.
    #[inline(always)]
    pub(crate) fn is_same(&self, other: &Text) -> bool
        ensures { IsTrue result → self.now ≡ other.now }
    {
        match (&*self.chars, &*other.chars) {
            (Chars::Short(len, bytes), Chars::Short(other_len, others)) => {
                *len == *other_len && *bytes == *others
            }
            (Chars::Long(text), Chars::Long(other)) => text.as_bytes() == other.as_bytes(),
            _ => false,
        }
    }

    /// One more owner. It takes no memory; only the count of owners can refuse.
    pub fn share(&self) -> Result<Text, AllocError>
        ensures { IfOk result (λ t. t ≡ self.now) }
    {
        Ok(Text {
            chars: Arc::try_clone(&self.chars)?,
        })
    }
}
