//! The line that a place stands in, as far as it is shown.
use crate::inside::{from, up_to};
use crate::places::goes_on;
use std::alloc::{AllocError, Global};

/// How many bytes of a text are shown of one line.
pub(crate) const MOST_SHOWN: usize = 80;

// How many of them stand in front of what is marked.
const MOST_BEFORE: usize = 48;

const CUT: &str = "..";

/// A line with a part that is marked.
#[derive(Drop)]
pub(crate) struct Excerpt {
    pub line: String,
    /// How many characters stand in front of the marked ones, and how many these are: at least one.
    pub before: usize,
    pub marked: usize,
}

// The bytes behind the last newline.
fn last_line(text: &[u8]) -> &[u8] {
    let mut start = 0;
    for (i, b) in text.iter().enumerate() {
        if *b == b'\n' {
            start = i.saturating_add(1);
        }
    }
    from(text, start)
}

// The bytes in front of the first newline.
fn first_line(text: &[u8]) -> &[u8] {
    match text.iter().position(|b| *b == b'\n') {
        Some(end) => up_to(text, end),
        None => text,
    }
}

/// Whole characters at the front, of at most so many bytes.
pub(crate) fn head_of(text: &[u8], most: usize) -> &[u8] {
    if text.len() <= most {
        return text;
    }
    let mut end = 0;
    for (i, b) in text.iter().enumerate() {
        if i > most {
            break;
        }
        if !goes_on(*b) {
            end = i;
        }
    }
    up_to(text, end)
}

// Whole characters at the end, of at most so many bytes.
fn tail_of(text: &[u8], most: usize) -> &[u8] {
    let tail = from(text, text.len().saturating_sub(most));
    match tail.iter().position(|b| !goes_on(*b)) {
        Some(start) => from(tail, start),
        None => tail,
    }
}

fn count_characters(text: &[u8]) -> usize {
    text.iter().filter(|b| !goes_on(**b)).count()
}

// What moves the cursor or turns the direction of writing isn't shown as it is.
fn plain(c: char) -> char {
    match c {
        '\t' | '\n' | '\r' => ' ',
        '\0'..='\u{1f}' | '\u{7f}'..='\u{9f}' => '?',
        '\u{200b}'..='\u{200f}' | '\u{2028}'..='\u{202e}' | '\u{2066}'..='\u{2069}' => '?',
        '\u{feff}' | '\u{fffd}' => '?',
        c => c,
    }
}

/// Appends the characters of a short text, those that can't be shown as blanks or question marks.
pub(crate) fn push_plain(alloc: Global, line: &mut String, text: &[u8]) -> Result<(), AllocError> {
    let shown = String::from_utf8_lossy(alloc, text)?;
    for c in shown.as_str().chars() {
        line.push(plain(c))?;
    }
    Ok(())
}

/// The line in which the bytes from `start` to `end` begin, with these marked.
pub(crate) fn excerpt_at(
    alloc: Global,
    text: &[u8],
    start: usize,
    end: usize,
) -> Result<Excerpt, AllocError> {
    let mut line = String::new(alloc);
    let whole = last_line(up_to(text, start));
    let before = tail_of(whole, MOST_BEFORE);
    let mut shown = count_characters(before);
    if before.len() < whole.len() {
        line.push_str(CUT)?;
        shown = shown.saturating_add(CUT.len());
    }
    push_plain(alloc, &mut line, before)?;
    let rest = first_line(from(text, start));
    let room = MOST_SHOWN.saturating_sub(before.len());
    let after = head_of(rest, room);
    push_plain(alloc, &mut line, after)?;
    if after.len() < rest.len() {
        line.push_str(CUT)?;
    }
    let marked = up_to(after, end.saturating_sub(start));
    Ok(Excerpt {
        line,
        before: shown,
        marked: count_characters(marked).max(1),
    })
}
