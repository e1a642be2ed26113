//! Text in a page.
ghost use Rattle.std.specs.Prelude.{◌≡◌, ◌++◌, ℕ, List, OnOk, true};
ghost use Rattle.ref_history.specs.Escaped.{escaped, escaped_byte, is_plain};

use std::alloc::AllocError;

/// Appends a text so that nothing in it is markup, also within the value of an attribute.
#[tactic(auto, using(crate::proofs::Lists::flat_map_at))]
pub(crate) fn append_escaped(text: &[u8], out: &mut Vec<u8>) -> Result<(), AllocError>
    ensures { OnOk result (out.new.items ≡ out.old.items ++ escaped text.now) }
{
    for byte in text {
        append_byte(*byte, out)?;
    }
    Ok(())
}

fn append_byte(byte: u8, out: &mut Vec<u8>) -> Result<(), AllocError>
    ensures { OnOk result (out.new.items ≡ out.old.items ++ escaped_byte byte) }
{
    match byte {
        b'&' => out.extend_from_slice(b"&amp;"),
        b'<' => out.extend_from_slice(b"&lt;"),
        b'>' => out.extend_from_slice(b"&gt;"),
        b'"' => out.extend_from_slice(b"&quot;"),
        b'\'' => out.extend_from_slice(b"&#39;"),
        _ => {
            out.push(byte)?;
            Ok(())
        }
    }
}

/// What is escaped has neither `<` nor `>` nor a quotation mark, whatever the text was.
pub fn escaped_is_plain()
    ensures { (text : List ℕ) → is_plain (escaped text) ≡ true }
{}
