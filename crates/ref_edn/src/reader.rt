//! The reader of EDN text.
ghost use Rattle.std.specs.Prelude.{◌≡◌, ◌≢◌, ℕ, List, IfOk, IfErr, IsUtf8};
ghost use Rattle.ref_value.specs.Edn.{Edn};
ghost use Rattle.ref_edn.specs.Faults.{Answers, Gives};
ghost use Rattle.ref_edn.specs.Grammar.{IsText, AreTexts};
ghost use Rattle.ref_edn.specs.ReadParts.{whole_at, series_at, public_error};
ghost use Rattle.ref_edn.specs.Reading.{one, all};

use crate::elements::{read, skip};
use crate::faults::{Flaw, ReadError, ReadFault, fault_at};
use crate::scratch::Scratch;
use ref_value::Value;
use ref_value::data::MOST_NESTED;
use std::alloc::Global;

/// The value of a text that is one element.
///
/// Blanks, comments and discards may stand round it. It takes time in proportion to the text, but for n log n at a map
/// or a set of n members, and the native stack holds at most 64 levels. docs/EDN.md has the grammar in words.
pub fn read_one(alloc: Global, text: &[u8]) -> Result<Value, ReadFault>
    // The text belongs to the value.
    ensures found { IfOk result (λ v. IsText text.now v) }
    // What is refused, for another reason than memory, belongs to no value.
    ensures none { IfErr result (λ e. e ≢ ReadFault.Memory → (v : Edn) → IsText text.now v → ⊥) }
    // Which fault it is, and where: the first one from the left.
    ensures fault { Answers text.now (λ v. v) result (one text.now) }
    // What is no UTF-8 is refused before memory is asked for.
    ensures memory { IfErr result (λ e. e ≡ ReadFault.Memory → IsUtf8 text.now) }
{
    if let Err(error) = std::str::from_utf8(text) {
        return Err(ReadFault::NotUtf8(error.valid_up_to()));
    }
    match whole(alloc, text) {
        Ok(value) => Ok(value),
        Err(error) => Err(public(text, error)),
    }
}

/// The values of a text that is any number of elements, one after another.
pub fn read_all(alloc: Global, text: &[u8]) -> Result<Vec<Value>, ReadFault>
    ensures found { IfOk result (λ v. AreTexts text.now v.items) }
    ensures none { IfErr result (λ e. e ≢ ReadFault.Memory → (v : List Edn) → AreTexts text.now v → ⊥) }
    ensures fault { Answers text.now (λ v. v.items) result (all text.now) }
    // What is no UTF-8 is refused before memory is asked for.
    ensures memory { IfErr result (λ e. e ≡ ReadFault.Memory → IsUtf8 text.now) }
{
    if let Err(error) = std::str::from_utf8(text) {
        return Err(ReadFault::NotUtf8(error.valid_up_to()));
    }
    match series(alloc, text) {
        Ok(values) => Ok(values),
        Err(error) => Err(public(text, error)),
    }
}

/// A text belongs to at most one value.
pub fn one_value()
    ensures { (text : List ℕ) (v w : Edn) → IsText text v → IsText text w → v ≡ w }
{}

/// A text is one list of elements at most.
pub fn one_series()
    ensures { (text : List ℕ) (v w : List Edn) → AreTexts text v → AreTexts text w → v ≡ w }
{}

fn public(text: &[u8], error: ReadError) -> ReadFault
    ensures { result ≡ public_error text.now error }
{
    match error {
        ReadError::Memory => ReadFault::Memory,
        ReadError::Fault(fault) => fault_at(fault.kind, text.len().saturating_sub(fault.left)),
    }
}

#[tactic(auto, unfolding(crate::specs::ReadParts::whole_at))]
fn whole(alloc: Global, text: &[u8]) -> Result<Value, ReadError>
    ensures { Gives (λ v. v) result (whole_at text.now) }
{
    let mut scratch = Scratch::for_text(alloc, text);
    let start = skip(alloc, &mut scratch, text, MOST_NESTED)?;
    if start.is_empty() {
        return Err(ReadError::at(Flaw::Nothing, start));
    }
    let (value, after) = read(alloc, &mut scratch, start, MOST_NESTED)?;
    let rest = skip(alloc, &mut scratch, after, MOST_NESTED)?;
    if !rest.is_empty() {
        return Err(ReadError::at(Flaw::Trailing, rest));
    }
    Ok(value)
}

fn series(alloc: Global, text: &[u8]) -> Result<Vec<Value>, ReadError>
    ensures { Gives (λ v. v.items) result (series_at text.now) }
{
    let mut scratch = Scratch::for_text(alloc, text);
    let mut found = Vec::new(alloc);
    let mut rest = text;
    loop {
        let start = skip(alloc, &mut scratch, rest, MOST_NESTED)?;
        if start.is_empty() {
            return Ok(found);
        }
        let (value, behind) = read(alloc, &mut scratch, start, MOST_NESTED)?;
        found.push(value)?;
        rest = behind;
    }
}
