use crate::digits::{push_marked, push_number};
use leakage_names::{NO_WORD, Name, NameKind, Sheet};
use leakage_values::Drawing;
use std::alloc::{AllocError, Global};

/// A kind as it is called.
fn kind_text(kind: NameKind) -> &'static str {
    match kind {
        NameKind::Token => "Token",
        NameKind::ListLabel => "ListLabel",
        NameKind::ListPad => "ListPad",
        NameKind::PlusLabel => "PlusLabel",
        NameKind::PlusPad => "PlusPad",
        NameKind::Revocation => "Revocation",
        NameKind::PlaceTag => "PlaceTag",
        NameKind::DummyLabel => "DummyLabel",
        NameKind::DummyCell => "DummyCell",
        NameKind::DummyTag => "DummyTag",
        NameKind::DummyBlock => "DummyBlock",
    }
}

/// Appends the number of a word, a hyphen for none.
fn push_word(text: &mut String, alloc: Global, word: u32) -> Result<(), AllocError> {
    if word == NO_WORD {
        return text.push_str("-");
    }
    push_number(text, alloc, u64::from(word))
}

/// Appends a name: its epoch, its kind, its word and its number, with slashes between them.
fn push_name(text: &mut String, alloc: Global, name: &Name) -> Result<(), AllocError> {
    push_number(text, alloc, u64::from(name.epoch))?;
    text.push_str("/")?;
    text.push_str(kind_text(name.kind))?;
    text.push_str("/")?;
    push_word(text, alloc, name.word)?;
    text.push_str("/")?;
    push_number(text, alloc, name.number)
}

/// Appends names, a blank before each.
pub(crate) fn push_names(
    text: &mut String,
    alloc: Global,
    names: &[Name],
) -> Result<(), AllocError> {
    for name in names {
        text.push_str(" ")?;
        push_name(text, alloc, name)?;
    }
    Ok(())
}

/// Appends what a value is drawn for, a blank before it: the names that it takes, a plus between two.
fn push_drawing(text: &mut String, alloc: Global, drawing: &Drawing) -> Result<(), AllocError> {
    text.push_str(" ")?;
    match drawing {
        Drawing::Entry(label, pad) | Drawing::Block(label, pad) => {
            push_name(text, alloc, label)?;
            text.push_str("+")?;
            push_name(text, alloc, pad)
        }
        Drawing::Number(name) | Drawing::Token(name) => push_name(text, alloc, name),
    }
}

/// Appends all of these.
pub(crate) fn push_drawings(
    text: &mut String,
    alloc: Global,
    drawings: &[Drawing],
) -> Result<(), AllocError> {
    for drawing in drawings {
        push_drawing(text, alloc, drawing)?;
    }
    Ok(())
}

/// Appends the line of a name and its value in a sheet, an equals sign between them.
fn push_value(
    text: &mut String,
    alloc: Global,
    name: &Name,
    sheet: &Sheet,
) -> Result<(), AllocError> {
    push_name(text, alloc, name)?;
    push_marked(text, alloc, "=", sheet.get(name).unwrap_or(b""))?;
    text.push_str("\n")
}

/// Appends the lines of these names.
pub(crate) fn push_values(
    text: &mut String,
    alloc: Global,
    names: &[Name],
    sheet: &Sheet,
) -> Result<(), AllocError> {
    for name in names {
        push_value(text, alloc, name, sheet)?;
    }
    Ok(())
}
