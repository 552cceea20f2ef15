// What is printed of a sheet: its tokens on one line, or its faults, a line each.
ghost use Rattle.std.specs.Prelude.{◌≡◌, true, false, ◌++◌, IfOk, OnOk};
ghost use Rattle.std.specs.List.{flat_map};
ghost use Rattle.whole.specs.Listing.{fault_line, listed, one_spaced, sign_text, spaced, token_text};
ghost use Rattle.whole.specs.Whole.{outcome as lists_of};

use crate::outcome::Outcome;
use sheet::{Fault, Kind, Token};
use std::alloc::{AllocError, Global};

// The kinds of the tokens that are inserted, as tokens have them.
const OPEN_BRACE: u32 = Kind::OpenBrace as u32;

const CLOSE_BRACE: u32 = Kind::CloseBrace as u32;

const SEMICOLON: u32 = Kind::Semicolon as u32;

// The text of an inserted token.
fn sign(kind: u32) -> &'static [u8]
    ensures { result.now ≡ sign_text kind }
{
    match kind {
        OPEN_BRACE => b"{",
        CLOSE_BRACE => b"}",
        SEMICOLON => b";",
        _ => b"",
    }
}

// The text of a token: that which was typed, or that of a token that was inserted, which has no bytes of the sheet's.
fn text_of<'a>(text: &'a [u8], token: &Token) -> &'a [u8]
    ensures { result.now ≡ token_text text.now token.now }
{
    if token.length == 0 {
        return sign(token.kind);
    }
    let from = token.offset as usize;
    text.get(from..from + token.length as usize).unwrap_or(&[])
}

// Adds a token's text behind a space. No `Display`: the text is bytes, and need not be UTF-8.
fn add_next(bytes: &mut Vec<u8>, text: &[u8], token: &Token) -> Result<(), AllocError>
    ensures { OnOk result (bytes.new.items ≡ bytes.old.items ++ one_spaced text.now true token.now) }
{
    bytes.push(b' ')?;
    bytes.extend_from_slice(text_of(text, token))
}

// Adds tokens with one space between.
fn add_tokens(bytes: &mut Vec<u8>, text: &[u8], tokens: &[Token]) -> Result<(), AllocError>
    ensures { OnOk result (bytes.new.items ≡ bytes.old.items ++ spaced text.now false tokens.now) }
{
    let Some((first, rest)) = tokens.split_first() else {
        return Ok(());
    };
    bytes.extend_from_slice(text_of(text, first))?;
    for token in rest {
        add_next(bytes, text, token)?;
    }
    Ok(())
}

// Adds a fault on its line. No `writeln!` into the bytes: it answers an `io::Error`, and this an `AllocError`.
fn add_fault(heap: Global, bytes: &mut Vec<u8>, fault: &Fault) -> Result<(), AllocError>
    ensures { OnOk result (bytes.new.items ≡ bytes.old.items ++ fault_line fault.now) }
{
    let fault = *fault;
    let line = format!(in heap; "{fault}\n")?;
    bytes.extend_from_slice(line.as_bytes())
}

// Adds faults, a line each.
fn add_faults(heap: Global, bytes: &mut Vec<u8>, faults: &[Fault]) -> Result<(), AllocError>
    ensures { OnOk result (bytes.new.items ≡ bytes.old.items ++ flat_map fault_line faults.now) }
{
    for fault in faults {
        add_fault(heap, bytes, fault)?;
    }
    Ok(())
}

// The bytes that are printed of a sheet with this text.
pub fn listing(heap: Global, text: &[u8], found: &Outcome) -> Result<Vec<u8>, AllocError>
    ensures { IfOk result (λ v. v.items ≡ listed text.now (lists_of found.now)) }
{
    let mut bytes = Vec::new(heap);
    match found {
        Ok(tokens) => {
            add_tokens(&mut bytes, text, tokens)?;
            bytes.push(b'\n')?;
        }
        Err(faults) => add_faults(heap, &mut bytes, faults)?,
    }
    Ok(bytes)
}
