//! Text, numbers and words of the input at the end of a page.
ghost use Rattle.std.specs.Prelude.{◌≡◌, ◌++◌, ℕ, List, OnOk};
ghost use Rattle.std.specs.Borrow.{Bor};
ghost use Rattle.crdt_core.specs.Outcomes.{OnlyWant};
ghost use Rattle.chart_page.specs.Escaped.{escaped_byte, escaped};

use crdt_core::{Bytes, Memory};
use itoa::Buffer;

/// A piece of a page.
#[derive(Clone, Copy)]
pub enum Piece<'a> {
    /// Text of the page itself, as it is.
    Text(&'static str),
    /// A word of the input, escaped.
    Word(&'a str),
    /// A number in decimal digits.
    Number(u64),
    /// A number in decimal digits, with a comma before each three but the first.
    Amount(u64),
}

/// Adds one byte of the input to the end of a page: `&`, `<`, `>` and the quotes by their names.
fn escape_byte(page: &mut Bytes, byte: u8) -> Result<(), Memory>
    ensures ok { OnOk result (page.new ≡ page.old ++ escaped_byte byte) }
    ensures want { OnlyWant result }
{
    match byte {
        b'&' => page.extend_from_slice(b"&amp;"),
        b'<' => page.extend_from_slice(b"&lt;"),
        b'>' => page.extend_from_slice(b"&gt;"),
        b'"' => page.extend_from_slice(b"&quot;"),
        b'\'' => page.extend_from_slice(b"&#39;"),
        _ => page.push(byte),
    }
}

/// Adds bytes of the input to the end of a page, escaped.
pub fn escape(page: &mut Bytes, bytes: &[u8]) -> Result<(), Memory>
    ensures ok { OnOk result (page.new ≡ page.old ++ escaped bytes.now) }
    ensures want { OnlyWant result }
{
    for byte in bytes {
        escape_byte(page, *byte)?;
    }
    Ok(())
}

/// Adds a number with a comma before each three digits but the first.
fn add_amount(page: &mut Bytes, amount: u64) -> Result<(), Memory> {
    let mut buffer = Buffer::new();
    let digits = buffer.format(amount).as_bytes();
    let mut left = digits.len();
    for digit in digits {
        if left % 3 == 0 && left < digits.len() {
            page.push(b',')?;
        }
        page.push(*digit)?;
        left = left.saturating_sub(1);
    }
    Ok(())
}

/// Adds a piece to the end of a page.
pub fn add(page: &mut Bytes, piece: Piece<'_>) -> Result<(), Memory>
    ensures text { OnOk result ((text : Bor (List ℕ)) → piece.entry ≡ Piece.Text text →
        page.new ≡ page.old ++ text.now) }
    ensures word { OnOk result ((word : Bor (List ℕ)) → piece.entry ≡ Piece.Word word →
        page.new ≡ page.old ++ escaped word.now) }
{
    match piece {
        Piece::Text(text) => page.extend_from_slice(text.as_bytes()),
        Piece::Word(word) => escape(page, word.as_bytes()),
        Piece::Amount(amount) => add_amount(page, amount),
        Piece::Number(n) => page.extend_from_slice(Buffer::new().format(n).as_bytes()),
    }
}

/// Adds pieces to the end of a page, one after the other.
pub fn add_all(page: &mut Bytes, pieces: &[Piece<'_>]) -> Result<(), Memory> {
    for piece in pieces {
        add(page, *piece)?;
    }
    Ok(())
}
