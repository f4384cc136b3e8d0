//! Words and numbers after one space.
ghost use Rattle.std.specs.Prelude.{◌≡◌, ◌⊎◌, ◌++◌, [], ◌∷◌, OnOk, OnErr};
ghost use Rattle.crdt_core.specs.Outcomes.{OnlyWant};
ghost use Rattle.layout_roles.specs.Text.{word, number};

use crdt_core::{Bytes, Memory};
use itoa::Buffer;

/// A word after one space. Where memory is wanting nothing is put at the end, or the space alone.
pub fn append_word(out: &mut Bytes, bytes: &[u8]) -> Result<(), Memory>
    ensures ok { OnOk result (out.new ≡ out.old ++ word bytes.now) }
    ensures part { OnErr result ((out.new ≡ out.old) ⊎ (out.new ≡ out.old ++ 32 ∷ [])) }
    ensures want { OnlyWant result }
{
    out.push(b' ')?;
    out.extend_from_slice(bytes)
}

/// A number in decimal after one space. Where memory is wanting nothing is put at the end, or the space alone.
pub fn append_number(out: &mut Bytes, n: u64) -> Result<(), Memory>
    ensures ok { OnOk result (out.new ≡ out.old ++ number n) }
    ensures part { OnErr result ((out.new ≡ out.old) ⊎ (out.new ≡ out.old ++ 32 ∷ [])) }
    ensures want { OnlyWant result }
{
    append_word(out, Buffer::new().format(n).as_bytes())
}
