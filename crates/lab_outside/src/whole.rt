// Whole inputs and whole pieces of output.
ghost use Rattle.std.specs.Prelude.{◌≡◌, ◌+◌, ◌<◌, ◌≤◌, length, take, drop, IfOk, OnOk, OnErr, IfSome};
ghost use Rattle.std.specs.Io.KnownBytes.{IsAtEnd};
ghost use Rattle.lab_outside.specs.Rose.{Rose};
ghost use Rattle.lab_outside.specs.Bytes.{ConsumesPrefix, Wrote, WrotePrefix};

use crate::ports::{Failed, Sink, Source};
use std::alloc::{AllocError, Global};

/// Why an input was not read.
#[derive(Debug, Clone, Copy, PartialEq, Eq)]
pub enum ReadStop {
    /// A read failed.
    Failed,
    /// Memory was refused.
    Memory,
}

impl From<Failed> for ReadStop {
    ghost use Rattle.std.specs.Prelude.{◌≡◌};
    ghost use Rattle.lab_outside.specs.declared.whole.ReadStop.TheVariants.{Failed as Stopped};

    ghost from_gives = { λ _ stop. stop ≡ Stopped };

    fn from(_: Failed) -> ReadStop {
        ReadStop::Failed
    }
}

impl From<AllocError> for ReadStop {
    ghost use Rattle.std.specs.Prelude.{◌≡◌};
    ghost use Rattle.lab_outside.specs.declared.whole.ReadStop.TheVariants.{Memory};

    ghost from_gives = { λ _ stop. stop ≡ Memory };

    fn from(_: AllocError) -> ReadStop {
        ReadStop::Memory
    }
}

/// Reads to the end of the input, or to the first byte past `limit` bytes.
///
/// An answer of more than `limit` bytes has `limit + 1`, and says that the input is longer.
/// After an error some of the input's bytes were read, and are gone.
pub fn read_up_to<I: Source>(
    alloc: Global,
    input: &mut I,
    limit: usize,
) -> Result<Vec<u8>, ReadStop>
    ensures bytes { IfOk result
        (λ all. IfSome (I.left input.old) (λ bytes. all.items ≡ take (limit + 1) bytes)) }
    ensures left { OnOk result (IfSome (I.left input.old)
        (λ bytes. I.left input.new ≡ Some (drop (limit + 1) bytes))) }
    ensures count { IfOk result (λ all. length all.items ≤ limit + 1) }

    // A short answer is the whole input, and a long one says that the input is longer than the limit.
    ensures whole { IfOk result (λ all. length all.items ≤ limit → IsAtEnd (I.left input.new)) }
    ensures short { IfOk result (λ all. IfSome (I.left input.old) (λ bytes. length bytes ≤ limit →
        all.items ≡ bytes)) }
    ensures long { IfOk result (λ all. IfSome (I.left input.old) (λ bytes. limit < length bytes →
        length all.items ≡ limit + 1)) }

    ensures consumed { ConsumesPrefix (I.left input.old) (I.left input.new) }
    ensures counted { I.faults input.old ≤ I.faults input.new }
    ensures fault { result ≡ Err ReadStop.Failed → Rose (I.faults input.old) (I.faults input.new) }

    // A read that failed is answered as such: after any other answer the count of faults is as before.
    ensures steady { OnOk result (I.faults input.new ≡ I.faults input.old) }
    ensures wanting { result ≡ Err ReadStop.Memory → I.faults input.new ≡ I.faults input.old }
{
    let mut all = Vec::new(alloc);
    let mut piece = [0; 4096];
    while all.len() <= limit {
        let room = (limit - all.len()).min(piece.len() - 1) + 1;
        let count = input.read(&mut piece[..room])?;
        if count == 0 {
            return Ok(all);
        }
        all.extend_from_slice(&piece[..count])?;
    }
    Ok(all)
}

/// Writes all the bytes.
pub fn write_whole<O: Sink>(output: &mut O, bytes: &[u8]) -> Result<(), Failed>
    ensures ok { OnOk result (Wrote (O.written output.old) (O.written output.new) bytes.now) }
    ensures err { OnErr result (WrotePrefix (O.written output.old)
        (O.written output.new) bytes.now) }
    ensures counted { O.faults output.old ≤ O.faults output.new }
    ensures fault { OnErr result (Rose (O.faults output.old) (O.faults output.new)) }
    ensures steady { OnOk result (O.faults output.new ≡ O.faults output.old) }
{
    let mut rest = bytes;
    while !rest.is_empty() {
        let count = output.write(rest)?;
        rest = &rest[count..];
    }
    Ok(())
}
