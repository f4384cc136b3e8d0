//! The input of a command, read whole.
ghost use Rattle.std.specs.Prelude.{◌≡◌, ◌⊎◌, ◌≤◌, length, IfOk, IfSome};
ghost use Rattle.lab_main.specs.Limits.{input_limit, input_line};
ghost use Rattle.lab_main.specs.Ends.{Ends};
ghost use Rattle.lab_main.specs.Input.{stop_of_read, ReadsInput};

use crate::ends;
use lab_outside::{ReadStop, Sink, Source, Status, read_up_to};
use std::alloc::Global;

/// How many bytes an input may have.
const INPUT_LIMIT: usize = 8_388_608;

/// Why there is no input to go on with.
#[derive(Debug, Clone, Copy, PartialEq, Eq)]
pub enum InputStop {
    /// A read failed.
    Read,
    /// Memory was refused.
    Memory,
    /// The input has more bytes than it may have.
    Long,
}

impl From<ReadStop> for InputStop {
    ghost from_gives = { λ why stop. stop ≡ stop_of_read why };

    fn from(stop: ReadStop) -> InputStop {
        match stop {
            ReadStop::Failed => InputStop::Read,
            ReadStop::Memory => InputStop::Memory,
        }
    }
}

/// Reads the input to its end, or to the first byte past the limit.
pub fn read_input<I: Source>(alloc: Global, input: &mut I) -> Result<Vec<u8>, InputStop>
    ensures bytes { IfOk result
        (λ all. IfSome (I.left input.old) (λ bytes. (length bytes ≤ input_limit) ×
        (all.items ≡ bytes))) }
    ensures short { IfOk result (λ all. length all.items ≤ input_limit) }
    ensures reads { ReadsInput I.Source result input.old input.new }
{
    let bytes = read_up_to(alloc, input, INPUT_LIMIT)?;
    if bytes.len() > INPUT_LIMIT {
        return Err(InputStop::Long);
    }
    Ok(bytes)
}

/// Says why there is no input to go on with, where that is said in the output.
pub fn unread<O: Sink>(output: &mut O, stop: InputStop) -> Status
    ensures read { stop ≡ InputStop.Read → (result ≡ Status.ReadFault) × (output.new ≡ output.old) }
    ensures memory { stop ≡ InputStop.Memory → (result ≡ Status.Memory) ×
        (output.new ≡ output.old) }
    ensures long { stop ≡ InputStop.Long →
        Ends Status.Limit input_line result (O.written output.old) (O.written output.new)
        (O.faults output.old) (O.faults output.new) }
    ensures told { (result ≡ Status.WriteFault) ⊎ (O.faults output.new ≡ O.faults output.old) }
{
    match stop {
        InputStop::Read => Status::ReadFault,
        InputStop::Memory => Status::Memory,
        InputStop::Long => ends(output, b"limit input 8388608\n", Status::Limit),
    }
}
