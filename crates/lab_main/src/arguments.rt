//! The words after the program's name.
ghost use Rattle.std.specs.Prelude.{◌≡◌, [], IfErr, IsErr, IsOkAnd};
ghost use Rattle.std.specs.IoError.{error_kind};

use std::alloc::{AllocError, Global};
use std::env::Args;
use std::io::ErrorKind;
use std::rt::Env;
use std::{env, io};

/// The words after the program's name, as the program was told all of them. Where one of them is no text there are none,
/// since no command has such a word, and no words ask for nothing either.
fn after_name(alloc: Global, told: io::Result<Args>) -> Result<Vec<String>, AllocError>
    ensures not_text { IfErr told (λ e. error_kind e ≡ ErrorKind.InvalidData →
        IsOkAnd result (λ words. words.items ≡ [])) }
    ensures wanting { IfErr told (λ e. (error_kind e ≡ ErrorKind.InvalidData → ⊥) → IsErr result) }
{
    match told {
        Ok(words) => words.skip(1).collect(alloc),
        Err(error) => {
            if error.kind() == ErrorKind::InvalidData {
                Ok(Vec::new(alloc))
            } else {
                Err(AllocError)
            }
        }
    }
}

/// The words after the program's name; none where one of them is no text.
pub fn words(rt: &(impl Env + Alloc<A = Global>)) -> Result<Vec<String>, AllocError> {
    after_name(rt.alloc(), env::args(rt))
}
