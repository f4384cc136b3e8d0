//! Which bytes of an object are answered.
ghost use Rattle.std.specs.Prelude.{◌≡◌, ℕ, List, ◌++◌, take, drop};
ghost use Rattle.s3_answer.specs.Portions.{taken, portion_of};

use crate::found::span_of;
use s3_model::Range;

/// Which of the bytes to come are answered: the first `skip` are left out, and `count` follow, or all where none is said.
#[derive(Clone, Copy)]
pub struct Portion {
    skip: u64,
    count: Option<u64>,
}

impl Portion {
    /// Which bytes of an object of `size` bytes are answered: those of a range, or all. There is no answer with them where the
    /// range starts at or past the object's end, or is its last 0 bytes.
    pub fn of(range: Option<Range>, size: u64) -> Option<Portion>
        ensures { result ≡ portion_of range size }
    {
        let Some(range) = range else {
            return Some(Portion {
                skip: 0,
                count: None,
            });
        };
        let (first, last) = span_of(range, size)?;
        Some(Portion {
            skip: first,
            count: Some((last + 1).saturating_sub(first)),
        })
    }

    /// Those of the next bytes that are answered, and which of the bytes after them are.
    pub fn take(self, bytes: &[u8]) -> (&[u8], Portion)
        ensures taken { result.0.now ≡ taken self bytes.now }
        ensures later { (more : List ℕ) →
            taken self (bytes.now ++ more) ≡ result.0.now ++ taken result.1 more }
    {
        let rest = from_place(bytes, self.skip);
        let skip = self.skip.saturating_sub(bytes.len() as u64);
        match self.count {
            Some(count) => {
                let taken = first_bytes(rest, count);
                let count = Some(count.saturating_sub(rest.len() as u64));
                (taken, Portion { skip, count })
            }
            None => (rest, Portion { skip, count: None }),
        }
    }
}

// The bytes from a place on, or none where there are fewer.
fn from_place(bytes: &[u8], place: u64) -> &[u8]
    ensures { result.now ≡ drop place bytes.now }
{
    if place < bytes.len() as u64 {
        &bytes[place as usize..]
    } else {
        &[]
    }
}

// The first bytes, or all where there are fewer.
fn first_bytes(bytes: &[u8], count: u64) -> &[u8]
    ensures { result.now ≡ take count bytes.now }
{
    if count < bytes.len() as u64 {
        &bytes[..count as usize]
    } else {
        bytes
    }
}
