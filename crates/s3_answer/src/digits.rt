//! Numbers in a fixed count of decimal digits.
ghost use Rattle.std.specs.Prelude.{◌≡◌, ◌<◌, ◌++◌, OnOk};
ghost use Rattle.crdt_core.specs.Outcomes.{OnlyWant};
ghost use Rattle.httpdate.specs.Text.{two_digits, four_digits};
ghost use Rattle.s3_model.specs.Dates.{three_digits};

use crdt_core::{Bytes, Memory};

/// A number below 100.
pub(crate) fn append_two(out: &mut Bytes, n: u32) -> Result<(), Memory>
    requires { n < 2000 }
    ensures ok { OnOk result (out.new ≡ out.old ++ two_digits n) }
    ensures want { OnlyWant result }
{
    out.push(b'0' + (n / 10) as u8)?;
    out.push(b'0' + (n % 10) as u8)
}

/// A number below 1000.
pub(crate) fn append_three(out: &mut Bytes, n: u32) -> Result<(), Memory>
    requires { n < 1000 }
    ensures ok { OnOk result (out.new ≡ out.old ++ three_digits n) }
    ensures want { OnlyWant result }
{
    out.push(b'0' + (n / 100) as u8)?;
    append_two(out, n % 100)
}

/// A number below 10000.
pub(crate) fn append_four(out: &mut Bytes, n: u32) -> Result<(), Memory>
    requires { n < 200000 }
    ensures ok { OnOk result (out.new ≡ out.old ++ four_digits n) }
    ensures want { OnlyWant result }
{
    append_two(out, n / 100)?;
    append_two(out, n % 100)
}
