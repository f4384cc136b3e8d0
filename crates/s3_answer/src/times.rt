//! Times as they are written, from milliseconds since 1970.
ghost use Rattle.std.specs.Prelude.{◌≡◌, ◌++◌, ◌/◌, ◌*◌, ◌≤ℤ◌, pos, min, OnOk, codes, IfOk};
ghost use Rattle.crdt_core.specs.Outcomes.{OnlyWant};
ghost use Rattle.jiff_core.specs.Time.{time_seconds};
ghost use Rattle.date_model.specs.Days.{Day, IsOn, IsShown};
ghost use Rattle.s3_model.specs.Dates as dates;

use crate::digits::{append_four, append_three, append_two};
use crdt_core::{Bytes, Memory};
use httpdate::HttpDate;
use jiff::Timestamp;
use jiff::civil::{Date, DateTime, Time};
use jiff::tz::Offset;
use std::alloc::Global;

/// The greatest time that is written. A later one is written as this one.
const LAST_TIME: u64 = 253_402_200_000_000;

/// The second of a time, or of the last one.
fn written_second(ms: u64) -> u64
    ensures { result ≡ min ms dates.last_time / 1000 }
{
    ms.min(LAST_TIME) / 1000
}

/// A date of HTTP (RFC 9110, section 5.6.7), in whole seconds.
pub(crate) fn http_date(ms: u64) -> [u8; 29]
    ensures { result ≡ dates.http_date ms }
{
    match HttpDate::from_unix_secs(written_second(ms)) {
        Ok(date) => date.to_bytes(),
        Err(_) => unreachable!(),
    }
}

/// The date and the time in UTC of a time, or of the last one.
fn civil_at(ms: u64) -> DateTime
    ensures { IsShown (min ms dates.last_time) result }
{
    match Timestamp::from_millisecond(ms.min(LAST_TIME) as i64) {
        Ok(instant) => Offset::UTC.to_datetime(instant),
        Err(_) => unreachable!(),
    }
}

fn append_date(out: &mut Bytes, date: Date) -> Result<(), Memory>
    requires { pos 0 ≤ℤ date.year }
    ensures ok { (x : Day) → IsOn x date → OnOk result (out.new ≡ out.old ++ dates.day_digits x) }
    ensures want { OnlyWant result }
{
    append_four(out, date.year() as u32)?;
    out.push(b'-')?;
    append_two(out, date.month() as u32)?;
    out.push(b'-')?;
    append_two(out, date.day() as u32)
}

fn append_clock(out: &mut Bytes, time: Time) -> Result<(), Memory>
    ensures ok { OnOk result (out.new ≡ out.old ++ dates.clock_digits (time_seconds time)) }
    ensures want { OnlyWant result }
{
    append_two(out, time.hour() as u32)?;
    out.push(b':')?;
    append_two(out, time.minute() as u32)?;
    out.push(b':')?;
    append_two(out, time.second() as u32)
}

/// A time as lists write it (ISO 8601).
#[tactic(auto, unfolding(s3_model::specs::Dates::list_time))]
pub(crate) fn list_time(alloc: Global, ms: u64) -> Result<Bytes, Memory>
    ensures text { IfOk result (λ t. t ≡ dates.list_time ms) }
    ensures want { OnlyWant result }
{
    let civil = civil_at(ms);
    let mut out = Bytes::new(alloc);
    append_date(&mut out, civil.date())?;
    out.push(b'T')?;
    append_clock(&mut out, civil.time())?;
    out.push(b'.')?;
    append_three(&mut out, civil.millisecond() as u32)?;
    out.push(b'Z')?;
    Ok(out)
}
