//! Dates of signed requests, against Python's datetime: the first second, leap days, the last second of a year, the
//! greatest time that is written; and what is no date.
use crate::fixtures::{head_of, key, word};
use crdt_core::{Bytes, List, Memory};
use layout_text::Key;
use sig_v4::check;
use std::alloc::Global;
use std::test::Fail;

const ID: &[u8] = b"GK31c2f218a2e44f485b94239e";

const SECRET: &[u8] = b"b892c0665f0ada8a4755dae98baa3b133590e11dae3bcc1f9d769d67f16c3835";

/// A date, its seconds since 1970, and the signature that Python's hmac gives to a request of this date.
type Dated = (&'static [u8], u64, &'static [u8]);

const DATES: [Dated; 7] = [
    (
        b"19700101T000000Z",
        0,
        b"c53d6aed562365a13a2b225ace454d27eed90956703360c3dc3ce1c2e3a2812c",
    ),
    (
        b"20000229T000000Z",
        951_782_400,
        b"1f41c0feecf4d54ec8f8a025e7cfb3d0a30f5dbca2fd21674dd7f72909281605",
    ),
    (
        b"20240229T235959Z",
        1_709_251_199,
        b"aa4c59a8520da7de82aa3935e4b8fc6b07e246832bc67e70c40dbabd22fef8b7",
    ),
    (
        b"21000228T235959Z",
        4_107_542_399,
        b"9a451246935f770bfb54f61934e35456863ea14e76c57489dd373f1fe1fb0039",
    ),
    (
        b"21000301T000000Z",
        4_107_542_400,
        b"4f2578c8da556fbe6c8def0fd85f2d1475ec9584994d459f389d2f7c34e9dc70",
    ),
    (
        b"20241231T235959Z",
        1_735_689_599,
        b"26ad8f2e8d1029fbd336699e1827914db661a24c45559e867d73459bc7cc18fe",
    ),
    (
        b"99991230T200000Z",
        253_402_200_000,
        b"31e882d9f8cdc61c757e11ce6b87698f31f3208291efbe29ac0a12ea6b640457",
    ),
];

/// What has the form of a date, but for the last three, and is none: Python's datetime has no such day or second.
const NO_DATES: [&[u8]; 10] = [
    b"21000229T000000Z",
    b"20230229T000000Z",
    b"20240230T000000Z",
    b"20241301T000000Z",
    b"20240001T000000Z",
    b"20240100T000000Z",
    b"20240229T240000Z",
    b"20240229T235960Z",
    b"20240229T2359599",
    b"2024-02-29T23:59",
];

/// The day of a date.
fn day_of(date: &[u8]) -> &[u8] {
    if date.len() < 8 { date } else { &date[..8] }
}

/// A request of a date under a signature.
fn request(alloc: Global, date: &[u8], signature: &[u8]) -> Result<Bytes, Memory> {
    let mut text = Bytes::from_slice(
        alloc,
        b"GET /pics/a\nAuthorization:AWS4-HMAC-SHA256 Credential=",
    )?;
    text.extend_from_slice(ID)?;
    text.push(b'/')?;
    text.extend_from_slice(day_of(date))?;
    text.extend_from_slice(
        b"/garage/s3/aws4_request, SignedHeaders=host;x-amz-content-sha256;x-amz-date, Signature=",
    )?;
    text.extend_from_slice(signature)?;
    text.extend_from_slice(
        b"\nHost:localhost:3900\nx-amz-content-sha256:UNSIGNED-PAYLOAD\nx-amz-date:",
    )?;
    text.extend_from_slice(date)?;
    Ok(text)
}

/// The request of the second leap day, whose body isn't signed.
pub fn unsigned_body(alloc: Global) -> Result<Bytes, Memory> {
    request(alloc, DATES[2].0, DATES[2].2)
}

/// What the check of a request of a date answers at a time.
fn answer(alloc: Global, date: &[u8], signature: &[u8], now: u64) -> Result<&'static [u8], Memory> {
    let mut keys: List<Key> = List::new(alloc);
    keys.push(key(alloc, ID, SECRET)?)?;
    let head = head_of(alloc, request(alloc, date, signature)?.as_slice())?;
    Ok(word(check(alloc, &head, keys.as_slice(), b"garage", now)))
}

/// What the check of a request answers so many milliseconds after its date, and as many before it.
fn answers(
    alloc: Global,
    (date, seconds, signature): Dated,
    away: u64,
) -> Result<(&'static [u8], &'static [u8]), Memory> {
    let at = seconds.saturating_mul(1000);
    let after = answer(alloc, date, signature, at.saturating_add(away))?;
    let before = answer(alloc, date, signature, at.saturating_sub(away))?;
    Ok((after, before))
}

const KEY: &[u8] = b"key 0";

const SKEWED: &[u8] = b"skewed";

#[test]
fn dates(rt: HostRuntime) -> Result<(), Fail> {
    for row in DATES {
        assert_eq!(rt; answers(rt.alloc(), row, 0)?, (KEY, KEY));
        assert_eq!(rt; answers(rt.alloc(), row, 900_000)?, (KEY, KEY));
    }
    Ok(())
}

/// No clock shows a time before 1970, so the first date isn't too far from one that is early.
#[test]
fn dates_too_far_away(rt: HostRuntime) -> Result<(), Fail> {
    for row in DATES {
        let early = if row.1 == 0 { KEY } else { SKEWED };
        assert_eq!(rt; answers(rt.alloc(), row, 900_001)?, (SKEWED, early));
    }
    Ok(())
}

#[test]
fn no_dates(rt: HostRuntime) -> Result<(), Fail> {
    for date in NO_DATES {
        assert_eq!(rt;
            answer(rt.alloc(), date, DATES[2].2, 1_709_251_199_000)?,
            b"malformed".as_slice()
        );
    }
    Ok(())
}

/// Dates before 1970 and on the last day that there is are dates.
#[test]
fn dates_out_of_reach(rt: HostRuntime) -> Result<(), Fail> {
    for date in [
        b"00000101T000000Z",
        b"19691231T235959Z",
        b"99991231T235959Z",
    ] {
        assert_eq!(rt;
            answer(rt.alloc(), date.as_slice(), DATES[0].2, 1_709_251_199_000)?,
            b"skewed".as_slice()
        );
    }
    Ok(())
}
