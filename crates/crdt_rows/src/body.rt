//! What a completed version holds.
ghost use Rattle.std.specs.Prelude.{◌≡◌, length, refl};
ghost use Rattle.std.specs.Cmp.{partial_equiv_from_equiv, partial_order_from_total, eq_by_cmp_equiv};
ghost use Rattle.std.specs.Cmp.Lexicographic.{slice_cmp};
ghost use Rattle.std.specs.Ordering.{eq_by_cmp, as_partial_cmp};
ghost use Rattle.crdt_rows.specs.Fields.{bytes_cmp, header_cmp, list_cmp};

use blake2_hash::Hash32;
use crdt_core::{Bytes, List, Memory, Value};
use std::cmp::Ordering;

/// What the store says of an object beside its bytes. Two are ordered as their row bytes are: by size, by etag,
/// then by the headers, a shorter list first.
#[derive(Debug, Drop)]
pub struct Meta {
    /// The length of the object in bytes.
    pub size: u64,
    /// The MD5 digest of the object's bytes.
    pub etag: [u8; 16],
    /// Names and values, in the order in which they are answered.
    pub headers: List<(Bytes, Bytes)>,
}

/// What a completed version holds. Two are ordered by kind, a marker first and blocks last, and two of one kind
/// by their fields.
#[derive(Debug, Drop)]
pub enum Body {
    /// The object was deleted.
    Marker,
    /// The object's bytes themselves.
    Inline(Meta, Bytes),
    /// The digest of the object's first block.
    Blocks(Meta, Hash32),
}

// By length, then byte by byte, as a length stands before bytes in a row.
fn cmp_bytes(a: &[u8], b: &[u8]) -> Ordering
    ensures { result ≡ bytes_cmp a.now b.now }
{
    a.len().cmp(&b.len()).then(a.cmp(&b))
}

fn cmp_header(a: &(Bytes, Bytes), b: &(Bytes, Bytes)) -> Ordering
    ensures { result ≡ header_cmp a.now b.now }
{
    cmp_bytes(a.0.as_slice(), b.0.as_slice()).then(cmp_bytes(a.1.as_slice(), b.1.as_slice()))
}

// The first headers that differ decide.
fn cmp_each(a: &[(Bytes, Bytes)], b: &[(Bytes, Bytes)]) -> Ordering
    requires { length a.now ≡ length b.now }
    ensures { result ≡ slice_cmp header_cmp a.now b.now }
{
    for i in 0..a.len() {
        match cmp_header(&a[i], &b[i]) {
            Ordering::Equal => {}
            unequal => return unequal,
        }
    }
    Ordering::Equal
}

fn cmp_headers(a: &[(Bytes, Bytes)], b: &[(Bytes, Bytes)]) -> Ordering
    ensures { result ≡ list_cmp header_cmp a.now b.now }
{
    match a.len().cmp(&b.len()) {
        Ordering::Equal => cmp_each(a, b),
        unequal => unequal,
    }
}

impl Meta {
    ghost use Rattle.crdt_rows.specs.Body.{meta_cmp};

    fn order(&self, other: &Meta) -> Ordering
        ensures { result ≡ meta_cmp self.now other.now }
    {
        self.size
            .cmp(&other.size)
            .then(self.etag.cmp(&other.etag))
            .then(cmp_headers(self.headers.as_slice(), other.headers.as_slice()))
    }
}

impl PartialEq for Meta {
    ghost use Rattle.crdt_rows.specs.Body.{meta_cmp};
    ghost use Rattle.crdt_rows.specs.BodyLaws.{meta_total};

    ghost eq = { eq_by_cmp meta_cmp };

    ghost laws = { partial_equiv_from_equiv (eq_by_cmp_equiv meta_total) };

    fn eq(&self, other: &Meta) -> bool {
        self.order(other).is_eq()
    }
}

impl Eq for Meta {
    ghost use Rattle.crdt_rows.specs.BodyLaws.{meta_total};

    ghost laws = { eq_by_cmp_equiv meta_total };
}

impl PartialOrd for Meta {
    ghost use Rattle.crdt_rows.specs.Body.{meta_cmp};
    ghost use Rattle.crdt_rows.specs.BodyLaws.{meta_total};

    ghost partial_cmp = { as_partial_cmp meta_cmp };

    ghost laws = { partial_order_from_total meta_total };

    fn partial_cmp(&self, other: &Meta) -> Option<Ordering> {
        Some(self.order(other))
    }
}

impl Ord for Meta {
    ghost use Rattle.crdt_rows.specs.Body.{meta_cmp};
    ghost use Rattle.crdt_rows.specs.BodyLaws.{meta_total};

    ghost cmp = { meta_cmp };

    ghost total = { meta_total };

    ghost matches_partial_cmp = { λ a b. refl };

    ghost matches_eq = { λ a b. refl };

    fn cmp(&self, other: &Meta) -> Ordering {
        self.order(other)
    }
}

impl Value for Meta {
    ghost use Rattle.crdt_rows.specs.BodyLaws.{meta_identical};

    ghost identical = { meta_identical };

    fn copy(&self) -> Result<Meta, Memory> {
        Ok(Meta {
            size: self.size,
            etag: self.etag,
            headers: self.headers.copy()?,
        })
    }
}

impl Body {
    ghost use Rattle.crdt_rows.specs.Body.{body_cmp, body_tag};

    // The tag of a row's bytes.
    fn tag(&self) -> u8
        ensures { result ≡ body_tag self.now }
    {
        match self {
            Body::Marker => 2,
            Body::Inline(_, _) => 3,
            Body::Blocks(_, _) => 4,
        }
    }

    fn order(&self, other: &Body) -> Ordering
        ensures { result ≡ body_cmp self.now other.now }
    {
        match self {
            Body::Marker => self.tag().cmp(&other.tag()),
            Body::Inline(meta, bytes) => match other {
                Body::Inline(their_meta, their_bytes) => meta
                    .order(their_meta)
                    .then(cmp_bytes(bytes.as_slice(), their_bytes.as_slice())),
                _ => self.tag().cmp(&other.tag()),
            },
            Body::Blocks(meta, first) => match other {
                Body::Blocks(their_meta, their_first) => {
                    meta.order(their_meta).then(first.cmp(their_first))
                }
                _ => self.tag().cmp(&other.tag()),
            },
        }
    }
}

impl PartialEq for Body {
    ghost use Rattle.crdt_rows.specs.Body.{body_cmp};
    ghost use Rattle.crdt_rows.specs.BodyLaws.{body_total};

    ghost eq = { eq_by_cmp body_cmp };

    ghost laws = { partial_equiv_from_equiv (eq_by_cmp_equiv body_total) };

    fn eq(&self, other: &Body) -> bool {
        self.order(other).is_eq()
    }
}

impl Eq for Body {
    ghost use Rattle.crdt_rows.specs.BodyLaws.{body_total};

    ghost laws = { eq_by_cmp_equiv body_total };
}

impl PartialOrd for Body {
    ghost use Rattle.crdt_rows.specs.Body.{body_cmp};
    ghost use Rattle.crdt_rows.specs.BodyLaws.{body_total};

    ghost partial_cmp = { as_partial_cmp body_cmp };

    ghost laws = { partial_order_from_total body_total };

    fn partial_cmp(&self, other: &Body) -> Option<Ordering> {
        Some(self.order(other))
    }
}

impl Ord for Body {
    ghost use Rattle.crdt_rows.specs.Body.{body_cmp};
    ghost use Rattle.crdt_rows.specs.BodyLaws.{body_total};

    ghost cmp = { body_cmp };

    ghost total = { body_total };

    ghost matches_partial_cmp = { λ a b. refl };

    ghost matches_eq = { λ a b. refl };

    fn cmp(&self, other: &Body) -> Ordering {
        self.order(other)
    }
}

impl Value for Body {
    ghost use Rattle.crdt_rows.specs.BodyLaws.{body_identical};

    ghost identical = { body_identical };

    fn copy(&self) -> Result<Body, Memory> {
        match self {
            Body::Marker => Ok(Body::Marker),
            Body::Inline(meta, bytes) => Ok(Body::Inline(meta.copy()?, bytes.copy()?)),
            Body::Blocks(meta, first) => Ok(Body::Blocks(meta.copy()?, *first)),
        }
    }
}
