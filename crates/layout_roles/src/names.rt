//! Which bytes are the name of a bucket or of a zone.
ghost use Rattle.std.specs.Prelude.{◌≡◌, ◌<◌, ◌-◌, ◌&&◌, length, slice_index};
ghost use Rattle.std.specs.List.{list_all};
ghost use Rattle.layout_roles.specs.Names.{is_name_byte, is_bucket_byte, is_bucket_name, is_zone_name};

/// A lower-case letter or a digit.
pub fn is_name_byte(byte: u8) -> bool
    ensures { result ≡ is_name_byte byte }
{
    matches!(byte, b'a'..=b'z' | b'0'..=b'9')
}

fn is_bucket_byte(byte: u8) -> bool
    ensures { result ≡ is_bucket_byte byte }
{
    is_name_byte(byte) || byte == b'-' || byte == b'.'
}

fn are_bucket_bytes(bytes: &[u8]) -> bool
    ensures { result ≡ list_all is_bucket_byte bytes.now }
{
    bytes.iter().all(|byte| is_bucket_byte(*byte))
}

fn are_name_bytes(bytes: &[u8]) -> bool
    ensures { result ≡ list_all is_name_byte bytes.now }
{
    bytes.iter().all(|byte| is_name_byte(*byte))
}

fn has_name_ends(name: &[u8]) -> bool
    requires { 0 < length name.now }
    ensures { result ≡ (is_name_byte (slice_index name.now 0) && is_name_byte
        (slice_index name.now (length name.now - 1))) }
{
    is_name_byte(name[0]) && is_name_byte(name[name.len() - 1])
}

/// 3 to 63 lower-case letters, digits, `-` and `.`, the first and the last a letter or digit.
pub fn is_bucket_name(name: &[u8]) -> bool
    ensures { result ≡ is_bucket_name name.now }
{
    3 <= name.len() && name.len() <= 63 && are_bucket_bytes(name) && has_name_ends(name)
}

/// 1 to 16 lower-case letters and digits.
pub fn is_zone_name(name: &[u8]) -> bool
    ensures { result ≡ is_zone_name name.now }
{
    1 <= name.len() && name.len() <= 16 && are_name_bytes(name)
}
