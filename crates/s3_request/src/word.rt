//! Texts, compared with and without case.
ghost use Rattle.std.specs.Prelude.{◌≡◌, map, option_map, find, bytes_eq};
ghost use Rattle.std.specs.List.{list_any};
ghost use Rattle.s3_model.specs.Headers.{is_one_of};
ghost use Rattle.s3_model.specs.Words.{is_word, begins_word, holds_word, first_named, header};

use crdt_core::Bytes;

/// Two texts are the same but for the case of ASCII letters.
pub(crate) fn is_word(text: &[u8], word: &[u8]) -> bool
    ensures { result ≡ is_word text.now word.now }
{
    text.eq_ignore_ascii_case(word)
}

/// The text is one of the words, without case.
pub(crate) fn is_one_of(words: &[&[u8]], text: &[u8]) -> bool
    ensures { result ≡ is_one_of (map (λ word. word.now) words.now) text.now }
{
    words.iter().any(|word| is_word(text, word))
}

/// The text begins with the word, without case.
pub(crate) fn begins_word(text: &[u8], word: &[u8]) -> bool
    ensures { result ≡ begins_word text.now word.now }
{
    is_word(&text[..word.len().min(text.len())], word)
}

/// The word, without case, begins in some place of the text.
pub(crate) fn holds_word(text: &[u8], word: &[u8]) -> bool
    ensures { result ≡ holds_word text.now word.now }
{
    for start in 0..text.len() {
        if begins_word(&text[start..], word) {
            return true;
        }
    }
    begins_word(b"", word)
}

/// The text is one of the names, with case.
pub(crate) fn is_in(names: &[&[u8]], text: &[u8]) -> bool
    ensures { result ≡ list_any (λ name. bytes_eq text.now name) (map
        (λ name. name.now) names.now) }
{
    names.iter().any(|name| text == *name)
}

fn pair_named<'a>(pairs: &'a [(Bytes, Bytes)], name: &[u8]) -> Option<&'a (Bytes, Bytes)>
    ensures { option_map (λ pair. pair.now) result ≡ find (λ p. bytes_eq p.0 name.now) pairs.now }
{
    pairs.iter().find(|pair| pair.0.as_slice() == name)
}

/// The first value with this name, which is compared by the byte.
pub(crate) fn first_named<'a>(pairs: &'a [(Bytes, Bytes)], name: &[u8]) -> Option<&'a [u8]>
    ensures { option_map (λ value. value.now) result ≡ first_named pairs.now name.now }
{
    match pair_named(pairs, name) {
        Some(pair) => Some(pair.1.as_slice()),
        None => None,
    }
}

fn header_named<'a>(headers: &'a [(Bytes, Bytes)], name: &[u8]) -> Option<&'a (Bytes, Bytes)>
    ensures { option_map (λ header. header.now) result ≡ find
        (λ h. is_word h.0 name.now) headers.now }
{
    headers
        .iter()
        .find(|header| is_word(header.0.as_slice(), name))
}

/// The value of the first header with this name.
pub(crate) fn header<'a>(headers: &'a [(Bytes, Bytes)], name: &[u8]) -> Option<&'a [u8]>
    ensures { option_map (λ value. value.now) result ≡ header headers.now name.now }
{
    match header_named(headers, name) {
        Some(header) => Some(header.1.as_slice()),
        None => None,
    }
}
