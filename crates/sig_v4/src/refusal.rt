//! Why a request is refused.

/// Why a signed request is refused, in the order in which the causes are looked at.
#[derive(Clone, Copy, Debug, PartialEq, Eq)]
pub enum Refusal {
    /// It has no Authorization header: 403 AccessDenied.
    Unsigned,
    /// It has several, or what it says of its signature isn't well-formed: 400 AuthorizationHeaderMalformed.
    Malformed,
    /// No key has the id: 403 InvalidAccessKeyId.
    UnknownKey,
    /// Its date and the clock differ by more than 900 seconds: 403 RequestTimeTooSkewed.
    Skewed,
    /// It has another signature than the key's: 403 SignatureDoesNotMatch.
    WrongSignature,
    /// The allocator had none to give.
    Memory,
}

impl From<crdt_core::Memory> for Refusal {
    ghost use Rattle.std.specs.Prelude.{◌≡◌};
    ghost use Rattle.sig_v4.specs.declared.refusal.Refusal.TheVariants.{Memory as Wanting};

    ghost from_gives = { λ _ refusal. refusal ≡ Wanting };

    fn from(_: crdt_core::Memory) -> Refusal {
        Refusal::Memory
    }
}
