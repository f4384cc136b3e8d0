//! What the words of a line mean in a record.
ghost use Rattle.std.specs.Prelude.{◌≡◌};
ghost use Rattle.audit_model.specs.Heard.{is_word_of, version_of, answer_of, cause_of};

use audit_model::Answered;
use cluster_machine::{DoneWord, EndWord};
use crdt_rows::Version;
use history_model::{Answer, Cause, Kind};

/// Whether requests of this kind finish with this word.
pub fn is_word_of(word: DoneWord, kind: Kind) -> bool
    ensures { result ≡ is_word_of word kind }
{
    match word {
        DoneWord::Put => kind == Kind::Put,
        DoneWord::Get => kind == Kind::Get,
        DoneWord::Head => kind == Kind::Head,
        DoneWord::Delete => kind == Kind::Delete,
        DoneWord::Copy => kind == Kind::Copy,
    }
}

/// A version by its timestamp and its identifier.
pub fn version_of(version: (u64, u64)) -> Version
    ensures { result ≡ version_of version }
{
    Version {
        ts: version.0,
        id: version.1,
    }
}

/// The answer that a record has, without size and MD5.
pub fn answer_of(answer: &Answered) -> Answer
    ensures { result ≡ answer_of answer.now }
{
    match answer {
        Answered::Version { version, .. } => Answer::Version(version_of(*version)),
        Answered::None => Answer::None,
    }
}

/// The cause that a record has, without the identifier of an overwritten version.
pub fn cause_of(word: EndWord) -> Cause
    ensures { result ≡ cause_of word }
{
    match word {
        EndWord::Expired => Cause::Expired,
        EndWord::Restarted => Cause::Restarted,
        EndWord::Superseded => Cause::Superseded(0),
    }
}
