//! A link that keeps what is written to it.
ghost use Rattle.std.specs.Prelude.{◌≡◌, None, IfOk};

use crdt_core::Memory;
use lab_outside::{Failed, Link, SureLink};
use std::alloc::Global;

/// A link, and all that was written to its connections. What there is no memory for is left out.
#[derive(Drop)]
pub struct Recorder<L> {
    link: L,
    written: Vec<u8>,
}

impl<L: Link> Recorder<L> {
    pub fn new(alloc: Global, link: L) -> Self
        ensures present { ⟦<Recorder<L> as Link>⟧.present result ≡ L.present link }
    {
        Recorder {
            link,
            written: Vec::new(alloc),
        }
    }

    /// What was written to all connections, one after the other.
    pub fn written(&self) -> &[u8] {
        &self.written
    }
}

impl<L: Link> Link for Recorder<L> {
    ghost coming = { λ it. L.coming it.link };

    ghost present = { λ it. L.present it.link };

    ghost past = { λ it. L.past it.link };

    ghost faults = { λ it. L.faults it.link };

    ghost open_at = { λ it. L.open_at it.link };

    fn open(&mut self, port: u16) -> Result<(), Failed> {
        self.link.open(port)
    }

    fn next(&mut self) -> Result<bool, Failed> {
        self.link.next()
    }

    fn read(&mut self, into: &mut [u8]) -> Result<usize, Failed> {
        self.link.read(into)
    }

    fn write(&mut self, from: &[u8]) -> Result<usize, Failed> {
        let count = self.link.write(from)?;
        let _ = self.written.extend_from_slice(&from[..count]);
        Ok(count)
    }

    fn end(&mut self) {
        self.link.end();
    }
}

/// One connection in memory over which these bytes come, with a buffer of `size` bytes for what it is sent.
pub fn recorded(alloc: Global, bytes: &[u8], size: usize) -> Result<Recorder<SureLink>, Memory>
    ensures present { IfOk result (λ link. ⟦<Recorder<SureLink> as Link>⟧.present link ≡ None) }
{
    let mut coming = Vec::new(alloc);
    coming.push(bytes.to_vec(alloc)?)?;
    Ok(Recorder::new(alloc, SureLink::new(alloc, coming, size)?))
}
