//! A link that says where it listens.
ghost use Rattle.std.specs.Prelude.{◌≡◌};

use lab_outside::{Failed, Link};

/// A link that says on standard error where it listens, once it does, so that a person knows that the server is up.
#[derive(Drop)]
pub struct Announced<L, E> {
    link: L,
    errors: E,
}

impl<L: Link, E: Eprint> Announced<L, E> {
    pub fn new(link: L, errors: E) -> Self
        ensures present { ⟦<Announced<L, E> as Link>⟧.present result ≡ L.present link }
    {
        Announced { link, errors }
    }
}

impl<L: Link, E: Eprint> Link for Announced<L, E> {
    ghost coming = { λ it. L.coming it.link };

    ghost present = { λ it. L.present it.link };

    ghost past = { λ it. L.past it.link };

    ghost faults = { λ it. L.faults it.link };

    ghost open_at = { λ it. L.open_at it.link };

    /// A line that can't be written is left out: the port is open without it.
    fn open(&mut self, port: u16) -> Result<(), Failed> {
        self.link.open(port)?;
        let _ = eprintln!(self.errors; "garage_lab: listening on 127.0.0.1:{port}");
        Ok(())
    }

    fn next(&mut self) -> Result<bool, Failed> {
        self.link.next()
    }

    fn read(&mut self, into: &mut [u8]) -> Result<usize, Failed> {
        self.link.read(into)
    }

    fn write(&mut self, from: &[u8]) -> Result<usize, Failed> {
        self.link.write(from)
    }

    fn end(&mut self) {
        self.link.end();
    }
}
