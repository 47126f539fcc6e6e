//! An outlet as a sink. It stops where a write fails.
use crate::sink::{Sink, Stopped};
use std::io::Write;
use streams::Outlet;

impl<W: Write> Sink for Outlet<W> {
    ghost use Rattle.std.specs.Prelude.{[]};
    ghost use Rattle.streams.specs.Outlet.{broken_of, writer_of, written_of};

    ghost trace = { λ o. record {
      fixed = [];
      count = written_of o;
      taken = W.contents (writer_of o);
      shown = W.contents (writer_of o);
      stopped = broken_of o;
    } };

    fn take(&mut self, bytes: &[u8]) -> Result<(), Stopped> {
        match self.put(bytes) {
            Ok(()) => Ok(()),
            Err(_) => Err(Stopped),
        }
    }
}
