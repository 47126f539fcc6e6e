//! Where bytes are sent.
ghost use Rattle.std.specs.Prelude.{◌≡◌, ◌+◌, ◌≤◌, length, false};
ghost use Rattle.font_write.specs.Trace.{Sends, Trace};
ghost use Rattle.sfnt_bytes.specs.declared.directory.TheConstants.{MAX_FILE};

/// A sink takes no more.
#[derive(Clone, Copy, Debug, PartialEq, Eq)]
pub struct Stopped;

/// What bytes are sent to, at most [`MAX_FILE`](sfnt_bytes::MAX_FILE) of them.
pub trait Sink {
    ghost use Rattle.font_write.specs.Trace.{Trace};

    /// What it has taken.
    ghost trace: { Self → Trace };

    /// Takes all of `bytes`. It is stopped afterwards exactly where it answers [`Stopped`], and has
    /// taken a front of them, then.
    fn take(&mut self, bytes: &[u8]) -> Result<(), Stopped>
        requires going { (trace self.old).stopped ≡ false }
        requires fits { (trace self.old).count + length bytes.now ≤ MAX_FILE }
        ensures { Sends (trace self.old) (trace self.new) bytes.now result };
}
