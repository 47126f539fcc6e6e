//! A sink that fills room of the caller, and the file of a source in room of just its size.
ghost use Rattle.std.specs.Prelude.{◌≡◌, ◌≤◌, length};
ghost use Rattle.sfnt_bytes.specs.declared.directory.TheConstants.{MAX_FILE};
ghost use Rattle.font_write.specs.Plan.{IsPlan, planned_file};

use font_write::{Plan, Sink, Source, Stopped, send_file};

/// Room, how many bytes of it are filled, and the byte that found no room, after which it is stopped.
#[derive(Drop)]
pub(crate) struct Filled<'a> {
    out: &'a mut [u8],
    at: usize,
    odd: u8,
    stopped: bool,
    ghost within: { at ≤ length out.now },
}

impl<'a> Sink for Filled<'a> {
    ghost use Rattle.fontcut_c.specs.Inside.{filling};

    ghost trace = { λ s. filling s.out.ghost_name s.out.now s.at s.odd s.stopped };

    fn take(&mut self, bytes: &[u8]) -> Result<(), Stopped> {
        let at = self.at;
        let fit = bytes.len().min(self.out.len() - at);
        self.out[at..at + fit].copy_from_slice(&bytes[..fit]);
        self.at = at + fit;
        if fit < bytes.len() {
            self.odd = bytes[fit];
            self.stopped = true;
            return Err(Stopped);
        }
        Ok(())
    }
}

/// Fills room with the file of a source, which has just its size. So the sink never stops.
pub(crate) fn fill<S: Source>(source: &S, plan: &Plan, out: &mut [u8])
    requires plan { IsPlan (S.content_of source.now) plan.now }
    requires size { length out.old ≡ length (planned_file plan.now (S.content_of source.now)) }
    requires small { length (planned_file plan.now (S.content_of source.now)) ≤ MAX_FILE }
    ensures { out.new ≡ planned_file plan.now (S.content_of source.now) }
{
    let mut filled = Filled {
        out,
        at: 0,
        odd: 0,
        stopped: false,
    };
    match send_file(source, plan, &mut filled) {
        Ok(()) => {}
        Err(_) => {}
    }
}
