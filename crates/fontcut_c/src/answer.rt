//! What each call answers.
ghost use Rattle.std.specs.Prelude.{◌≡◌};
ghost use Rattle.fontcut_c.specs.Answers.{at_step, bad_requests as bad_requests_with, done as done_with, no_numbers as no_numbers_with, refused as refused_with, sized as sized_with, told as told_with, unknown_kind as unknown_kind_with, unknown_request as unknown_request_with};

/// The status of a number that was given for a kind of cuts and is none's.
const UNKNOWN_KIND: u8 = 101;

/// The status of requests that are not alike, or not as many as there are places.
const BAD_REQUESTS: u8 = 103;

/// The status of glyphs that are asked for by number of full cuts.
const NO_NUMBERS: u8 = 104;

/// The status of a request that is not of this version, and of a sum of flags that is none.
const UNKNOWN_REQUEST: u8 = 105;

/// What a call answers. A field that has nothing to tell is 0.
#[repr(C)]
#[derive(Clone, Copy, Debug, PartialEq, Eq)]
pub struct Answer {
    /// 0 where the call is done, 100 where the room is too small, 101 where there is no such kind of cuts, 102 where the
    /// font has no such glyph, 103 where requests are not alike, 104 where glyphs are asked for by number of full cuts,
    /// 105 where a request is not of this version, 106 where a text is not as it should be, and else the number of the
    /// refusal.
    pub status: u32,
    /// What a refusal names: a tag as a big-endian number, an index, a glyph, a code or the number that is no
    /// kind's; and the answer to a question.
    pub detail: u32,
    /// How many bytes, ranges, glyphs or metrics were written; and where the status is 100 or 18, how many there
    /// are.
    pub size: u64,
    /// Which of several files or requests is refused, or which file was being joined when memory ran out, counted from
    /// 0.
    pub step: u64,
}

impl Answer {
    /// Returns the answer of a call that is done, and wrote so much.
    pub(crate) fn done(size: u64) -> Answer
        ensures { result ≡ done_with size }
    {
        Answer {
            status: 0,
            detail: 0,
            size,
            step: 0,
        }
    }

    /// Returns the answer to a question.
    pub(crate) fn told(detail: u32) -> Answer
        ensures { result ≡ told_with detail }
    {
        Answer {
            status: 0,
            detail,
            size: 0,
            step: 0,
        }
    }

    /// Returns the refusal of a number, with what it names.
    pub(crate) fn refused(number: u8, argument: u32) -> Answer
        ensures { result ≡ refused_with number argument }
    {
        Answer {
            status: u32::from(number),
            detail: argument,
            size: 0,
            step: 0,
        }
    }

    /// Returns the answer to a number that is no kind's.
    pub(crate) fn unknown_kind(number: u32) -> Answer
        ensures { result ≡ unknown_kind_with number }
    {
        Answer::refused(UNKNOWN_KIND, number)
    }

    /// Returns the answer where glyphs are asked for by number of full cuts.
    pub(crate) fn no_numbers() -> Answer
        ensures { result ≡ no_numbers_with }
    {
        Answer::refused(NO_NUMBERS, 0)
    }

    /// Returns the answer where requests are not alike, or not as many as there are places.
    pub(crate) fn bad_requests() -> Answer
        ensures { result ≡ bad_requests_with }
    {
        Answer::refused(BAD_REQUESTS, 0)
    }

    /// Returns the answer to a request, or a sum of flags, that this version does not know.
    pub(crate) fn unknown_request() -> Answer
        ensures { result ≡ unknown_request_with }
    {
        Answer::refused(UNKNOWN_REQUEST, 0)
    }

    /// Returns a status that says a size.
    pub(crate) fn sized(status: u8, size: u64) -> Answer
        ensures { result ≡ sized_with status size }
    {
        Answer {
            status: u32::from(status),
            detail: 0,
            size,
            step: 0,
        }
    }

    /// Returns this answer with the place of a file among several.
    pub(crate) fn at(self, step: u64) -> Answer
        ensures { result ≡ at_step step self }
    {
        Answer {
            status: self.status,
            detail: self.detail,
            size: self.size,
            step,
        }
    }
}
