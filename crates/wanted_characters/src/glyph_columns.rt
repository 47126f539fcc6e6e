//! The lines that `codes --glyphs` prints: a code, the number of its glyph, and an advance width. Where a file of
//! words has such a line, its numbers name no codes.

// The most digits of a glyph number and of an advance width, which have 16 bits.
const DIGITS: usize = 5;

/// Codes that words name, in the order of the words.
pub(crate) type Named = [Option<(u32, u32)>; 3];

/// The words of a line so far.
#[derive(Clone, Copy)]
pub(crate) struct GlyphColumns {
    // Whether such lines are looked for.
    is_asked: bool,
    count: u32,
    // Whether they are the first ones of such a line.
    may_be: bool,
    // The codes that its numbers name if it is none.
    held: [Option<(u32, u32)>; 2],
}

// Returns whether a word has decimal digits alone, and not too many of them.
fn is_number(word: &str) -> bool {
    word.len() <= DIGITS && word.bytes().all(|byte| byte.is_ascii_digit())
}

// Returns whether a word names one code by `U+` and its digits.
fn is_code(word: &str) -> bool {
    word.starts_with("U+") && word.bytes().skip(2).all(|byte| byte.is_ascii_hexdigit())
}

impl GlyphColumns {
    /// Returns those of a line that begins, in a text where such lines may stand or not.
    pub(crate) fn new(is_asked: bool) -> GlyphColumns {
        GlyphColumns {
            is_asked,
            count: 0,
            may_be: is_asked,
            held: [None, None],
        }
    }

    /// Returns whether no word of the line has come.
    pub(crate) fn is_empty(&self) -> bool {
        self.count == 0
    }

    // Returns whether a word is the next one of such a line, after which this character stands.
    fn goes_on(&self, word: &str, after: char) -> bool {
        match self.count {
            0 => is_code(word) && after == ' ',
            1 => is_number(word) && after == ' ',
            2 => is_number(word) && after != ',' && after != ';',
            _ => false,
        }
    }

    /// Takes the next word of a line, the codes that it names, and the character after it. Returns the codes that are
    /// named for certain now and were not before.
    pub(crate) fn take(&mut self, word: &str, codes: (u32, u32), after: char) -> Named {
        self.may_be = self.may_be && self.goes_on(word, after);
        let count = self.count;
        self.count = count.saturating_add(1);
        if self.may_be && count == 1 {
            self.held = [Some(codes), None];
            return [None, None, None];
        }
        if self.may_be && count == 2 {
            self.held = [self.held[0], Some(codes)];
            return [None, None, None];
        }
        let named = [self.held[0], self.held[1], Some(codes)];
        self.held = [None, None];
        named
    }

    /// Takes the end of a line, after which another one begins. Returns the codes that it names and that were not
    /// named before.
    pub(crate) fn end_line(&mut self) -> Named {
        let is_one = self.may_be && self.count == 3;
        let held = self.held;
        *self = GlyphColumns::new(self.is_asked);
        if is_one {
            [None, None, None]
        } else {
            [held[0], held[1], None]
        }
    }
}
