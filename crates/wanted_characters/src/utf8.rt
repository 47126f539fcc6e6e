//! UTF-8, read byte by byte. The Unicode Standard, chapter 3, table 3-7, "Well-Formed UTF-8 Byte Sequences".

/// Bytes that are not UTF-8.
#[derive(Clone, Copy, Debug, PartialEq, Eq)]
pub struct NotUtf8;

/// A reader of UTF-8, between two bytes.
#[derive(Clone, Copy, Debug)]
pub struct Utf8 {
    // The bits of the character so far, how many bytes it lacks, and the least code of its length.
    bits: u32,
    lacks: u8,
    least: u32,
}

impl Utf8 {
    pub fn new() -> Utf8 {
        Utf8 {
            bits: 0,
            lacks: 0,
            least: 0,
        }
    }

    /// Returns whether a character is not complete.
    pub fn is_inside(&self) -> bool {
        self.lacks != 0
    }

    // Takes the first byte of a character that is longer than a byte.
    fn begin(&mut self, byte: u8) -> Result<(), NotUtf8> {
        let (bits, lacks, least) = match byte {
            0xC2..=0xDF => (byte & 0x1F, 1, 0x80),
            0xE0..=0xEF => (byte & 0x0F, 2, 0x800),
            0xF0..=0xF4 => (byte & 0x07, 3, 0x1_0000),
            _ => return Err(NotUtf8),
        };
        *self = Utf8 {
            bits: u32::from(bits),
            lacks,
            least,
        };
        Ok(())
    }

    /// Takes a byte, and returns the character that it ends.
    pub fn take(&mut self, byte: u8) -> Result<Option<char>, NotUtf8> {
        if self.lacks == 0 {
            if byte < 0x80 {
                return Ok(Some(char::from(byte)));
            }
            self.begin(byte)?;
            return Ok(None);
        }
        if byte & 0xC0 != 0x80 {
            return Err(NotUtf8);
        }
        self.bits = (self.bits << 6) | u32::from(byte & 0x3F);
        self.lacks -= 1;
        if self.lacks != 0 {
            return Ok(None);
        }
        match char::from_u32(self.bits) {
            Some(letter) if self.least <= self.bits => Ok(Some(letter)),
            _ => Err(NotUtf8),
        }
    }
}
