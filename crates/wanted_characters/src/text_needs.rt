//! The characters that a text needs: its own, and those that shapers take or put in while they shape it. docs/FORMAT.md
//! has the table. What belongs to a character alone is looked up once, when the character comes for the first time.
use crate::code_set::CodeSet;
use std::alloc::{AllocError, Global};
use std::mem;
use ucd_bidi::{BidiClass, JoiningType};
use ucd_script::Script;
use unicode_normalization::char::{canonical_combining_class, compose, is_combining_mark};
use unicode_normalization::slice::extend_nfd;

// What is drawn for a missing space or an invisible character.
const SPACE: u32 = 0x20;

// What stands under a mark that has no letter.
const DOTTED_CIRCLE: u32 = 0x25CC;

const NON_JOINER: u32 = 0x200C;

const JOINER: u32 = 0x200D;

// Each character that shapers take others for or put one before, and these, which may be one.
const PUT_IN: [(u32, u32, u32); 8] = [
    (0x0E33, 0x0E4D, 0x0E32),
    (0x0EB3, 0x0ECD, 0x0EB2),
    (0x17BE, 0x17C1, 0x17C1),
    (0x17BF, 0x17C1, 0x17C1),
    (0x17C0, 0x17C1, 0x17C1),
    (0x17C4, 0x17C1, 0x17C1),
    (0x17C5, 0x17C1, 0x17C1),
    (0x2011, 0x2010, 0x002D),
];

// Two characters and their composite, where Unicode excludes that from composition and HarfBuzz composes it: a letter of
// Bengali, and those of Hebrew for fonts that do not place its marks.
const RECOMPOSED: [(char, char, char); 35] = [
    ('\u{09AF}', '\u{09BC}', '\u{09DF}'),
    ('\u{05D9}', '\u{05B4}', '\u{FB1D}'),
    ('\u{05F2}', '\u{05B7}', '\u{FB1F}'),
    ('\u{05E9}', '\u{05C1}', '\u{FB2A}'),
    ('\u{05E9}', '\u{05C2}', '\u{FB2B}'),
    ('\u{FB49}', '\u{05C1}', '\u{FB2C}'),
    ('\u{FB49}', '\u{05C2}', '\u{FB2D}'),
    ('\u{05D0}', '\u{05B7}', '\u{FB2E}'),
    ('\u{05D0}', '\u{05B8}', '\u{FB2F}'),
    ('\u{05D0}', '\u{05BC}', '\u{FB30}'),
    ('\u{05D1}', '\u{05BC}', '\u{FB31}'),
    ('\u{05D2}', '\u{05BC}', '\u{FB32}'),
    ('\u{05D3}', '\u{05BC}', '\u{FB33}'),
    ('\u{05D4}', '\u{05BC}', '\u{FB34}'),
    ('\u{05D5}', '\u{05BC}', '\u{FB35}'),
    ('\u{05D6}', '\u{05BC}', '\u{FB36}'),
    ('\u{05D8}', '\u{05BC}', '\u{FB38}'),
    ('\u{05D9}', '\u{05BC}', '\u{FB39}'),
    ('\u{05DA}', '\u{05BC}', '\u{FB3A}'),
    ('\u{05DB}', '\u{05BC}', '\u{FB3B}'),
    ('\u{05DC}', '\u{05BC}', '\u{FB3C}'),
    ('\u{05DE}', '\u{05BC}', '\u{FB3E}'),
    ('\u{05E0}', '\u{05BC}', '\u{FB40}'),
    ('\u{05E1}', '\u{05BC}', '\u{FB41}'),
    ('\u{05E3}', '\u{05BC}', '\u{FB43}'),
    ('\u{05E4}', '\u{05BC}', '\u{FB44}'),
    ('\u{05E6}', '\u{05BC}', '\u{FB46}'),
    ('\u{05E7}', '\u{05BC}', '\u{FB47}'),
    ('\u{05E8}', '\u{05BC}', '\u{FB48}'),
    ('\u{05E9}', '\u{05BC}', '\u{FB49}'),
    ('\u{05EA}', '\u{05BC}', '\u{FB4A}'),
    ('\u{05D5}', '\u{05B9}', '\u{FB4B}'),
    ('\u{05D1}', '\u{05BF}', '\u{FB4C}'),
    ('\u{05DB}', '\u{05BF}', '\u{FB4D}'),
    ('\u{05E4}', '\u{05BF}', '\u{FB4E}'),
];

// Runs of codes of which each two that follow one another mirror each other. Unicode, BidiMirroring.txt.
const MIRRORED_RUNS: [(u32, u32); 61] = [
    (0x0028, 0x0029),
    (0x0F3A, 0x0F3D),
    (0x169B, 0x169C),
    (0x2039, 0x203A),
    (0x2045, 0x2046),
    (0x207D, 0x207E),
    (0x208D, 0x208E),
    (0x223C, 0x223D),
    (0x2252, 0x2255),
    (0x2264, 0x226B),
    (0x226E, 0x228B),
    (0x228F, 0x2292),
    (0x22A2, 0x22A3),
    (0x22B0, 0x22B7),
    (0x22C9, 0x22CC),
    (0x22D0, 0x22D1),
    (0x22D6, 0x22ED),
    (0x22F0, 0x22F1),
    (0x2308, 0x230B),
    (0x2329, 0x232A),
    (0x2768, 0x2775),
    (0x27C3, 0x27C6),
    (0x27C8, 0x27C9),
    (0x27D5, 0x27D6),
    (0x27DD, 0x27DE),
    (0x27E2, 0x27EF),
    (0x2983, 0x298C),
    (0x298E, 0x298F),
    (0x2991, 0x2998),
    (0x29A4, 0x29A5),
    (0x29A8, 0x29AF),
    (0x29C0, 0x29C1),
    (0x29C4, 0x29C5),
    (0x29CF, 0x29D2),
    (0x29D4, 0x29D5),
    (0x29D8, 0x29DB),
    (0x29E8, 0x29E9),
    (0x29F8, 0x29F9),
    (0x29FC, 0x29FD),
    (0x2A2B, 0x2A2E),
    (0x2A34, 0x2A35),
    (0x2A3C, 0x2A3D),
    (0x2A64, 0x2A65),
    (0x2A79, 0x2AA2),
    (0x2AA6, 0x2AAD),
    (0x2AAF, 0x2AD6),
    (0x2AEC, 0x2AED),
    (0x2AF7, 0x2AFA),
    (0x2E02, 0x2E05),
    (0x2E09, 0x2E0A),
    (0x2E0C, 0x2E0D),
    (0x2E1C, 0x2E1D),
    (0x2E20, 0x2E29),
    (0x2E55, 0x2E5C),
    (0x3008, 0x3011),
    (0x3014, 0x301B),
    (0xFE59, 0xFE5E),
    (0xFE64, 0xFE65),
    (0xFF08, 0xFF09),
    (0xFF5F, 0xFF60),
    (0xFF62, 0xFF63),
];

// The other pairs of codes that mirror each other.
const MIRRORED_PAIRS: [(u32, u32); 31] = [
    (0x003C, 0x003E),
    (0x005B, 0x005D),
    (0x007B, 0x007D),
    (0x00AB, 0x00BB),
    (0x2208, 0x220B),
    (0x2209, 0x220C),
    (0x220A, 0x220D),
    (0x2215, 0x29F5),
    (0x221F, 0x2BFE),
    (0x2220, 0x29A3),
    (0x2221, 0x299B),
    (0x2222, 0x29A0),
    (0x2224, 0x2AEE),
    (0x2243, 0x22CD),
    (0x2245, 0x224C),
    (0x2298, 0x29B8),
    (0x22A6, 0x2ADE),
    (0x22A8, 0x2AE4),
    (0x22A9, 0x2AE3),
    (0x22AB, 0x2AE5),
    (0x22B8, 0x27DC),
    (0x22F2, 0x22FA),
    (0x22F3, 0x22FB),
    (0x22F4, 0x22FC),
    (0x22F6, 0x22FD),
    (0x22F7, 0x22FE),
    (0x27CB, 0x27CD),
    (0x298D, 0x2990),
    (0xFF1C, 0xFF1E),
    (0xFF3B, 0xFF3D),
    (0xFF5B, 0xFF5D),
];

// Returns whether a character is of a script that HarfBuzz shapes by syllables: an Indic script, Khmer, Myanmar, or one
// of its universal shaper.
fn is_of_syllables(letter: char) -> bool {
    matches!(
        Script::for_char(letter),
        Script::Adlam
            | Script::Ahom
            | Script::Balinese
            | Script::Batak
            | Script::Bengali
            | Script::Bhaiksuki
            | Script::Brahmi
            | Script::Buginese
            | Script::Buhid
            | Script::Chakma
            | Script::Cham
            | Script::Chorasmian
            | Script::CyproMinoan
            | Script::Devanagari
            | Script::DivesAkuru
            | Script::Dogra
            | Script::Duployan
            | Script::EgyptianHieroglyphs
            | Script::Elymaic
            | Script::Garay
            | Script::Grantha
            | Script::Gujarati
            | Script::GunjalaGondi
            | Script::Gurmukhi
            | Script::GurungKhema
            | Script::HanifiRohingya
            | Script::Hanunoo
            | Script::Javanese
            | Script::Kaithi
            | Script::Kannada
            | Script::Kawi
            | Script::KayahLi
            | Script::Kharoshthi
            | Script::KhitanSmallScript
            | Script::Khmer
            | Script::Khojki
            | Script::Khudawadi
            | Script::KiratRai
            | Script::Lepcha
            | Script::Limbu
            | Script::Mahajani
            | Script::Makasar
            | Script::Malayalam
            | Script::Mandaic
            | Script::Manichaean
            | Script::Marchen
            | Script::MasaramGondi
            | Script::Medefaidrin
            | Script::MeeteiMayek
            | Script::Miao
            | Script::Modi
            | Script::Mongolian
            | Script::Multani
            | Script::Myanmar
            | Script::NagMundari
            | Script::Nandinagari
            | Script::Newa
            | Script::Nko
            | Script::NyiakengPuachueHmong
            | Script::OlOnal
            | Script::OldSogdian
            | Script::OldUyghur
            | Script::Oriya
            | Script::PahawhHmong
            | Script::PhagsPa
            | Script::PsalterPahlavi
            | Script::Rejang
            | Script::Saurashtra
            | Script::Sharada
            | Script::Siddham
            | Script::Sinhala
            | Script::Sogdian
            | Script::Soyombo
            | Script::Sundanese
            | Script::Sunuwar
            | Script::SylotiNagri
            | Script::Tagalog
            | Script::Tagbanwa
            | Script::TaiLe
            | Script::TaiTham
            | Script::TaiViet
            | Script::Takri
            | Script::Tamil
            | Script::Tangsa
            | Script::Telugu
            | Script::Tibetan
            | Script::Tifinagh
            | Script::Tirhuta
            | Script::Todhri
            | Script::Toto
            | Script::TuluTigalari
            | Script::Vithkuqi
            | Script::Wancho
            | Script::Yezidi
            | Script::ZanabazarSquare
    )
}

// Returns whether joiners may change how a character is shaped.
fn uses_joiners(letter: char) -> bool {
    match JoiningType::for_char(letter) {
        JoiningType::NonJoining | JoiningType::Transparent => is_of_syllables(letter),
        _ => true,
    }
}

fn is_right_to_left(letter: char) -> bool {
    matches!(
        BidiClass::for_char(letter),
        BidiClass::RightToLeft | BidiClass::ArabicLetter
    )
}

// Returns the composite of two characters that Unicode excludes and HarfBuzz does not.
fn recomposed(head: char, part: char) -> Option<char> {
    if !matches!(part, '\u{05B4}'..='\u{05C2}' | '\u{09BC}') {
        return None;
    }
    for (first, second, made) in RECOMPOSED {
        if first == head && second == part {
            return Some(made);
        }
    }
    None
}

// Returns the composite of two characters.
fn composite(head: char, part: char) -> Option<char> {
    match compose(head, part) {
        Some(made) => Some(made),
        None => recomposed(head, part),
    }
}

// The characters that are needed so far, and what was seen of them.
#[derive(Drop)]
struct Needed {
    codes: CodeSet,
    has_mark: bool,
    has_joiners: bool,
    is_right_to_left: bool,
    // The last starter, and what it composes to with marks after it; and the same for the starter before.
    heads: Vec<char>,
    earlier: Vec<char>,
}

impl Needed {
    fn new(alloc: Global) -> Needed {
        Needed {
            codes: CodeSet::new(alloc),
            has_mark: false,
            has_joiners: false,
            is_right_to_left: false,
            heads: Vec::new(alloc),
            earlier: Vec::new(alloc),
        }
    }

    // Adds a character of the text or of its forms.
    fn add(&mut self, letter: char) -> Result<(), AllocError> {
        if self.codes.has(letter as u32) {
            return Ok(());
        }
        self.has_mark = self.has_mark || is_combining_mark(letter);
        self.has_joiners = self.has_joiners || uses_joiners(letter);
        self.is_right_to_left = self.is_right_to_left || is_right_to_left(letter);
        self.codes.add(letter as u32)
    }

    // Adds what a character composes to with one before it.
    fn add_composite(&mut self, head: char, part: char) -> Result<(), AllocError> {
        let Some(made) = composite(head, part) else {
            return Ok(());
        };
        // Marks that come again and again compose to the same characters.
        if self.heads.contains(&made) {
            return Ok(());
        }
        self.add(made)?;
        Ok(self.heads.push(made)?)
    }

    // Takes a mark of the decomposed text.
    fn take_mark(&mut self, mark: char) -> Result<(), AllocError> {
        for at in 0..self.heads.len() {
            if let Some(&head) = self.heads.get(at) {
                self.add_composite(head, mark)?;
            }
        }
        Ok(())
    }

    // Takes a starter of the decomposed text, which composes with the one before it in some scripts.
    fn take_starter(&mut self, starter: char) -> Result<(), AllocError> {
        mem::swap(&mut self.heads, &mut self.earlier);
        self.heads.clear();
        self.heads.push(starter)?;
        for at in 0..self.earlier.len() {
            if let Some(&head) = self.earlier.get(at) {
                self.add_composite(head, starter)?;
            }
        }
        Ok(())
    }

    // Takes a character of the decomposed text.
    fn take(&mut self, part: char) -> Result<(), AllocError> {
        self.add(part)?;
        if canonical_combining_class(part) == 0 {
            self.take_starter(part)
        } else {
            self.take_mark(part)
        }
    }

    // Adds the characters that shapers take for others.
    fn add_put_in(&mut self) -> Result<(), AllocError> {
        for (code, first, second) in PUT_IN {
            if self.codes.has(code) {
                self.codes.add(first)?;
                self.codes.add(second)?;
            }
        }
        Ok(())
    }

    // Adds both of two characters that mirror each other, where one is needed.
    fn add_mate(&mut self, first: u32, second: u32) -> Result<(), AllocError> {
        if self.codes.has(first) || self.codes.has(second) {
            self.codes.add(first)?;
            self.codes.add(second)?;
        }
        Ok(())
    }

    // Adds the mates of the characters of a run.
    fn add_mates(&mut self, first: u32, last: u32) -> Result<(), AllocError> {
        for code in (first..last).step_by(2) {
            self.add_mate(code, code + 1)?;
        }
        Ok(())
    }

    // Adds the characters that mirror others.
    fn add_mirrored(&mut self) -> Result<(), AllocError> {
        for (first, last) in MIRRORED_RUNS {
            self.add_mates(first, last)?;
        }
        for (first, second) in MIRRORED_PAIRS {
            self.add_mate(first, second)?;
        }
        Ok(())
    }

    // Adds what shapers take for the characters of a whole text, or put in beside them.
    fn end(&mut self) -> Result<(), AllocError> {
        if self.codes.is_empty() {
            return Ok(());
        }
        self.add_put_in()?;
        self.codes.add(SPACE)?;
        if self.has_mark {
            self.codes.add(DOTTED_CIRCLE)?;
        }
        if self.has_joiners {
            self.codes.add(NON_JOINER)?;
            self.codes.add(JOINER)?;
        }
        if self.is_right_to_left {
            self.add_mirrored()?;
        }
        Ok(())
    }
}

/// What a text needs, of which some characters have come.
#[derive(Drop)]
pub struct TextNeeds {
    alloc: Global,
    needed: Needed,
    // The last characters, of which none but the first is of ASCII. A character of ASCII composes with none before it.
    segment: Vec<char>,
    // Room for the decomposed segment.
    parts: Vec<char>,
}

impl TextNeeds {
    pub fn new(alloc: Global) -> TextNeeds {
        TextNeeds {
            alloc,
            needed: Needed::new(alloc),
            segment: Vec::new(alloc),
            parts: Vec::new(alloc),
        }
    }

    // Returns whether the segment is its own form, at a glance.
    fn is_plain(&self) -> bool {
        match self.segment.first() {
            Some(first) => self.segment.len() == 1 && first.is_ascii(),
            None => true,
        }
    }

    // Adds the characters of the forms of the segment.
    fn add_forms(&mut self) -> Result<(), AllocError> {
        self.parts.clear();
        extend_nfd(&mut self.parts, &self.segment)?;
        self.needed.heads.clear();
        for &part in &self.parts {
            self.needed.take(part)?;
        }
        Ok(())
    }

    /// Says that the next character composes with none before it.
    ///
    /// # Errors
    /// `AllocError` if out of memory.
    pub fn end_segment(&mut self) -> Result<(), AllocError> {
        if !self.is_plain() {
            self.add_forms()?;
        }
        self.segment.clear();
        Ok(())
    }

    /// Takes the next character of the text.
    ///
    /// # Errors
    /// `AllocError` if out of memory.
    pub fn take(&mut self, letter: char) -> Result<(), AllocError> {
        if letter.is_ascii() {
            self.end_segment()?;
        }
        self.needed.add(letter)?;
        Ok(self.segment.push(letter)?)
    }

    /// Adds what the text needs to a set.
    ///
    /// # Errors
    /// `AllocError` if out of memory.
    pub fn end(mut self, added: &mut CodeSet) -> Result<(), AllocError> {
        self.end_segment()?;
        self.needed.end()?;
        added.add_all(self.alloc, &self.needed.codes)
    }
}

// Adds what a text needs, all characters of which are wanted.
fn add_needs(alloc: Global, added: &mut CodeSet, text: &str) -> Result<(), AllocError> {
    let mut needs = TextNeeds::new(alloc);
    for letter in text.chars() {
        needs.take(letter)?;
    }
    needs.end(added)
}

/// Adds what texts need.
///
/// # Errors
/// `AllocError` if out of memory.
pub fn add_texts(alloc: Global, added: &mut CodeSet, texts: &[&str]) -> Result<(), AllocError> {
    for &text in texts {
        add_needs(alloc, added, text)?;
    }
    Ok(())
}

// Adds the parts of the characters of a range.
fn add_parts(needs: &mut TextNeeds, first: u32, last: u32) -> Result<(), AllocError> {
    for code in first..=last {
        if let Some(letter) = char::from_u32(code) {
            needs.take(letter)?;
            needs.end_segment()?;
        }
    }
    Ok(())
}

/// Adds the canonical parts of the characters of a set.
///
/// # Errors
/// `AllocError` if out of memory.
pub fn add_all_parts(
    alloc: Global,
    added: &mut CodeSet,
    codes: &CodeSet,
) -> Result<(), AllocError> {
    let mut needs = TextNeeds::new(alloc);
    for (first, last) in codes.ranges(alloc)? {
        add_parts(&mut needs, first, last)?;
    }
    added.add_all(alloc, &needs.needed.codes)
}
