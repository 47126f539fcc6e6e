//! The codes that a cut is for.
use codes::Wanted;
use std::alloc::{AllocError, Global};
use wanted_characters::{CodeSet, SequenceSet};

/// The codes that a cut is for, as they are gathered.
pub struct Kept {
    /// Those that the line wants.
    pub wanted: CodeSet,
    /// Those of them that are characters of texts.
    pub texts: CodeSet,
    /// Those that are kept besides where the font maps them, of which some may be wanted too.
    pub added: CodeSet,
    /// The variation sequences of texts.
    pub sequences: SequenceSet,
    /// Those that lists name.
    pub listed: SequenceSet,
}

impl Drop for Kept {
    fn drop(self) {
        let Kept {
            wanted: _wanted,
            texts: _texts,
            added: _added,
            sequences: _sequences,
            listed: _listed,
        } = self;
    }
}

impl Kept {
    /// Returns the set of nothing.
    pub fn new(alloc: Global) -> Kept {
        Kept {
            wanted: CodeSet::new(alloc),
            texts: CodeSet::new(alloc),
            added: CodeSet::new(alloc),
            sequences: SequenceSet::new(alloc),
            listed: SequenceSet::new(alloc),
        }
    }

    /// Returns what is left without the codes of a set and the sequences of which they are a part.
    ///
    /// # Errors
    /// `AllocError` if out of memory.
    pub fn without(&self, alloc: Global, gone: &CodeSet) -> Result<Kept, AllocError> {
        Ok(Kept {
            wanted: self.wanted.without(alloc, gone)?,
            texts: self.texts.without(alloc, gone)?,
            added: self.added.without(alloc, gone)?,
            sequences: self.sequences.without(alloc, gone)?,
            listed: self.listed.without(alloc, gone)?,
        })
    }

    /// Returns them as wanted sets.
    ///
    /// # Errors
    /// `AllocError` if out of memory.
    pub fn into_wanted(self, alloc: Global) -> Result<WantedCodes, AllocError> {
        let Kept {
            wanted,
            texts,
            mut added,
            sequences: _sequences,
            listed: _listed,
        } = self;
        let texts = texts.into_wanted(alloc)?;
        if added.is_empty() {
            return Ok(WantedCodes {
                all: wanted.into_wanted(alloc)?,
                named: None,
                texts,
            });
        }
        added.add_all(alloc, &wanted)?;
        let all = added.into_wanted(alloc)?;
        let named = wanted.into_wanted(alloc)?;
        Ok(WantedCodes {
            all,
            named: Some(named),
            texts,
        })
    }
}

/// The codes that a cut is for, as wanted sets.
pub struct WantedCodes {
    all: Wanted,
    // Those that the line wants, where others are kept besides.
    named: Option<Wanted>,
    texts: Wanted,
}

// Written out, as that of `Kept`.
impl Drop for WantedCodes {
    fn drop(self) {
        let WantedCodes {
            all: _all,
            named: _named,
            texts: _texts,
        } = self;
    }
}

impl WantedCodes {
    /// Returns all of them.
    pub fn all(&self) -> &Wanted {
        &self.all
    }

    /// Returns those that the line wants.
    pub fn named(&self) -> &Wanted {
        match &self.named {
            Some(named) => named,
            None => &self.all,
        }
    }

    /// Returns those that are characters of texts.
    pub fn texts(&self) -> &Wanted {
        &self.texts
    }
}
