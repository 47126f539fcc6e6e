//! What users call: fonts, wanted sets, cuts, joins, and where a cut goes. It passes on what other crates have,
//! and has no code of its own.
#![tactic(auto)]

pub use codes::{CODES, LAST_CODE};
pub use font_file::{Font, FontError};
pub use font_glyph::{Component, Components};
pub use font_join::{
    JoinAllError, JoinAllIntoError, JoinError, Joined, Which, join, join_all, join_all_into,
    join_all_of_kind, join_all_of_kind_into, join_of_kind,
};
pub use font_map::{
    Chart, CodeRange, Group, Groups, MapError, Mapping, Run, Wanted, WantedError, WordError,
    read_word,
};
pub use font_subset::{
    CutError, CutForm, CutIntoError, CutOf, CutOfKind, FontOfKind, FontToCut, OpenError, belongs,
    cut, cut_form, cut_into, cut_of_kind, cut_of_kind_into, form_of_kind, is_cut, is_cut_of,
    is_of_kind, keeps_layout, kept_glyphs, numbers_of,
};
pub use font_tables::{LocaForm, TableError, Tables};
pub use font_theory::Kind;
pub use font_write::Source;
pub use sfnt_bytes::{
    BASE6, DirError, Directory, Entry, Finding, KEPT, MAX_FILE, NoMemory, SLOTS, Tag, numbers,
};
pub use streams::{Outlet, WriteFault};
