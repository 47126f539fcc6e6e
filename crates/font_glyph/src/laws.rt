//! The laws of components and of what they reach, and how many numbers links have: the contract of each function is the
//! law.
ghost use Rattle.std.specs.Prelude.{◌≡◌};
ghost use Rattle.font_glyph.specs.Laws.{BytesBehindRecord, ComponentsAreComputed, LinkedIsComputed, LinkedIsLeast, OneComponentList, ReachIsLeast, ReachOfUnion, ReachedIsReach};
ghost use Rattle.font_glyph.specs.declared.linked.TheConstants.{NUMBERS};

/// A record has at most one list of components.
pub fn one_component_list()
    ensures { OneComponentList }
{}

/// A record has the list of components that is computed of it, and only where one is.
pub fn components_are_computed()
    ensures { ComponentsAreComputed }
{}

/// Bytes after a record of at least ten bytes leave its list of components.
pub fn bytes_after_a_record()
    ensures { BytesBehindRecord }
{}

/// What is found in rounds over the numbers below a count is what is reached.
pub fn reached_is_reach()
    ensures { ReachedIsReach }
{}

/// What is reached has the seeds and the components of all that it has, and no more than each set
/// that has these.
pub fn reach_is_least()
    ensures { ReachIsLeast }
{}

/// Where two maps from numbers to records hold every component of their records, and are equal
/// where both have a number, their union holds every component of its records, and from numbers of
/// one of them it reaches what that one reaches.
pub fn reach_of_a_union()
    ensures { ReachOfUnion }
{}

/// What is found in rounds over the numbers below a limit is what links lead to.
pub fn linked_is_computed()
    ensures { LinkedIsComputed }
{}

/// What links lead to has the seeds and the links of all that it has below a limit, and no more than
/// each set that has these.
pub fn linked_is_least()
    ensures { LinkedIsLeast }
{}

/// Links lead from and to this many numbers: each uint16 is one.
pub fn link_numbers_are()
    ensures { NUMBERS ≡ 65536 }
{}
