ghost use Rattle.section_stream.specs.Counting.{CountsAreNumbers};
ghost use Rattle.section_stream.specs.Groups.{CallsGiveTheGroup, GroupsOpenAtTheirStarts, LaterGroupsAreGiven, PacketsGiveTheGroups, StartsRise};
ghost use Rattle.section_stream.specs.Laws.{CandidatesGrow, CutsComeInOrder};

/// What `Mux` packs is cut again. The candidates of the packets of any groups are the groups'
/// sections, if no packet is missing and none came before.
pub fn packets_give_the_groups()
    ensures { PacketsGiveTheGroups }
{}

/// A receiver gets in step. After any packets come those of some first groups and of second ones,
/// with none missing: the last candidates are the sections of the second groups.
pub fn later_groups_are_given()
    ensures { LaterGroupsAreGiven }
{}

/// `Mux::packets` at each section of a group and `Mux::finish` after them make the group's packets.
pub fn calls_give_the_group()
    ensures { CallsGiveTheGroup }
{}

/// The candidates of a longer list of packets begin with those of a shorter one.
pub fn candidates_grow()
    ensures { CandidatesGrow }
{}

/// Candidates come in the order in which they opened, by packet and byte. Each begins at the byte
/// that its cut names.
pub fn cuts_come_in_order()
    ensures { CutsComeInOrder }
{}

/// The candidates of groups open where the groups' sections begin.
pub fn groups_open_at_their_starts()
    ensures { GroupsOpenAtTheirStarts }
{}

/// Each section of a group begins after the one before it: in a later packet, or at a later byte.
pub fn starts_rise()
    ensures { StartsRise }
{}

/// Each count but `short_tail` says at how many packets the counted thing happened. `oversize` is
/// the sum of two such numbers, because one packet can show two such sections.
pub fn counts_are_numbers()
    ensures { CountsAreNumbers }
{}
