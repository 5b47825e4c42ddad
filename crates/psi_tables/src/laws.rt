//! Laws of what is found, as functions that do nothing.
ghost use Rattle.psi_tables.specs.Laws.{OneSectionListsItsLines, EachIsFollowed, PremisesMet, IsNowhereElse, IsFoundOnceItCame};

/// If each PAT section has number 0, the lines in force are those of the last one.
pub fn one_section_lists_its_lines()
    ensures { OneSectionListsItsLines }
{}

/// Every PAT section is the same, of number 0, and each listed program has one map table, which
/// names the carousel at PID q or not at all. Then the answer is `NoPat`, `NotNamed` or q.
pub fn it_is_nowhere_else()
    ensures { IsNowhereElse }
{}

/// In such a stream the answer is q once the PAT came, and then a map table that names the
/// carousel on its followed PID.
pub fn it_is_found_once_its_tables_came()
    ensures { IsFoundOnceItCame }
{}

/// If every PAT section is the same and lists at most 64 PIDs for programs, each is followed from
/// the packet after the first section's last.
pub fn each_listed_pid_is_followed()
    ensures { EachIsFollowed }
{
    section_stream::candidates_grow();
}

/// The packets of the written tables are such a stream, so the laws apply.
pub fn premises_can_be_met()
    ensures { PremisesMet }
{}
