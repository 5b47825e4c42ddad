//! Trees of files alone, published as they were before a folder could be kept. Lists of puts and
//! removals give the same limits, the same generations and the same replies today: laws that stand
//! beside the catalogue, and that no command runs.
#![tactic(auto)]

ghost use Rattle.files_alone.specs.Laws.{GenerationsStayTheSame, LimitsStayTheSame, RepliesStayTheSame};

use path_tree::files_stay_the_same;

/// Of every tree of files alone: it passes the limit, or none, that it passed when trees had files
/// alone.
pub fn limits_stay_the_same()
    ensures { LimitsStayTheSame }
{}

/// Of every list of trees of files alone: the generation after them has the objects, the keys, the
/// modules, their bytes and their counts that it had when trees had files alone, and it sends the
/// same sections.
pub fn generations_stay_the_same()
    ensures { GenerationsStayTheSame }
{}

/// Of every list of requests to a new catalogue, commits of puts and removals, and draws: the
/// catalogue has the entries, and so the answers to them, the trees and the generation that it had
/// when trees had files alone, and it answers the next commit and the next draw as it did.
pub fn replies_stay_the_same()
    ensures { RepliesStayTheSame }
{
    files_stay_the_same();
}
