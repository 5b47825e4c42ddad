ghost use Rattle.std.specs.Prelude.{◌≡◌, ◌≢◌, ◌≤◌, ◌<◌, ◌++◌, ◌∷◌, [], List, length, IfOk, IfErr, OnOk, OnErr};
ghost use Rattle.std.specs.Arc.{arc_value};
ghost use Rattle.std.specs.List.{All, AllPairs};
ghost use Rattle.oc_bytes.specs.Outcome.{MakesList};
ghost use Rattle.path_resolver.specs.Shots.{held_of};
ghost use Rattle.path_resolver.specs.Resolving.{Held};
ghost use Rattle.watch_desk.specs.Inner.Showing.{keeping, told_of};
ghost use Rattle.watch_desk.specs.Watching.{StandsFor, notices_of};
ghost use Rattle.watch_desk.specs.declared.TheConstants.{MOST_FILTERS, MOST_WATCHED};

use crate::filter::Filter;
use crate::notice::Notice;
use crate::notifying::notify_all;
use crate::watched::Watched;
use oc_bytes::NoMemory;
use path_resolver::{Answer, Holding, Shot};
use path_tree::Path;
use std::alloc::Global;
use std::sync::Arc;

/// Tells watchers of paths whose answers changed from one shot to the next.
///
/// Contracts see the watchers' prefixes, the paths and the answers on the last shot. `StandsFor`
/// says of which shots that is the last.
#[derive(Drop)]
pub struct Desk {
    alloc: Global,
    watched: Watched,
    filters: Vec<Filter>,
    pub ghost few: { length filters.items ≤ MOST_FILTERS },
}

impl Desk {
    ghost use Rattle.watch_desk.specs.Prefixes.{prefixes_of};
    ghost use Rattle.watch_desk.specs.View.{state};

    /// A desk of these paths and watchers, to which no shot was shown yet. It takes no memory.
    pub fn new(alloc: Global, paths: Vec<Path>, filters: Vec<Filter>) -> Desk
        // What callers keep to: few paths, all different, and few watchers.
        requires watched { length paths.items ≤ MOST_WATCHED }
        requires differ { AllPairs (λ p q. p ≢ q) paths.items }
        requires filters { length filters.items ≤ MOST_FILTERS }
        // What the desk is of.
        ensures prefixes { (state result).prefixes ≡ prefixes_of filters.items }
        ensures paths { (state result).paths ≡ paths.items }
        ensures stands { StandsFor (state result) [] }
    {
        Desk {
            alloc,
            watched: Watched::new(alloc, paths),
            filters,
        }
    }

    /// The paths that are watched, by their places. It takes no memory.
    pub fn paths(&self) -> &[Path]
        ensures { result.now ≡ (state self.now).paths }
    {
        self.watched.paths()
    }

    /// The answers to the paths on the last shot, none before the first. It takes no memory.
    pub fn answers(&self) -> &[Answer]
        ensures { result.now ≡ (state self.now).last }
    {
        self.watched.answers()
    }

    /// Shows a shot: `show_held` of it. A refusal gives the shot back.
    pub fn show(&mut self, shot: Arc<Shot>) -> Result<Vec<Notice>, (NoMemory, Arc<Shot>)>
        // Whom to tell, and the shots that the desk stands for.
        ensures told { IfOk result (λ told. (shots : List Held) → StandsFor (state self.old) shots
            → told.items ≡ notices_of (state self.old) shots (held_of (arc_value shot))) }
        ensures within { IfOk result (λ told.
            All (λ n. n.path < length (state self.old).paths) told.items) }
        ensures stands { OnOk result ((shots : List Held) → StandsFor (state self.old) shots
            → StandsFor (state self.new) (shots ++ held_of (arc_value shot) ∷ [])) }
        // What stays.
        ensures same { ((state self.new).prefixes ≡ (state self.old).prefixes)
            × ((state self.new).paths ≡ (state self.old).paths) }
        ensures refused { OnErr result (state self.new ≡ state self.old) }
        // Out of memory.
        ensures back { IfErr result (λ refused. arc_value refused.1 ≡ arc_value shot) }
        ensures memory { OnErr result (0 < length (state self.old).paths) }
    {
        match self.show_held(&*shot) {
            Ok(told) => Ok(told),
            Err(refused) => Err((refused, shot)),
        }
    }

    /// Shows what is held at this moment, by a shot or by the receiver itself.
    ///
    /// The answer is whom to tell of what, by watcher and then by path. A watcher is told of each
    /// path that it wants and whose answer isn't that on the last shot, by [`path_resolver::same`].
    /// Before the first shot each path has no carousel. Each path is resolved once, however many
    /// watchers there are.
    ///
    /// Out of memory is the only refusal. What is shown next is compared with the last shot that
    /// wasn't refused.
    pub fn show_held<H: Holding>(&mut self, held: &H) -> Result<Vec<Notice>, NoMemory>
        // Whom to tell, and the shots that the desk stands for.
        ensures told { IfOk result (λ told. (shots : List Held) → StandsFor (state self.old) shots
            → told.items ≡ notices_of (state self.old) shots (H.state held.now)) }
        ensures within { IfOk result (λ told.
            All (λ n. n.path < length (state self.old).paths) told.items) }
        ensures stands { OnOk result ((shots : List Held) → StandsFor (state self.old) shots
            → StandsFor (state self.new) (shots ++ H.state held.now ∷ [])) }
        // What stays.
        ensures same { ((state self.new).prefixes ≡ (state self.old).prefixes)
            × ((state self.new).paths ≡ (state self.old).paths) }
        ensures refused { OnErr result (state self.new ≡ state self.old) }
        // Out of memory.
        ensures memory { OnErr result (0 < length (state self.old).paths) }
    {
        self.turn_to(held)
    }

    /// Compares the answers on what is held with those that are kept, and keeps them.
    fn turn_to<H: Holding>(&mut self, held: &H) -> Result<Vec<Notice>, NoMemory>
        ensures told { MakesList result (told_of (state self.old) (H.state held.now)) }
        ensures kept { OnOk result (state self.new ≡ keeping (state self.old) (H.state held.now)) }
        ensures refused { OnErr result (state self.new ≡ state self.old) }
        ensures memory { OnErr result (0 < length (state self.old).paths) }
    {
        let now = self.watched.answers_on(self.alloc, held)?;
        let changed = self.watched.changes_to(self.alloc, &now)?;
        let paths = self.watched.paths();
        let told = notify_all(self.alloc, &self.filters, paths, &changed)?;
        self.watched.keep(now);
        Ok(told)
    }
}
