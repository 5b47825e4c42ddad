ghost use Rattle.std.specs.Prelude.{◌≡◌, ◌≢◌, ◌↔◌, ◌++◌, ◌∷◌, [], List, map, IsTrue, IfOk, OnOk, OnErr};
ghost use Rattle.std.specs.Arc.{arc_value};
ghost use Rattle.std.specs.List.{flat_map};
ghost use Rattle.oc_bytes.specs.Outcome.{MakesList};
ghost use Rattle.path_tree.specs.Paths.{Bytes};
ghost use Rattle.path_resolver.specs.Resolving.{answer_of, is_shared};
ghost use Rattle.path_resolver.specs.Shots as shots;
ghost use Rattle.module_cache.specs.Contents.{bytes_of};
ghost use Rattle.tuner_core.specs.Answers.{fed_after};
ghost use Rattle.tuner_core.specs.Heard.{as_heard};
ghost use Rattle.tuner_core.specs.Stands.{StandsFor, fresh, step, with_next_mark, after_heard, asks, held_by, held_diis, modules_of, snapshot_of};
ghost use Rattle.tuner_core.specs.Turns.{answer_after, snapshot_after};

use crate::gateway::{copy_of_held, take_dsi};
use crate::hearing::{Told, hear};
use crate::lending::{delivered_in, is_held_in, lent, listed_in};
use crate::told::{Cause, Fed};
use crate::turns::{Turns, take_dii};
use module_cache::{Cache, Line, Taken, Tuned};
use oc_bytes::NoMemory;
use path_resolver::{Answer, Gateway, Held, Holding, Listed, Shot, answer_on};
use path_tree::Path;
use std::alloc::Global;
use std::marker::Model;
use std::sync::Arc;

/// A receiver of one carousel.
///
/// It is fed candidates: what a demultiplexer took for sections. Contracts see what it holds, and
/// `StandsFor` relates this to the candidates that were fed.
///
/// It holds up to 16 DIIs of one version, with what came of their modules, and the gateway of the
/// last DSI that has one. A DII of another version turns: it takes the place of all that are held.
/// If the two versions are fewer than 256 apart, their modules then wait for a DII of the same
/// identification, up to the next turn. Otherwise they are dropped.
///
/// The memory of what is held is bounded, as `held_is_bounded` says. What waits are modules of DIIs
/// that were held before the last turn, so no more than the modules of two versions are there.
#[derive(Drop)]
pub struct Tuner {
    alloc: Global,
    mark: u64,
    gateway: Option<Gateway>,
    turns: Turns,
}

impl Model for Tuner {
    ghost use Rattle.tuner_core.specs.Stands.{TunerState};

    ghost Value = { TunerState };

    ghost use Rattle.tuner_core.specs.TunerView.{view_tuner};

    ghost view = { view_tuner };
}

/// The line of a shot. A module is shared where it is whole.
fn held_line(identification: u16, line: &Line) -> Result<Held, NoMemory>
    ensures { IfOk result (λ h.
        shots.view_held h
        ≡ record {
          identification = identification;
          line = line.now.line;
          bytes = bytes_of
              line.now.stored.content;
        }) }
{
    let lent = lent(identification, line);
    let module = match lent.module {
        Some(module) => Some(Arc::try_clone(module)?),
        None => None,
    };
    Ok(Held {
        identification,
        line: lent.line,
        module,
    })
}

/// Appends the lines of a DII to the table of a shot.
fn put_lines(table: &mut Vec<Held>, tuned: &Tuned) -> Result<(), NoMemory>
    ensures { OnOk result
        (map shots.view_held table.new.items
        ≡ map shots.view_held table.old.items ++ modules_of tuned.now) }
{
    let identification = tuned.identification();
    for line in tuned.lines() {
        table.push(held_line(identification, line)?)?;
    }
    Ok(())
}

/// The table of a shot.
fn table_of(alloc: Global, held: &[Tuned]) -> Result<Vec<Held>, NoMemory>
    ensures { IfOk result (λ v. map shots.view_held v.items ≡ flat_map modules_of held.now) }
{
    let mut table = Vec::new(alloc);
    for tuned in held {
        put_lines(&mut table, tuned)?;
    }
    Ok(table)
}

/// The identifications of the held DIIs.
fn identifications_of(alloc: Global, held: &[Tuned]) -> Result<Vec<u16>, NoMemory>
    ensures { MakesList result (map (λ u. u.identification) held.now) }
{
    let mut identifications = Vec::with_capacity(alloc, held.len())?;
    for tuned in held {
        identifications.push(tuned.identification())?;
    }
    Ok(identifications)
}

impl Tuner {
    /// A receiver that has heard nothing.
    pub fn new(alloc: Global) -> Tuner
        ensures fresh { result ≡ fresh }
        ensures stands { StandsFor result [] }
    {
        Tuner {
            alloc,
            mark: 0,
            gateway: None,
            turns: Turns {
                cache: Cache::new(alloc),
                label: None,
                epoch: 0,
            },
        }
    }

    /// What a candidate changes, but for the count of candidates.
    fn take(&mut self, candidate: &[u8]) -> Result<Fed, NoMemory>
        ensures answer { IfOk result (λ fed.
            (self.new, fed) ≡ after_heard self.old (as_heard candidate.now)) }
        ensures changed { IfOk result (λ fed.
            fed ≡ Fed.Changed
            → self.new.gateway ≡ self.old.gateway
            → self.new.cache ≡ self.old.cache
            → ⊥) }
        ensures err { OnErr result (self.new ≡ self.old) }
        ensures memory { OnErr result (IsTrue (asks self.old.cache (as_heard candidate.now))) }
    {
        match hear(self.alloc, candidate)? {
            Told::Skipped(skip) => Ok(Fed::Nothing(Cause::Section(skip))),
            Told::NoControl(place) => Ok(Fed::Nothing(Cause::NotControl(place))),
            Told::NoBlock(place) => Ok(Fed::Nothing(Cause::NotDdb(place))),
            Told::Dsi(dsi) => take_dsi(self.alloc, &mut self.gateway, &dsi),
            Told::Dii(dii) => take_dii(&mut self.turns, &dii),
            Told::Block(parts) => match self.turns.cache.offer_parts(&parts)? {
                Taken::New => Ok(Fed::Changed),
                taken => Ok(Fed::Nothing(Cause::Block(taken))),
            },
        }
    }

    /// Counts one candidate.
    fn count(&mut self)
        ensures { self.new ≡ with_next_mark self.old }
    {
        self.mark = self.mark.saturating_add(1);
    }

    /// Hears one candidate: the bytes that a demultiplexer took for a section.
    ///
    /// A candidate that is no section is `Section`. One of table 0x3B without a control message is
    /// `NotControl`, one of table 0x3C without a block message `NotDdb`. A DSI is `NoGateway` if
    /// its IOR has no BIOP profile, and `SameDsi` if that is the held gateway. A block that isn't
    /// taken is `Block`. Of a DII the first of these holds:
    ///
    /// 1. `OtherDii`: its identification is 0.
    /// 2. `DiiOverLimit`: it breaks a limit by itself, those of [`module_cache::is_within`].
    /// 3. `Changed`: no DII is held, or its version isn't the held one. It turns.
    /// 4. `SameDii`: a DII of its identification is held, whatever either lists.
    /// 5. `OtherDii`: 16 DIIs are held.
    /// 6. `DiiOverLimit`: a held DII lists a module of it, or the modules of all of them have more
    ///    than 268,435,456 bytes in all.
    /// 7. `Changed`: it joins the others.
    ///
    /// The first DII that turns sets the label to its version, 0 to 16,383. Each later one adds its
    /// distance from the version held before, 1 to 16,383. From a distance of 256 on, the epoch
    /// rises by one. Label and epoch stop at the greatest u64.
    ///
    /// A DII that turns or joins takes over what waits under its identification: a module stays,
    /// whole or in part, exactly where both DIIs have the same downloadId and block size and list
    /// it with the same version, size and compression. No block is taken for a module that waits.
    ///
    /// Each candidate is counted, up to the greatest u64. `NoMemory` leaves the receiver as it was.
    /// It comes only of sections of table 0x3B and of blocks that are new.
    pub fn feed(&mut self, candidate: &[u8]) -> Result<Fed, NoMemory>
        // by the rules, and looking back over all candidates
        ensures answer { IfOk result (λ fed. (self.new, fed) ≡ step self.old candidate.now) }
        ensures looks_back { IfOk result (λ fed.
            (candidates : List Bytes)
            → StandsFor self.old candidates
            → fed ≡ fed_after candidates candidate.now) }
        // what is held
        ensures nothing { IfOk result (λ fed.
            (fed ≢ Fed.Changed) ↔ (self.new ≡ with_next_mark self.old)) }
        ensures stands { OnOk result ((candidates : List Bytes)
            → StandsFor self.old candidates
            → StandsFor self.new (candidates ++ candidate.now ∷ [])) }
        // out of memory
        ensures err { OnErr result (self.new ≡ self.old) }
        ensures memory { OnErr result (IsTrue (asks self.old.cache (as_heard candidate.now))) }
    {
        let fed = self.take(candidate)?;
        self.count();
        Ok(fed)
    }

    /// The held DIIs in the order in which they were heard. Takes no memory.
    pub fn held(&self) -> &[Tuned]
        ensures held { result.now ≡ self.now.cache.held }
        ensures looks_back { (candidates : List Bytes)
            → StandsFor self.now candidates
            → result.now ≡ held_diis candidates }
    {
        self.turns.cache.held()
    }

    /// The shot of what is held.
    fn made_shot(&self, number: u64, draws: u64) -> Result<Shot, NoMemory>
        ensures numbers { IfOk result (λ s. (s.number ≡ number) × (s.draws ≡ draws)) }
        ensures state { IfOk result (λ s. shots.view s ≡ snapshot_of number draws self.now) }
    {
        let gateway = copy_of_held(self.alloc, &self.gateway)?;
        let held = identifications_of(self.alloc, self.turns.cache.held())?;
        let table = table_of(self.alloc, self.turns.cache.held())?;
        Ok(Shot {
            number,
            draws,
            mark: self.mark,
            epoch: self.turns.epoch,
            label: self.turns.label,
            held,
            gateway,
            table,
        })
    }

    /// A shot of what is held. Its mark is the number of candidates so far. Modules are shared.
    ///
    /// `number` and `draws` are the caller's own counts. The label is the version of the first DII
    /// that turned plus the distances since; the epoch counts the turns that dropped all. The DIIs'
    /// identifications and the table are in the order in which the DIIs were heard. What waits
    /// isn't in it.
    pub fn shot(&self, number: u64, draws: u64) -> Result<Arc<Shot>, NoMemory>
        ensures numbers { IfOk result (λ s.
            ((arc_value s).number ≡ number) × ((arc_value s).draws ≡ draws)) }
        ensures state { IfOk result (λ s.
            shots.view (arc_value s) ≡ snapshot_of number draws self.now) }
        ensures held { IfOk result (λ s. (candidates : List Bytes) → StandsFor self.now candidates
            → shots.view (arc_value s) ≡ snapshot_after number draws candidates) }
    {
        let shot = self.made_shot(number, draws)?;
        let shared = Arc::new(self.alloc, shot)?;
        Ok(shared)
    }

    /// The answer to the whole path on what is held, as [`path_resolver::resolve`] gives it on a
    /// shot taken now. No shot is made. A file or a folder shares the module that holds it, which
    /// may run out of memory.
    pub fn resolve(&self, path: &Path) -> Result<Answer, NoMemory>
        ensures answer { IfOk result (λ a. a ≡ answer_of (held_by self.now) path.now) }
        ensures looks_back { IfOk result (λ a. (candidates : List Bytes)
            → StandsFor self.now candidates → a ≡ answer_after candidates path.now) }
        ensures memory { OnErr result (IsTrue (is_shared (answer_of (held_by self.now) path.now))) }
    {
        answer_on(self, path)
    }
}

/// What the receiver lends for an answer.
impl Holding for Tuner {
    ghost use Rattle.tuner_core.specs.Stands.{held_by};

    ghost state = { held_by };

    fn label(&self) -> Option<u64> {
        self.turns.label
    }

    fn gateway(&self) -> Option<&Gateway> {
        self.gateway.as_ref()
    }

    #[tactic(auto, using(module_cache::proofs::CallerLemmas::any_map))]
    fn is_held(&self, identification: u16) -> bool {
        is_held_in(self.held(), identification)
    }

    fn listed(&self, id: u16) -> Option<Listed<'_>> {
        listed_in(self.held(), id)
    }

    fn delivered(&self, identification: u16, id: u16) -> Option<Listed<'_>> {
        delivered_in(self.held(), identification, id)
    }
}
