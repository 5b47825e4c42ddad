//! DIIs that turn or join.

ghost use Rattle.std.specs.Prelude.{◌≡◌, ◌≢◌, ◌<◌, ◌&&◌, map, IsTrue, IfOk, IfSome, OnOk, OnErr};
ghost use Rattle.dsi_dii.specs.Controls.{view_dii};
ghost use Rattle.module_cache.specs.Joining as joining;
ghost use Rattle.module_cache.specs.Joining.{outline_held};
ghost use Rattle.tuner_core.specs.Stands as stands;
ghost use Rattle.tuner_core.specs.Stands.{after_dii, turn_from, held_outlines};
ghost use Rattle.tuner_core.specs.Inner.Stands.{after_same, first_version};
ghost use Rattle.tuner_core.specs.Inner.TunerView.{view_turns};

use crate::told::{Cause, Fed};
use dsi_dii::{Dii, distance};
use module_cache::{Cache, Tuned, fits_beside, is_apart, is_identification_held, is_within};
use oc_bytes::NoMemory;

/// From this distance on, versions say nothing of the modules: a module's version has 8 bits.
const FAR: u16 = 256;

/// The most DIIs of one version that are held together. This project's own limit.
pub const MOST_HELD: usize = 16;

/// The held DIIs with their modules and what waits, and how the receiver came to them.
#[derive(Drop)]
pub struct Turns {
    pub cache: Cache,
    /// The generation as the receiver counts it, where a DII is held.
    pub label: Option<u64>,
    /// How many turns dropped all that was held.
    pub epoch: u64,
}

/// The version of the held DIIs, where there is one.
fn version_held(held: &[Tuned]) -> Option<u16>
    ensures version { result ≡ first_version (map outline_held held.now) }
    ensures range { IfSome result (λ v. v < 16384) }
{
    match held {
        [] => None,
        [first, ..] => Some(first.version()),
    }
}

/// The DII lists no module that a held one lists, and the modules of all of them fit.
fn is_beside(held: &[Tuned], dii: &Dii) -> bool
    ensures { result ≡ (joining.is_apart (map outline_held held.now) (view_dii dii.now)
        && joining.fits_beside (map outline_held held.now) (view_dii dii.now)) }
{
    is_apart(held, dii) && fits_beside(held, dii)
}

/// A DII turns.
fn turn(turns: &mut Turns, dii: &Dii) -> Result<(), NoMemory>
    requires { IsTrue (joining.is_within (view_dii dii.now)) }
    ensures ok { OnOk result
        (view_turns turns.new
        ≡ turn_from (view_turns turns.old) (held_outlines turns.old.cache) (view_dii dii.now)) }
    ensures err { OnErr result (turns.new ≡ turns.old) }
{
    let version = dii.transaction.version();
    let Some(held) = version_held(turns.cache.held()) else {
        turns.cache.turn(dii, false)?;
        turns.label = Some(u64::from(version));
        return Ok(());
    };
    let distance = distance(held, version);
    turns.cache.turn(dii, distance < FAR)?;
    turns.label = turns.label.map(|n| n.saturating_add(u64::from(distance)));
    if distance >= FAR {
        turns.epoch = turns.epoch.saturating_add(1);
    }
    Ok(())
}

/// The DII is of another version than those that are held, or none is held.
fn is_anew(held: &[Tuned], dii: &Dii) -> bool
    ensures { result ≡ stands.is_anew (map outline_held held.now) (view_dii dii.now) }
{
    match version_held(held) {
        None => true,
        Some(version) => dii.transaction.version() != version,
    }
}

/// Takes a DII of the held version: it joins, or is refused.
fn take_same(turns: &mut Turns, dii: &Dii) -> Result<Fed, NoMemory>
    requires { IsTrue (joining.is_within (view_dii dii.now)) }
    ensures ok { IfOk result (λ fed.
        (view_turns turns.new, fed) ≡ after_same (view_turns turns.old) (view_dii dii.now)) }
    ensures err { OnErr result (turns.new ≡ turns.old) }
{
    if is_identification_held(turns.cache.held(), dii) {
        return Ok(Fed::Nothing(Cause::SameDii));
    }
    if turns.cache.held().len() >= MOST_HELD {
        return Ok(Fed::Nothing(Cause::OtherDii));
    }
    if !is_beside(turns.cache.held(), dii) {
        return Ok(Fed::Nothing(Cause::DiiOverLimit));
    }
    turns.cache.join(dii)?;
    Ok(Fed::Changed)
}

/// Takes a DII: it turns, joins, or is refused.
fn admit(turns: &mut Turns, dii: &Dii) -> Result<Fed, NoMemory>
    ensures ok { IfOk result (λ fed.
        (view_turns turns.new, fed) ≡ after_dii (view_turns turns.old) (view_dii dii.now)) }
    ensures err { OnErr result (turns.new ≡ turns.old) }
{
    if dii.transaction.identification() == 0 {
        return Ok(Fed::Nothing(Cause::OtherDii));
    }
    if !is_within(dii) {
        return Ok(Fed::Nothing(Cause::DiiOverLimit));
    }
    if !is_anew(turns.cache.held(), dii) {
        return take_same(turns, dii);
    }
    turn(turns, dii)?;
    Ok(Fed::Changed)
}

/// Takes a DII: it turns or joins, and what is held changes, or it is refused.
pub fn take_dii(turns: &mut Turns, dii: &Dii) -> Result<Fed, NoMemory>
    ensures ok { IfOk result (λ fed.
        (view_turns turns.new, fed) ≡ after_dii (view_turns turns.old) (view_dii dii.now)) }
    ensures changed { IfOk result (λ fed. fed ≡ Fed.Changed → turns.new.cache ≢ turns.old.cache) }
    ensures err { OnErr result (turns.new ≡ turns.old) }
{
    let fed = admit(turns, dii)?;
    Ok(fed)
}
