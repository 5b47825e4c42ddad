ghost use Rattle.biop_object.specs.Spelled.{SpellingsReadBack};

/// Written objects, one after another, are read back as those objects. So a module of written
/// objects has an index of just these.
#[tactic(auto, using(crate::proofs::Spellings::spelled_back))]
pub fn spellings_read_back()
    ensures { SpellingsReadBack }
{}
