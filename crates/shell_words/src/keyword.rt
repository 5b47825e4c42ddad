ghost use Rattle.std.specs.Prelude.{◌≡◌, List, map};
ghost use Rattle.path_tree.specs.Paths.{Bytes};
ghost use Rattle.shell_words.specs.Words.{command_named};
ghost use Rattle.shell_words.specs.Inner.Keywords.{words_after};
ghost use Rattle.shell_words.specs.Places.{keyword_of, keyword_table};

/// The first word of a command.
#[derive(Clone, Copy)]
pub enum Keyword {
    Assemble,
    Open,
    Record,
    List,
    Publish,
    Rehearse,
    Session,
    Big,
    Find,
    OpenId,
    PublishPsi,
    PublishOn,
    Mounts,
    Watch,
    Plan,
    Inspect,
    Extract,
    Air,
}

fn keywords() -> &'static [(&'static str, Keyword)]
    ensures { map (λ k. (k.0.now, k.1)) result.now ≡ keyword_table }
{
    &[
        ("assemble", Keyword::Assemble),
        ("open", Keyword::Open),
        ("record", Keyword::Record),
        ("list", Keyword::List),
        ("publish", Keyword::Publish),
        ("rehearse", Keyword::Rehearse),
        ("session", Keyword::Session),
        ("big", Keyword::Big),
        ("find", Keyword::Find),
        ("open-id", Keyword::OpenId),
        ("publish-psi", Keyword::PublishPsi),
        ("publish-on", Keyword::PublishOn),
        ("mounts", Keyword::Mounts),
        ("watch", Keyword::Watch),
        ("plan", Keyword::Plan),
        ("inspect", Keyword::Inspect),
        ("extract", Keyword::Extract),
        ("air", Keyword::Air),
    ]
}

impl Keyword {
    /// Byte for byte.
    pub fn parse(word: &str) -> Option<Keyword>
        ensures words { (words : List Bytes)
            → command_named word.now words ≡ words_after words result }
        ensures keyword { result ≡ keyword_of word.now }
    {
        for (name, keyword) in keywords() {
            if word == *name {
                return Some(*keyword);
            }
        }
        None
    }
}
