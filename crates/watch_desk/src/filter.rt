ghost use Rattle.std.specs.Prelude.{◌≡◌};
ghost use Rattle.watch_desk.specs.Wanting.{is_wanted};

use path_tree::Path;

/// What answers whether a path is wanted.
pub type Call = Box<dyn Fn(&Path) -> bool + Send + Sync + Drop>;

/// A watcher: it wants its prefix and every path below it. A closure answers that, kept beside the
/// fact that it answers so. A `Filter` is seen as its prefix.
#[derive(Drop)]
pub struct Filter {
    prefix: Path,
    call: Call,
    pub ghost callable: { (p : _) → Call.pre call p },
    pub ghost answers: { (p : _) (r : _) → Call.post call p r → r ≡ is_wanted prefix p.now },
}

impl Filter {
    /// The watcher of a prefix, as a closure answers it. It takes no memory.
    pub fn new(prefix: Path, call: Call) -> Filter
        requires callable { (p : _) → Call.pre call p }
        requires answers { (p : _) (r : _) → Call.post call p r → r ≡ is_wanted prefix p.now }
        ensures { result.prefix ≡ prefix }
    {
        Filter { prefix, call }
    }

    /// The prefix. It takes no memory.
    pub fn prefix(&self) -> &Path
        ensures { result.now ≡ self.now.prefix }
    {
        &self.prefix
    }

    /// Whether the watcher wants a path. It takes no memory.
    pub fn wants(&self, path: &Path) -> bool
        ensures { result ≡ is_wanted self.now.prefix path.now }
    {
        (self.call)(path)
    }
}
