//! A fresh placement, object by object.

ghost use Rattle.std.specs.Prelude.{◌≡◌, ◌≤◌, ◌<◌, ◌+◌, ◌^◌};
ghost use Rattle.module_packer.specs.Placement.{place_next, none_opened};
ghost use Rattle.module_packer.specs.Inner.Placement.{IsSound};

/// The most bytes that more than one object has in one module.
pub const ROOM: u32 = 65_536;

/// The module that takes the next small object, if it has room for it.
#[derive(Clone, Copy)]
pub struct Shared {
    /// Its number, from 1.
    pub number: usize,
    /// The bytes of the objects that were placed in it.
    pub sum: u32,
}

/// What a fresh placement has done so far.
#[derive(Clone, Copy)]
pub struct Packing {
    /// How many modules are opened.
    pub count: usize,
    /// The module that small objects go to.
    pub shared: Option<Shared>,
}

impl Packing {
    /// No object is placed yet.
    pub fn new() -> Packing
        ensures start { result ≡ none_opened }
        ensures sound { IsSound result }
    {
        Packing {
            count: 0,
            shared: None,
        }
    }

    /// The number of modules that were opened.
    pub fn modules(&self) -> usize
        ensures { result ≡ self.now.count }
    {
        self.count
    }

    /// Places the next object, of `size` bytes, and answers the number of its module.
    pub fn place(&mut self, size: u32) -> usize
        requires room { self.old.count + 1 < 2 ^ 64 }
        requires sound { IsSound self.old }
        ensures module { result ≡ (place_next self.old size).0 }
        ensures after { self.new ≡ (place_next self.old size).1 }
        ensures sound { IsSound self.new }
        ensures few { self.new.count ≤ self.old.count + 1 }
    {
        if size <= ROOM {
            if let Some(shared) = self.shared {
                if shared.sum + size <= ROOM {
                    self.shared = Some(Shared {
                        number: shared.number,
                        sum: shared.sum + size,
                    });
                    return shared.number;
                }
            }
            self.shared = Some(Shared {
                number: self.count + 1,
                sum: size,
            });
        }
        self.count += 1;
        self.count
    }
}
