//! What of a name and its files was brought to the disk, by what its own calls did.
ghost use Rattle.std.specs.Prelude.{◌≡◌, false};
ghost use Rattle.seat_disk.specs.Syncs.{changed, kept_beside, kept_name, renamed};

/// What no call has changed since its last good sync.
#[derive(Clone, Copy)]
pub struct Synced {
    /// The new file beside the name.
    pub beside: bool,
    /// The file that has the name.
    pub file: bool,
    /// That the name leads to it.
    pub name: bool,
}

impl Synced {
    /// Nothing: what was there at first may be on no disk.
    pub fn none() -> Synced
        ensures { result ≡ record { beside = false; file = false; name = false } }
    {
        Synced {
            beside: false,
            file: false,
            name: false,
        }
    }

    /// The file beside the name was begun, or added to.
    pub fn change(&mut self)
        ensures { self.new ≡ changed self.old }
    {
        self.beside = false;
    }

    /// The file beside the name was synced.
    pub fn keep_beside(&mut self)
        ensures { self.new ≡ kept_beside self.old }
    {
        self.beside = true;
    }

    /// The file beside took the name.
    pub fn rename(&mut self)
        ensures { self.new ≡ renamed self.old }
    {
        self.file = self.beside;
        self.beside = false;
        self.name = false;
    }

    /// The folder was synced.
    pub fn keep_name(&mut self)
        ensures { self.new ≡ kept_name self.old }
    {
        self.name = true;
    }
}
