//! The scripts that a seal names.
ghost use Rattle.std.specs.Prelude.{◌≡◌, ◌<◌, ◌≤◌, ◌++◌, ◌∷◌, [], length};

use crate::digest::Digest;
use crate::imprint::Imprint;
use arrayvec::ArrayVec;
use std::marker::Model;

/// A session's script, by the imprint of its bytes.
#[derive(Clone, Copy)]
pub struct Script {
    pub session: u8,
    pub imprint: Imprint,
}

impl Default for Script {
    fn default() -> Self {
        Script {
            session: 0,
            imprint: Imprint {
                digest: Digest::default(),
                bytes: 0,
            },
        }
    }
}

/// At most eight scripts, which a contract sees as their list.
#[derive(Drop)]
pub struct Scripts {
    items: ArrayVec<Script, 8>,
}

impl Model for Scripts {
    ghost use Rattle.std.specs.Prelude.{List};
    ghost use Rattle.seat_seal.specs.declared.scripts.Script.{Script};

    ghost Value = { List Script };

    ghost view = { λ s. s.items.items };
}

impl Scripts {
    pub fn new() -> Self
        ensures { result ≡ [] }
    {
        Scripts {
            items: ArrayVec::new(),
        }
    }

    pub fn as_slice(&self) -> &[Script]
        ensures value { result.now ≡ self.now }
        ensures few { length result.now ≤ 8 }
    {
        self.items.as_slice()
    }

    /// Adds a script at the end.
    pub fn push(&mut self, script: Script)
        requires { length self.old < 8 }
        ensures { self.new ≡ self.old ++ script ∷ [] }
    {
        self.items.push(script);
    }
}
