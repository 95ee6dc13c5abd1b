//! Where the imports of a file stand.

ghost use Rattle.std.specs.Prelude.{◌≡◌, ◌∷◌, ◌++◌, [], ◌<◌, ◌-◌, IfOk};
ghost use Rattle.init_base.specs.Tree.{has_name};

use init_base::{List, NoMemory, Text};
use std::alloc::Global;

/// How many levels of imports may stand below a file that no import leads to.
const MOST_LEVELS: u32 = 16;

/// A file whose imports are followed.
#[derive(Drop)]
pub struct Place {
    /// The files that are being imported now, from the first one to this one.
    pub trail: List<Text>,
    pub file: Text,
    /// How many levels of imports may stand below it.
    pub left: u32,
}

impl Place {
    /// That of a file that no import leads to.
    pub fn first(alloc: Global, file: Text) -> Result<Place, NoMemory>
        ensures { IfOk result (λ place. place ≡ record { trail = file ∷ []; file = file; left = 16 }) }
    {
        let mut trail = List::new(alloc);
        trail.push(file.share()?)?;
        Ok(Place {
            trail,
            file,
            left: MOST_LEVELS,
        })
    }

    /// That of a file to which an import of this one leads.
    pub fn below(&self, alloc: Global, file: Text) -> Result<Place, NoMemory>
        requires { 0 < self.now.left }
        ensures { IfOk result (λ place. place
            ≡ record { trail = self.now.trail ++ file ∷ []; file = file; left = self.now.left - 1 }) }
    {
        let mut trail = self.trail(alloc)?;
        trail.push(file.share()?)?;
        Ok(Place {
            trail,
            file,
            left: self.left - 1,
        })
    }

    /// Another list of the files that are being imported now.
    fn trail(&self, alloc: Global) -> Result<List<Text>, NoMemory>
        ensures { IfOk result (λ trail. trail ≡ self.now.trail) }
    {
        let mut trail = List::new(alloc);
        for file in self.trail.items() {
            trail.push(file.share()?)?;
        }
        Ok(trail)
    }

    /// Whether the file with this path is being imported now.
    pub fn is_open(&self, path: &[u8]) -> bool
        ensures { result ≡ has_name self.now.trail path.now }
    {
        self.trail.items().iter().any(|file| file.is(path))
    }
}
