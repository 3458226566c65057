ghost use Rattle.std.specs.Prelude.{◌≡◌, IfOk, OnOk, not};
ghost use Rattle.std.specs.Hash as fed;
ghost use Rattle.std.specs.List.{flat_map};
ghost use Rattle.trace_rules.specs.Learned.{LearnsOn, fed_alike, is_new};

use indexmap::IndexSet;
use sprite_ids::{Copying, Kernel, NoMemory};
use sprite_paths::Path;
use std::alloc::Global;
use std::hash::{Hash, Hasher};
use unix_calls::{Event, Rec};

/// A prefix whose server a kernel learned (Welch and Ousterhout 1986).
#[derive(Debug, PartialEq, Eq, Drop)]
pub struct Learned {
    pub kernel: Kernel,
    pub prefix: Path,
}

// Sixteen kernels at most share a prefix, so the prefix alone tells enough.
impl Hash for Learned {
    ghost hash_input = { λ learned. flat_map (fed.slice fed.u8) learned.prefix };

    ghost respects_eq = { fed_alike };

    fn hash<H: Hasher>(&self, state: &mut H) {
        for part in self.prefix.parts() {
            part.as_slice().hash(state);
        }
    }
}

/// Whether the kernel has not learned the prefix so far. The one error is want of memory.
pub fn is_new_prefix(
    alloc: Global,
    learned: &IndexSet<Learned>,
    kernel: Kernel,
    prefix: &Path,
) -> Result<bool, NoMemory>
    ensures { IfOk result (λ fit. fit ≡ is_new learned.now.keys kernel prefix.now) }
{
    let prefix = prefix.copy(alloc)?;
    let asked = Learned { kernel, prefix };
    Ok(!learned.contains(&asked))
}

/// Keeps the prefix that a kernel learns by a record. The one error is want of memory.
pub fn keep_learned(
    alloc: Global,
    learned: &mut IndexSet<Learned>,
    rec: &Rec,
) -> Result<(), NoMemory>
    ensures { OnOk result (LearnsOn rec.now learned.old.keys learned.new.keys) }
{
    if let Event::Learned { prefix, .. } = &rec.event {
        let prefix = prefix.copy(alloc)?;
        learned.insert(Learned {
            kernel: rec.kernel,
            prefix,
        })?;
    }
    Ok(())
}
