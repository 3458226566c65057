ghost use Rattle.std.specs.Prelude.{◌≡◌, ◌↔◌, [], IfSome, IsNone, IsOk, IsTrue, OnOk, OnErr, length, option_map};
ghost use Rattle.std.specs.List.{AllByRecursion, position};
ghost use Rattle.sprite_paths.specs.Path.{IsPrefix};
ghost use Rattle.prefix_table.specs.Prefixes.{domain, is_of, knows, better, longest, learned, IsAmong, Matches, MatchesUpTo};

use sprite_ids::{Kernel, NoMemory};
use sprite_paths::Path;
use std::alloc::Global;
use std::marker::Model;

/// A part of the tree that one server has: all paths that begin with the prefix, up to the next domain.
#[derive(Debug, Drop)]
pub struct Domain {
    pub prefix: Path,
    pub server: Kernel,
}

/// The prefixes that a client knows, each once, with their servers, in the order in which they were learned.
#[derive(Debug, Drop)]
pub struct Prefixes {
    domains: Vec<Domain>,
}

impl Model for Prefixes {
    ghost use Rattle.std.specs.Prelude.{List};
    ghost use Rattle.prefix_table.specs.declared.prefixes.Domain.{Domain};
    ghost use Rattle.prefix_table.specs.Prefixes.{same_prefix};
    ghost use Rattle.sprite_ids.specs.Lists.{EachOnce};

    ghost Value = { List Domain };

    ghost view = { λ prefixes. prefixes.domains.items };

    ghost invariant = { λ prefixes. EachOnce same_prefix prefixes.domains.items };
}

impl Prefixes {
    /// No prefixes. It takes no memory, and keeps the allocator.
    pub fn new(alloc: Global) -> Prefixes
        ensures { result ≡ [] }
    {
        Prefixes {
            domains: Vec::new(alloc),
        }
    }

    /// The longest known prefix of the path, with its server; None exactly where no known prefix is one of the path. A
    /// prefix matches by parts: `/a` is one of `/a` and `/a/b`, and not of `/ab` (Welch and Ousterhout 1986). It takes no
    /// memory.
    #[tactic(auto, using(crate::proofs::PrefixLaws::longest_covers))]
    pub fn server_of(&self, path: &Path) -> Option<(&Path, Kernel)>
        ensures domain { option_map (λ found. domain found.0.now found.1) result ≡ longest self.now path.now }
        ensures found { IfSome result (λ found. IsAmong (domain found.0.now found.1) self.now × IsPrefix found.0.now path.now) }
        ensures longest { IfSome result (λ found. AllByRecursion (MatchesUpTo (length found.0.now) path.now) self.now) }
        ensures none { IsNone result ↔ AllByRecursion (λ known. Matches path.now known → ⊥) self.now }
    {
        match longest(self.domains.as_slice(), path) {
            Some(domain) => Some((&domain.prefix, domain.server)),
            None => None,
        }
    }

    /// Learns the server of a prefix. A known prefix keeps its place, and its server is the new one from then on; a new
    /// prefix comes last. Want of memory is the one error, and comes for a new prefix alone; after it all is as before,
    /// and the prefix is dropped.
    pub fn learn(&mut self, prefix: Path, server: Kernel) -> Result<(), NoMemory>
        ensures ok { OnOk result (self.new ≡ learned self.old prefix server) }
        ensures err { OnErr result (self.new ≡ self.old) }
        ensures known { IsTrue (knows self.old prefix) → IsOk result }
    {
        match place_of(self.domains.as_slice(), &prefix) {
            Some(at) => self.domains[at].server = server,
            None => self.domains.push(Domain { prefix, server })?,
        }
        Ok(())
    }

    /// Whether the prefix is known. A client broadcasts none that is (this project).
    pub fn knows(&self, prefix: &Path) -> bool
        ensures { result ≡ knows self.now prefix.now }
    {
        self.domains.iter().any(|domain| is_of(prefix, domain))
    }

    /// How many prefixes are known.
    pub fn len(&self) -> usize
        ensures { result ≡ length self.now }
    {
        self.domains.len()
    }
}

// Whether it is the domain of that prefix.
fn is_of(prefix: &Path, domain: &Domain) -> bool
    ensures { result ≡ is_of prefix.now domain.now }
{
    domain.prefix.same(prefix)
}

// Where the prefix stands.
fn place_of(domains: &[Domain], prefix: &Path) -> Option<usize>
    ensures { result ≡ position (is_of prefix.now) domains.now }
{
    domains.iter().position(|domain| is_of(prefix, domain))
}

// The domain of the longest prefix that matches the path.
fn longest<'a>(domains: &'a [Domain], path: &Path) -> Option<&'a Domain>
    ensures { option_map (λ found. found.now) result ≡ longest domains.now path.now }
{
    let mut best = None;
    for domain in domains {
        best = better(path, best, domain);
    }
    best
}

// The better of two for the path.
fn better<'a>(path: &Path, best: Option<&'a Domain>, domain: &'a Domain) -> Option<&'a Domain>
    ensures { option_map (λ found. found.now) result ≡ better path.now (option_map (λ found. found.now) best.entry) domain.now }
{
    if !path.starts_with(&domain.prefix) {
        return best;
    }
    match best {
        Some(best) if domain.prefix.len() <= best.prefix.len() => Some(best),
        _ => Some(domain),
    }
}
