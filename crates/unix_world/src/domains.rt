ghost use Rattle.std.specs.Prelude.{◌≡◌};
ghost use Rattle.unix_calls.specs.Domains.{begins_domain, roots_of};

use sprite_paths::Path;
use unix_calls::Description;

/// Whether a domain begins at that path.
pub fn begins_domain(c: &Description, path: &Path) -> bool
    ensures { result ≡ begins_domain (roots_of c.now.kernels) path.now }
{
    for line in c.kernels.as_slice() {
        if is_among(line.serves.as_slice(), path) {
            return true;
        }
    }
    false
}

// Whether the path is one of these.
fn is_among(paths: &[Path], path: &Path) -> bool
    ensures { result ≡ begins_domain paths.now path.now }
{
    for other in paths {
        if path.parts() == other.parts() {
            return true;
        }
    }
    false
}
