ghost use Rattle.std.specs.Prelude.{◌≡◌};
ghost use Rattle.unix_calls.specs.Lawful.{Lawful};
ghost use Rattle.call_journal.specs.Calls.{server_of};

use sprite_ids::Kernel;
use sprite_paths::Path;
use unix_calls::Description;

/// The server of the longest domain of the path (Welch and Ousterhout 1986).
pub(crate) fn server_of(c: &Description, path: &Path) -> Kernel
    requires lawful { Lawful c.now }
    ensures { result ≡ server_of c.now path.now }
{
    c.server_at(c.domain_of(path))
}
