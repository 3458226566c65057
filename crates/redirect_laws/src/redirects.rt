ghost use Rattle.redirect_laws.specs.Links.{ServersBeginLinked, ServersLeadSo};

/// A law: a server leads a name call on only to where another domain hangs in one of its own, and it hangs no further ones there: so
/// each answer of a step that leads on leads to one of these, and they stay (Welch and Ousterhout 1986).
pub fn servers_lead_on_to_roots()
    ensures { ServersLeadSo }
{}

/// A law: a server begins with other domains hung in its own at the roots of domains alone (Welch and Ousterhout 1986).
pub fn servers_begin_linked()
    ensures { ServersBeginLinked }
{}
