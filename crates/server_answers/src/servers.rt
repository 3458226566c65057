ghost use Rattle.server_answers.specs.Servers.{
  RootsAreServed,
  RootsStay,
  ServersAnswerSo,
  ServersBeginWithNone,
  ServersKeepSo,
};

/// A law: each answer of a step of a server's kernel is to a request that it kept or that came, and of a sort that this request may
/// have; or it tells whoever asks for the server of a prefix that this is one, where the prefix is the root of a domain of it (Nelson,
/// Welch and Ousterhout 1988; Welch and Ousterhout 1986).
pub fn servers_answer_so()
    ensures { ServersAnswerSo }
{}

/// A law: a request is kept as it came, and one for the server of a prefix never is (this project).
pub fn servers_keep_so()
    ensures { ServersKeepSo }
{}

/// A law: the domains of a server stay where they hang, whatever comes (this project).
pub fn roots_stay()
    ensures { RootsStay }
{}

/// A law: when the cluster begins they are those that the description gives to that kernel.
pub fn roots_are_served()
    ensures { RootsAreServed }
{}

/// A law: and it begins with no request that it keeps.
pub fn servers_begin_with_none()
    ensures { ServersBeginWithNone }
{}
