ghost use Rattle.client_walks.specs.Answers.{ClientsSendNoneOn};

/// A law: no answer of a client's kernel sends a name call on into another domain; servers alone do so (Welch and Ousterhout 1986).
pub fn clients_send_none_on()
    ensures { ClientsSendNoneOn }
{}
