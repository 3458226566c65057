ghost use Rattle.client_requests.specs.Requests.{
  BeginsWithNone,
  ImagesKeepThem,
  KeptOrAnswered,
  NewAreTaken,
  NothingElseIsKept,
  OthersAreLeft,
  RequestsAreTaken,
  StepsTakeSo,
};

/// A law: in each step of a client's kernel, whatever comes, each remote call of another kernel that was kept before it is kept still or
/// answered, and so is each that it takes; and nothing else is kept, nor any of these twice (this project).
pub fn steps_take_so()
    ensures { StepsTakeSo }
{}

/// A law: so a remote call that was kept is kept still, or the step answers it.
pub fn kept_or_answered()
    ensures { KeptOrAnswered }
{}

/// A law: and one that is kept was kept before, or it is a `wait` for this home or an ask of a device here that came just now.
pub fn nothing_else_is_kept()
    ensures { NothingElseIsKept }
{}

/// A law: of the requests that come, a callback, a kill, the news of a place and every call for a home but `wait` are answered in the
/// step; a `wait` too, or it is parked; an ask of a pseudo-device too, or it is kept; a process that moves or starts too, where this
/// kernel doesn't know it already.
pub fn requests_are_taken()
    ensures { RequestsAreTaken }
{}

/// A law: with all others nothing is done: requests for servers, and those that bring a process that is here already or just leaves; so
/// nothing ever answers them.
pub fn others_are_left()
    ensures { OthersAreLeft }
{}

/// A law: a process that is neither here nor leaves (`IsNew` of `client_facts`) isn't such a one.
pub fn new_are_taken()
    ensures { NewAreTaken }
{}

/// A law: a client's kernel keeps none when the cluster begins.
pub fn begins_with_none()
    ensures { BeginsWithNone }
{}

/// A law: and what a process does between two calls changes nothing of what is kept.
pub fn images_keep_them()
    ensures { ImagesKeepThem }
{}
