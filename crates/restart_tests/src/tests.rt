use crate::runs;
use crate::script::goes_so;
use crate::texts::first_other;

#[test]
fn claims_are_granted_or_refused(rt: HostRuntime) {
    assert!(rt; goes_so(rt.alloc(), &runs::GRANTED));
    assert!(rt; goes_so(rt.alloc(), &runs::REFUSED));
    assert!(rt; goes_so(rt.alloc(), &runs::READER_RAISES));
}

#[test]
fn what_clients_keep_is_told(rt: HostRuntime) {
    assert!(rt; goes_so(rt.alloc(), &runs::ANSWERED));
    assert!(rt; goes_so(rt.alloc(), &runs::APART));
    assert!(rt; goes_so(rt.alloc(), &runs::EMPTIED));
}

#[test]
fn texts_tell_what_comes(rt: HostRuntime) {
    assert_eq!(rt; first_other(rt.alloc()), None);
}
