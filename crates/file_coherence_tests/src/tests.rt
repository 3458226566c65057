use crate::runs;
use crate::script::{goes_on, leads_to_version, plays, plays_on_zeros};

#[test]
fn runs_have_their_effects(rt: HostRuntime) {
    assert!(rt; plays(rt.alloc(), b"x", &runs::TRUNCATED, &runs::TRUNCATED_EFFECTS));
    assert!(rt; plays(rt.alloc(), b"x", &runs::STOPPED, &runs::STOPPED_EFFECTS));
    assert!(rt; plays(rt.alloc(), b"x", &runs::CROSSED, &runs::CROSSED_EFFECTS));
    assert!(rt; plays(rt.alloc(), b"", &runs::EMPTIED, &runs::EMPTIED_EFFECTS));
    assert!(rt; plays(rt.alloc(), b"x", &runs::CALLED, &runs::CALLED_EFFECTS));
    assert!(rt; plays(rt.alloc(), b"", &runs::HELD, &runs::HELD_EFFECTS));
}

#[test]
fn runs_of_blocks_and_moves_have_theirs(rt: HostRuntime) {
    assert!(rt; plays(rt.alloc(), b"", &runs::PARTIAL, &runs::PARTIAL_EFFECTS));
    assert!(rt; plays(rt.alloc(), b"", &runs::MOVED, &runs::MOVED_EFFECTS));
    assert!(rt; plays(rt.alloc(), b"", &runs::CARRIED, &runs::CARRIED_EFFECTS));
    assert!(rt; plays_on_zeros(rt.alloc(), 262_143, &runs::LIMIT, &runs::LIMIT_EFFECTS));
    assert!(rt; plays(rt.alloc(), b"x", &runs::IMPOSSIBLE, &runs::NOTHING));
}

#[test]
fn a_file_goes_on_from_its_view(rt: HostRuntime) {
    assert!(rt;
        goes_on(
            rt.alloc(),
            b"",
            &runs::EMPTIED,
            &runs::EMPTIED_REST,
            &runs::EMPTIED_REST_EFFECTS
        )
    );
    assert!(rt;
        goes_on(
            rt.alloc(),
            b"",
            &runs::CARRIED,
            &runs::CARRIED_REST,
            &runs::CARRIED_REST_EFFECTS
        )
    );
}

#[test]
fn versions_rise_at_truncations_and_new_writers(rt: HostRuntime) {
    assert!(rt; leads_to_version(rt.alloc(), &runs::IMPOSSIBLE, 1));
    assert!(rt; leads_to_version(rt.alloc(), &runs::HELD, 2));
    assert!(rt; leads_to_version(rt.alloc(), &runs::TRUNCATED, 3));
}
