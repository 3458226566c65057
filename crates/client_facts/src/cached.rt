ghost use Rattle.client_facts.specs.Cached.{SoundHoldsCached};

/// A law: a client's cache, as each cache, holds blocks of cached files alone.
pub fn sound_holds_cached()
    ensures { SoundHoldsCached }
{}
