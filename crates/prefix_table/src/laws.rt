ghost use Rattle.prefix_table.specs.Laws.{LongestIsLongest, NoneMatches, KnownKeepPlaces, OtherServersStay};

/// A law: what is found for a path is known, matches it, and is at least as long as each known prefix that matches it.
pub fn longest_is_longest()
    ensures { LongestIsLongest }
{}

/// A law: nothing is found for a path exactly where no known prefix matches it.
pub fn none_matches()
    ensures { NoneMatches }
{}

/// A law: learning a known prefix leaves the prefixes and their order.
pub fn known_keep_places()
    ensures { KnownKeepPlaces }
{}

/// A law: a learned prefix has its server, and each other prefix has the one that it had.
pub fn other_servers_stay()
    ensures { OtherServersStay }
{}
