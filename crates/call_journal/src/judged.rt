//! Small traces, each judged by the definitions: which keep the rules, and which break one.
#![tactic(auto, unfolding(process_machine::specs::Runs::call_bound))]

ghost use Rattle.std.specs.Prelude.{◌≡◌, true, false, None, IsTrue};
ghost use Rattle.unix_calls.specs.After.{legal};
ghost use Rattle.call_journal.specs.Journal.{journal_of};
ghost use Rattle.call_journal.specs.Formed.{formed};
ghost use Rattle.call_journal.specs.Once.{once_of};
ghost use Rattle.call_journal.specs.Unreachable.{unreachable_for_cause};
ghost use Rattle.call_journal.specs.EntryPlaces.{entries_stand_at_their_kernels};
ghost use Rattle.call_journal.specs.CachedCalls.{cached_calls_use_held_blocks};
ghost use Rattle.call_journal.specs.Operations.{operations_go_out_uncached};
ghost use Rattle.call_journal.specs.Fetches.{fetches_are_of_absent_blocks};
ghost use Rattle.call_journal.specs.Drops.{blocks_are_dropped_for_a_cause};
ghost use Rattle.call_journal.specs.Sharing.{caching_stops_only_for_sharing};
ghost use Rattle.call_journal.specs.PrefixBroadcasts.{prefixes_are_broadcast_until_learned};
ghost use Rattle.call_journal.specs.Moves.{processes_run_where_they_are};
ghost use Rattle.call_journal.specs.WriteBacks.{blocks_are_written_back_for_a_cause};
ghost use Rattle.call_journal.specs.Rules.{KeepsRules};
ghost use Rattle.call_journal.specs.WorthBursts.{bursts_are_worth};
ghost use Rattle.call_journal.specs.WorthPackets.{deliveries_are_few, expires_are_worth};
ghost use Rattle.call_journal.specs.WorthSends.{sends_are_worth};
ghost use Rattle.call_journal.specs.WorthRecords.{records_are_worth};
ghost use Rattle.call_journal.specs.WorthCaches.{caches_are_worth};
ghost use Rattle.call_journal.specs.WorthKills.{kills_are_heeded};
ghost use Rattle.call_journal.specs.Worth.{Worth};
ghost use Rattle.call_journal.specs.Units.{units_of};
ghost use Rattle.call_journal.specs.Examples.{call_of};
ghost use Rattle.call_journal.specs.CachedExample.{cached_cluster, cached_trace, unfilled_trace, fetched_again_trace, sent_out_trace, fetched_twice_trace, asked_again_trace, dropped_trace, early_entry_trace, entered_twice_trace, other_return_trace, wrong_byte_trace, unasked_trace, ungranted_trace, elsewhere_trace, long_burst_trace, delivered_often_trace, early_send_trace, same_stamp_trace};
ghost use Rattle.call_journal.specs.SyncedExample.{synced_cluster, synced_trace, early_write_back_trace, unsent_trace};
ghost use Rattle.call_journal.specs.SharedExample.{shared_cluster, shared_trace, unshared_trace, unstopped_trace, called_back_trace};
ghost use Rattle.call_journal.specs.UnreachedExample.{unreached_cluster, unreached_trace, seven_lost_trace, nothing_lost_trace, four_tries_trace};
ghost use Rattle.call_journal.specs.KilledExample.{killed_cluster, killed_trace, unheeded_kill_trace, unkilled_trace, early_death_trace};
ghost use Rattle.call_journal.specs.EvictedExample.{evicted_cluster, evicted_trace, stays_trace, frozen_trace, strayed_trace, frozen_twice_trace};
ghost use Rattle.call_journal.specs.MovedExample.{moved_cluster, moved_trace, unleft_trace, target_closed_trace, other_source_trace, other_mode_trace, unopened_move_trace, open_mode_trace, strange_number_trace, open_elsewhere_trace, fetch_about_trace, broadcast_about_trace, split_broadcast_trace, other_mode_closed_trace, stopped_move_trace, stopped_beside_trace};
ghost use Rattle.call_journal.specs.PartedExample.{parted_cluster, parted_trace, parent_closed_trace, unparted_trace, shared_by_open_trace, other_shared_trace, operation_about_trace};
ghost use Rattle.call_journal.specs.TruncatedExample.{truncated_cluster, truncated_trace, untruncated_trace, dropped_late_trace, undropped_trace, same_number_trace};
ghost use Rattle.call_journal.specs.DeviceExample.{device_cluster, device_trace, device_opened_trace, device_dropped_trace};
ghost use Rattle.call_journal.specs.LimitedExample.{limited_cluster, tries_to_client, tries_to_server, sent_on_to_client, killed_away, killed_there, sent_for, an_operation, a_fetch, a_write_back, a_broadcast, unborn_burst, sent_to_itself};

/// A file is read twice, the second time from the cache.
pub fn reads_from_the_cache()
    ensures legal { legal cached_cluster (journal_of cached_trace) ≡ true }
    ensures formed { formed cached_cluster cached_trace ≡ true }
    ensures once { once_of 1001 cached_trace ≡ true }
    ensures reachable { unreachable_for_cause cached_cluster cached_trace ≡ true }
    ensures rules { KeepsRules cached_cluster cached_trace }
    ensures worth { Worth cached_cluster cached_trace }
    ensures units { units_of cached_trace ≡ 36 }
{}

/// A file is written, and a `sync` writes it back.
pub fn writes_back_for_a_sync()
    ensures legal { legal synced_cluster (journal_of synced_trace) ≡ true }
    ensures formed { formed synced_cluster synced_trace ≡ true }
    ensures once { once_of 1001 synced_trace ≡ true }
    ensures rules { KeepsRules synced_cluster synced_trace }
    ensures worth { Worth synced_cluster synced_trace }
{}

/// A file that one client writes is opened by another one: nobody caches it any more.
pub fn stops_for_sharing()
    ensures legal { legal shared_cluster (journal_of shared_trace) ≡ true }
    ensures formed { formed shared_cluster shared_trace ≡ true }
    ensures writer { once_of 1001 shared_trace ≡ true }
    ensures reader { once_of 2001 shared_trace ≡ true }
    ensures rules { KeepsRules shared_cluster shared_trace }
    ensures worth { Worth shared_cluster shared_trace }
{}

/// A link loses every packet: the server is unreachable.
pub fn loses_every_packet()
    ensures legal { legal unreached_cluster (journal_of unreached_trace) ≡ true }
    ensures formed { formed unreached_cluster unreached_trace ≡ true }
    ensures once { once_of 1001 unreached_trace ≡ true }
    ensures reachable { unreachable_for_cause unreached_cluster unreached_trace ≡ true }
    ensures rules { KeepsRules unreached_cluster unreached_trace }
    ensures worth { Worth unreached_cluster unreached_trace }
{}

/// A parent kills its child.
pub fn heeds_a_kill()
    ensures legal { legal killed_cluster (journal_of killed_trace) ≡ true }
    ensures formed { formed killed_cluster killed_trace ≡ true }
    ensures parent { once_of 1001 killed_trace ≡ true }
    ensures child { once_of 1002 killed_trace ≡ true }
    ensures rules { KeepsRules killed_cluster killed_trace }
    ensures worth { Worth killed_cluster killed_trace }
{}

/// A process moves to another client, and is evicted from it.
pub fn heeds_an_eviction()
    ensures legal { legal evicted_cluster (journal_of evicted_trace) ≡ true }
    ensures formed { formed evicted_cluster evicted_trace ≡ true }
    ensures once { once_of 1001 evicted_trace ≡ true }
    ensures rules { KeepsRules evicted_cluster evicted_trace }
    ensures worth { Worth evicted_cluster evicted_trace }
{}

/// A process moves to another client, and takes its open stream along.
pub fn moves_with_a_stream()
    ensures legal { legal moved_cluster (journal_of moved_trace) ≡ true }
    ensures formed { formed moved_cluster moved_trace ≡ true }
    ensures once { once_of 1001 moved_trace ≡ true }
    ensures rules { KeepsRules moved_cluster moved_trace }
    ensures worth { Worth moved_cluster moved_trace }
{}

/// A child moves to another client, and shares a stream with its parent, which stays.
pub fn parts_from_its_parent()
    ensures legal { legal parted_cluster (journal_of parted_trace) ≡ true }
    ensures formed { formed parted_cluster parted_trace ≡ true }
    ensures parent { once_of 1001 parted_trace ≡ true }
    ensures child { once_of 1002 parted_trace ≡ true }
    ensures rules { KeepsRules parted_cluster parted_trace }
    ensures worth { Worth parted_cluster parted_trace }
{}

/// A file that is open is opened again with truncation: nobody caches it any more, and its blocks may go.
pub fn stops_for_a_truncation()
    ensures legal { legal truncated_cluster (journal_of truncated_trace) ≡ true }
    ensures formed { formed truncated_cluster truncated_trace ≡ true }
    ensures once { once_of 1001 truncated_trace ≡ true }
    ensures rules { KeepsRules truncated_cluster truncated_trace }
    ensures worth { Worth truncated_cluster truncated_trace }
    ensures dropped { blocks_are_dropped_for_a_cause truncated_cluster dropped_late_trace ≡ true }
{}

/// A process makes a device and opens it.
pub fn opens_a_device()
    ensures legal { legal device_cluster (journal_of device_trace) ≡ true }
    ensures formed { formed device_cluster device_trace ≡ true }
    ensures once { once_of 1001 device_trace ≡ true }
    ensures rules { KeepsRules device_cluster device_trace }
    ensures worth { Worth device_cluster device_trace }
{}

/// A read that sees a byte which isn't in the file is no history.
pub fn no_wrong_byte()
    ensures { legal cached_cluster (journal_of wrong_byte_trace) ≡ false }
{}

/// A death without a kill is no history.
pub fn no_death_without_kill()
    ensures { legal killed_cluster (journal_of unkilled_trace) ≡ false }
{}

/// A stream is not opened without a grant.
pub fn no_open_without_grant()
    ensures { formed cached_cluster ungranted_trace ≡ false }
{}

/// An open of a device is none of the file whose Opened stands before it: no stream of the file is opened by it, no file is
/// truncated by it, no caching stops and no block goes for it.
pub fn no_file_opened_by_a_device()
    ensures formed { formed device_cluster device_opened_trace ≡ false }
    ensures moved { records_are_worth device_cluster device_opened_trace ≡ false }
    ensures licence { caching_stops_only_for_sharing device_cluster device_opened_trace ≡ false }
    ensures version { blocks_are_dropped_for_a_cause device_cluster device_dropped_trace ≡ false }
{}

/// A file that is opened without truncation isn't truncated.
pub fn no_truncation_without_its_flag()
    ensures licence { caching_stops_only_for_sharing truncated_cluster untruncated_trace ≡ false }
    ensures version { blocks_are_dropped_for_a_cause truncated_cluster undropped_trace ≡ false }
{}

/// A stream that moves is closed at its source, and nowhere else; it was opened before, and keeps its mode.
pub fn no_move_without_its_source()
    ensures unleft { formed moved_cluster unleft_trace ≡ false }
    ensures target { formed moved_cluster target_closed_trace ≡ false }
    ensures source { formed moved_cluster other_source_trace ≡ false }
    ensures mode { formed moved_cluster other_mode_trace ≡ false }
    ensures unopened { formed moved_cluster unopened_move_trace ≡ false }
{}

/// An open gives a stream of its call's mode with a number of its own kernel, and enters at the file's server.
pub fn no_open_of_another_stream()
    ensures mode { formed moved_cluster open_mode_trace ≡ false }
    ensures number { formed moved_cluster strange_number_trace ≡ false }
    ensures again { formed truncated_cluster same_number_trace ≡ false }
    ensures server { formed moved_cluster open_elsewhere_trace ≡ false }
{}

/// A stream on its way is no sharing: caching does not stop for it, but where its source stays open.
pub fn no_stop_for_a_move()
    ensures moved { caching_stops_only_for_sharing moved_cluster stopped_move_trace ≡ false }
    ensures beside { caching_stops_only_for_sharing moved_cluster stopped_beside_trace ≡ true }
{}

/// A stream becomes shared for the move of that very stream, and its source isn't closed then.
pub fn no_sharing_without_a_move()
    ensures closed { formed parted_cluster parent_closed_trace ≡ false }
    ensures unparted { formed parted_cluster unparted_trace ≡ false }
    ensures opened { formed parted_cluster shared_by_open_trace ≡ false }
    ensures other { formed parted_cluster other_shared_trace ≡ false }
{}

/// A request for a block and a broadcast carry no call, an operation carries its own; a number goes for one call.
pub fn no_packet_about_another_call()
    ensures fetch { formed moved_cluster fetch_about_trace ≡ false }
    ensures broadcast { formed moved_cluster broadcast_about_trace ≡ false }
    ensures operation { formed parted_cluster operation_about_trace ≡ false }
    ensures split { formed moved_cluster split_broadcast_trace ≡ false }
{}

/// An operation and a broadcast are sent for the sake of a call; a fetch or a write-back of a block may go for that of none.
pub fn no_operation_for_no_call()
    ensures unowned { formed limited_cluster (sent_for None an_operation) ≡ false }
    ensures owned { formed limited_cluster (sent_for (call_of 1001 1) an_operation) ≡ true }
    ensures asked { formed limited_cluster (sent_for None a_broadcast) ≡ false }
    ensures broadcast { formed limited_cluster (sent_for (call_of 1001 1) a_broadcast) ≡ true }
    ensures fetched { formed limited_cluster (sent_for None a_fetch) ≡ true }
    ensures written { formed limited_cluster (sent_for None a_write_back) ≡ true }
{}

/// Tries end at eight where they go to a server, and there alone.
pub fn limits_tries_to_servers()
    ensures server { expires_are_worth limited_cluster tries_to_server ≡ false }
    ensures client { expires_are_worth limited_cluster tries_to_client ≡ true }
    ensures sent { expires_are_worth limited_cluster sent_on_to_client ≡ true }
{}

/// Nothing forbids any count of instructions where no call comes, nor a packet of a kernel to itself.
pub fn forbids_no_more()
    ensures unborn { bursts_are_worth limited_cluster unborn_burst ≡ true }
    ensures itself { formed limited_cluster sent_to_itself ≡ true }
{}

/// A call is not entered before its issue, nor twice; it returns with the reply that was entered; no process dies inside a call.
pub fn no_call_out_of_turn()
    ensures early { once_of 1001 early_entry_trace ≡ false }
    ensures twice { once_of 1001 entered_twice_trace ≡ false }
    ensures other { once_of 1001 other_return_trace ≡ false }
    ensures death { once_of 1002 early_death_trace ≡ false }
{}

/// A server is not called unreachable for seven lost packets, nor behind four tries.
pub fn no_unreachable_without_eight_losses()
    ensures seven { unreachable_for_cause unreached_cluster seven_lost_trace ≡ false }
    ensures four { unreachable_for_cause unreached_cluster four_tries_trace ≡ false }
{}

/// A call is not entered at a server that got no request of it.
pub fn no_entry_elsewhere()
    ensures { entries_stand_at_their_kernels cached_cluster unasked_trace ≡ false }
{}

/// A cached read does not use a block that isn't held.
pub fn no_read_of_absent_blocks()
    ensures { cached_calls_use_held_blocks cached_cluster unfilled_trace ≡ false }
{}

/// An operation does not go out while its file is cached.
pub fn no_operation_past_the_cache()
    ensures { operations_go_out_uncached cached_cluster sent_out_trace ≡ false }
{}

/// A held block is not fetched, nor is a block fetched twice before it comes.
pub fn no_idle_fetch()
    ensures held { fetches_are_of_absent_blocks cached_cluster fetched_again_trace ≡ false }
    ensures twice { caches_are_worth cached_cluster fetched_twice_trace ≡ false }
{}

/// A block is not dropped from a cache that has room.
pub fn no_idle_drop()
    ensures { blocks_are_dropped_for_a_cause cached_cluster dropped_trace ≡ false }
{}

/// Caching does not stop where nobody writes, nor without a callback; while a callback is out no operation enters.
pub fn no_stop_without_sharing()
    ensures unshared { caching_stops_only_for_sharing shared_cluster unshared_trace ≡ false }
    ensures unstopped { caching_stops_only_for_sharing shared_cluster unstopped_trace ≡ false }
    ensures called { caching_stops_only_for_sharing shared_cluster called_back_trace ≡ false }
{}

/// A prefix is not asked for where its server is known.
pub fn no_idle_broadcast()
    ensures { prefixes_are_broadcast_until_learned cached_cluster asked_again_trace ≡ false }
{}

/// A process does not run where it isn't, nor stay where it was evicted; it is not frozen without a cause; evicted it goes home.
pub fn no_move_without_cause()
    ensures elsewhere { processes_run_where_they_are cached_cluster elsewhere_trace ≡ false }
    ensures stays { processes_run_where_they_are evicted_cluster stays_trace ≡ false }
    ensures frozen { processes_run_where_they_are evicted_cluster frozen_trace ≡ false }
    ensures strayed { processes_run_where_they_are evicted_cluster strayed_trace ≡ false }
{}

/// A block is not written back as soon as it is dirty.
pub fn no_early_write_back()
    ensures { blocks_are_written_back_for_a_cause synced_cluster early_write_back_trace ≡ false }
{}

/// A burst does no more instructions than there are before the call.
pub fn no_long_burst()
    ensures { bursts_are_worth cached_cluster long_burst_trace ≡ false }
{}

/// A packet is not delivered seven times for one sending; no try is over where nothing was lost; the eighth try is the last one.
pub fn no_made_up_packets()
    ensures deliveries { deliveries_are_few delivered_often_trace ≡ false }
    ensures loss { expires_are_worth unreached_cluster nothing_lost_trace ≡ false }
    ensures tries { expires_are_worth unreached_cluster four_tries_trace ≡ false }
    ensures early { sends_are_worth cached_cluster early_send_trace ≡ false }
{}

/// Stamps rise, what is frozen is not frozen again, and a stream is closed with the mode that it was opened with.
pub fn no_made_up_records()
    ensures mode { records_are_worth moved_cluster other_mode_closed_trace ≡ false }
    ensures stamp { records_are_worth cached_cluster same_stamp_trace ≡ false }
    ensures frozen { records_are_worth evicted_cluster frozen_twice_trace ≡ false }
{}

/// A block that went to no server is not clean.
pub fn no_made_up_write_back()
    ensures { caches_are_worth synced_cluster unsent_trace ≡ false }
{}

/// A killed process issues no call at its home, nor where it was when its kernel first took word of the kill.
pub fn no_kill_ignored()
    ensures there { kills_are_heeded limited_cluster killed_there ≡ false }
    ensures later { kills_are_heeded limited_cluster killed_away ≡ true }
    ensures home { kills_are_heeded killed_cluster unheeded_kill_trace ≡ false }
{}
