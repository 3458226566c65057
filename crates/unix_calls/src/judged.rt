//! Small histories and descriptions, each judged by the definitions: which are legal or lawful, and which are not.
#![tactic(auto, unfolding(process_machine::specs::Runs::call_bound))]

ghost use Rattle.std.specs.Prelude.{◌≡◌, true, false, codes, take};
ghost use Rattle.sprite_ids.specs.declared.running.Finish.TheVariants.{AllEnded};
ghost use Rattle.unix_calls.specs.After.{legal};
ghost use Rattle.unix_calls.specs.Output.{output_of};
ghost use Rattle.unix_calls.specs.Examples.{blocked_behind};
ghost use Rattle.unix_calls.specs.Lawful.{Lawful, has_joins, has_file_paths, serves_the_root, has_kernel_names, has_domains, has_starts, has_programs};
ghost use Rattle.unix_calls.specs.ProcessExamples.{hello_cluster, hello_journal, pid_cluster, pid_journal, fork_cluster, fork_journal, kill_cluster, kill_journal, wrong_pid_journal, twice_journal, other_call_journal, ended_journal, unkilled_journal, interrupted_journal, early_wait_journal, kin_cluster, kin_journal, broken_off_getppid_journal};
ghost use Rattle.unix_calls.specs.FileExamples.{file_cluster, file_journal, limit_cluster, limit_journal, append_cluster, append_journal, unreachable_cluster, unreachable_journal, names_cluster, names_journal, unwritten_journal, unreachable_read_journal, passed_limit_journal};
ghost use Rattle.unix_calls.specs.DeviceExamples.{device_cluster, device_journal, unanswered_journal, wrong_answer_journal, no_server_journal, whole_journal, dead_cluster, dead_journal};
ghost use Rattle.unix_calls.specs.DomainExamples.{domains_cluster, domains_journal, joined_files_cluster, joined_files_journal, launch_cluster, launch_journal, not_launched_journal};
ghost use Rattle.unix_calls.specs.LawfulExamples.{joined_cluster, twice_cluster, nothing_joined_cluster, old_joined_cluster, below_cluster, rootless_cluster, two_names_cluster, two_domains_cluster, started_on_server_cluster, unknown_program_cluster, rexec_cluster};

/// A process prints a line and ends.
pub fn prints_and_exits()
    ensures legal { legal hello_cluster hello_journal ≡ true }
    ensures output { output_of hello_cluster hello_journal AllEnded ≡ codes "pid 1001 hello c1 exit 0\n| hello\n" }
{}

/// A process has its number.
pub fn tells_its_number()
    ensures legal { legal pid_cluster pid_journal ≡ true }
    ensures output { output_of pid_cluster pid_journal AllEnded ≡ codes "pid 1001 p c1 exit 1\n" }
{}

/// A parent waits for its child and has its exit code.
pub fn waits_for_its_child()
    ensures legal { legal fork_cluster fork_journal ≡ true }
    ensures output { output_of fork_cluster fork_journal AllEnded ≡ codes "pid 1001 p c1 exit 7\npid 1002 p c1 exit 7\n" }
{}

/// A child that never comes to a call dies by a kill, and its parent has the status 257, of which an exit code keeps 1.
pub fn kills_its_child()
    ensures legal { legal kill_cluster kill_journal ≡ true }
    ensures output { output_of kill_cluster kill_journal AllEnded ≡ codes "pid 1001 p c1 exit 1\npid 1002 p c1 killed\n" }
{}

/// A file is read as it was written.
pub fn reads_what_it_wrote()
    ensures legal { legal file_cluster file_journal ≡ true }
    ensures output { output_of file_cluster file_journal AllEnded ≡ codes "pid 1001 p c1 exit 0\n| xy\n" }
{}

/// A write past the limit is TooBig and leaves the file as it was.
pub fn stops_at_the_limit()
    ensures legal { legal limit_cluster limit_journal ≡ true }
    ensures output { output_of limit_cluster limit_journal AllEnded ≡ codes "pid 1001 p c1 exit 8\n" }
{}

/// A stream that appends writes at the end of the file.
pub fn appends_at_the_end()
    ensures legal { legal append_cluster append_journal ≡ true }
    ensures output { output_of append_cluster append_journal AllEnded ≡ codes "pid 1001 p c1 exit 4\n| abcd\n" }
{}

/// An open finds its server out of reach and makes nothing; the next one finds no file.
pub fn goes_on_unreached()
    ensures legal { legal unreachable_cluster unreachable_journal ≡ true }
    ensures output { output_of unreachable_cluster unreachable_journal AllEnded ≡ codes "pid 1001 p c1 exit 18\n" }
{}

/// A directory lists the names that it has after a rename, in byte order.
pub fn lists_names_in_order()
    ensures legal { legal names_cluster names_journal ≡ true }
    ensures output { output_of names_cluster names_journal AllEnded ≡ codes "pid 1001 p c1 exit 0\n| a\n| c\n" }
{}

/// A device's master takes an ask and answers it.
pub fn answers_an_ask()
    ensures legal { legal device_cluster device_journal ≡ true }
    ensures output { output_of device_cluster device_journal AllEnded ≡ codes "pid 1001 m c1 exit 0\npid 1002 u c1 exit 0\n| PING\n" }
{}

/// A child kills its parent, whose wait is Interrupted, and which dies then.
pub fn kills_its_parent()
    ensures legal { legal kin_cluster kin_journal ≡ true }
    ensures output { output_of kin_cluster kin_journal AllEnded ≡ codes "pid 1001 p c1 killed\npid 1002 p c1 exit 0\n" }
{}

/// An ask of a device whose master has ended is NoServer.
pub fn asks_the_dead()
    ensures legal { legal dead_cluster dead_journal ≡ true }
    ensures output { output_of dead_cluster dead_journal AllEnded ≡ codes "pid 1001 m c1 exit 0\npid 1002 u c1 exit 16\n" }
{}

/// A domain is Busy for a rmdir, and a rename between two domains is XDev.
pub fn keeps_domains_apart()
    ensures legal { legal domains_cluster domains_journal ≡ true }
    ensures output { output_of domains_cluster domains_journal AllEnded ≡ codes "pid 1001 p c1 exit 23\n| hi\n" }
{}

/// Two lines of the cluster file give one file.
pub fn joins_files()
    ensures legal { legal joined_files_cluster joined_files_journal ≡ true }
    ensures output { output_of joined_files_cluster joined_files_journal AllEnded ≡ codes "pid 1001 p c1 exit 0\n| abcd\n" }
{}

/// A process begins another program on another host.
pub fn begins_elsewhere()
    ensures legal { legal launch_cluster launch_journal ≡ true }
    ensures output { output_of launch_cluster launch_journal AllEnded ≡ codes "pid 1001 b c1 exit 0\n| b\n" }
{}

/// Not legal: a reply that is off by one.
pub fn no_wrong_value()
    ensures { legal pid_cluster wrong_pid_journal ≡ false }
{}

/// Not legal: a call that is done twice.
pub fn no_call_twice()
    ensures { legal hello_cluster twice_journal ≡ false }
{}

/// Not legal: a call that isn't the program's next one.
pub fn no_other_call()
    ensures { legal hello_cluster other_call_journal ≡ false }
{}

/// Not legal: an entry of a process that has ended.
pub fn no_call_after_the_end()
    ensures { legal hello_cluster ended_journal ≡ false }
{}

/// Not legal: a death of a process that nobody killed.
pub fn no_death_without_kill()
    ensures { legal hello_cluster unkilled_journal ≡ false }
{}

/// Not legal: a wait that is broken off where no kill is pending.
pub fn no_interrupt_without_kill()
    ensures { legal fork_cluster interrupted_journal ≡ false }
{}

/// Not legal: a wait that has a child which lives.
pub fn no_wait_for_the_living()
    ensures { legal fork_cluster early_wait_journal ≡ false }
{}

/// Not legal: a read that gives a byte which nobody wrote.
pub fn no_unwritten_byte()
    ensures { legal file_cluster unwritten_journal ≡ false }
{}

/// Not legal: a read whose server is out of reach: only calls on names have that error.
pub fn no_unreachable_read()
    ensures { legal file_cluster unreachable_read_journal ≡ false }
{}

/// Not legal: a write that passes the limit of a file.
pub fn no_write_past_the_limit()
    ensures { legal limit_cluster passed_limit_journal ≡ false }
{}

/// Not legal: an operation on a device that ends, and nobody answered.
pub fn no_answer_from_nobody()
    ensures { legal device_cluster unanswered_journal ≡ false }
{}

/// Not legal: an operation on a device that ends with another answer than its master's.
pub fn no_other_answer()
    ensures { legal device_cluster wrong_answer_journal ≡ false }
{}

/// Not legal: an operation that ends for want of a master, where the master is there.
pub fn no_dead_device_that_lives()
    ensures { legal device_cluster no_server_journal ≡ false }
{}

/// Not legal: an operation on a device without its ask.
pub fn no_whole_call_of_a_device()
    ensures { legal device_cluster whole_journal ≡ false }
{}

/// Not legal: a call that is broken off where a kill breaks off none of its kind.
pub fn no_broken_off_getppid()
    ensures { legal kin_cluster broken_off_getppid_journal ≡ false }
{}

/// Not legal: a program that goes on behind its rexec.
pub fn no_program_past_rexec()
    ensures { legal launch_cluster not_launched_journal ≡ false }
{}

/// Blocked: a parent that waits for a living child, where no kill of it is pending. Its child isn't.
pub fn a_waiting_parent_is_blocked()
    ensures parent { blocked_behind fork_cluster (take 1 fork_journal) 1001 ≡ true }
    ensures child { blocked_behind fork_cluster (take 1 fork_journal) 1002 ≡ false }
    ensures killed { blocked_behind kin_cluster (take 3 kin_journal) 1001 ≡ false }
{}

/// Blocked: a master without an ask, and an ask without an answer on a living device.
pub fn an_unanswered_ask_is_blocked()
    ensures master { blocked_behind device_cluster (take 2 device_journal) 1001 ≡ true }
    ensures asked { blocked_behind device_cluster (take 3 device_journal) 1001 ≡ false }
    ensures asker { blocked_behind device_cluster (take 4 device_journal) 1002 ≡ true }
    ensures answered { blocked_behind device_cluster (take 5 device_journal) 1002 ≡ false }
    ensures dead { blocked_behind dead_cluster (take 4 dead_journal) 1002 ≡ false }
{}

/// Lawful: a cluster of one program, one of two programs, and one with two lines of one file.
pub fn lawful_clusters()
    ensures one { Lawful hello_cluster }
    ensures two { Lawful device_cluster }
    ensures joined { Lawful joined_cluster }
{}

/// Not lawful: a file's second line that doesn't join the first, a first line that joins, lines that join in version 1.
pub fn no_wrong_joins()
    ensures twice { has_joins twice_cluster ≡ false }
    ensures nothing { has_joins nothing_joined_cluster ≡ false }
    ensures old { has_joins old_joined_cluster ≡ false }
{}

/// Not lawful: a file below another file.
pub fn no_file_below_a_file()
    ensures { has_file_paths below_cluster ≡ false }
{}

/// Not lawful: no kernel that serves the root, two kernels of one name, two domains that are one.
pub fn no_wrong_kernels()
    ensures rootless { serves_the_root rootless_cluster ≡ false }
    ensures names { has_kernel_names two_names_cluster ≡ false }
    ensures domains { has_domains two_domains_cluster ≡ false }
{}

/// Not lawful: a process that starts on a server, or with a program that isn't there.
pub fn no_wrong_starts()
    ensures server { has_starts started_on_server_cluster ≡ false }
    ensures program { has_starts unknown_program_cluster ≡ false }
{}

/// Not lawful: a program of version 1 with the call that version 2 brings.
pub fn no_early_rexec()
    ensures { has_programs rexec_cluster ≡ false }
{}
