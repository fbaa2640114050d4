//! The text of `tables/proc_event.table`. Written by `tables/into-crates`.

ghost use Rattle.neli_tables_system.specs.Tables.{Begins, heading_of};
ghost use Rattle.neli_tables_system.specs.declared.table.SystemTable.TheVariants as table;

/// The text.
static TEXT: &[u8] = b"\
    # Written by hand from the headers.\n\nfamily proc-event 11 id=1 at=20..24\n\nmessage PROC_EVE\
    NT_NONE 0 struct=proc_event_none\nmessage PROC_EVENT_FORK 1 struct=proc_event_fork\nmessage PR\
    OC_EVENT_EXEC 2 struct=proc_event_exec\nmessage PROC_EVENT_UID 4 struct=proc_event_uid\nmessag\
    e PROC_EVENT_GID 64 struct=proc_event_gid\nmessage PROC_EVENT_SID 128 struct=proc_event_sid\nm\
    essage PROC_EVENT_PTRACE 256 struct=proc_event_ptrace\nmessage PROC_EVENT_COMM 512 struct=proc\
    _event_comm\nmessage PROC_EVENT_COREDUMP 1073741824 struct=proc_event_coredump\nmessage PROC_E\
    VENT_EXIT 2147483648 struct=proc_event_exit\n\nstruct proc_event_none 60\n  field idx 0..4 u3\
    2\n  field val 4..8 u32\n  field seq 8..12 u32\n  field ack 12..16 u32\n  field len 16..18 u1\
    6\n  field flags 18..20 u16\n  field what 20..24 u32\n  field cpu 24..28 u32\n  field timestam\
    p_ns 28..36 u64\n  field err 36..40 u32\n\nstruct proc_event_fork 60\n  field idx 0..4 u32\n  \
    field val 4..8 u32\n  field seq 8..12 u32\n  field ack 12..16 u32\n  field len 16..18 u16\n  f\
    ield flags 18..20 u16\n  field what 20..24 u32\n  field cpu 24..28 u32\n  field timestamp_ns 2\
    8..36 u64\n  field parent_pid 36..40 s32\n  field parent_tgid 40..44 s32\n  field child_pid 44\
    ..48 s32\n  field child_tgid 48..52 s32\n\nstruct proc_event_exec 60\n  field idx 0..4 u32\n  \
    field val 4..8 u32\n  field seq 8..12 u32\n  field ack 12..16 u32\n  field len 16..18 u16\n  f\
    ield flags 18..20 u16\n  field what 20..24 u32\n  field cpu 24..28 u32\n  field timestamp_ns 2\
    8..36 u64\n  field process_pid 36..40 s32\n  field process_tgid 40..44 s32\n\nstruct proc_even\
    t_uid 60\n  field idx 0..4 u32\n  field val 4..8 u32\n  field seq 8..12 u32\n  field ack 12..1\
    6 u32\n  field len 16..18 u16\n  field flags 18..20 u16\n  field what 20..24 u32\n  field cpu \
    24..28 u32\n  field timestamp_ns 28..36 u64\n  field process_pid 36..40 s32\n  field process_t\
    gid 40..44 s32\n  field ruid 44..48 u32\n  field euid 48..52 u32\n\nstruct proc_event_gid 6\
    0\n  field idx 0..4 u32\n  field val 4..8 u32\n  field seq 8..12 u32\n  field ack 12..16 u3\
    2\n  field len 16..18 u16\n  field flags 18..20 u16\n  field what 20..24 u32\n  field cpu 24..\
    28 u32\n  field timestamp_ns 28..36 u64\n  field process_pid 36..40 s32\n  field process_tgid \
    40..44 s32\n  field rgid 44..48 u32\n  field egid 48..52 u32\n\nstruct proc_event_sid 60\n  fi\
    eld idx 0..4 u32\n  field val 4..8 u32\n  field seq 8..12 u32\n  field ack 12..16 u32\n  fiel\
    d len 16..18 u16\n  field flags 18..20 u16\n  field what 20..24 u32\n  field cpu 24..28 u3\
    2\n  field timestamp_ns 28..36 u64\n  field process_pid 36..40 s32\n  field process_tgid 40..4\
    4 s32\n\nstruct proc_event_ptrace 60\n  field idx 0..4 u32\n  field val 4..8 u32\n  field seq \
    8..12 u32\n  field ack 12..16 u32\n  field len 16..18 u16\n  field flags 18..20 u16\n  field w\
    hat 20..24 u32\n  field cpu 24..28 u32\n  field timestamp_ns 28..36 u64\n  field process_pid 3\
    6..40 s32\n  field process_tgid 40..44 s32\n  field tracer_pid 44..48 s32\n  field tracer_tgi\
    d 48..52 s32\n\nstruct proc_event_comm 60\n  field idx 0..4 u32\n  field val 4..8 u32\n  fiel\
    d seq 8..12 u32\n  field ack 12..16 u32\n  field len 16..18 u16\n  field flags 18..20 u16\n  f\
    ield what 20..24 u32\n  field cpu 24..28 u32\n  field timestamp_ns 28..36 u64\n  field process\
    _pid 36..40 s32\n  field process_tgid 40..44 s32\n  field comm 44..60 text\n\nstruct proc_even\
    t_coredump 60\n  field idx 0..4 u32\n  field val 4..8 u32\n  field seq 8..12 u32\n  field ack \
    12..16 u32\n  field len 16..18 u16\n  field flags 18..20 u16\n  field what 20..24 u32\n  fiel\
    d cpu 24..28 u32\n  field timestamp_ns 28..36 u64\n  field process_pid 36..40 s32\n  field pro\
    cess_tgid 40..44 s32\n  field parent_pid 44..48 s32\n  field parent_tgid 48..52 s32\n\nstruct \
    proc_event_exit 60\n  field idx 0..4 u32\n  field val 4..8 u32\n  field seq 8..12 u32\n  fiel\
    d ack 12..16 u32\n  field len 16..18 u16\n  field flags 18..20 u16\n  field what 20..24 u3\
    2\n  field cpu 24..28 u32\n  field timestamp_ns 28..36 u64\n  field process_pid 36..40 s32\n  \
    field process_tgid 40..44 s32\n  field exit_code 44..48 u32\n  field exit_signal 48..52 u3\
    2\n  field parent_pid 52..56 s32\n  field parent_tgid 56..60 s32\n";

/// The text of `tables/proc_event.table`.
pub(crate) fn text() -> &'static [u8]
    ensures { Begins result.now (heading_of table.ProcEvent) }
{
    TEXT
}
