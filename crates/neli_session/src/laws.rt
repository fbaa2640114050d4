//! Laws: what the reads of a request return, whatever happens, when the verdict is `Complete`, and what holds after any
//! calls of a session.

ghost use Rattle.neli_session.specs.Freshness.{LastRequestDecides, UnrequestedIsStale};
ghost use Rattle.neli_session.specs.Happenings.{DatagramsAreHappenings, ReadsAreTheAnswer, StagesFollow};
ghost use Rattle.neli_session.specs.Histories.{AnswersAreRead, DatagramsGoOutInOrder, DumpsTakeTurns};
ghost use Rattle.neli_session.specs.Histories.{MulticastIsRead, NumbersStayInUse, OneDumpRuns};
ghost use Rattle.neli_session.specs.Histories.{RegroupingChangesNothing, RequestsAreFollowed};
ghost use Rattle.neli_session.specs.Histories.{SentNumbersWereFree, UnaskedAreRead};
ghost use Rattle.neli_session.specs.Verdicts.{CompleteAnswersAreWhole, ReadsAreNoted};
ghost use Rattle.neli_session.specs.Verdicts.{WholeAnswersAreComplete};

/// Whatever happens to a request that was sent, in any order, with reads at any time: what its reads returned, and then
/// what is still to be read, is its answer: the messages that came for it up to the first that ends it, each once and in
/// order; or up to the first loss, and then the loss, once.
pub fn reads_are_the_answer()
    ensures { ReadsAreTheAnswer }
{}

/// The messages of a datagram change a request that somebody reads as those of them do that came for it, one after the
/// other: those with the session's port and its number.
pub fn datagrams_are_happenings()
    ensures { DatagramsAreHappenings }
{}

/// Whatever calls a session has, refused ones too: of each request that is sent and not closed, what its reads returned,
/// and then what is still to be read, is its answer, by what the calls since then are for its number.
pub fn answers_are_read()
    ensures { AnswersAreRead }
{}

/// So of each such request: it is as what the calls since then are for its number leave one that waits to be sent, and
/// its reads returned the same.
pub fn requests_are_followed()
    ensures { RequestsAreFollowed }
{}

/// A datagram with a request that is answered by a dump goes out only while no other dump runs, and from then on its
/// own runs.
pub fn dumps_take_turns()
    ensures { DumpsTakeTurns }
{}

/// After any calls at most one request is answered by a dump and is awaited: the kernel refuses a second dump
/// while one runs.
pub fn one_dump_runs()
    ensures { OneDumpRuns }
{}

/// What went out, and then what waits, is what was sent, each datagram once and in order: those with a dump among
/// themselves, and those without among themselves.
pub fn datagrams_go_out_in_order()
    ensures { DatagramsGoOutInOrder }
{}

/// The sequence numbers of what is sent were not in use.
pub fn sent_numbers_were_free()
    ensures { SentNumbersWereFree }
{}

/// A sequence number that was sent is free again only where its request was closed, and its answer has ended: nothing
/// that happens later is part of it.
pub fn numbers_stay_in_use()
    ensures { NumbersStayInUse }
{}

/// A datagram of whole messages, and then another one, change a session as one datagram of both does.
pub fn regrouping_changes_nothing()
    ensures { RegroupingChangesNothing }
{}

/// Until multicast is closed, what was read of it, and then what waits there, is each message that came to a group,
/// with another port than the session's or to one of its own groups, and each loss, once and in order.
pub fn multicast_is_read()
    ensures { MulticastIsRead }
{}

/// Where the unasked are kept, what was read of them, and then what waits there, is each message for no group that
/// answered no request when it came, and each loss, once and in order.
pub fn unasked_are_read()
    ensures { UnaskedAreRead }
{}

/// How far a request is, what happened to it decides alone.
#[tactic(auto, using(crate::proofs::Verdicts::stages_follow))]
pub fn stages_follow()
    ensures { StagesFollow }
{}

/// The verdict is decided by what the reads returned: by the first item that decides one.
#[tactic(auto, using(crate::proofs::Verdicts::reads_noted))]
pub fn reads_are_noted()
    ensures { ReadsAreNoted }
{}

/// Where the verdict on an answer is `Complete`, its reads have returned all of it, each message once and in order.
/// Nothing of it was lost, and no message of it is marked as interrupted or has another code than 0. Its last message
/// ends it, and no other does; where the request expects no answer, as `Silence`, it may have none: then the link was
/// seen empty.
pub fn complete_answers_are_whole()
    ensures { CompleteAnswersAreWhole }
{}

/// Where all of an answer has come, its end too, with nothing lost, marked as interrupted or with another code than 0,
/// and its reads have returned it, the verdict is `Complete`.
pub fn whole_answers_are_complete()
    ensures { WholeAnswersAreComplete }
{}

/// Whatever happens to a list that a program keeps, it is current exactly where its last request was answered completely
/// and nothing was lost since that request was made. Where nothing was lost and its answer has not ended it is being read;
/// else it is stale, and to be requested again.
pub fn last_request_decides()
    ensures { LastRequestDecides }
{}

/// A list that was not requested yet is stale.
pub fn unrequested_is_stale()
    ensures { UnrequestedIsStale }
{}
