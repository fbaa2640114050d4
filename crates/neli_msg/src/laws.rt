//! What headers, messages, answers, builders and errors state about themselves, by their values. The functions do
//! nothing: their contracts are the laws.

ghost use Rattle.std.specs.IoError.{error_kind};
ghost use Rattle.std.specs.Prelude.{◌≡◌, ◌<◌, None, Some, drop, length};
ghost use Rattle.neli_attr.specs.Builders.{message_in};
ghost use Rattle.neli_wire.specs.Frames.{frame_at, frame_takes_memory};
ghost use Rattle.neli_wire.specs.laws.Values.{AreReadAs, AreSame, GivesOnly, OnlyWhere};
ghost use Rattle.neli_msg.specs.Answers.{acknowledgement_in, answer_text, dump_end_in, failure_in};
ghost use Rattle.neli_msg.specs.Answers.{failure_takes_memory, failure_view};
ghost use Rattle.neli_msg.specs.Copies.{answer_copy_takes_memory, error_copy_takes_memory, payload_copy_takes_memory};
ghost use Rattle.neli_msg.specs.Explained.{explained_text};
ghost use Rattle.neli_msg.specs.Headers.{header_in, header_wire};
ghost use Rattle.neli_msg.specs.Messages.{layout_with, message_layout, message_of, message_takes_memory};
ghost use Rattle.neli_msg.specs.RouterErrors.{de_of, router_of_message, router_text, socket_of};
ghost use Rattle.neli_msg.specs.SocketErrors.{of_de, of_ser, socket_of_message, socket_text};
ghost use Rattle.neli_msg.specs.Wires.{answer_size, answer_wire, echo_size, echo_wire, message_size, message_wire};
ghost use Rattle.neli_msg.specs.declared.router_error.RouterError.TheVariants as router;
ghost use Rattle.neli_msg.specs.declared.socket_error.SocketError.TheVariants as socket;

use crate::{
    Explained, Nlmsgerr, NlmsgerrBuilder, Nlmsghdr, NlmsghdrAck, NlmsghdrAckBuilder,
    NlmsghdrBuilder, NlmsghdrErr, NlmsghdrErrBuilder, RouterError, SocketError,
};
use neli_attr::BuildError;
use neli_consts::NlType;
use neli_list::TryClone;
use neli_wire::{
    DeError, FromBytes, FromBytesWithInput, Header, MsgError, NoMemory, SerError, Size, ToBytes,
};
use std::alloc::{AllocError, AllocFailed};
use std::{fmt, io};

/// A header is written and read as 16 bytes, each field at its place. Neither a read nor a copy takes memory.
pub fn header_is_its_bytes<T: NlType>()
    ensures written { AreSame ⟦<NlmsghdrAck<T> as ToBytes>⟧.wire (header_wire T.wire_number) }
    ensures size { AreSame ⟦<NlmsghdrAck<T> as Size>⟧.unpadded_length (λ h. 16) }
    ensures read { AreReadAs ⟦<NlmsghdrAck<T> as FromBytes>⟧.read
        ⟦<NlmsghdrAck<T> as FromBytes>⟧.takes_memory 16 (header_in T.wire_value) }
    ensures seen { AreSame ⟦<NlmsghdrAck<T> as FromBytes>⟧.view (λ h. h) }
    ensures copy { OnlyWhere ⟦<NlmsghdrAck<T> as TryClone>⟧.copy_takes_memory (λ h. ⊥) }
{}

/// A message is written and read as a frame with a header of 16 bytes, also an echoed one.
pub fn message_is_its_frame<T: NlType, W: ToBytes, R: FromBytesWithInput>()
    ensures header { ⟦<Nlmsghdr<T, W> as Header>⟧.header ≡ 16 }
    ensures written { AreSame ⟦<Nlmsghdr<T, W> as ToBytes>⟧.wire (message_wire T.wire_number W.wire) }
    ensures size { AreSame ⟦<Nlmsghdr<T, W> as Size>⟧.unpadded_length (message_size W.Size.wire_length) }
    ensures read { AreSame ⟦<Nlmsghdr<T, R> as FromBytes>⟧.read
        (frame_at (message_layout T.wire_value T.wire_number R.read)) }
    ensures seen { AreSame ⟦<Nlmsghdr<T, R> as FromBytes>⟧.view (message_of R.view) }
    ensures memory { OnlyWhere ⟦<Nlmsghdr<T, R> as FromBytes>⟧.takes_memory
        (frame_takes_memory (message_layout T.wire_value T.wire_number R.read)
        (message_takes_memory T.wire_number R.read R.takes_memory)) }
    ensures echo_header { ⟦<NlmsghdrErr<T, W> as Header>⟧.header ≡ 16 }
    ensures echo_written { AreSame ⟦<NlmsghdrErr<T, W> as ToBytes>⟧.wire (echo_wire T.wire_number W.wire) }
    ensures echo_size { AreSame ⟦<NlmsghdrErr<T, W> as Size>⟧.unpadded_length (echo_size W.Size.wire_length) }
    ensures echo_read { AreSame ⟦<NlmsghdrErr<T, R> as FromBytes>⟧.read
        (frame_at (layout_with T.wire_value (λ h. R.read))) }
    ensures echo_seen { AreSame ⟦<NlmsghdrErr<T, R> as FromBytes>⟧.view
        (λ m. (m.header, R.view m.payload.0)) }
    ensures echo_memory { OnlyWhere ⟦<NlmsghdrErr<T, R> as FromBytes>⟧.takes_memory
        (frame_takes_memory (layout_with T.wire_value (λ h. R.read)) (λ h. R.takes_memory)) }
{}

/// An answer is written as its code, what it answers and its attributes.
pub fn answer_is_its_parts<M: ToBytes>()
    ensures written { AreSame ⟦<Nlmsgerr<M> as ToBytes>⟧.wire (answer_wire M.wire) }
    ensures size { AreSame ⟦<Nlmsgerr<M> as Size>⟧.unpadded_length (answer_size M.Size.wire_length) }
{}

/// An answer is read by what it answers: nothing, only a header, or a message with its payload. It takes memory only if
/// attributes follow or the payload takes some.
pub fn answers_are_read<T: NlType, R: FromBytesWithInput>()
    ensures dump_end { AreSame ⟦<Nlmsgerr<()> as FromBytesWithInput>⟧.read dump_end_in }
    ensures dump_end_seen { AreSame ⟦<Nlmsgerr<()> as FromBytesWithInput>⟧.view (λ e. e) }
    ensures dump_end_memory { OnlyWhere ⟦<Nlmsgerr<()> as FromBytesWithInput>⟧.takes_memory
        (λ s. 0 < length (drop 4 s)) }
    ensures acknowledgement { AreSame ⟦<Nlmsgerr<NlmsghdrAck<T>> as FromBytesWithInput>⟧.read
        (acknowledgement_in T.wire_value) }
    ensures acknowledgement_seen { AreSame
        ⟦<Nlmsgerr<NlmsghdrAck<T>> as FromBytesWithInput>⟧.view (λ e. e) }
    ensures acknowledgement_memory { OnlyWhere
        ⟦<Nlmsgerr<NlmsghdrAck<T>> as FromBytesWithInput>⟧.takes_memory (λ s. ⊥) }
    ensures failure { AreSame ⟦<Nlmsgerr<NlmsghdrErr<T, R>> as FromBytesWithInput>⟧.read
        (failure_in T.wire_value R.read) }
    ensures failure_seen { AreSame ⟦<Nlmsgerr<NlmsghdrErr<T, R>> as FromBytesWithInput>⟧.view
        (failure_view R.view) }
    ensures failure_memory { OnlyWhere
        ⟦<Nlmsgerr<NlmsghdrErr<T, R>> as FromBytesWithInput>⟧.takes_memory
        (failure_takes_memory R.read R.takes_memory) }
{}

/// A copy of a message, of an answer or of a router's error takes memory only where one of the body does, or for
/// attributes or a text.
pub fn copies_of_what_takes_none<T: NlType, P: TryClone>()
    ensures message { OnlyWhere ⟦<Nlmsghdr<T, P> as TryClone>⟧.copy_takes_memory
        (λ m. payload_copy_takes_memory P.copy_takes_memory m.payload) }
    ensures echo { OnlyWhere ⟦<NlmsghdrErr<T, P> as TryClone>⟧.copy_takes_memory
        (λ m. P.copy_takes_memory m.payload.0) }
    ensures answer { OnlyWhere ⟦<Nlmsgerr<P> as TryClone>⟧.copy_takes_memory
        (answer_copy_takes_memory P.copy_takes_memory) }
    ensures error { OnlyWhere ⟦<RouterError<T, P> as TryClone>⟧.copy_takes_memory
        (error_copy_takes_memory P.copy_takes_memory) }
{}

/// A builder of headers, of answers or of messages begins with no field.
pub fn builders_begin_with_no_field<T, P>()
    ensures header { OnlyWhere ⟦<NlmsghdrAckBuilder<T> as Default>⟧.is_default
        (λ b. b ≡ record { nl_len = None; nl_type = None; nl_flags = None; nl_seq = None; nl_pid = None }) }
    ensures answer { OnlyWhere ⟦<NlmsgerrBuilder<P> as Default>⟧.is_default
        (λ b. b ≡ record { error = None; nlmsg = None; ext_ack = None }) }
    ensures message { OnlyWhere ⟦<NlmsghdrBuilder<T, P> as Default>⟧.is_default
        (λ b. b ≡ record {
          header = record { nl_len = None; nl_type = None; nl_flags = None; nl_seq = None; nl_pid = None };
          payload = None;
        }) }
    ensures echo { OnlyWhere ⟦<NlmsghdrErrBuilder<T, P> as Default>⟧.is_default
        (λ b. b ≡ record {
          header = record { nl_len = None; nl_type = None; nl_flags = None; nl_seq = None; nl_pid = None };
          payload = None;
        }) }
{}

/// An answer prints its code; read by a person, also the error's name, the text and the place that it has.
pub fn answers_print_their_codes<M>()
    ensures code { AreSame ⟦<Nlmsgerr<M> as fmt::Display>⟧.output (λ e. Some (answer_text e)) }
    ensures explained { AreSame ⟦<Explained<'static> as fmt::Display>⟧.output
        (λ e. Some (explained_text e)) }
{}

/// An error of a link prints its text, and is what it is made of; memory that ran out stays so.
pub fn errors_of_links_say_why<const OF: u8, V: Drop>()
    ensures printed { AreSame ⟦<SocketError as fmt::Display>⟧.output socket_text }
    ensures words { GivesOnly ⟦<SocketError as From<MsgError>>⟧.from_gives
        (λ message e. e ≡ socket.Msg message) }
    ensures unwritten { GivesOnly ⟦<SocketError as From<SerError>>⟧.from_gives
        (λ error e. e ≡ of_ser error) }
    ensures unread { GivesOnly ⟦<SocketError as From<DeError>>⟧.from_gives
        (λ error e. e ≡ of_de error) }
    ensures failed { GivesOnly ⟦<SocketError as From<io::Error>>⟧.from_gives
        (λ error e. e ≡ socket.Io (error_kind error)) }
    ensures unbuilt { GivesOnly ⟦<SocketError as From<BuildError<OF>>>⟧.from_gives
        (λ error e. e ≡ socket_of_message (message_in error)) }
    ensures memory { GivesOnly ⟦<SocketError as From<NoMemory>>⟧.from_gives (λ _ e. e ≡ socket.Memory) }
    ensures allocation { GivesOnly ⟦<SocketError as From<AllocError>>⟧.from_gives
        (λ _ e. e ≡ socket.Memory) }
    ensures kept_value { GivesOnly ⟦<SocketError as From<AllocFailed<V>>>⟧.from_gives
        (λ _ e. e ≡ socket.Memory) }
{}

/// An error of a router prints its text, and is what it is made of; memory that ran out stays so.
pub fn errors_of_routers_say_why<T, P, const OF: u8, V: Drop>()
    ensures printed { AreSame ⟦<RouterError<T, P> as fmt::Display>⟧.output router_text }
    ensures words { GivesOnly ⟦<RouterError<T, P> as From<MsgError>>⟧.from_gives
        (λ message e. e ≡ router.Msg message) }
    ensures unread { GivesOnly ⟦<RouterError<T, P> as From<DeError>>⟧.from_gives
        (λ error e. e ≡ de_of error) }
    ensures failed { GivesOnly ⟦<RouterError<T, P> as From<SocketError>>⟧.from_gives
        (λ error e. e ≡ socket_of error) }
    ensures unbuilt { GivesOnly ⟦<RouterError<T, P> as From<BuildError<OF>>>⟧.from_gives
        (λ error e. e ≡ router_of_message (message_in error)) }
    ensures memory { GivesOnly ⟦<RouterError<T, P> as From<NoMemory>>⟧.from_gives
        (λ _ e. e ≡ router.Memory) }
    ensures allocation { GivesOnly ⟦<RouterError<T, P> as From<AllocError>>⟧.from_gives
        (λ _ e. e ≡ router.Memory) }
    ensures kept_value { GivesOnly ⟦<RouterError<T, P> as From<AllocFailed<V>>>⟧.from_gives
        (λ _ e. e ≡ router.Memory) }
{}
