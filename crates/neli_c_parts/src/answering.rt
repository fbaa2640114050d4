//! What an error, an acknowledgement or the end of a dump says.

ghost use Rattle.std.specs.Prelude.{◌≡◌, ◌≢◌, ◌≤◌, true, false, IfErr, IfOk, IfSome, IsErr};
ghost use Rattle.std.specs.Prelude.{IsNone, IsOk};
ghost use Rattle.std.specs.Prelude.{drop, length, min};
ghost use Rattle.neli_reader.specs.Answers.{code_in, echo_end, echoed_in, tail_at};
ghost use Rattle.neli_reader.specs.Headers.{header_in};
ghost use Rattle.neli_c_parts.specs.Codes.{ok};
ghost use Rattle.neli_c_parts.specs.AnswersShown.{answer_code, attributes_begin, echo_view, no_header};

use crate::code::{KIND, LENGTH, SHORT};
use crate::message::NeliWalk;
use byteorder::{ByteOrder, LittleEndian};
use neli_consts::NlmF;
use neli_reader::{Kind, Tail};
use neli_wire::{Constant, alignto};
use std::cmp::min;

/// The size of a code and the echoed header, in bytes (`struct nlmsgerr` of `linux/netlink.h`).
const ANSWER_SIZE: usize = 20;

/// An answer: its code, the header of the request, and the place of its attributes.
#[repr(C)]
#[derive(Clone, Copy)]
pub struct NeliAnswer {
    pub code: i32,
    pub echo_length: u32,
    pub echo_type: u16,
    pub echo_flags: u16,
    pub echo_number: u32,
    pub echo_port: u32,
    pub attributes: NeliWalk,
}

/// The start of the attributes of an error without the flag CAPPED: after the echoed request and its padding.
fn after_echo(payload: &[u8]) -> Option<usize>
    requires { 20 ≤ length payload.now }
    ensures some { IfSome result
        (λ n. IsOk (echoed_in payload.now)
        × (n ≡ min (echo_end payload.now) (length payload.now))) }
    ensures none { IsNone result → IsErr (echoed_in payload.now) }
{
    let len = LittleEndian::read_u32(&payload[4..]) as usize;
    if len < 16 || payload.len() - ANSWER_SIZE < len - 16 {
        return None;
    }
    Some(min(ANSWER_SIZE + alignto(len - 16), payload.len()))
}

/// The start of the attributes of an answer that echoes only a header.
fn tail_begin(tail: Tail, payload: &[u8]) -> usize
    ensures { result ≡ tail_at tail payload.now }
{
    match tail {
        Tail::Attributes => ANSWER_SIZE,
        Tail::Unread => payload.len(),
    }
}

/// The start of an answer's attributes in its payload; else the code of why it is none.
pub fn attributes_begin(nl_type: u16, flags: u16, payload: &[u8]) -> Result<usize, i32>
    ensures begin { IfOk result (λ n. (answer_code nl_type flags payload.now ≡ ok)
        × (n ≡ attributes_begin nl_type flags payload.now)
        × (n ≤ length payload.now) × (4 ≤ length payload.now)) }
    ensures echo { IfOk result (λ _. nl_type ≡ 2 → 20 ≤ length payload.now) }
    ensures refused { IfErr result (λ e. (answer_code nl_type flags payload.now ≡ e)
        × (e ≢ ok)) }
{
    match Kind::of(nl_type, NlmF::from_wire(flags), payload) {
        Kind::Body | Kind::Nothing => Err(KIND),
        Kind::DumpEnd if payload.len() < 4 => Err(SHORT),
        Kind::DumpEnd => Ok(4),
        _ if payload.len() < ANSWER_SIZE => Err(SHORT),
        Kind::Acknowledgement(tail) | Kind::Capped(tail) => Ok(tail_begin(tail, payload)),
        Kind::Failure => after_echo(payload).ok_or(LENGTH),
    }
}

/// The code and the echoed header of an answer, and the place of its attributes.
pub fn shown(payload: &[u8], has_echo: bool, attributes: NeliWalk) -> NeliAnswer
    requires code { 4 ≤ length payload.now }
    requires echo { has_echo ≡ true → 20 ≤ length payload.now }
    ensures code { result.code ≡ code_in payload.now }
    ensures echo { has_echo ≡ true → echo_view result ≡ header_in (λ n. n) (drop 4 payload.now) }
    ensures nothing { has_echo ≡ false → echo_view result ≡ no_header }
    ensures attributes { result.attributes ≡ attributes }
{
    let code = LittleEndian::read_i32(payload);
    if !has_echo {
        return NeliAnswer {
            code,
            echo_length: 0,
            echo_type: 0,
            echo_flags: 0,
            echo_number: 0,
            echo_port: 0,
            attributes,
        };
    }
    NeliAnswer {
        code,
        echo_length: LittleEndian::read_u32(&payload[4..]),
        echo_type: LittleEndian::read_u16(&payload[8..]),
        echo_flags: LittleEndian::read_u16(&payload[10..]),
        echo_number: LittleEndian::read_u32(&payload[12..]),
        echo_port: LittleEndian::read_u32(&payload[16..]),
        attributes,
    }
}
