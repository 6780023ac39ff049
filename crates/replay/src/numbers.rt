// The calls that are lent nothing.
use crate::call::Call;
use crate::reply::Reply;
use crate::tables;
use address::rewrite::rewritten_length;
use address::{GlobalTitle, RoutingIndicator};
use bcd::error::Refusal;
use bcd::{decode_gt_digits, gt_digits_length};
use form::settled_length;
use message::header::CommonHeader;
use message::types::{MessageClass, MessageType};
use parameter::{Cursor, as_u32, wire_length};

// The parameter at a position, and the next position.
fn step(call: &mut Call, reply: &mut Reply) {
    let cursor = Cursor { at: call.number() };
    match cursor.step(call.string()) {
        Ok(Some((place, next))) => reply.show((place, next.at)),
        Ok(None) => reply.line.word("end"),
        Err(refusal) => reply.show(refusal),
    }
}

fn routing_indicator(value: u16) -> Result<u16, Refusal> {
    Ok(RoutingIndicator::from_u16(value)?.value())
}

pub(crate) fn answer(call: &mut Call, reply: &mut Reply) {
    match call.name {
        "decode_gt_digits" => reply.show(decode_gt_digits(call.string(), call.number())),
        "gt_digits_length" => reply.show(gt_digits_length(call.string())),
        "parameter_decode" => reply.show(parameter::decode(call.string())),
        "wire_length" => reply.show(wire_length(call.number(), call.number())),
        "as_u32" => reply.show(as_u32(call.string())),
        "step" => step(call, reply),
        "routing_indicator" => reply.show(routing_indicator(call.number())),
        "title_decode" => reply.show(GlobalTitle::decode(call.string())),
        "address_indicator" => reply.show(call.address().address_indicator()),
        "rewritten_length" => reply.show(rewritten_length(call.number(), call.string())),
        "class" => reply.show(MessageClass::from_u8(call.number())),
        "class_type" => { reply.show(MessageType::from_class_type(call.number(), call.number())) }
        "header_decode" => reply.show(CommonHeader::decode(call.string())),
        "settled_length" => reply.show(settled_length(call.string())),
        _ => tables::answer(call, reply),
    }
}
