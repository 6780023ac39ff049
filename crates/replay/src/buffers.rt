// The calls that write digits, titles, addresses, parameters, messages or a form.
use crate::answers::Answer;
use crate::call::Call;
use crate::constructors;
use crate::reply::Reply;
use address::rewrite::rewrite;
use address::{GlobalTitle, SuaAddress};
use bcd::encode_gt_digits;
use bcd::error::Refusal;
use form::settle;
use message::header::CommonHeader;
use message::types::MessageType;
use message::{SuaMessage, pack_affected_point_codes};
use parameter::table::Records;

// A call on octets.
fn of_octets<T: Answer + Drop, F: FnOnce(&[u8], &mut [u8]) -> T>(
    call: &mut Call,
    reply: &mut Reply,
    write: F,
)
    requires { F.IsAlwaysCallable write }
{
    let octets = call.string();
    reply.written(call.number(), |out| write(octets, out));
}

// A call on a tag and a value.
fn of_tagged<F: FnOnce(u16, &[u8], &mut [u8]) -> Result<usize, Refusal>>(
    call: &mut Call,
    reply: &mut Reply,
    write: F,
)
    requires { F.IsAlwaysCallable write }
{
    let tag = call.number();
    let value = call.string();
    reply.written(call.number(), |out| write(tag, value, out));
}

fn title(title: GlobalTitle, call: &mut Call, reply: &mut Reply) {
    reply.written(call.number(), |out| title.encode(out));
}

// An address that has no other sub-parameters.
fn alone(address: SuaAddress, call: &mut Call, reply: &mut Reply) {
    reply.written(
        call.number(),
        |out| address.encode(Records::new(&[], &[]), out),
    );
}

fn address(call: &mut Call, reply: &mut Reply) {
    let address = call.address();
    let room = call.number();
    let table = call.table();
    reply.written(room, |out| address.encode(table.records(), out));
}

fn parameters(call: &mut Call, reply: &mut Reply) {
    let count = call.number();
    let room = call.number();
    let table = call.table();
    reply.written(room, |out| table.records().encode_parameters(count, out));
}

fn message(call: &mut Call, reply: &mut Reply) {
    let Ok(message_type) = MessageType::from_class_type(call.number(), call.number()) else {
        return reply.line.word("unknown");
    };
    let message = SuaMessage {
        message_type,
        count: call.number(),
    };
    let room = call.number();
    let table = call.table();
    reply.written(room, |out| message.encode(table.records(), out));
}

fn header(call: &mut Call, reply: &mut Reply) {
    let version = call.number();
    let Ok(message_type) = MessageType::from_class_type(call.number(), call.number()) else {
        return reply.line.word("unknown");
    };
    let header = CommonHeader {
        version,
        message_type,
        message_length: call.number(),
    };
    reply.written(call.number(), |out| header.encode(out));
}

fn point_codes(call: &mut Call, reply: &mut Reply) {
    let room = call.number();
    let codes = call.codes();
    reply.written(room, |out| pack_affected_point_codes(codes, out));
}

// The entries that fill a report: its four numbers.
fn read(input: &[u8], out: &mut [u8]) -> [u64; 4] {
    let mut report = [0u64; 4];
    entry::sua_read(input, out, &mut report);
    report
}

fn encode(call: &mut Call, reply: &mut Reply) {
    let class = call.number();
    let msg_type = call.number();
    let list = call.string();
    reply.written(call.number(), |out| {
        let mut report = [0u64; 4];
        entry::sua_encode(class, msg_type, list, out, &mut report);
        report
    });
}

pub(crate) fn answer(call: &mut Call, reply: &mut Reply) {
    match call.name {
        "encode_gt_digits" => of_octets(call, reply, encode_gt_digits),
        "parameter_encode" => of_tagged(call, reply, parameter::encode),
        "encode_parameters" => parameters(call, reply),
        "title_encode" => title(call.title(), call, reply),
        "e164" => title(GlobalTitle::e164(call.digits(), call.number()), call, reply),
        "address_encode" => address(call, reply),
        "with_gt" => alone(SuaAddress::with_gt(call.title(), call.given()), call, reply),
        "with_ssn_pc" => alone(
            SuaAddress::with_ssn_pc(call.number(), call.number()),
            call,
            reply,
        ),
        "rewrite" => of_tagged(call, reply, rewrite),
        "header_encode" => header(call, reply),
        "message_encode" => message(call, reply),
        "pack_affected_point_codes" => point_codes(call, reply),
        "settle" => of_octets(call, reply, settle),
        "read" => of_octets(call, reply, read),
        "encode" => encode(call, reply),
        _ => constructors::answer(call, reply),
    }
}
