// The calls of the constructors of messages.
use crate::call::Call;
use crate::reply::Reply;
use bcd::error::Refusal;
use message::SuaMessage;

// CLDT and, below, CLDR. The octet strings are the digits of both addresses, their values, and data; both tables stand behind
// both addresses.
fn cldt(call: &mut Call, reply: &mut Reply) {
    let context = call.number();
    let class = call.number();
    let control = call.number();
    let hops = call.given();
    let room = call.number();
    let source = call.address();
    let destination = call.address();
    let sources = call.table();
    let destinations = call.table();
    let data = call.string();
    reply.written(room, |out| {
        SuaMessage::cldt(
            context,
            class,
            &source,
            sources.records(),
            &destination,
            destinations.records(),
            control,
            hops,
            data,
            out,
        )
    });
}

fn cldr(call: &mut Call, reply: &mut Reply) {
    let context = call.number();
    let cause_type = call.number();
    let cause_value = call.number();
    let given: bool = call.number();
    let room = call.number();
    let source = call.address();
    let destination = call.address();
    let sources = call.table();
    let destinations = call.table();
    let octets = call.string();
    reply.written(room, |out| {
        let data = if given { Some(&octets[..]) } else { None };
        SuaMessage::cldr(
            context,
            cause_type,
            cause_value,
            &source,
            sources.records(),
            &destination,
            destinations.records(),
            data,
            out,
        )
    });
}

fn error(call: &mut Call, reply: &mut Reply) {
    let code = call.number();
    let context = call.given();
    let info = call.given_string();
    reply.written(
        call.number(),
        |out| SuaMessage::error(code, context, info, out),
    );
}

fn notify(call: &mut Call, reply: &mut Reply) {
    let status = call.number();
    let asp_id = call.given();
    let context = call.given();
    reply.written(
        call.number(),
        |out| SuaMessage::notify(status, asp_id, context, out),
    );
}

fn asp_up(call: &mut Call, reply: &mut Reply) {
    let asp_id = call.given();
    let info = call.given_string();
    reply.written(call.number(), |out| SuaMessage::asp_up(asp_id, info, out));
}

// A constructor of an octet string that may be absent.
fn of_string<F: FnOnce(Option<&[u8]>, &mut [u8]) -> Result<usize, Refusal>>(
    call: &mut Call,
    reply: &mut Reply,
    construct: F,
)
    requires { F.IsAlwaysCallable construct }
{
    let string = call.given_string();
    reply.written(call.number(), |out| construct(string, out));
}

// A constructor of a number that may be absent.
fn of_number<F: FnOnce(Option<u32>, &mut [u8]) -> Result<usize, Refusal>>(
    call: &mut Call,
    reply: &mut Reply,
    construct: F,
)
    requires { F.IsAlwaysCallable construct }
{
    let number = call.given();
    reply.written(call.number(), |out| construct(number, out));
}

// A constructor of two numbers that may be absent.
fn of_numbers<F: FnOnce(Option<u32>, Option<u32>, &mut [u8]) -> Result<usize, Refusal>>(
    call: &mut Call,
    reply: &mut Reply,
    construct: F,
)
    requires { F.IsAlwaysCallable construct }
{
    let first = call.given();
    let second = call.given();
    reply.written(call.number(), |out| construct(first, second, out));
}

// A constructor of a routing context that may be absent, and point codes.
fn of_codes<F: FnOnce(Option<u32>, &[u32], &mut [u8]) -> Result<usize, Refusal>>(
    call: &mut Call,
    reply: &mut Reply,
    construct: F,
)
    requires { F.IsAlwaysCallable construct }
{
    let context = call.given();
    let room = call.number();
    let codes = call.codes();
    reply.written(room, |out| construct(context, codes, out));
}

pub(crate) fn answer(call: &mut Call, reply: &mut Reply) {
    match call.name {
        "cldt" => cldt(call, reply),
        "cldr" => cldr(call, reply),
        "error" => error(call, reply),
        "notify" => notify(call, reply),
        "asp_up" => asp_up(call, reply),
        "asp_up_ack" => of_string(call, reply, SuaMessage::asp_up_ack),
        "asp_down" => of_string(call, reply, SuaMessage::asp_down),
        "asp_down_ack" => of_string(call, reply, SuaMessage::asp_down_ack),
        "heartbeat" => of_string(call, reply, SuaMessage::heartbeat),
        "heartbeat_ack" => of_string(call, reply, SuaMessage::heartbeat_ack),
        "asp_active" => of_numbers(call, reply, SuaMessage::asp_active),
        "asp_active_ack" => of_numbers(call, reply, SuaMessage::asp_active_ack),
        "asp_inactive" => of_number(call, reply, SuaMessage::asp_inactive),
        "asp_inactive_ack" => of_number(call, reply, SuaMessage::asp_inactive_ack),
        "duna" => of_codes(call, reply, SuaMessage::duna),
        "dava" => of_codes(call, reply, SuaMessage::dava),
        "daud" => of_codes(call, reply, SuaMessage::daud),
        _ => reply.line.word("unknown"),
    }
}
