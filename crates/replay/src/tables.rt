// The calls that are given a table, or lent one or codes, and write no octets.
use crate::answers::Answer;
use crate::buffers;
use crate::call::Call;
use crate::line::Line;
use crate::reply::Reply;
use address::SuaAddress;
use bcd::error::Refusal;
use message::{SuaMessage, unpack_affected_point_codes};
use parameter::Place;
use parameter::table::{Records, decode_parameters};

// The rows that a call is lent: as many as the shortest of three columns, of tags, starts and lengths, has places. Each number
// in them is 60000 before the call.
#[derive(Clone, Copy)]
struct Lent {
    rows: [Place; 64],
    tags: usize,
    starts: usize,
    lengths: usize,
}

impl Lent {
    // As the next three numbers say.
    fn new(call: &mut Call) -> Lent {
        let empty = Place {
            tag: 60000,
            start: 60000,
            length: 60000,
        };
        Lent {
            rows: [empty; 64],
            tags: call.number(),
            starts: call.number(),
            lengths: call.number(),
        }
    }

    fn rows(&mut self) -> &mut [Place] {
        let n = self.tags.min(self.starts).min(self.lengths).min(64);
        &mut self.rows[..n]
    }
}

// The three columns.
impl Answer for Lent {
    fn show(&self, line: &mut Line) {
        let rows = &self.rows;
        line.column("t", &rows[..self.tags.min(64)], |row| u64::from(row.tag));
        line.column("s", &rows[..self.starts.min(64)], |row| row.start as u64);
        line.column("l", &rows[..self.lengths.min(64)], |row| row.length as u64);
    }
}

// A call that reads octets into a table.
fn read<T: Answer + Drop, F: FnOnce(&[u8], &mut [Place]) -> T>(
    call: &mut Call,
    reply: &mut Reply,
    decode: F,
)
    requires { F.IsAlwaysCallable decode }
{
    let mut lent = Lent::new(call);
    reply.show(decode(call.string(), lent.rows()));
    reply.show(lent);
}

// A call on the records of a message.
fn accessed<T: Answer + Drop, F: FnOnce(SuaMessage, Records) -> T>(
    call: &mut Call,
    reply: &mut Reply,
    access: F,
)
    requires { F.IsAlwaysCallable access }
{
    let message = call.message();
    let table = call.table();
    reply.show(access(message, table.records()));
}

// A call that reads an address of a message, with a table lent for its others.
fn address<F: FnOnce(SuaMessage, Records, &mut [Place]) -> Result<SuaAddress, Refusal>>(
    call: &mut Call,
    reply: &mut Reply,
    access: F,
)
    requires { F.IsAlwaysCallable access }
{
    let message = call.message();
    let mut others = Lent::new(call);
    let table = call.table();
    reply.show(access(message, table.records(), others.rows()));
    reply.show(others);
}

fn find_parameter(call: &mut Call, reply: &mut Reply) {
    let count = call.number();
    let tag = call.number();
    let table = call.table();
    reply.show(table.records().find_parameter(count, tag));
}

// The place of the data, and the data, which live on when the table is gone.
fn data(call: &mut Call, reply: &mut Reply) {
    let message = call.message();
    let part = {
        let table = call.table();
        reply.show(message.data(table.records()));
        message.data_part(table.records())
    };
    reply.line.octets(part);
}

fn contexts_in(call: &mut Call, reply: &mut Reply) {
    let message = call.message();
    let table = call.table();
    reply.show(message.contexts_in(table.records(), call.codes()));
}

fn unpack(call: &mut Call, reply: &mut Reply) {
    let count = call.number();
    let value = call.string();
    let codes = call.lent_codes(count);
    reply.show(unpack_affected_point_codes(value, codes));
    reply.line.column("c", codes, |&code| u64::from(code));
}

fn affected_point_codes(call: &mut Call, reply: &mut Reply) {
    let message = call.message();
    let count = call.number();
    let table = call.table();
    let codes = call.lent_codes(count);
    reply.show(message.affected_point_codes(table.records(), codes));
    reply.line.column("c", codes, |&code| u64::from(code));
}

// All handling fields, each answer for itself.
fn screen(call: &mut Call, reply: &mut Reply) {
    let message = call.message();
    let mut sources = Lent::new(call);
    let mut destinations = Lent::new(call);
    let table = call.table();
    let screen = message.screen(table.records(), sources.rows(), destinations.rows());
    reply.show(screen.routing_context);
    reply.line.next_answer();
    reply.show(screen.protocol_class);
    reply.line.next_answer();
    reply.show(screen.sequence_control);
    reply.line.next_answer();
    reply.show(screen.ss7_hop_count);
    reply.line.next_answer();
    reply.show(screen.sccp_cause);
    reply.line.next_answer();
    reply.show(screen.source_address);
    reply.show(sources);
    reply.line.next_answer();
    reply.show(screen.destination_address);
    reply.show(destinations);
}

pub(crate) fn answer(call: &mut Call, reply: &mut Reply) {
    match call.name {
        "decode_parameters" => read(call, reply, decode_parameters),
        "message_decode" => read(call, reply, SuaMessage::decode),
        "address_decode" => read(call, reply, SuaAddress::decode),
        "parameters_length" => accessed(call, reply, |m, lent| lent.parameters_length(m.count)),
        "find_parameter" => find_parameter(call, reply),
        "routing_context" => accessed(call, reply, SuaMessage::routing_context),
        "sequence_control" => accessed(call, reply, SuaMessage::sequence_control),
        "protocol_class" => accessed(call, reply, SuaMessage::protocol_class),
        "ss7_hop_count" => accessed(call, reply, SuaMessage::ss7_hop_count),
        "sccp_cause" => accessed(call, reply, SuaMessage::sccp_cause),
        "source_address" => address(call, reply, SuaMessage::source_address),
        "destination_address" => { address(call, reply, SuaMessage::destination_address) }
        "data" => data(call, reply),
        "screen" => screen(call, reply),
        "contexts_in" => contexts_in(call, reply),
        "unpack_affected_point_codes" => unpack(call, reply),
        "affected_point_codes" => affected_point_codes(call, reply),
        _ => buffers::answer(call, reply),
    }
}
