// Messages made from their parts (message.rs; RFC 3868, 3.2 to 3.7). Refused: the source's, the destination's, further 10 in
// order, 14; no message is long enough for 12.
ghost use Rattle.std.specs.Prelude.{◌≡◌, option_map, option_copied};
ghost use Rattle.bcd.specs.Outcome.{delivered, deliver};
ghost use Rattle.bcd.specs.Answers.{outcome_of};
ghost use Rattle.pieces.specs.declared.Part.TheVariants as P;
ghost use Rattle.message.specs.declared.types.MessageType.TheVariants as M;
ghost use Rattle.message.specs.Constructors.{asp_up, octets_only, info_only, traffic_and_rc, rc_only, heartbeat_like};
ghost use Rattle.message.specs.Constructors.{error_message, notify, snm, cldt, cldr};
ghost use Rattle.message.specs.Steps.Parts.{made};

use crate::SuaMessage;
use crate::header::{CommonHeader, put_header};
use crate::types::MessageType;
use address::SuaAddress;
use bcd::error::Refusal;
use parameter::table::Records;
use parameter::tags;
use pieces::{Part, addresses, run_length, write_run};

// The SS7 hop counter that a CLDT starts with (RFC 3868, 3.10.1).
pub const DEFAULT_HOP_COUNTER: u8 = 15;

// Writes a message of parts. The refusals of each in order, 12, 14.
fn write(
    message_type: MessageType,
    parts: &[Option<Part<'_>>],
    out: &mut [u8],
) -> Result<usize, Refusal>
    ensures { delivered (outcome_of result) out.new ≡ deliver (made message_type parts.now) out.old }
{
    let total = put_header(message_type, run_length(parts)?, out)?;
    write_run(parts, &mut out[CommonHeader::SIZE..])?;
    Ok(total)
}

// A number as a part, if there is one.
fn number<'a>(tag: u16, n: Option<u32>) -> Option<Part<'a>>
    ensures { result ≡ option_map (P.Number tag) n }
{
    n.map(|n| Part::Number(tag, n))
}

// An octet as a part, if there is one.
fn octet<'a>(tag: u16, n: Option<u8>) -> Option<Part<'a>>
    ensures { result ≡ option_map (P.Octet tag) n }
{
    n.map(|n| Part::Octet(tag, n))
}

// Octets as a part, if there are any.
fn octets<'a>(tag: u16, octets: Option<&'a [u8]>) -> Option<Part<'a>>
    ensures { result ≡ option_map (P.Octets tag) octets.entry }
{
    octets.map(|octets| Part::Octets(tag, octets))
}

// Writes a message with octets under a tag, if given.
fn octets_only(
    message_type: MessageType,
    tag: u16,
    given: Option<&[u8]>,
    out: &mut [u8],
) -> Result<usize, Refusal>
    ensures { delivered (outcome_of result) out.new
        ≡ deliver (octets_only message_type tag (option_copied given.entry)) out.old }
{
    write(message_type, &[octets(tag, given)], out)
}

// Writes a message with a traffic mode type and a routing context, each if given.
fn traffic_and_rc(
    message_type: MessageType,
    traffic_mode: Option<u32>,
    routing_context: Option<u32>,
    out: &mut [u8],
) -> Result<usize, Refusal>
    ensures { delivered (outcome_of result) out.new
        ≡ deliver (traffic_and_rc message_type traffic_mode routing_context) out.old }
{
    let traffic_mode = number(tags::TRAFFIC_MODE_TYPE, traffic_mode);
    let routing_context = number(tags::ROUTING_CONTEXT, routing_context);
    write(message_type, &[traffic_mode, routing_context], out)
}

// Writes a message with a routing context, if given, and point codes.
fn snm(
    message_type: MessageType,
    routing_context: Option<u32>,
    affected_pcs: &[u32],
    out: &mut [u8],
) -> Result<usize, Refusal>
    ensures { delivered (outcome_of result) out.new
        ≡ deliver (snm message_type routing_context affected_pcs.now) out.old }
{
    let routing_context = number(tags::ROUTING_CONTEXT, routing_context);
    let affected = Some(Part::Codes(affected_pcs));
    write(message_type, &[routing_context, affected], out)
}

impl SuaMessage {
    // CLDT: routing context, protocol class, both addresses, sequence control, SS7 hop counter, data. The source's refusals,
    // the destination's (15, 11, 9, 10 for each other, 10 for the whole), 10 for the data, 14.
    pub fn cldt<'a>(
        routing_context: u32,
        protocol_class: u8,
        source: &'a SuaAddress,
        source_others: Records<'a, 'a>,
        destination: &'a SuaAddress,
        destination_others: Records<'a, 'a>,
        sequence_control: u32,
        ss7_hop_count: Option<u8>,
        data: &'a [u8],
        out: &mut [u8],
    ) -> Result<usize, Refusal>
        ensures { delivered (outcome_of result) out.new
            ≡ deliver
            (cldt routing_context protocol_class
            source.now source_others.entry.values.now source_others.entry.rows.now
            destination.now destination_others.entry.values.now destination_others.entry.rows.now
            sequence_control ss7_hop_count «data».now)
            out.old }
    {
        let [source, destination] = addresses(
            source,
            source_others,
            destination,
            destination_others,
        );
        let parts = [
            Some(Part::Number(tags::ROUTING_CONTEXT, routing_context)),
            Some(Part::Octet(tags::PROTOCOL_CLASS, protocol_class)),
            Some(source),
            Some(destination),
            Some(Part::Number(tags::SEQUENCE_CONTROL, sequence_control)),
            octet(tags::SS7_HOP_COUNTER, ss7_hop_count),
            Some(Part::Octets(tags::DATA, data)),
        ];
        write(MessageType::Cldt, &parts, out)
    }

    // CLDR: routing context, SCCP cause, both addresses, data. The source's refusals, the destination's, 10 for the data, 14.
    pub fn cldr<'a>(
        routing_context: u32,
        cause_type: u8,
        cause_value: u8,
        source: &'a SuaAddress,
        source_others: Records<'a, 'a>,
        destination: &'a SuaAddress,
        destination_others: Records<'a, 'a>,
        data: Option<&'a [u8]>,
        out: &mut [u8],
    ) -> Result<usize, Refusal>
        ensures { delivered (outcome_of result) out.new
            ≡ deliver
            (cldr routing_context cause_type cause_value
            source.now source_others.entry.values.now source_others.entry.rows.now
            destination.now destination_others.entry.values.now destination_others.entry.rows.now
            (option_copied «data».entry))
            out.old }
    {
        let [source, destination] = addresses(
            source,
            source_others,
            destination,
            destination_others,
        );
        let cause = [0, 0, cause_type, cause_value];
        let parts = [
            Some(Part::Number(tags::ROUTING_CONTEXT, routing_context)),
            octets(tags::SCCP_CAUSE, Some(&cause)),
            Some(source),
            Some(destination),
            octets(tags::DATA, data),
        ];
        write(MessageType::Cldr, &parts, out)
    }

    // ASP Up: ASP identifier, info string. 10, 14.
    pub fn asp_up(
        asp_id: Option<u32>,
        info: Option<&[u8]>,
        out: &mut [u8],
    ) -> Result<usize, Refusal>
        ensures { delivered (outcome_of result) out.new
            ≡ deliver (asp_up asp_id (option_copied info.entry)) out.old }
    {
        let asp_id = number(tags::ASP_IDENTIFIER, asp_id);
        let info = octets(tags::INFO_STRING, info);
        write(MessageType::AspUp, &[asp_id, info], out)
    }

    // ASP Up Ack: info string. 10, 14.
    pub fn asp_up_ack(info: Option<&[u8]>, out: &mut [u8]) -> Result<usize, Refusal>
        ensures { delivered (outcome_of result) out.new
            ≡ deliver (info_only M.AspUpAck (option_copied info.entry)) out.old }
    {
        octets_only(MessageType::AspUpAck, tags::INFO_STRING, info, out)
    }

    // ASP Down: info string. 10, 14.
    pub fn asp_down(info: Option<&[u8]>, out: &mut [u8]) -> Result<usize, Refusal>
        ensures { delivered (outcome_of result) out.new
            ≡ deliver (info_only M.AspDown (option_copied info.entry)) out.old }
    {
        octets_only(MessageType::AspDown, tags::INFO_STRING, info, out)
    }

    // ASP Down Ack: info string. 10, 14.
    pub fn asp_down_ack(info: Option<&[u8]>, out: &mut [u8]) -> Result<usize, Refusal>
        ensures { delivered (outcome_of result) out.new
            ≡ deliver (info_only M.AspDownAck (option_copied info.entry)) out.old }
    {
        octets_only(MessageType::AspDownAck, tags::INFO_STRING, info, out)
    }

    // ASP Active: traffic mode type, routing context. 14.
    pub fn asp_active(
        traffic_mode: Option<u32>,
        routing_context: Option<u32>,
        out: &mut [u8],
    ) -> Result<usize, Refusal>
        ensures { delivered (outcome_of result) out.new
            ≡ deliver (traffic_and_rc M.AspActive traffic_mode routing_context) out.old }
    {
        traffic_and_rc(MessageType::AspActive, traffic_mode, routing_context, out)
    }

    // ASP Active Ack: traffic mode type, routing context. 14.
    pub fn asp_active_ack(
        traffic_mode: Option<u32>,
        routing_context: Option<u32>,
        out: &mut [u8],
    ) -> Result<usize, Refusal>
        ensures { delivered (outcome_of result) out.new
            ≡ deliver (traffic_and_rc M.AspActiveAck traffic_mode routing_context) out.old }
    {
        traffic_and_rc(
            MessageType::AspActiveAck,
            traffic_mode,
            routing_context,
            out,
        )
    }

    // ASP Inactive: routing context. 14.
    pub fn asp_inactive(routing_context: Option<u32>, out: &mut [u8]) -> Result<usize, Refusal>
        ensures { delivered (outcome_of result) out.new
            ≡ deliver (rc_only M.AspInactive routing_context) out.old }
    {
        traffic_and_rc(MessageType::AspInactive, None, routing_context, out)
    }

    // ASP Inactive Ack: routing context. 14.
    pub fn asp_inactive_ack(routing_context: Option<u32>, out: &mut [u8]) -> Result<usize, Refusal>
        ensures { delivered (outcome_of result) out.new
            ≡ deliver (rc_only M.AspInactiveAck routing_context) out.old }
    {
        traffic_and_rc(MessageType::AspInactiveAck, None, routing_context, out)
    }

    // Heartbeat: heartbeat data. 10, 14.
    pub fn heartbeat(data: Option<&[u8]>, out: &mut [u8]) -> Result<usize, Refusal>
        ensures { delivered (outcome_of result) out.new
            ≡ deliver (heartbeat_like M.Heartbeat (option_copied «data».entry)) out.old }
    {
        octets_only(MessageType::Heartbeat, tags::HEARTBEAT_DATA, data, out)
    }

    // Heartbeat Ack: heartbeat data. 10, 14.
    pub fn heartbeat_ack(data: Option<&[u8]>, out: &mut [u8]) -> Result<usize, Refusal>
        ensures { delivered (outcome_of result) out.new
            ≡ deliver (heartbeat_like M.HeartbeatAck (option_copied «data».entry)) out.old }
    {
        octets_only(MessageType::HeartbeatAck, tags::HEARTBEAT_DATA, data, out)
    }

    // Error: error code, routing context, diagnostic information. 10, 14.
    pub fn error(
        error_code: u32,
        routing_context: Option<u32>,
        diagnostic_info: Option<&[u8]>,
        out: &mut [u8],
    ) -> Result<usize, Refusal>
        ensures { delivered (outcome_of result) out.new
            ≡ deliver (error_message error_code routing_context (option_copied diagnostic_info.entry)) out.old }
    {
        let error_code = Some(Part::Number(tags::ERROR_CODE, error_code));
        let routing_context = number(tags::ROUTING_CONTEXT, routing_context);
        let diagnostic_info = octets(tags::DIAGNOSTIC_INFO, diagnostic_info);
        write(
            MessageType::Error,
            &[error_code, routing_context, diagnostic_info],
            out,
        )
    }

    // Notify: status, ASP identifier, routing context. 14.
    pub fn notify(
        status: u32,
        asp_id: Option<u32>,
        routing_context: Option<u32>,
        out: &mut [u8],
    ) -> Result<usize, Refusal>
        ensures { delivered (outcome_of result) out.new
            ≡ deliver (notify status asp_id routing_context) out.old }
    {
        let status = Some(Part::Number(tags::STATUS, status));
        let asp_id = number(tags::ASP_IDENTIFIER, asp_id);
        let routing_context = number(tags::ROUTING_CONTEXT, routing_context);
        write(MessageType::Notify, &[status, asp_id, routing_context], out)
    }

    // Destination Unavailable: routing context, affected point codes. 10, 14.
    pub fn duna(
        routing_context: Option<u32>,
        affected_pcs: &[u32],
        out: &mut [u8],
    ) -> Result<usize, Refusal>
        ensures { delivered (outcome_of result) out.new
            ≡ deliver (snm M.Duna routing_context affected_pcs.now) out.old }
    {
        snm(MessageType::Duna, routing_context, affected_pcs, out)
    }

    // Destination Available: routing context, affected point codes. 10, 14.
    pub fn dava(
        routing_context: Option<u32>,
        affected_pcs: &[u32],
        out: &mut [u8],
    ) -> Result<usize, Refusal>
        ensures { delivered (outcome_of result) out.new
            ≡ deliver (snm M.Dava routing_context affected_pcs.now) out.old }
    {
        snm(MessageType::Dava, routing_context, affected_pcs, out)
    }

    // Destination State Audit: routing context, affected point codes. 10, 14.
    pub fn daud(
        routing_context: Option<u32>,
        affected_pcs: &[u32],
        out: &mut [u8],
    ) -> Result<usize, Refusal>
        ensures { delivered (outcome_of result) out.new
            ≡ deliver (snm M.Daud routing_context affected_pcs.now) out.old }
    {
        snm(MessageType::Daud, routing_context, affected_pcs, out)
    }
}
