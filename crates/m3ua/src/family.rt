// M3UA as a family of messages.
ghost use Rattle.parameter.specs.Parameter.{Param, encode_param};
ghost use Rattle.m3ua.specs.Form.{m3ua};
ghost use Rattle.m3ua.specs.Laws.{m3ua_lawful, m3ua_put_there};

use crate::is_protocol_data;
use crate::protocol_data::ProtocolData;
use crate::types::MessageType;
use bcd::error::Refusal;
use form::family::MessageFamily;
use form::item::Item;

#[derive(Clone, Copy)]
pub(crate) struct M3ua;

impl MessageFamily for M3ua {
    type Kind = MessageType;

    ghost part = { Param };

    ghost family = { λ s. m3ua };

    ghost puts = { λ s. encode_param };

    ghost lawful = { λ s. m3ua_lawful };

    ghost put_there = { λ s. m3ua_put_there };

    fn settled_length(&self, item: Item<'_>) -> Result<usize, Refusal> {
        if is_protocol_data(item.tag) {
            ProtocolData::decode(item.value)?;
        }
        parameter::wire_length(item.tag, item.value.len())
    }

    fn put(&self, item: Item<'_>, out: &mut [u8]) -> Result<usize, Refusal> {
        parameter::encode(item.tag, item.value, out)
    }
}
