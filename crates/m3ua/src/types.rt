// M3UA's message types (RFC 4666, 3.1.2 and 3.1.3).
ghost use Rattle.std.specs.Prelude.{◌≡◌};
ghost use Rattle.bcd.specs.Answers.{outcome_of};
ghost use Rattle.m3ua.specs.Types.{from_class_type, class_and_type};

use bcd::error::Refusal;
use message::kinds::MessageKind;

// The types of messages, class by class (RFC 4666, 3.1.3).
#[derive(Clone, Copy, Debug, PartialEq, Eq)]
pub enum MessageType {
    Error,
    Notify,
    Data,
    Duna,
    Dava,
    Daud,
    Scon,
    Dupu,
    Drst,
    AspUp,
    AspDown,
    Heartbeat,
    AspUpAck,
    AspDownAck,
    HeartbeatAck,
    AspActive,
    AspInactive,
    AspActiveAck,
    AspInactiveAck,
    RegReq,
    RegRsp,
    DeregReq,
    DeregRsp,
}

impl MessageType {
    // The type of a class and a type. 4.
    #[tactic(auto, unfolding(message::specs::Kinds::kind_of))]
    pub fn from_class_type(class: u8, msg_type: u8) -> Result<MessageType, Refusal>
        ensures { outcome_of result ≡ from_class_type class msg_type }
    {
        match (class, msg_type) {
            (0, 0) => Ok(Self::Error),
            (0, 1) => Ok(Self::Notify),
            (1, 1) => Ok(Self::Data),
            (2, 1) => Ok(Self::Duna),
            (2, 2) => Ok(Self::Dava),
            (2, 3) => Ok(Self::Daud),
            (2, 4) => Ok(Self::Scon),
            (2, 5) => Ok(Self::Dupu),
            (2, 6) => Ok(Self::Drst),
            (3, 1) => Ok(Self::AspUp),
            (3, 2) => Ok(Self::AspDown),
            (3, 3) => Ok(Self::Heartbeat),
            (3, 4) => Ok(Self::AspUpAck),
            (3, 5) => Ok(Self::AspDownAck),
            (3, 6) => Ok(Self::HeartbeatAck),
            (4, 1) => Ok(Self::AspActive),
            (4, 2) => Ok(Self::AspInactive),
            (4, 3) => Ok(Self::AspActiveAck),
            (4, 4) => Ok(Self::AspInactiveAck),
            (9, 1) => Ok(Self::RegReq),
            (9, 2) => Ok(Self::RegRsp),
            (9, 3) => Ok(Self::DeregReq),
            (9, 4) => Ok(Self::DeregRsp),
            _ => Err(Refusal::InvalidMessageType { class, msg_type }),
        }
    }

    // The octets of the type.
    pub fn class_and_type(self) -> (u8, u8)
        ensures { result ≡ class_and_type self }
    {
        match self {
            Self::Error => (0, 0),
            Self::Notify => (0, 1),
            Self::Data => (1, 1),
            Self::Duna => (2, 1),
            Self::Dava => (2, 2),
            Self::Daud => (2, 3),
            Self::Scon => (2, 4),
            Self::Dupu => (2, 5),
            Self::Drst => (2, 6),
            Self::AspUp => (3, 1),
            Self::AspDown => (3, 2),
            Self::Heartbeat => (3, 3),
            Self::AspUpAck => (3, 4),
            Self::AspDownAck => (3, 5),
            Self::HeartbeatAck => (3, 6),
            Self::AspActive => (4, 1),
            Self::AspInactive => (4, 2),
            Self::AspActiveAck => (4, 3),
            Self::AspInactiveAck => (4, 4),
            Self::RegReq => (9, 1),
            Self::RegRsp => (9, 2),
            Self::DeregReq => (9, 3),
            Self::DeregRsp => (9, 4),
        }
    }
}

impl MessageKind for MessageType {
    ghost use Rattle.m3ua.specs.Types.{m3ua_kinds};

    ghost kinds = { m3ua_kinds };

    fn of_pair(class: u8, msg_type: u8) -> Result<MessageType, Refusal> {
        Self::from_class_type(class, msg_type)
    }

    fn pair(self) -> (u8, u8) {
        self.class_and_type()
    }
}

impl TryFrom<(u8, u8)> for MessageType {
    type Error = Refusal;

    ghost try_from_gives = { λ pair read. outcome_of read ≡ from_class_type pair.0 pair.1 };

    fn try_from(pair: (u8, u8)) -> Result<MessageType, Refusal> {
        let (class, msg_type) = pair;
        Self::from_class_type(class, msg_type)
    }
}

impl From<MessageType> for (u8, u8) {
    ghost from_gives = { λ m pair. pair ≡ class_and_type m };

    fn from(message_type: MessageType) -> (u8, u8) {
        message_type.class_and_type()
    }
}
