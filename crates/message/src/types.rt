// Message classes and message types (header.rs; RFC 3868, 3.1.2 and 3.1.3).
ghost use Rattle.std.specs.Prelude.{◌≡◌};
ghost use Rattle.bcd.specs.Outcome.{accepted};
ghost use Rattle.bcd.specs.Answers.{outcome_of};
ghost use Rattle.message.specs.Types.{from_octet, from_class_type, class_and_type, class_of};

use crate::kinds::MessageKind;
use bcd::error::Refusal;

// The classes of messages (RFC 3868, 3.1.2).
#[derive(Clone, Copy, Debug, PartialEq, Eq)]
pub enum MessageClass {
    Management = 0,
    Snm = 2,
    Aspsm = 3,
    Asptm = 4,
    ConnectionLess = 7,
    ConnectionOriented = 8,
    Rkm = 9,
}

// The types of messages, class by class (RFC 3868, 3.1.3).
#[derive(Clone, Copy, Debug, PartialEq, Eq)]
pub enum MessageType {
    Error,
    Notify,
    Duna,
    Dava,
    Daud,
    Scon,
    Dupu,
    Drst,
    AspUp,
    AspDown,
    Heartbeat,
    AspUpAck,
    AspDownAck,
    HeartbeatAck,
    AspActive,
    AspInactive,
    AspActiveAck,
    AspInactiveAck,
    Cldt,
    Cldr,
    Core,
    Coak,
    Coref,
    Relre,
    Relco,
    Resco,
    Resre,
    Codt,
    Coda,
    Coerr,
    Coit,
    RegReq,
    RegRsp,
    DeregReq,
    DeregRsp,
}

impl MessageClass {
    // The class of an octet. 3.
    #[tactic(auto, unfolding(crate::specs::Types::from_octet))]
    pub fn from_u8(value: u8) -> Result<MessageClass, Refusal>
        ensures { outcome_of result ≡ from_octet value }
    {
        match value {
            0 => Ok(Self::Management),
            2 => Ok(Self::Snm),
            3 => Ok(Self::Aspsm),
            4 => Ok(Self::Asptm),
            7 => Ok(Self::ConnectionLess),
            8 => Ok(Self::ConnectionOriented),
            9 => Ok(Self::Rkm),
            _ => Err(Refusal::InvalidMessageClass(value)),
        }
    }
}

impl TryFrom<u8> for MessageClass {
    type Error = Refusal;

    ghost try_from_gives = { λ value read. outcome_of read ≡ from_octet value };

    fn try_from(value: u8) -> Result<MessageClass, Refusal> {
        Self::from_u8(value)
    }
}

// The types of class 0, management.
#[tactic(auto, unfolding(crate::specs::Kinds::kind_of))]
fn management(msg_type: u8) -> Result<MessageType, Refusal>
    ensures { outcome_of result ≡ from_class_type 0 msg_type }
{
    match msg_type {
        0 => Ok(MessageType::Error),
        1 => Ok(MessageType::Notify),
        2..=255 => Err(Refusal::InvalidMessageType { class: 0, msg_type }),
    }
}

// The types of class 2, signalling network management.
#[tactic(auto, unfolding(crate::specs::Kinds::kind_of))]
fn snm(msg_type: u8) -> Result<MessageType, Refusal>
    ensures { outcome_of result ≡ from_class_type 2 msg_type }
{
    match msg_type {
        1 => Ok(MessageType::Duna),
        2 => Ok(MessageType::Dava),
        3 => Ok(MessageType::Daud),
        4 => Ok(MessageType::Scon),
        5 => Ok(MessageType::Dupu),
        6 => Ok(MessageType::Drst),
        0 | 7..=255 => Err(Refusal::InvalidMessageType { class: 2, msg_type }),
    }
}

// The types of class 3, ASP state maintenance.
#[tactic(auto, unfolding(crate::specs::Kinds::kind_of))]
fn aspsm(msg_type: u8) -> Result<MessageType, Refusal>
    ensures { outcome_of result ≡ from_class_type 3 msg_type }
{
    match msg_type {
        1 => Ok(MessageType::AspUp),
        2 => Ok(MessageType::AspDown),
        3 => Ok(MessageType::Heartbeat),
        4 => Ok(MessageType::AspUpAck),
        5 => Ok(MessageType::AspDownAck),
        6 => Ok(MessageType::HeartbeatAck),
        0 | 7..=255 => Err(Refusal::InvalidMessageType { class: 3, msg_type }),
    }
}

// The types of class 4, ASP traffic maintenance.
#[tactic(auto, unfolding(crate::specs::Kinds::kind_of))]
fn asptm(msg_type: u8) -> Result<MessageType, Refusal>
    ensures { outcome_of result ≡ from_class_type 4 msg_type }
{
    match msg_type {
        1 => Ok(MessageType::AspActive),
        2 => Ok(MessageType::AspInactive),
        3 => Ok(MessageType::AspActiveAck),
        4 => Ok(MessageType::AspInactiveAck),
        0 | 5..=255 => Err(Refusal::InvalidMessageType { class: 4, msg_type }),
    }
}

// The types of class 7, connectionless messages.
#[tactic(auto, unfolding(crate::specs::Kinds::kind_of))]
fn connection_less(msg_type: u8) -> Result<MessageType, Refusal>
    ensures { outcome_of result ≡ from_class_type 7 msg_type }
{
    match msg_type {
        1 => Ok(MessageType::Cldt),
        2 => Ok(MessageType::Cldr),
        0 | 3..=255 => Err(Refusal::InvalidMessageType { class: 7, msg_type }),
    }
}

// The types of class 8, connection-oriented messages.
#[tactic(auto, unfolding(crate::specs::Kinds::kind_of))]
fn connection_oriented(msg_type: u8) -> Result<MessageType, Refusal>
    ensures { outcome_of result ≡ from_class_type 8 msg_type }
{
    match msg_type {
        1 => Ok(MessageType::Core),
        2 => Ok(MessageType::Coak),
        3 => Ok(MessageType::Coref),
        4 => Ok(MessageType::Relre),
        5 => Ok(MessageType::Relco),
        6 => Ok(MessageType::Resco),
        7 => Ok(MessageType::Resre),
        8 => Ok(MessageType::Codt),
        9 => Ok(MessageType::Coda),
        10 => Ok(MessageType::Coerr),
        11 => Ok(MessageType::Coit),
        0 | 12..=255 => Err(Refusal::InvalidMessageType { class: 8, msg_type }),
    }
}

// The types of class 9, routing key management.
#[tactic(auto, unfolding(crate::specs::Kinds::kind_of))]
fn rkm(msg_type: u8) -> Result<MessageType, Refusal>
    ensures { outcome_of result ≡ from_class_type 9 msg_type }
{
    match msg_type {
        1 => Ok(MessageType::RegReq),
        2 => Ok(MessageType::RegRsp),
        3 => Ok(MessageType::DeregReq),
        4 => Ok(MessageType::DeregRsp),
        0 | 5..=255 => Err(Refusal::InvalidMessageType { class: 9, msg_type }),
    }
}

impl MessageType {
    // The type of a class and a type. 4.
    #[tactic(auto, unfolding(crate::specs::Kinds::kind_of))]
    pub fn from_class_type(class: u8, msg_type: u8) -> Result<MessageType, Refusal>
        ensures { outcome_of result ≡ from_class_type class msg_type }
    {
        match class {
            0 => management(msg_type),
            2 => snm(msg_type),
            3 => aspsm(msg_type),
            4 => asptm(msg_type),
            7 => connection_less(msg_type),
            8 => connection_oriented(msg_type),
            9 => rkm(msg_type),
            _ => Err(Refusal::InvalidMessageType { class, msg_type }),
        }
    }

    // The octets of the type.
    pub fn class_and_type(self) -> (u8, u8)
        ensures { result ≡ class_and_type self }
    {
        match self {
            Self::Error => (0, 0),
            Self::Notify => (0, 1),
            Self::Duna => (2, 1),
            Self::Dava => (2, 2),
            Self::Daud => (2, 3),
            Self::Scon => (2, 4),
            Self::Dupu => (2, 5),
            Self::Drst => (2, 6),
            Self::AspUp => (3, 1),
            Self::AspDown => (3, 2),
            Self::Heartbeat => (3, 3),
            Self::AspUpAck => (3, 4),
            Self::AspDownAck => (3, 5),
            Self::HeartbeatAck => (3, 6),
            Self::AspActive => (4, 1),
            Self::AspInactive => (4, 2),
            Self::AspActiveAck => (4, 3),
            Self::AspInactiveAck => (4, 4),
            Self::Cldt => (7, 1),
            Self::Cldr => (7, 2),
            Self::Core => (8, 1),
            Self::Coak => (8, 2),
            Self::Coref => (8, 3),
            Self::Relre => (8, 4),
            Self::Relco => (8, 5),
            Self::Resco => (8, 6),
            Self::Resre => (8, 7),
            Self::Codt => (8, 8),
            Self::Coda => (8, 9),
            Self::Coerr => (8, 10),
            Self::Coit => (8, 11),
            Self::RegReq => (9, 1),
            Self::RegRsp => (9, 2),
            Self::DeregReq => (9, 3),
            Self::DeregRsp => (9, 4),
        }
    }

    // The class of the type.
    #[tactic(auto, unfolding(crate::specs::Types::from_octet))]
    pub fn message_class(self) -> MessageClass
        ensures { accepted result ≡ from_octet (class_of self) }
    {
        match self {
            Self::Error | Self::Notify => MessageClass::Management,
            Self::Duna | Self::Dava | Self::Daud | Self::Scon | Self::Dupu | Self::Drst =>
                MessageClass::Snm,
            Self::AspUp
            | Self::AspDown
            | Self::Heartbeat
            | Self::AspUpAck
            | Self::AspDownAck
            | Self::HeartbeatAck => MessageClass::Aspsm,
            Self::AspActive | Self::AspInactive | Self::AspActiveAck | Self::AspInactiveAck =>
                MessageClass::Asptm,
            Self::Cldt | Self::Cldr => MessageClass::ConnectionLess,
            Self::Core
            | Self::Coak
            | Self::Coref
            | Self::Relre
            | Self::Relco
            | Self::Resco
            | Self::Resre
            | Self::Codt
            | Self::Coda
            | Self::Coerr
            | Self::Coit => MessageClass::ConnectionOriented,
            Self::RegReq | Self::RegRsp | Self::DeregReq | Self::DeregRsp => MessageClass::Rkm,
        }
    }
}

impl MessageKind for MessageType {
    ghost use Rattle.message.specs.Types.{sua_kinds};

    ghost kinds = { sua_kinds };

    fn of_pair(class: u8, msg_type: u8) -> Result<MessageType, Refusal> {
        Self::from_class_type(class, msg_type)
    }

    fn pair(self) -> (u8, u8) {
        self.class_and_type()
    }
}

impl TryFrom<(u8, u8)> for MessageType {
    type Error = Refusal;

    ghost try_from_gives = { λ pair read. outcome_of read ≡ from_class_type pair.0 pair.1 };

    fn try_from(pair: (u8, u8)) -> Result<MessageType, Refusal> {
        let (class, msg_type) = pair;
        Self::from_class_type(class, msg_type)
    }
}

impl From<MessageType> for (u8, u8) {
    ghost from_gives = { λ m pair. pair ≡ class_and_type m };

    fn from(message_type: MessageType) -> (u8, u8) {
        message_type.class_and_type()
    }
}
