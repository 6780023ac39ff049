// Parameter tags, with the names of the Rust.

// Common parameters (RFC 3868, 3.9).
pub const INFO_STRING: u16 = 0x0004;

pub const ROUTING_CONTEXT: u16 = 0x0006;

pub const DIAGNOSTIC_INFO: u16 = 0x0007;

pub const HEARTBEAT_DATA: u16 = 0x0009;

pub const TRAFFIC_MODE_TYPE: u16 = 0x000B;

pub const ERROR_CODE: u16 = 0x000C;

pub const STATUS: u16 = 0x000D;

pub const ASP_IDENTIFIER: u16 = 0x0011;

pub const AFFECTED_POINT_CODE: u16 = 0x0012;

pub const CORRELATION_ID: u16 = 0x0013;

pub const REGISTRATION_RESULT: u16 = 0x0014;

pub const DEREGISTRATION_RESULT: u16 = 0x0015;

pub const REGISTRATION_STATUS: u16 = 0x0016;

pub const DEREGISTRATION_STATUS: u16 = 0x0017;

pub const LOCAL_ROUTING_KEY_ID: u16 = 0x0018;

// SUA's own parameters (RFC 3868, 3.10).
pub const SS7_HOP_COUNTER: u16 = 0x0101;

pub const SOURCE_ADDRESS: u16 = 0x0102;

pub const DESTINATION_ADDRESS: u16 = 0x0103;

pub const SOURCE_REFERENCE_NUMBER: u16 = 0x0104;

pub const DESTINATION_REFERENCE_NUMBER: u16 = 0x0105;

pub const SCCP_CAUSE: u16 = 0x0106;

pub const SEQUENCE_NUMBER: u16 = 0x0107;

pub const RECEIVE_SEQUENCE_NUMBER: u16 = 0x0108;

pub const ASP_CAPABILITIES: u16 = 0x0109;

pub const CREDIT: u16 = 0x010A;

pub const DATA: u16 = 0x010B;

pub const USER_CAUSE: u16 = 0x010C;

pub const NETWORK_APPEARANCE: u16 = 0x010D;

pub const ROUTING_KEY: u16 = 0x010E;

pub const DRN_LABEL: u16 = 0x010F;

pub const TID_LABEL: u16 = 0x0110;

pub const ADDRESS_RANGE: u16 = 0x0111;

pub const SMI: u16 = 0x0112;

pub const IMPORTANCE: u16 = 0x0113;

pub const MESSAGE_PRIORITY: u16 = 0x0114;

pub const PROTOCOL_CLASS: u16 = 0x0115;

pub const SEQUENCE_CONTROL: u16 = 0x0116;

pub const SEGMENTATION: u16 = 0x0117;

pub const CONGESTION_LEVEL: u16 = 0x0118;

// Sub-parameters of an address (RFC 3868, 3.10.2).
pub const GLOBAL_TITLE: u16 = 0x8001;

pub const POINT_CODE: u16 = 0x8002;

pub const SUBSYSTEM_NUMBER: u16 = 0x8003;

pub const IPV4_ADDRESS: u16 = 0x8004;

pub const HOSTNAME: u16 = 0x8005;

pub const IPV6_ADDRESS: u16 = 0x8006;
