// A message in flat octets, for other languages and the program: its account, the list that it is written from, of SUA and of
// M3UA, and the line that the program prints.
#![tactic(auto)]

pub mod account;
mod addresses;
pub mod line;
pub mod list;
mod protocol_data;
mod writer;
