// Reading a key store's header, and checking the store.
#![tactic(auto)]

pub mod header;
pub mod store;
